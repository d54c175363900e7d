// The number of workers among the words of a server: at each place, and what can't stand there.
use command_line::{Command, Refused, client_names, read_command};
use std::alloc::{AllocError, Global};
use std::test::Fail;

/// A server with these words.
fn words_of(alloc: Global, texts: &[&str]) -> Result<Vec<String>, AllocError> {
    let mut words = Vec::new(alloc);
    words.push(String::from_str(alloc, "serve")?)?;
    for text in texts {
        words.push(String::from_str(alloc, text)?)?;
    }
    Ok(words)
}

/// What the words tell of a server.
#[derive(Clone, Copy, Debug, PartialEq, Eq)]
struct Told<'a> {
    start: Option<&'a str>,
    pairs: u32,
    ahead: Option<u32>,
    ends: usize,
}

/// What the words tell, where they ask for a server.
fn told_by(words: &[String]) -> Option<Told<'_>> {
    let Ok(command) = read_command(words) else {
        return None;
    };
    let ends = command.ends();
    match command {
        Command::Serve {
            start,
            pairs,
            ahead,
        } => Some(Told {
            start,
            pairs,
            ahead,
            ends,
        }),
        _ => None,
    }
}

/// Words behind `serve`, the start text, the number of pairs and that of workers.
type Row = (
    &'static [&'static str],
    Option<&'static str>,
    u32,
    Option<u32>,
);

/// Without the option; each digit; and before, between and behind the other words.
const SERVING: [Row; 17] = [
    (&[], None, 0, None),
    (&["--ahead", "1"], None, 0, Some(1)),
    (&["--ahead", "2"], None, 0, Some(2)),
    (&["--ahead", "3"], None, 0, Some(3)),
    (&["--ahead", "4"], None, 0, Some(4)),
    (&["--ahead", "5"], None, 0, Some(5)),
    (&["--ahead", "6"], None, 0, Some(6)),
    (&["--ahead", "7"], None, 0, Some(7)),
    (&["--ahead", "8"], None, 0, Some(8)),
    (&["--ahead", "2", "a=b", "c=d"], None, 2, Some(2)),
    (&["a=b", "--ahead", "2", "c=d"], None, 2, Some(2)),
    (&["a=b", "c=d", "--ahead", "2"], None, 2, Some(2)),
    (&["--ahead", "2", "--start", "F"], Some("F"), 0, Some(2)),
    (&["--start", "F", "--ahead", "2"], Some("F"), 0, Some(2)),
    (&["--start=F", "--ahead", "2"], Some("F"), 0, Some(2)),
    (
        &["--start=ahead", "a=b", "--ahead", "8"],
        Some("ahead"),
        1,
        Some(8),
    ),
    (&["ahead=--ahead"], None, 1, None),
];

#[test]
fn the_number_of_workers_is_read(rt: HostRuntime) -> Result<(), Fail> {
    for (texts, start, pairs, ahead) in SERVING {
        let words = words_of(rt.alloc(), texts)?;
        let wanted = Told {
            start,
            pairs,
            ahead,
            ends: pairs as usize + 1,
        };
        assert!(rt; told_by(words.as_slice()) == Some(wanted));
        let Ok(names) = client_names(rt.alloc(), words.as_slice()) else {
            return Err(Fail::new("no names"));
        };
        assert_eq!(rt; names.len(), pairs as usize);
    }
    Ok(())
}

/// Words behind `serve` that ask for no server, and the number of the first wrong word: the option and its number in one
/// word; what is no digit from 1 to 8; a number that is missing; a second option; a number without one.
const WRONG: [(&[&str], u32); 25] = [
    (&["--ahead=2"], 1),
    (&["a=b", "--ahead=2", "c=d"], 2),
    (&["--ahead", "0"], 2),
    (&["--ahead", "9"], 2),
    (&["--ahead", "02"], 2),
    (&["--ahead", "12"], 2),
    (&["--ahead", ""], 2),
    (&["--ahead", "+1"], 2),
    (&["--ahead", "-1"], 2),
    (&["--ahead", " 1"], 2),
    (&["--ahead", "x"], 2),
    (&["--ahead", "\u{662}"], 2),
    (&["--ahead", "a=b"], 2),
    (&["--ahead", "--ahead", "2"], 2),
    (&["--ahead", "--start", "F"], 2),
    (&["--start", "--ahead", "2"], 2),
    (&["--ahead"], 2),
    (&["a=b", "--ahead"], 3),
    (&["--start=F", "a=b", "--ahead"], 4),
    (&["--ahead", "2", "--ahead", "2"], 3),
    (&["--ahead", "2", "a=b", "--ahead"], 4),
    (&["a=b", "--ahead", "2", "--ahead=2"], 4),
    (&["2"], 1),
    (&["-ahead", "2"], 1),
    (&["--start=--ahead", "2"], 1),
];

#[test]
fn a_wrong_number_of_workers_is_told(rt: HostRuntime) -> Result<(), AllocError> {
    for (texts, wanted) in WRONG {
        let words = words_of(rt.alloc(), texts)?;
        let fault = match read_command(words.as_slice()) {
            Ok(_) => None,
            Err(fault) => Some(fault.word),
        };
        assert_eq!(rt; fault, Some(wanted));
        assert!(rt;
            matches!(client_names(rt.alloc(), words.as_slice()), Err(Refused::Fault(fault)) if fault.word == wanted)
        );
    }
    Ok(())
}

#[test]
fn workers_are_no_ends(rt: HostRuntime) -> Result<(), Fail> {
    let mut words = words_of(rt.alloc(), &["--ahead", "8"])?;
    for _ in 0..63 {
        words.push(String::from_str(rt.alloc(), "in=out")?)?;
    }
    let wanted = Told {
        start: None,
        pairs: 63,
        ahead: Some(8),
        ends: 64,
    };
    assert!(rt; told_by(words.as_slice()) == Some(wanted));
    words.push(String::from_str(rt.alloc(), "in=out")?)?;
    assert!(rt; matches!(read_command(words.as_slice()), Err(fault) if fault.word == 66));
    Ok(())
}
