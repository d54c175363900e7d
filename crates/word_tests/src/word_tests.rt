use command_line::{Command, Refused, client_names, read_command};
use std::alloc::{AllocError, Global};
use std::test::Fail;

/// Words of a server, their start text, if they have one, and their pairs, each joined by a space.
const SERVING: [(&[&str], Option<&str>, &[&str]); 9] = [
    (&["serve"], None, &[]),
    (
        &["serve", "--start", "classes.txt"],
        Some("classes.txt"),
        &[],
    ),
    (&["serve", "--start=a=b"], Some("a=b"), &[]),
    (&["serve", "--start= "], Some(" "), &[]),
    (&["serve", "a=b=c"], None, &["a b=c"]),
    (&["serve", "--start=F", "a=b"], Some("F"), &["a b"]),
    (
        &["serve", "a=b", "--start", "F", "c=d"],
        Some("F"),
        &["a b", "c d"],
    ),
    (&["serve", "a=b", "a=b"], None, &["a b", "a b"]),
    (&["serve", "--start", "a=b", "c=-"], Some("a=b"), &["c -"]),
];

/// Words that are no command, and the number of the first that can't stand there.
const WRONG: [(&[&str], u32); 57] = [
    (&[], 0),
    (&[""], 0),
    (&["lis"], 0),
    (&["Serve"], 0),
    (&["a=b"], 0),
    (&["list", "list"], 1),
    (&["list", "a=b"], 1),
    (&["upgrad"], 0),
    (&["upgrades"], 0),
    (&["Upgrade"], 0),
    (&["upgrade", "upgrade"], 1),
    (&["upgrade", ""], 1),
    (&["upgrade", "a=b"], 1),
    (&["serve", "x"], 1),
    (&["serve", "--"], 1),
    (&["serve", "=b"], 1),
    (&["serve", "a="], 1),
    (&["serve", ""], 1),
    (&["serve", "-a=b"], 1),
    (&["serve", "--help"], 1),
    (&["serve", "--start="], 1),
    (&["serve", "--start=-x"], 1),
    (&["serve", "--start"], 2),
    (&["serve", "--start", ""], 2),
    (&["serve", "--start", "-x"], 2),
    (&["serve", "a=b", "x"], 2),
    (&["serve", "--start", "F", "--start"], 3),
    (&["serve", "--start=F", "a=b", "--start=G"], 3),
    (&["serve", "a=b", "--start"], 3),
    (&["serve", "--ahead=2"], 1),
    (&["serve", "="], 1),
    (&["coun"], 0),
    (&["count"], 1),
    (&["count", "x"], 1),
    (&["count", "a=b"], 1),
    (&["count", "--start="], 1),
    (&["count", "--start=-x"], 1),
    (&["count", "--start"], 2),
    (&["count", "--start", ""], 2),
    (&["count", "--start", "-x"], 2),
    (&["count", "--start=F", "--start=F"], 2),
    (&["count", "--start", "F", "G"], 3),
    (&["Sample", "1"], 0),
    (&["sample"], 1),
    (&["sample", ""], 1),
    (&["sample", "12345678"], 1),
    (&["sample", "00000001"], 1),
    (&["sample", "1000001"], 1),
    (&["sample", "9999999"], 1),
    (&["sample", "+1"], 1),
    (&["sample", "-1"], 1),
    (&["sample", " 1"], 1),
    (&["sample", "1 "], 1),
    (&["sample", "1x"], 1),
    (&["sample", "١"], 1),
    (&["sample", "x", "2"], 1),
    (&["sample", "1", "2"], 2),
];

fn words_of(alloc: Global, texts: &[&str]) -> Result<Vec<String>, AllocError> {
    let mut words = Vec::new(alloc);
    for text in texts {
        words.push(String::from_str(alloc, text)?)?;
    }
    Ok(words)
}

/// The start text of the words, where they ask for a server with one.
fn start_of(words: &[String]) -> Option<&str> {
    match read_command(words) {
        Ok(
            Command::Serve {
                start,
                pairs: _,
                ahead: _,
            },
        ) => start,
        _ => None,
    }
}

#[test]
fn words_of_serve_are_read(rt: HostRuntime) -> Result<(), Fail> {
    let alloc = rt.alloc();
    for (texts, start, pairs) in &SERVING {
        let words = words_of(alloc, texts)?;
        assert_eq!(rt; start_of(words.as_slice()), *start);
        let Ok(names) = client_names(alloc, words.as_slice()) else {
            return Err(Fail::new("no names"));
        };
        assert_eq!(rt; names.len(), pairs.len());
        for (i, (input, output)) in names.iter().enumerate() {
            let joined = format!(in alloc; "{input} {output}")?;
            assert_eq!(rt; joined.as_str(), pairs[i]);
        }
    }
    let words = words_of(alloc, &["list"])?;
    assert!(rt; matches!(read_command(words.as_slice()), Ok(Command::List)));
    assert!(rt; matches!(client_names(alloc, words.as_slice()), Ok(names) if names.is_empty()));
    Ok(())
}

#[test]
fn the_word_upgrade_is_read(rt: HostRuntime) -> Result<(), AllocError> {
    let alloc = rt.alloc();
    let words = words_of(alloc, &["upgrade"])?;
    match read_command(words.as_slice()) {
        Ok(command) => {
            assert!(rt; matches!(command, Command::Upgrade));
            assert_eq!(rt; command.ends(), 1);
        }
        Err(_) => assert!(rt; false),
    }
    assert!(rt; matches!(client_names(alloc, words.as_slice()), Ok(names) if names.is_empty()));
    Ok(())
}

#[test]
fn the_first_wrong_word_is_told(rt: HostRuntime) -> Result<(), AllocError> {
    for (texts, wanted) in &WRONG {
        let words = words_of(rt.alloc(), texts)?;
        match read_command(words.as_slice()) {
            Ok(_) => assert!(rt; false),
            Err(fault) => assert_eq!(rt; fault.word, *wanted),
        }
        match client_names(rt.alloc(), words.as_slice()) {
            Err(Refused::Fault(fault)) => assert_eq!(rt; fault.word, *wanted),
            _ => assert!(rt; false),
        }
    }
    Ok(())
}

/// Words that name a start text whose uses are counted.
const COUNTING: [&[&str]; 2] = [&["count", "--start", "a=b"], &["count", "--start=a=b"]];

#[test]
fn words_of_count_are_read(rt: HostRuntime) -> Result<(), AllocError> {
    for texts in COUNTING {
        let words = words_of(rt.alloc(), texts)?;
        assert!(rt;
            matches!(
                read_command(words.as_slice()),
                Ok(Command::Count { start: "a=b" })
            )
        );
        assert!(rt;
            matches!(client_names(rt.alloc(), words.as_slice()), Ok(names) if names.is_empty())
        );
    }
    Ok(())
}

/// Words that write the number of a sample.
const SAMPLES: [(&str, u32); 6] = [
    ("0", 0),
    ("0000000", 0),
    ("1", 1),
    ("0000001", 1),
    ("0999999", 999_999),
    ("1000000", 1_000_000),
];

#[test]
fn words_of_sample_are_read(rt: HostRuntime) -> Result<(), AllocError> {
    for (text, wanted) in SAMPLES {
        let words = words_of(rt.alloc(), &["sample", text])?;
        match read_command(words.as_slice()) {
            Ok(Command::Sample { number }) => assert_eq!(rt; number, wanted),
            _ => assert!(rt; false),
        }
        assert!(rt;
            matches!(client_names(rt.alloc(), words.as_slice()), Ok(names) if names.is_empty())
        );
    }
    Ok(())
}

/// A server with so many pairs.
fn many_pairs(alloc: Global, count: usize) -> Result<Vec<String>, AllocError> {
    let mut words = Vec::new(alloc);
    words.push(String::from_str(alloc, "serve")?)?;
    for _ in 0..count {
        words.push(String::from_str(alloc, "in=out")?)?;
    }
    Ok(words)
}

#[test]
fn a_server_has_at_most_63_pairs(rt: HostRuntime) -> Result<(), Fail> {
    let words = many_pairs(rt.alloc(), 63)?;
    assert!(rt;
        matches!(
            read_command(words.as_slice()),
            Ok(Command::Serve {
                start: None,
                pairs: 63,
                ahead: None,
            })
        )
    );
    let words = many_pairs(rt.alloc(), 64)?;
    assert!(rt; matches!(read_command(words.as_slice()), Err(fault) if fault.word == 64));
    Ok(())
}
