// Pairs of files among the words of a server, and its start text before, between and after them.
use command_line::{Command, Refused, client_names, read_command};
use std::alloc::{AllocError, Global};
use std::test::Fail;

/// A server with these words, then so many pairs, then further words.
fn words_round(
    alloc: Global,
    before: &[&str],
    count: usize,
    after: &[&str],
) -> Result<Vec<String>, AllocError> {
    let mut words = Vec::new(alloc);
    words.push(String::from_str(alloc, "serve")?)?;
    for word in before {
        words.push(String::from_str(alloc, word)?)?;
    }
    for _ in 0..count {
        words.push(String::from_str(alloc, "in=out")?)?;
    }
    for word in after {
        words.push(String::from_str(alloc, word)?)?;
    }
    Ok(words)
}

/// The start text of the words and the number of their pairs, where they ask for a server.
fn asked(words: &[String]) -> Option<(Option<&str>, usize)> {
    match read_command(words) {
        Ok(
            Command::Serve {
                start,
                pairs,
                ahead: None,
            },
        ) => Some((start, pairs as usize)),
        _ => None,
    }
}

/// The number of the first wrong word, where both calls tell the same.
fn first_wrong(alloc: Global, words: &[String]) -> Option<u32> {
    let Err(fault) = read_command(words) else {
        return None;
    };
    match client_names(alloc, words) {
        Err(Refused::Fault(same)) if fault == same => Some(fault.word),
        _ => None,
    }
}

/// Words before and after 63 pairs that ask for a server with a start text of this name, or with none.
const FULL: [(&[&str], &[&str], Option<&str>); 5] = [
    (&[], &[], None),
    (&["--start", "F"], &[], Some("F")),
    (&["--start=F"], &[], Some("F")),
    (&[], &["--start", "F"], Some("F")),
    (&[], &["--start=in=out"], Some("in=out")),
];

#[test]
fn a_server_of_63_pairs_may_start_with_classes(rt: HostRuntime) -> Result<(), Fail> {
    for (before, after, start) in FULL {
        let words = words_round(rt.alloc(), before, 63, after)?;
        assert!(rt; asked(words.as_slice()) == Some((start, 63)));
        assert!(rt;
            matches!(client_names(rt.alloc(), words.as_slice()), Ok(names) if names.len() == 63)
        );
    }
    Ok(())
}

/// Words before, so many pairs, and words after that ask for no server, and the number of the first wrong word.
const TOO_MANY: [(&[&str], usize, &[&str], u32); 8] = [
    (&[], 64, &[], 64),
    (&[], 65, &[], 64),
    (&["--start", "F"], 64, &[], 66),
    (&["--start=F"], 64, &[], 65),
    (&[], 64, &["--start=F"], 64),
    (&[], 63, &["--start=F", "in=out"], 65),
    (&[], 63, &["--start"], 65),
    (&[], 63, &["="], 64),
];

#[test]
fn the_64th_pair_is_wrong(rt: HostRuntime) -> Result<(), AllocError> {
    for (before, count, after, wanted) in TOO_MANY {
        let words = words_round(rt.alloc(), before, count, after)?;
        assert_eq!(rt; first_wrong(rt.alloc(), words.as_slice()), Some(wanted));
    }
    Ok(())
}

/// Words of a server, its start text, and its pairs, each joined by a blank.
const PLACES: [(&[&str], Option<&str>, &[&str]); 8] = [
    (&["--start", "F", "a=b", "c=d"], Some("F"), &["a b", "c d"]),
    (&["a=b", "--start=F", "c=d"], Some("F"), &["a b", "c d"]),
    (&["a=b", "c=d", "--start", "F"], Some("F"), &["a b", "c d"]),
    (&["a=b", "c=d", "--start=F"], Some("F"), &["a b", "c d"]),
    (&["a==", "a==b"], None, &["a =", "a =b"]),
    (&["a= ", " =b"], None, &["a  ", "  b"]),
    (&["start=--start", "a=--"], None, &["start --start", "a --"]),
    (&["\u{E9}=\u{1F600}"], None, &["\u{E9} \u{1F600}"]),
];

#[test]
fn a_start_text_stands_at_any_place(rt: HostRuntime) -> Result<(), Fail> {
    for (texts, start, pairs) in PLACES {
        let words = words_round(rt.alloc(), texts, 0, &[])?;
        assert!(rt; asked(words.as_slice()) == Some((start, pairs.len())));
        let Ok(names) = client_names(rt.alloc(), words.as_slice()) else {
            return Err(Fail::new("no names"));
        };
        assert_eq!(rt; names.len(), pairs.len());
        for (i, (input, output)) in names.iter().enumerate() {
            let joined = format!(in rt.alloc(); "{input} {output}")?;
            assert_eq!(rt; joined.as_str(), pairs[i]);
        }
    }
    Ok(())
}

/// Words behind `serve` that ask for no server, and the number of the first wrong word.
const WRONG: [(&[&str], u32); 15] = [
    (&["=="], 1),
    (&["a=b", "="], 2),
    (&["a=b", "c="], 2),
    (&["a=b", "=d"], 2),
    (&["a=b", "-c=d"], 2),
    (&["--start", "F", "--start", "F"], 3),
    (&["--start", "F", "--start=F"], 3),
    (&["--start=F", "--start", "F"], 2),
    (&["--start=F", "a=b", "c=d", "--start=F"], 4),
    (&["a=b", "--start="], 2),
    (&["a=b", "--start", "", "c=d"], 3),
    (&["a=b", "--start", "--start", "c=d"], 3),
    (&["a=b", "--start=-", "c=d"], 2),
    (&["a=b", "--starts=F"], 2),
    (&["a=b", "-start", "F"], 2),
];

#[test]
fn a_wrong_word_behind_pairs_is_told(rt: HostRuntime) -> Result<(), AllocError> {
    for (texts, wanted) in WRONG {
        let words = words_round(rt.alloc(), texts, 0, &[])?;
        assert_eq!(rt; first_wrong(rt.alloc(), words.as_slice()), Some(wanted));
    }
    Ok(())
}
