// What is said of the first wrong word.
use command_line::{UsageFault, read_command};
use std::alloc::{AllocError, Global};

/// Words that are no command, and what is said of the first that can't stand there or is missing: a command that is none, a word
/// too many, options and pairs that are none, a name that is missing, empty or an option, and numbers of samples that have a sign,
/// a blank or eight digits, or are too great.
const MESSAGES: [(&[&str], &str); 22] = [
    (&[], "word 0 can't stand there"),
    (&[""], "word 0 can't stand there"),
    (&["help"], "word 0 can't stand there"),
    (&["list", "sheet"], "word 1 can't stand there"),
    (&["serve", "in"], "word 1 can't stand there"),
    (&["serve", "="], "word 1 can't stand there"),
    (&["serve", "--help"], "word 1 can't stand there"),
    (&["serve", "--start="], "word 1 can't stand there"),
    (&["serve", "--start"], "word 2 can't stand there"),
    (&["serve", "--start", ""], "word 2 can't stand there"),
    (&["serve", "--start", "-F"], "word 2 can't stand there"),
    (
        &["serve", "--start", "F", "--start", "F"],
        "word 3 can't stand there",
    ),
    (&["serve", "a=b", "c=d", "e"], "word 3 can't stand there"),
    (&["count"], "word 1 can't stand there"),
    (&["count", "--start"], "word 2 can't stand there"),
    (&["count", "--start=F", "a=b"], "word 2 can't stand there"),
    (&["sample"], "word 1 can't stand there"),
    (&["sample", "+1"], "word 1 can't stand there"),
    (&["sample", "1 2"], "word 1 can't stand there"),
    (&["sample", "00000001"], "word 1 can't stand there"),
    (&["sample", "1000001"], "word 1 can't stand there"),
    (&["sample", "1", "2"], "word 2 can't stand there"),
];

/// What is said of the first wrong word; nothing where the words are a command.
fn message_of(alloc: Global, texts: &[&str]) -> Result<String, AllocError> {
    let mut words = Vec::new(alloc);
    for text in texts {
        words.push(String::from_str(alloc, text)?)?;
    }
    match read_command(words.as_slice()) {
        Ok(_) => Ok(String::new(alloc)),
        Err(fault) => fault.to_string(alloc),
    }
}

#[test]
fn a_wrong_word_is_told_by_its_number(rt: HostRuntime) -> Result<(), AllocError> {
    for (texts, wanted) in MESSAGES {
        let message = message_of(rt.alloc(), texts)?;
        assert_eq!(rt; message.as_str(), wanted);
    }
    Ok(())
}

#[test]
fn each_number_of_a_word_is_told(rt: HostRuntime) -> Result<(), AllocError> {
    let numbers = [
        (9, "word 9 can't stand there"),
        (10, "word 10 can't stand there"),
        (127, "word 127 can't stand there"),
        (u32::MAX, "word 4294967295 can't stand there"),
    ];
    for (word, wanted) in numbers {
        let message = (UsageFault { word }).to_string(rt.alloc())?;
        assert_eq!(rt; message.as_str(), wanted);
    }
    Ok(())
}
