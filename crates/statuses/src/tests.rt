// The lines of each code and cause.
use crate::{Status, reason_of};
use command_line::Command;
use std::alloc::{AllocError, Global};
use std::test::*;

const LIST: Command = Command::List;

const UPGRADE: Command = Command::Upgrade;

const COUNT: Command = Command::Count { start: "F" };

const SAMPLE: Command = Command::Sample { number: 1 };

const SERVE: Command = Command::Serve {
    start: None,
    pairs: 2,
    ahead: None,
};

const STARTED: Command = Command::Serve {
    start: Some("F"),
    pairs: 2,
    ahead: Some(8),
};

/// A command, the code, end, place and cause of its status, and the two lines; the second is empty where there is none.
type Row = (
    Command<'static>,
    (u8, u32, u64, u32),
    &'static str,
    &'static str,
);

/// Causes of code 3 in a sheet, which number its lines.
const SHEETS: [(u64, u32, &str); 18] = [
    (2, 1, "line 2 of the sheet: the bytes aren't UTF-8"),
    (
        1,
        2,
        "line 1 of the sheet: the first line isn't `insynth sheet 1` or `insynth sheet 2`",
    ),
    (3, 3, "line 3 of the sheet: the line is none of a sheet's"),
    (
        4,
        4,
        "line 4 of the sheet: a number isn't one to nine digits",
    ),
    (5, 5, "line 5 of the sheet: a type isn't declared before"),
    (6, 6, "line 6 of the sheet: the type is declared twice"),
    (7, 7, "line 7 of the sheet: this stands there twice"),
    (8, 8, "line 8 of the sheet: there is no goal"),
    (0, 9, "the sheet: there are more than 16,777,216 bytes"),
    (
        2,
        11,
        "line 2 of the sheet: there is no type of this number",
    ),
    (2, 12, "line 2 of the sheet: a type is no subtype of itself"),
    (
        2,
        13,
        "line 2 of the sheet: the pair of types stands there twice",
    ),
    (2, 14, "line 2 of the sheet: the weight isn't 5 to 10,000"),
    (2, 15, "line 2 of the sheet: the limit isn't 1 to 10,000"),
    (
        2,
        16,
        "line 2 of the sheet: the pairs of types aren't transitive",
    ),
    (2, 17, "line 2 of the sheet: the depth is too great"),
    (
        2,
        18,
        "line 2 of the sheet: the arguments don't suit the form",
    ),
    (
        10,
        19,
        "line 10 of the sheet: a weight of variables, binders or coercions is out of its range",
    ),
];

/// Causes of code 8, with the lines of start texts.
const STARTS: [(u64, u32, &str); 9] = [
    (0, 9, "the start text: there is no such file"),
    (3, 9, "line 3 of the start text: there is no such file"),
    (
        3,
        10,
        "line 3 of the start text: the file has more than 16,777,216 bytes",
    ),
    (3, 11, "line 3 of the start text: the file is no class file"),
    (0, 14, "the start text: a class would be above itself"),
    (0, 15, "the start text: the classes have too many parts"),
    (0, 18, "the start text: a class would stand within itself"),
    (
        0,
        19,
        "the start text: it isn't UTF-8 of at most 16,777,216 bytes",
    ),
    (
        3,
        20,
        "line 3 of the start text: the code of the class is broken",
    ),
];

/// What else is said.
const OTHERS: [Row; 26] = [
    (SERVE, (0, 0, 0, 0), "status 0 end 0 place 0 cause 0", ""),
    (SERVE, (1, 2, 0, 0), "status 1 end 2 place 0 cause 0", ""),
    (LIST, (2, 0, 1, 1), "status 2 end 0 place 1 cause 1", ""),
    (LIST, (2, 0, 2, 2), "status 2 end 0 place 2 cause 2", ""),
    (
        SERVE,
        (3, 0, 1024, 1),
        "status 3 end 0 place 1024 cause 1",
        "byte 1024 of the messages: a header line is broken",
    ),
    (
        SERVE,
        (3, 2, 7, 2),
        "status 3 end 2 place 7 cause 2",
        "byte 7 of the messages of end 2: a header has no Content-Length",
    ),
    (
        SERVE,
        (3, 0, 16_777_217, 3),
        "status 3 end 0 place 16777217 cause 3",
        "the messages: one of 16777217 bytes is longer than 16,777,216",
    ),
    (
        SERVE,
        (3, 1, 18_446_744_073_709_551_615, 4),
        "status 3 end 1 place 18446744073709551615 cause 4",
        "byte 18446744073709551615 of the messages of end 1: the input ends within a message",
    ),
    (
        LIST,
        (4, 0, 0, 0),
        "status 4 end 0 place 0 cause 0",
        "the sheet can't be read",
    ),
    (
        UPGRADE,
        (4, 0, 0, 0),
        "status 4 end 0 place 0 cause 0",
        "the sheet can't be read",
    ),
    (
        COUNT,
        (4, 0, 0, 0),
        "status 4 end 0 place 0 cause 0",
        "the start text or one of its files can't be read",
    ),
    (
        SERVE,
        (4, 0, 0, 0),
        "status 4 end 0 place 0 cause 0",
        "the messages can't be read",
    ),
    (
        STARTED,
        (4, 0, 0, 0),
        "status 4 end 0 place 0 cause 0",
        "the messages, the start text or one of its files can't be read",
    ),
    (
        STARTED,
        (4, 1, 0, 0),
        "status 4 end 1 place 0 cause 0",
        "the messages of end 1 can't be read",
    ),
    (
        LIST,
        (5, 0, 0, 0),
        "status 5 end 0 place 0 cause 0",
        "the list can't be written",
    ),
    (
        UPGRADE,
        (5, 0, 0, 0),
        "status 5 end 0 place 0 cause 0",
        "the upgraded sheet can't be written",
    ),
    (
        COUNT,
        (5, 0, 0, 0),
        "status 5 end 0 place 0 cause 0",
        "the counts can't be written",
    ),
    (
        SAMPLE,
        (5, 0, 0, 0),
        "status 5 end 0 place 0 cause 0",
        "the lines of the sample can't be written",
    ),
    (
        SERVE,
        (5, 0, 0, 0),
        "status 5 end 0 place 0 cause 0",
        "the replies can't be written",
    ),
    (
        SERVE,
        (5, 4_294_967_295, 0, 0),
        "status 5 end 4294967295 place 0 cause 0",
        "the replies of end 4294967295 can't be written",
    ),
    (
        UPGRADE,
        (6, 0, 0, 0),
        "status 6 end 0 place 0 cause 0",
        "more memory is needed than there is or is allowed",
    ),
    (
        SAMPLE,
        (6, 0, 0, 0),
        "status 6 end 0 place 0 cause 0",
        "more memory is needed than there is or is allowed",
    ),
    (
        SERVE,
        (6, 1, 0, 0),
        "status 6 end 1 place 0 cause 0",
        "more memory is needed than there is or is allowed",
    ),
    (
        SERVE,
        (7, 0, 0, 0),
        "status 7 end 0 place 0 cause 0",
        "the messages need more than 1,099,511,627,776 bytes",
    ),
    (
        SERVE,
        (7, 1, 0, 0),
        "status 7 end 1 place 0 cause 0",
        "the messages of end 1 need more than 1,099,511,627,776 bytes",
    ),
    (
        STARTED,
        (8, 0, 0, 19),
        "status 8 end 0 place 0 cause 19",
        "the start text: it isn't UTF-8 of at most 16,777,216 bytes",
    ),
];

/// What is said of a status in words; empty where nothing is.
fn in_words(alloc: Global, command: &Command, status: &Status) -> Result<String, AllocError> {
    match reason_of(command, status) {
        Some(words) => words.to_string(alloc),
        None => Ok(String::new(alloc)),
    }
}

/// Whether a status is told by these lines.
fn is_told(
    alloc: Global,
    command: &Command,
    status: &Status,
    line: &str,
    words: &str,
) -> Result<bool, AllocError> {
    let first = status.to_string(alloc)?;
    let second = in_words(alloc, command, status)?;
    Ok(first.as_str() == line && second.as_str() == words)
}

#[test]
fn a_status_has_its_two_lines(rt: HostRuntime) -> Result<(), Fail> {
    for (command, (code, end, place, cause), line, words) in OTHERS {
        let status = Status {
            code,
            end,
            place,
            cause,
        };
        assert!(rt;
            is_told(rt.alloc(), &command, &status, line, words)?,
            "{status}"
        );
    }
    Ok(())
}

#[test]
fn a_wrong_sheet_is_told_by_its_cause(rt: HostRuntime) -> Result<(), Fail> {
    let alloc = rt.alloc();
    for (place, cause, words) in SHEETS {
        let status = Status {
            code: 3,
            end: 0,
            place,
            cause,
        };
        let line = format!(in alloc; "status 3 end 0 place {place} cause {cause}")?;
        for command in [LIST, UPGRADE] {
            assert!(rt;
                is_told(alloc, &command, &status, line.as_str(), words)?,
                "{status}"
            );
        }
    }
    Ok(())
}

#[test]
fn a_wrong_start_text_is_told_by_its_cause(rt: HostRuntime) -> Result<(), Fail> {
    let alloc = rt.alloc();
    for (place, cause, words) in STARTS {
        let status = Status {
            code: 8,
            end: 0,
            place,
            cause,
        };
        let line = format!(in alloc; "status 8 end 0 place {place} cause {cause}")?;
        for command in [STARTED, COUNT] {
            assert!(rt;
                is_told(alloc, &command, &status, line.as_str(), words)?,
                "{status}"
            );
        }
    }
    Ok(())
}
