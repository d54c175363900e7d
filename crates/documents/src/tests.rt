use crate::{Document, EditFault, TextChange};
use lists::Text;
use std::alloc::{AllocError, Global};
use std::process::Abort;

type Place = (u32, u32);

/// A change of a document's text, and what it gives.
struct Edit {
    before: &'static str,
    range: Option<(Place, Place)>,
    new: &'static str,
    after: Result<&'static str, EditFault>,
}

/// Every kind of line's end, characters of one and of two units, ranges that end before they start and
/// lines that aren't there, and a change that joins a CR with an LF.
const EDITS: [Edit; 16] = [
    Edit {
        before: "",
        range: Some(((0, 0), (0, 0))),
        new: "x",
        after: Ok("x"),
    },
    Edit {
        before: "abc",
        range: None,
        new: "d",
        after: Ok("d"),
    },
    Edit {
        before: "abc",
        range: Some(((0, 1), (0, 2))),
        new: "",
        after: Ok("ac"),
    },
    Edit {
        before: "abc",
        range: Some(((0, 1), (0, 100))),
        new: "",
        after: Ok("a"),
    },
    Edit {
        before: "a\nb",
        range: Some(((0, 9), (1, 0))),
        new: "",
        after: Ok("ab"),
    },
    Edit {
        before: "a\r\nb",
        range: Some(((0, 9), (1, 0))),
        new: "-",
        after: Ok("a-b"),
    },
    Edit {
        before: "a\rb",
        range: Some(((1, 0), (1, 1))),
        new: "c",
        after: Ok("a\rc"),
    },
    Edit {
        before: "a\rb",
        range: Some(((1, 0), (1, 0))),
        new: "\n",
        after: Ok("a\r\nb"),
    },
    Edit {
        before: "\u{1F600}b",
        range: Some(((0, 2), (0, 3))),
        new: "c",
        after: Ok("\u{1F600}c"),
    },
    Edit {
        before: "\u{1F600}b",
        range: Some(((0, 1), (0, 2))),
        new: "",
        after: Ok("b"),
    },
    Edit {
        before: "\u{1F600}b",
        range: Some(((0, 1), (0, 1))),
        new: "c",
        after: Ok("c\u{1F600}b"),
    },
    Edit {
        before: "\u{E9}b",
        range: Some(((0, 1), (0, 2))),
        new: "",
        after: Ok("\u{E9}"),
    },
    Edit {
        before: "a\n",
        range: Some(((1, 0), (1, 0))),
        new: "b",
        after: Ok("a\nb"),
    },
    Edit {
        before: "a\n",
        range: Some(((0, 0), (2, 0))),
        new: "b",
        after: Err(EditFault::Range),
    },
    Edit {
        before: "a\nb",
        range: Some(((7, 0), (0, 0))),
        new: "b",
        after: Err(EditFault::Range),
    },
    Edit {
        before: "a\nb",
        range: Some(((1, 0), (0, 1))),
        new: "b",
        after: Err(EditFault::Range),
    },
];

#[test]
fn changes_are_made_or_refused(rt: HostRuntime) -> Result<(), AllocError> {
    for edit in &EDITS {
        let text = String::from_str(rt.alloc(), edit.before)?;
        assert!(rt; text.len() <= 16_777_216);
        let mut document = Document::from_text(rt.alloc(), text);
        let change = TextChange {
            range: edit.range,
            text: Text::from_str(rt.alloc(), edit.new)?,
        };
        match document.apply(&change) {
            Ok(()) => assert!(rt;
                edit.after == Ok(document.text()),
                "{} to {}",
                edit.before,
                document.text()
            ),
            Err(fault) => {
                assert!(rt; edit.after == Err(fault), "{}", edit.before);
                assert!(rt; document.text() == edit.before, "{}", edit.before);
            }
        }
    }
    Ok(())
}

/// The answer to a change that puts so many letters in place of the first `end` of the longest text.
fn answer_to(
    rt: &impl Abort,
    alloc: Global,
    end: Option<u32>,
    count: usize,
) -> Result<Result<(), EditFault>, AllocError> {
    let longest = "a".repeat(alloc, 16_777_216)?;
    assert!(rt; longest.len() <= 16_777_216);
    let mut document = Document::from_text(alloc, longest);
    let new = "b".repeat(alloc, count)?;
    let change = TextChange {
        range: match end {
            Some(end) => Some(((0, 0), (0, end))),
            None => None,
        },
        text: Text::from_str(alloc, new.as_str())?,
    };
    let answer = document.apply(&change);
    assert_eq!(rt; document.text().len(), 16_777_216);
    Ok(answer)
}

// The longest text takes no byte more, and one byte for another.
#[test]
fn a_text_that_would_be_too_long_is_refused(rt: HostRuntime) -> Result<(), AllocError> {
    let alloc = rt.alloc();
    assert_eq!(rt;
        answer_to(&rt, alloc, Some(0), 1)?,
        Err(EditFault::TooLong(16_777_217))
    );
    assert_eq!(rt;
        answer_to(&rt, alloc, Some(2), 7)?,
        Err(EditFault::TooLong(16_777_221))
    );
    assert_eq!(rt;
        answer_to(&rt, alloc, None, 16_777_218)?,
        Err(EditFault::TooLong(16_777_218))
    );
    assert_eq!(rt; answer_to(&rt, alloc, Some(1), 1)?, Ok(()));
    Ok(())
}

#[test]
fn places_are_counted_in_utf_16_units(rt: HostRuntime) -> Result<(), AllocError> {
    let text = String::from_str(
        rt.alloc(),
        "class D {\r\n  void f() {\r\n    /*\u{1F600}*/ int k = \r\n  }\r\n}",
    )?;
    assert!(rt; text.len() <= 16_777_216);
    let document = Document::from_text(rt.alloc(), text);
    let offsets = [
        ((2, 19), Some(46)),
        ((2, 100), Some(46)),
        ((0, 0), Some(0)),
        ((1, 0), Some(11)),
        ((2, 7), Some(31)),
        ((2, 8), Some(35)),
        ((4, 0), Some(53)),
        ((4, 1), Some(54)),
        ((5, 0), None),
    ];
    for (place, offset) in offsets {
        assert_eq!(rt;
            document.offset(place.0, place.1),
            offset,
            "at {}:{}",
            place.0,
            place.1
        );
    }
    let positions = [
        (46, (2, 19)),
        (0, (0, 0)),
        (11, (1, 0)),
        (35, (2, 8)),
        (54, (4, 1)),
    ];
    for (offset, place) in positions {
        assert_eq!(rt; document.position(offset), place, "at {offset}");
    }
    Ok(())
}

#[test]
fn a_list_of_changes_keeps_its_places(rt: HostRuntime) -> Result<(), AllocError> {
    let text = String::from_str(rt.alloc(), "a\nb\r\nc\rd")?;
    assert!(rt; text.len() <= 16_777_216);
    let mut document = Document::from_text(rt.alloc(), text);
    let changes = [
        ((3, 0), "x"),
        ((2, 0), "y\n"),
        ((0, 1), "\r"),
        ((4, 1), "z"),
        ((1, 0), "\n"),
    ];
    for (place, new) in changes {
        let change = TextChange {
            range: Some((place, place)),
            text: Text::from_str(rt.alloc(), new)?,
        };
        assert!(rt; document.apply(&change).is_ok());
    }
    assert_eq!(rt; document.text(), "a\r\n\nb\r\ny\nc\rxzd");
    assert_eq!(rt; document.offset(4, 2), Some(10));
    assert_eq!(rt; document.position(12), (5, 1));
    Ok(())
}
