use documents::{Document, EditFault, TextChange};
use lists::Text;
use std::alloc::{AllocError, Global};
use std::test::Fail;

/// A place in a text: a line and a unit.
type Place = (u32, u32);

/// Changes made one after the other, and the text after each: of a range, behind a line that another change added, of
/// two lines, and of the whole text.
const CHANGES: [(Option<(Place, Place)>, &str, &str); 4] = [
    (Some(((1, 0), (1, 3))), "second\n", "one\nsecond\n\nthree\n"),
    (Some(((3, 5), (3, 5))), "th", "one\nsecond\n\nthreeth\n"),
    (Some(((0, 3), (3, 0))), " ", "one threeth\n"),
    (None, "whole", "whole"),
];

fn change(
    alloc: Global,
    range: Option<(Place, Place)>,
    text: &str,
) -> Result<TextChange, AllocError> {
    Ok(TextChange {
        range,
        text: Text::from_str(alloc, text)?,
    })
}

/// Whether a change is made, at once, or again where it wanted memory and left the text before.
fn is_made(document: &mut Document, change: &TextChange, before: &str) -> bool {
    match document.apply(change) {
        Ok(()) => true,
        Err(fault) => {
            fault == EditFault::OutOfMemory
                && document.text() == before
                && document.apply(change).is_ok()
        }
    }
}

#[test]
fn a_change_is_made_or_leaves_the_text(rt: HostRuntime) -> Result<(), Fail> {
    let alloc = rt.alloc();
    let mut before = "one\ntwo\nthree\n";
    let mut document = Document::from_text(alloc, String::from_str(alloc, before)?);
    for (range, text, after) in CHANGES {
        let change = change(alloc, range, text)?;
        assert!(rt; is_made(&mut document, &change, before));
        assert_eq!(rt; document.text(), after);
        before = after;
    }
    Ok(())
}
