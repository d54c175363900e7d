use crate::{Copies, Items, Text, copy_all};
use std::cmp::Ordering;

#[test]
fn texts_are_made_compared_and_copied(rt: HostRuntime) -> Result<(), std::alloc::AllocError> {
    let mut text = Text::from_str(rt.alloc(), "né")?;
    assert_eq!(rt; text.len(), 3);
    text.push_str("e")?;
    let copy = text.copy(rt.alloc())?;
    assert!(rt; copy.same(&text));
    assert_eq!(rt; copy.as_str(), "née");
    assert_eq!(rt; copy.as_bytes().len(), 4);
    assert!(rt; Text::new(rt.alloc()).is_empty());
    let later = Text::from_string(String::from_str(rt.alloc(), "z")?);
    assert!(rt; copy.compare(&later) == Ordering::Less);
    assert_eq!(rt; later.into_string().as_str(), "z");
    Ok(())
}

#[test]
fn a_list_of_texts_is_copied_in_order(rt: HostRuntime) -> Result<(), std::alloc::AllocError> {
    let mut words: Items<Text> = Items::new(rt.alloc());
    words.push(Text::from_str(rt.alloc(), "b")?)?;
    words.push(Text::from_str(rt.alloc(), "a")?)?;
    let copies = copy_all(rt.alloc(), &words)?;
    assert_eq!(rt; copies.len(), 2);
    for (copy, word) in copies.as_slice().iter().zip(words.as_slice()) {
        assert!(rt; copy.same(word));
    }
    Ok(())
}

#[test]
fn a_list_of_numbers_is_copied(rt: HostRuntime) -> Result<(), std::alloc::AllocError> {
    let numbers = Items::from_slice(rt.alloc(), &[7u32, 1])?;
    assert_eq!(rt; copy_all(rt.alloc(), &numbers)?.as_slice(), &[7u32, 1][..]);
    Ok(())
}
