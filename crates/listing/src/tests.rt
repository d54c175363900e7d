use crate::Item;
use lists::{Items, Text};
use std::alloc::AllocError;
use terms::Term;

#[test]
fn an_item_is_copied(rt: HostRuntime) -> Result<(), AllocError> {
    let item = Item {
        weight: 15,
        text: Text::from_str(rt.alloc(), "x")?,
        term: Term::Head(0, Items::new(rt.alloc())),
    };
    let copy = item.copy(rt.alloc())?;
    assert_eq!(rt; copy.weight, 15);
    assert_eq!(rt; copy.text.as_str(), "x");
    Ok(())
}
