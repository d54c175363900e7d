use crate::Names;
use std::alloc::AllocError;

#[test]
fn a_name_has_one_place(rt: HostRuntime) -> Result<(), AllocError> {
    let mut names = Names::new(rt.alloc());
    names.add(rt.alloc(), "p/A")?;
    assert!(rt; names.len() < 2);
    assert!(rt; names.place("p/B").is_none());
    names.push(rt.alloc(), "p/B")?;
    names.add(rt.alloc(), "p/A")?;
    assert_eq!(rt; names.len(), 2);
    assert!(rt; names.place("p/A") == Some(0));
    assert!(rt; names.place("p/B") == Some(1));
    assert!(rt; names.place("p/C").is_none());
    Ok(())
}

#[test]
fn names_stand_in_order(rt: HostRuntime) -> Result<(), AllocError> {
    let mut names = Names::new(rt.alloc());
    names.add(rt.alloc(), "z")?;
    names.add(rt.alloc(), "a")?;
    match names.texts().get(1) {
        Some(text) => assert!(rt; text.as_str() == "a"),
        None => return Err(AllocError),
    }
    let texts = names.into_texts();
    assert_eq!(rt; texts.len(), 2);
    Ok(())
}
