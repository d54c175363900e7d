use crate::{list_at, places_by_number};
use std::alloc::AllocError;

#[test]
fn places_rise_for_each_number(rt: HostRuntime) -> Result<(), AllocError> {
    let lists = places_by_number(rt.alloc(), 5, &[2, 0, 2, 3, 2])?;
    let two = list_at(&lists, 2);
    assert_eq!(rt; two.len(), 3);
    assert!(rt; two == [0u32, 2, 4].as_slice());
    assert_eq!(rt; list_at(&lists, 0).len(), 1);
    assert!(rt; list_at(&lists, 1).is_empty());
    assert!(rt; list_at(&lists, 9).is_empty());
    Ok(())
}
