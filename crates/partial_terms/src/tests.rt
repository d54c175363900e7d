use crate::Chains;
use std::alloc::AllocError;

#[test]
fn lists_share_their_ends(rt: HostRuntime) -> Result<(), AllocError> {
    let mut lists: Chains<u32> = Chains::new(rt.alloc());
    assert!(rt; lists.first(0).is_none());
    let end = lists.cons(7, 0)?;
    let left = lists.cons(8, end)?;
    match lists.first(left) {
        Some((head, rest)) => assert!(rt; head == 8 && rest == end),
        None => assert!(rt; false),
    }
    let right = lists.cons(9, end)?;
    match lists.first(right) {
        Some((head, rest)) => assert!(rt; head == 9 && rest == end),
        None => assert!(rt; false),
    }
    Ok(())
}
