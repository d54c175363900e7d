use crate::{SharedShelf, Slots};
use std::test::Fail;

/// Fingerprints that are shared one after the other on a shelf of one place, and whether the fresh value is
/// handed back.
const ONE_PLACE: [(u64, bool); 4] = [(1, false), (1, true), (2, false), (1, false)];

/// The same on two places: 3 drops 1, then 1 drops 2.
const TWO_PLACES: [(u64, bool); 6] = [
    (1, false),
    (2, false),
    (1, true),
    (3, false),
    (1, false),
    (3, true),
];

#[test]
fn one_place_keeps_the_newest(rt: HostRuntime) -> Result<(), Fail> {
    let mut slots = Slots::new(rt.alloc(), 1);
    for row in &ONE_PLACE {
        let shared = slots.share(rt.alloc(), row.0, row.0)?;
        assert_eq!(rt; shared.fresh.is_some(), row.1);
    }
    assert!(rt; slots.find(1)?.is_some());
    assert!(rt; slots.find(2)?.is_none());
    let shelf = SharedShelf::new(rt.alloc(), 1);
    for row in &ONE_PLACE {
        let shared = shelf.share(&rt, rt.alloc(), row.0, row.0)?;
        assert_eq!(rt; shared.fresh.is_some(), row.1);
    }
    assert!(rt; shelf.find(&rt, 1)?.is_some());
    assert!(rt; shelf.find(&rt, 2)?.is_none());
    Ok(())
}

#[test]
fn two_places_drop_the_oldest(rt: HostRuntime) -> Result<(), Fail> {
    let shelf = SharedShelf::new(rt.alloc(), 2);
    for row in &TWO_PLACES {
        let shared = shelf.share(&rt, rt.alloc(), row.0, row.0)?;
        assert_eq!(rt; shared.fresh.is_some(), row.1);
        assert_eq!(rt; *shared.slot.lock(&rt), row.0);
    }
    Ok(())
}

#[test]
fn a_value_is_shared_by_those_who_find_it(rt: HostRuntime) -> Result<(), Fail> {
    let shelf = SharedShelf::new(rt.alloc(), 1);
    let first = shelf.share(&rt, rt.alloc(), 7, 40)?;
    *first.slot.lock(&rt) = 41;
    let again = shelf.share(&rt, rt.alloc(), 7, 50)?;
    assert_eq!(rt; *again.slot.lock(&rt), 41);
    let _other = shelf.share(&rt, rt.alloc(), 8, 60)?;
    assert!(rt; shelf.find(&rt, 7)?.is_none());
    assert_eq!(rt; *first.slot.lock(&rt), 41);
    Ok(())
}
