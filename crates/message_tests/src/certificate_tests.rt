use checker::{Floor, Row};
use lists::Items;
use lsp_forms::{make_floors, make_rows};
use std::alloc::{AllocError, Global};
use std::test::Fail;

/// The rows of `f(x)`.
const ROWS: [Row; 2] = [
    Row {
        code: 3,
        result: 0,
        weight: 25,
    },
    Row {
        code: 1,
        result: 0,
        weight: 5,
    },
];

fn floor(
    alloc: Global,
    set: &[u32],
    left: u32,
    goal: u32,
    floor: u32,
) -> Result<Floor, AllocError> {
    Ok(Floor {
        set: Items::from_slice(alloc, set)?,
        left,
        goal,
        floor,
    })
}

#[test]
fn rows_are_made(rt: HostRuntime) -> Result<(), Fail> {
    let value = make_rows(rt.alloc(), &ROWS, 25)?;
    assert!(rt;
        value.to_string(rt.alloc())?.as_str() == "{\"rows\":[[3,0,25],[1,0,5]],\"weight\":25}"
    );
    let value = make_rows(rt.alloc(), &[], 4294967295)?;
    assert!(rt; value.to_string(rt.alloc())?.as_str() == "{\"rows\":[],\"weight\":4294967295}");
    Ok(())
}

#[test]
fn floors_are_made(rt: HostRuntime) -> Result<(), Fail> {
    let goal = floor(rt.alloc(), &[], 1, 1, 15)?;
    let value = make_floors(rt.alloc(), &[goal], 15)?;
    assert!(rt; value.to_string(rt.alloc())?.as_str() == "{\"floor\":15,\"rows\":[[[],1,1,15]]}");
    let goal = floor(rt.alloc(), &[], 1, 1, 12)?;
    let body = floor(rt.alloc(), &[0, 7], 0, 0, 1)?;
    let value = make_floors(rt.alloc(), &[goal, body], 12)?;
    assert!(rt;
        value.to_string(rt.alloc())?.as_str()
            == "{\"floor\":12,\"rows\":[[[],1,1,12],[[0,7],0,0,1]]}"
    );
    Ok(())
}
