ghost use Rattle.std.specs.Prelude.{IfOk};
ghost use Rattle.decl_index.specs.History.{KeepsRanges};

use decl_index::{Change, ChangeFault, Weights};
use known_classes::{ClassSummary, Classes};
use lists::{Items, Text};
use std::alloc::{AllocError, Global};
use std::test::Fail;
use version_board::{Snapshot, version_laws};

/// A public class with this super class.
fn class(alloc: Global, name: &str, parent: &str) -> Result<ClassSummary, AllocError> {
    let mut supers = Items::new(alloc);
    supers.push(Text::from_str(alloc, parent)?)?;
    Ok(ClassSummary {
        name: Text::from_str(alloc, name)?,
        flags: 0x0021,
        nesting: None,
        supers,
        fields: Items::new(alloc),
        methods: Items::new(alloc),
    })
}

/// The publication of these classes.
pub(crate) fn publication(alloc: Global, puts: Items<ClassSummary>) -> Change
    ensures { KeepsRanges result }
{
    Change::Publish {
        puts,
        removes: Items::new(alloc),
        counts: Items::new(alloc),
    }
}

/// The publication of one class.
pub(crate) fn one_class(alloc: Global, name: &str, parent: &str) -> Result<Change, AllocError>
    ensures { IfOk result (λ change. KeepsRanges change) }
{
    let mut puts = Items::new(alloc);
    puts.push(class(alloc, name, parent)?)?;
    Ok(publication(alloc, puts))
}

/// The version after these changes: a withdrawal through each number, and a publication of nothing at each None.
fn version_of(alloc: Global, changes: &[Option<u32>]) -> Result<Snapshot, ChangeFault> {
    let mut version = Snapshot::empty(alloc)?;
    for change in changes {
        version = match change {
            Some(through) => version.after(alloc, &Change::Withdraw(*through))?,
            None => version.after(alloc, &publication(alloc, Items::new(alloc)))?,
        };
    }
    Ok(version)
}

/// The number of the fault, 0 where there is a version.
fn fault_of(answer: &Result<Snapshot, ChangeFault>) -> u32 {
    match answer {
        Ok(_) => 0,
        Err(fault) => fault.number().unwrap_or(9),
    }
}

#[test]
fn a_version_has_a_number_and_classes(rt: HostRuntime) -> Result<(), Fail> {
    let empty = Snapshot::empty(rt.alloc())?;
    let change = one_class(rt.alloc(), "p/A", "java/lang/Object")?;
    let next = empty.after(rt.alloc(), &change)?;
    assert_eq!(rt; empty.number, 0);
    assert_eq!(rt; empty.index.find("p/A"), None);
    assert_eq!(rt; next.number, 1);
    assert_eq!(rt; next.index.number(), 1);
    assert_eq!(rt; next.index.find("p/A"), Some(0));
    assert_eq!(rt; next.journal.withdrawals.len(), 0);
    version_laws();
    Ok(())
}

/// Changes, a version, and the number of the first change that withdraws it.
const WITHDRAWALS: [([Option<u32>; 4], u32, Option<u32>); 9] = [
    ([None, None, None, None], 0, None),
    ([Some(0), None, None, None], 0, Some(1)),
    ([Some(0), None, None, None], 1, None),
    ([None, Some(1), None, Some(3)], 0, Some(2)),
    ([None, Some(1), None, Some(3)], 1, Some(2)),
    ([None, Some(1), None, Some(3)], 2, Some(4)),
    ([None, Some(1), None, Some(3)], 3, Some(4)),
    ([None, Some(1), None, Some(3)], 4, None),
    ([None, None, Some(2), Some(0)], 0, Some(3)),
];

#[test]
fn the_first_withdrawal_of_a_version_is_told(rt: HostRuntime) -> Result<(), Fail> {
    for row in &WITHDRAWALS {
        let version = version_of(rt.alloc(), &row.0)?;
        assert_eq!(rt; version.withdrawn(row.1), row.2);
    }
    Ok(())
}

#[test]
fn a_setting_of_weights_is_a_version(rt: HostRuntime) -> Result<(), Fail> {
    let version = version_of(rt.alloc(), &[None, Some(1)])?;
    let weighed = version.after(rt.alloc(), &Change::SetWeights(Weights::usual()))?;
    assert_eq!(rt; weighed.number, 3);
    assert_eq!(rt; weighed.withdrawn(1), Some(2));
    assert_eq!(rt; weighed.withdrawn(2), None);
    assert_eq!(rt; weighed.journal.withdrawals.len(), 1);
    Ok(())
}

#[test]
fn a_change_is_refused(rt: HostRuntime) -> Result<(), Fail> {
    let version = version_of(rt.alloc(), &[None, None])?;
    let high = version.after(rt.alloc(), &Change::Withdraw(3));
    assert_eq!(rt; fault_of(&high), 3);
    let newest = version.after(rt.alloc(), &Change::Withdraw(2));
    assert_eq!(rt; fault_of(&newest), 0);
    let cyclic = version.after(rt.alloc(), &one_class(rt.alloc(), "p/A", "p/A")?);
    assert_eq!(rt; fault_of(&cyclic), 1);
    assert_eq!(rt; version.number, 2);
    Ok(())
}

/// The version after so many publications of nothing.
fn version_after(alloc: Global, count: u32) -> Result<Snapshot, ChangeFault> {
    let mut version = Snapshot::empty(alloc)?;
    for _ in 0..count {
        version = version.after(alloc, &publication(alloc, Items::new(alloc)))?;
    }
    Ok(version)
}

#[test]
fn a_full_journal_refuses_before_all_else(rt: HostRuntime) -> Result<(), Fail> {
    let last = version_after(rt.alloc(), 99_999)?;
    let high = last.after(rt.alloc(), &Change::Withdraw(200_000));
    assert_eq!(rt; fault_of(&high), 3);
    let full = last.after(rt.alloc(), &Change::Withdraw(99_999))?;
    assert_eq!(rt; full.number, 100_000);
    assert_eq!(rt; full.withdrawn(99_999), Some(100_000));
    let higher = full.after(rt.alloc(), &Change::Withdraw(200_000));
    assert_eq!(rt; fault_of(&higher), 4);
    let cyclic = full.after(rt.alloc(), &one_class(rt.alloc(), "p/A", "p/A")?);
    assert_eq!(rt; fault_of(&cyclic), 4);
    let weighed = full.after(rt.alloc(), &Change::SetWeights(Weights::usual()));
    assert_eq!(rt; fault_of(&weighed), 4);
    Ok(())
}
