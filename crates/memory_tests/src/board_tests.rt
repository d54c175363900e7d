ghost use Rattle.std.specs.Prelude.{◌≡◌, IsTrue};
ghost use Rattle.decl_index.specs.History.{KeepsRanges};
ghost use Rattle.version_board.specs.Versions.{IsVersion};

use decl_index::{Change, Weights};
use known_classes::{ClassSummary, FieldSummary};
use lists::{Items, Text};
use std::alloc::{AllocError, Global};
use std::marker::Brand;
use std::sync::{Mutex, Wait};
use std::test::Fail;
use type_names::{Base, Erased};
use version_board::{Naming, Opened, Pass, Publisher, Receipt, Refusal, Snapshot, start_board};

/// A field of the type `int`.
fn field(alloc: Global, name: &str) -> Result<Items<FieldSummary>, AllocError> {
    let mut fields = Items::new(alloc);
    fields.push(FieldSummary {
        name: Text::from_str(alloc, name)?,
        flags: 1,
        kind: Erased {
            dims: 0,
            base: Base::Int,
        },
    })?;
    Ok(fields)
}

/// A public class with one field.
fn class_below(alloc: Global, above: &str, name: &str) -> Result<ClassSummary, AllocError> {
    let mut supers = Items::new(alloc);
    supers.push(Text::from_str(alloc, above)?)?;
    let fields = field(alloc, "count")?;
    Ok(ClassSummary {
        name: Text::from_str(alloc, name)?,
        flags: 0x21,
        nesting: None,
        supers,
        fields,
        methods: Items::new(alloc),
    })
}

/// The publication that puts a class in, with a count of uses of its field.
fn puts(alloc: Global, above: &str, name: &str, used: &str) -> Result<Change, AllocError> {
    let mut puts = Items::new(alloc);
    puts.push(class_below(alloc, above, name)?)?;
    let mut counts = Items::new(alloc);
    counts.push((Text::from_str(alloc, used)?, 3))?;
    Ok(Change::Publish {
        puts,
        removes: Items::new(alloc),
        counts,
    })
}

/// The publication that removes a class.
fn removes(alloc: Global, name: &str) -> Result<Change, AllocError> {
    let mut removes = Items::new(alloc);
    removes.push(Text::from_str(alloc, name)?)?;
    Ok(Change::Publish {
        puts: Items::new(alloc),
        removes,
        counts: Items::new(alloc),
    })
}

/// The changes that are made: two classes, a withdrawal, weights, and that the first class is gone.
fn changes(alloc: Global) -> Result<Vec<Change>, AllocError> {
    let mut changes = Vec::new(alloc);
    changes.push(puts(alloc, "java/lang/Object", "p/A", "p/A.count:I")?)?;
    changes.push(puts(alloc, "p/A", "p/B", "p/B.count:I")?)?;
    changes.push(Change::Withdraw(1))?;
    changes.push(Change::SetWeights(Weights::usual()))?;
    changes.push(removes(alloc, "p/A")?)?;
    Ok(changes)
}

/// Whether what the change sets may be set.
fn keeps_ranges(change: &Change) -> bool
    ensures { IsTrue result → KeepsRanges change.now }
{
    match change {
        Change::Publish { .. } => true,
        Change::Withdraw(_) => true,
        Change::SetWeights(weights) => match Weights::checked(*weights) {
            Some(_) => true,
            None => false,
        },
    }
}

/// The number of the version that a pass reads, read again where memory was wanting.
fn read_by<J: Naming, R: Wait>(rt: &R, pass: &mut Pass<J>) -> Result<u32, AllocError> {
    match pass.read(rt) {
        Ok(version) => Ok(version.number),
        Err(_) => Ok(pass.read(rt)?.number),
    }
}

/// Whether the receipt is of this number, and a pass that learns it reads that version.
fn is_shown<J: Naming, R: Wait>(
    rt: &R,
    pass: &mut Pass<J>,
    receipt: Receipt<J>,
    number: u32,
) -> Result<bool, AllocError> {
    let told = receipt.number;
    pass.learn(rt, receipt);
    Ok(told == number && read_by(rt, pass)? == number)
}

/// Whether a change that was refused for want of memory left the version before, and is made as that of this number when
/// it is made again.
fn is_made_again<J: Naming, R: Wait + Drop>(
    rt: &R,
    alloc: Global,
    publisher: &mut Publisher<J, R>,
    pass: &mut Pass<J>,
    refusal: Refusal<J>,
    number: u32,
) -> Result<bool, AllocError>
    requires { KeepsRanges refusal.change }
{
    if refusal.seen.is_some() || read_by(rt, pass)?.saturating_add(1) != number {
        return Ok(false);
    }
    match publisher.publish(alloc, refusal.change) {
        Ok(receipt) => is_shown(rt, pass, receipt, number),
        Err(_) => Ok(false),
    }
}

/// Whether a change is made as that of this number, at once or again.
fn is_made<J: Naming, R: Wait + Drop>(
    rt: &R,
    alloc: Global,
    publisher: &mut Publisher<J, R>,
    pass: &mut Pass<J>,
    change: Change,
    number: u32,
) -> Result<bool, AllocError> {
    if !keeps_ranges(&change) {
        return Ok(false);
    }
    match publisher.publish(alloc, change) {
        Ok(receipt) => is_shown(rt, pass, receipt, number),
        Err(refusal) => is_made_again(rt, alloc, publisher, pass, refusal, number),
    }
}

/// Whether all changes are made, each as the next version.
fn all_are_made<J: Naming, R: Wait + Drop>(
    rt: &R,
    alloc: Global,
    publisher: &mut Publisher<J, R>,
    pass: &mut Pass<J>,
    changes: Vec<Change>,
) -> Result<bool, AllocError> {
    let mut number: u32 = 0;
    for change in changes {
        number = number.saturating_add(1);
        if !is_made(rt, alloc, publisher, pass, change, number)? {
            return Ok(false);
        }
    }
    Ok(true)
}

/// The same of a new board.
fn are_made<J: Naming, R: Wait + Copy + Drop>(
    rt: R,
    alloc: Global,
    opened: Opened,
    first: Snapshot,
    changes: Vec<Change>,
) -> Result<bool, AllocError>
    requires book { opened.seen.book ≡ J.book }
    requires first { IsVersion J.first first }
{
    let (publisher, mut passes) = start_board::<J, R>(rt, alloc, opened, first, 1)?;
    let board = Mutex::new(publisher);
    let are_right = match passes.as_mut_slice().first_mut() {
        Some(pass) => all_are_made(&rt, alloc, &mut board.lock(&rt), pass, changes),
        None => Ok(false),
    };
    board.into_inner().close();
    are_right
}

#[test]
fn a_change_is_made_or_leaves_the_version(rt: HostRuntime) -> Result<(), Fail> {
    let alloc = rt.alloc();
    let changes = changes(alloc)?;
    let first = Snapshot::empty(alloc)?;
    assert!(rt; are_made::<Brand, _>(&rt, alloc, Opened::new(), first, changes)?);
    Ok(())
}
