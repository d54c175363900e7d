ghost use Rattle.std.specs.Prelude.{◌≡◌, IfOk};
ghost use Rattle.decl_index.specs.History.{KeepsRanges};
ghost use Rattle.version_board.specs.Versions.{IsVersion};

use crate::snapshot_tests::one_class;
use decl_index::{Change, Weights};
use known_classes::Classes;
use std::alloc::{AllocError, Global};
use std::marker::Brand;
use std::process::Abort;
use std::sync::{Mutex, Wait};
use std::test::Fail;
use version_board::{Naming, Opened, Pass, Publisher, Receipt, Refusal, Snapshot, start_board};

/// The number of the receipt and 0, or that of the refusal's receipt and the number of its cause.
fn told<J: Naming>(answer: &Result<Receipt<J>, Refusal<J>>) -> (u32, u32) {
    match answer {
        Ok(receipt) => (receipt.number, 0),
        Err(refusal) => match &refusal.seen {
            Some(receipt) => (receipt.number, refusal.cause.number().unwrap_or(9)),
            None => (0, 9),
        },
    }
}

/// What a pass reads: the number of the version, and whether it has the class.
fn read_by<J: Naming, R: Wait>(
    rt: &R,
    pass: &mut Pass<J>,
    class: &str,
) -> Result<(u32, bool), AllocError> {
    let version = pass.read(rt)?;
    Ok((version.number, version.index.find(class).is_some()))
}

/// Whether all passes have seen nothing.
fn are_new<J: Naming>(passes: &[Pass<J>]) -> bool {
    passes.iter().all(|pass| pass.seen() == 0)
}

#[test]
fn passes_read_what_is_published(rt: HostRuntime) -> Result<(), Fail> {
    let first = Snapshot::empty(rt.alloc())?;
    publish_and_read::<Brand, _>(&rt, rt.alloc(), Opened::new(), first)?;
    Ok(())
}

fn publish_and_read<J: Naming, R: Wait + Abort + Copy + Drop>(
    rt: R,
    alloc: Global,
    opened: Opened,
    first: Snapshot,
) -> Result<(), AllocError>
    requires book { opened.seen.book ≡ J.book }
    requires first { IsVersion J.first first }
{
    let (publisher, mut passes) = start_board::<J, R>(rt, alloc, opened, first, 64)?;
    let board = Mutex::new(publisher);
    assert_eq!(rt; passes.len(), 64);
    assert!(rt; are_new(passes.as_slice()));
    publish_rows(&rt, alloc, &mut board.lock(&rt))?;
    if let Some(pass) = passes.as_mut_slice().first_mut() {
        assert!(rt; read_by(&rt, pass, "p/A")? == (4, true));
        assert_eq!(rt; pass.seen(), 4);
        assert_eq!(rt; pass.prefix().len(), 4);
    }
    board.into_inner().close();
    Ok(())
}

/// What is published: a class and its super class, the withdrawal of the versions up to a number, or the usual weights.
enum Asked {
    Class(&'static str, &'static str),
    Withdraw(u32),
    Weigh,
}

/// Changes that are published one after the other, and what each is told: the number of the receipt, and the number
/// of the cause where it is refused. A refusal changes nothing, and a withdrawal may reach the newest version.
const ROWS: [(Asked, (u32, u32)); 8] = [
    (Asked::Class("p/A", "p/A"), (0, 1)),
    (Asked::Withdraw(1), (0, 3)),
    (Asked::Class("p/A", "java/lang/Object"), (1, 0)),
    (Asked::Withdraw(2), (1, 3)),
    (Asked::Withdraw(1), (2, 0)),
    (Asked::Class("p/B", "p/B"), (2, 1)),
    (Asked::Withdraw(0), (3, 0)),
    (Asked::Weigh, (4, 0)),
];

fn change_of(alloc: Global, asked: &Asked) -> Result<Change, AllocError>
    ensures { IfOk result (λ change. KeepsRanges change) }
{
    match asked {
        Asked::Class(name, parent) => one_class(alloc, name, parent),
        Asked::Withdraw(through) => Ok(Change::Withdraw(*through)),
        Asked::Weigh => Ok(Change::SetWeights(Weights::usual())),
    }
}

fn publish_rows<J: Naming, R: Wait + Abort + Copy + Drop>(
    rt: &R,
    alloc: Global,
    publisher: &mut Publisher<J, R>,
) -> Result<(), AllocError> {
    for row in &ROWS {
        let answer = publisher.publish(alloc, change_of(alloc, &row.0)?);
        assert!(rt; told(&answer) == row.1);
    }
    Ok(())
}

#[test]
fn a_pass_reads_what_another_learnt(rt: HostRuntime) -> Result<(), Fail> {
    let first = Snapshot::empty(rt.alloc())?;
    publish_and_learn::<Brand, _>(&rt, rt.alloc(), Opened::new(), first)?;
    Ok(())
}

fn publish_and_learn<J: Naming, R: Wait + Abort + Copy + Drop>(
    rt: R,
    alloc: Global,
    opened: Opened,
    first: Snapshot,
) -> Result<(), AllocError>
    requires book { opened.seen.book ≡ J.book }
    requires first { IsVersion J.first first }
{
    let (publisher, mut passes) = start_board::<J, R>(rt, alloc, opened, first, 2)?;
    let board = Mutex::new(publisher);
    assert_eq!(rt; passes.len(), 2);
    let answer = board.lock(&rt).publish(alloc, Change::Withdraw(0));
    assert!(rt; told(&answer) == (1, 0));
    let done = match answer {
        Ok(receipt) => learn_and_read(&rt, passes.as_mut_slice(), receipt),
        Err(_refusal) => Err(AllocError),
    };
    board.into_inner().close();
    done
}

/// The first pass learns the receipt; what each reads then is no older.
fn learn_and_read<J: Naming, R: Wait + Abort>(
    rt: &R,
    passes: &mut [Pass<J>],
    receipt: Receipt<J>,
) -> Result<(), AllocError> {
    if let Some((learner, others)) = passes.split_first_mut() {
        learner.learn(rt, receipt);
        assert_eq!(rt; learner.seen(), 1);
        assert!(rt; read_by(rt, learner, "p/A")? == (1, false));
        for other in others {
            assert!(rt; read_by(rt, other, "p/A")? == (1, false));
            assert!(rt; other.prefix().begins_with(learner.prefix()));
        }
    }
    Ok(())
}
