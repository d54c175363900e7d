ghost use Rattle.std.specs.Prelude.{◌≡◌, ◌⊎◌, ◌++◌, IfOk, IfErr, IsTrue};
ghost use mathlib.Core.List.{IsPrefix};
ghost use Rattle.decl_index.specs.declared.change.ChangeFault.TheVariants.{OutOfMemory};
ghost use Rattle.decl_index.specs.History.{KeepsRanges};
ghost use Rattle.decl_index.specs.Refusals.{Refuses};
ghost use Rattle.version_board.specs.Accepted.{IsAccepted};

use crate::log::Naming;
use crate::pass::Pass;
use crate::publisher::Publisher;
use crate::receipt::{Receipt, Refusal};
use decl_index::{Change, ChangeFault};
use std::alloc::Global;
use std::sync::{Mutex, Wait};

/// Learns a receipt, and answers whether the pass has then seen just what it tells.
fn learns_whole<J: Naming, R: Wait>(rt: &R, pass: &mut Pass<J>, receipt: Receipt<J>) -> bool
    ensures later { IsPrefix pass.old.seen pass.new.seen }
    ensures reads { pass.new.reads ≡ pass.old.reads }
    ensures whole { IsTrue result → J.first ++ receipt.prefix ≡ pass.new.seen }
{
    let number = receipt.number;
    pass.learn(rt, receipt);
    if pass.seen() > number {
        return false;
    }
    true
}

/// Publishes, and lets the pass learn what the publisher had seen. A refusal that rests on less than the pass has
/// seen is asked again.
#[tactic(auto, using(crate::proofs::Accepting::accepts))]
fn ask<J: Naming, R: Wait + Drop>(
    rt: &R,
    publisher: &mut Publisher<J, R>,
    alloc: Global,
    pass: &mut Pass<J>,
    change: Change,
) -> Result<u32, ChangeFault>
    requires ranges { KeepsRanges change }
    ensures later { IsPrefix pass.old.seen pass.new.seen }
    ensures reads { pass.new.reads ≡ pass.old.reads }
    ensures accepted { IfOk result (λ number. IsAccepted pass.new.seen change number) }
    ensures refused { IfErr result (λ fault. (fault ≡ OutOfMemory) ⊎ Refuses pass.new.seen change fault) }
{
    let mut change = change;
    for _ in rt.forever() {
        match publisher.publish(alloc, change) {
            Ok(receipt) => {
                let number = receipt.number;
                pass.learn(rt, receipt);
                return Ok(number);
            }
            Err(
                Refusal {
                    cause,
                    seen,
                    change: back,
                },
            ) => match seen {
                Some(receipt) => {
                    if learns_whole(rt, pass, receipt) {
                        return Err(cause);
                    }
                    change = back;
                }
                None => return Err(ChangeFault::OutOfMemory),
            },
        }
    }
    unreachable!()
}

/// Publishes a change for the client of a pass, and answers its number, or why it is refused. It takes the publisher's
/// lock; it may wait for it, and for the passes that are reading. From then on the pass has seen the change, or the
/// journal that refuses it. This is no read.
pub fn publish_and_learn<J: Naming, R: Wait + Drop>(
    rt: &R,
    publisher: &Mutex<Publisher<J, R>>,
    alloc: Global,
    pass: &mut Pass<J>,
    change: Change,
) -> Result<u32, ChangeFault>
    requires ranges { KeepsRanges change }
    ensures later { IsPrefix pass.old.seen pass.new.seen }
    ensures reads { pass.new.reads ≡ pass.old.reads }
    ensures accepted { IfOk result (λ number. IsAccepted pass.new.seen change number) }
    ensures refused { IfErr result (λ fault. (fault ≡ OutOfMemory) ⊎ Refuses pass.new.seen change fault) }
{
    ask(rt, &mut publisher.lock(rt), alloc, pass, change)
}
