ghost use Rattle.std.specs.Prelude.{◌≡◌, ◌≤◌, ◌++◌, ◌∷◌, IsTrue, IsFalse, Some, [], map};
ghost use Rattle.outside.specs.Causes.{Rose};
ghost use Rattle.outside.specs.Taken.{Took};
ghost use Rattle.json_rpc.specs.Streams.{budget};
ghost use Rattle.json_rpc.specs.Whole.{Reads, bodies_of};

use crate::fault::FrameFault;
use crate::frames::Frames;
use outside::Source;
use std::alloc::Global;

/// Whether there was room for one body more.
fn keep(bodies: &mut Vec<Vec<u8>>, body: Vec<u8>) -> bool
    ensures kept { IsTrue result → bodies_of bodies.new.items ≡ bodies_of bodies.old.items ++ body.items ∷ [] }
    ensures lost { IsFalse result → bodies_of bodies.new.items ≡ bodies_of bodies.old.items }
{
    bodies.push(body).is_ok()
}

/// Puts the bodies of a source's frames into an empty list, and answers what ended them, None for an end
/// of the input between two frames. After a read fault or want of memory the bodies are the first ones of
/// the input, and bytes that were taken behind them are gone.
#[tactic(auto, using(crate::proofs::Inputs::inputs, crate::proofs::Takes::takes))]
pub fn read_frames<S: Source>(
    alloc: Global,
    source: &mut S,
    bodies: &mut Vec<Vec<u8>>,
) -> Option<FrameFault>
    requires empty { bodies.old.items ≡ [] }
    ensures whole_input { Reads (S.left source.old) (bodies_of bodies.new.items) result }
    ensures taken { Took budget (S.left source.old) (S.left source.new) }
    ensures later { S.faults source.old ≤ S.faults source.new }
    ensures cause { result ≡ Some FrameFault.ReadFault → Rose (S.faults source.old) (S.faults source.new) }
{
    let mut frames = Frames::new(alloc);
    for _ in 0..u64::MAX {
        match frames.next(alloc, source) {
            Ok(Some(body)) => {
                if !keep(bodies, body) {
                    return Some(FrameFault::OutOfMemory);
                }
            }
            Ok(None) => return None,
            Err(fault) => return Some(fault),
        }
    }
    Some(FrameFault::OutOfMemory)
}
