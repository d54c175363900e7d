ghost use Rattle.std.specs.Prelude.{◌≡◌, ◌≤◌, [], None, Some};
ghost use Rattle.outside.specs.Causes.{Rose};
ghost use Rattle.sessions.specs.Outcomes.{said_of};
ghost use Rattle.sessions.specs.Served.{Serves};
ghost use Rattle.sessions.specs.Serving.{Answers, Writes};

use crate::ending::Ending;
use crate::outcome::Outcome;
use crate::session::Session;
use crate::world::World;
use json_rpc::{FrameFault, Frames, write_frame, write_no_memory};
use outside::{Sink, Source};
use std::alloc::{AllocError, Global};
use std::thread::Threads;

/// Writes what tells an outcome, and answers how it ended the session, where it did. It takes no memory.
fn write_outcome<K: Sink>(sink: &mut K, outcome: &Result<Outcome, AllocError>) -> Option<Ending>
    ensures writes { Writes result (said_of outcome.now) (K.written sink.old) (K.written sink.new) }
    ensures later { K.faults sink.old ≤ K.faults sink.new }
    ensures cause { result ≡ Some Ending.Sink → Rose (K.faults sink.old) (K.faults sink.new) }
{
    match outcome {
        Ok(Outcome::Reply(body)) => match write_frame(sink, body) {
            Ok(()) => None,
            Err(_) => Some(Ending::Sink),
        },
        Ok(Outcome::NoMemory(id)) => match write_no_memory(sink, id) {
            Ok(()) => None,
            Err(_) => Some(Ending::Sink),
        },
        Ok(Outcome::Silent) => None,
        Ok(Outcome::Exit(is_stopped)) => Some(Ending::Exit(*is_stopped)),
        Err(_) => Some(Ending::Memory),
    }
}

/// Answers one message: the reply is written before anything else is read.
fn answer<W: World, K: Sink>(
    rt: &(impl Threads + Sync),
    alloc: Global,
    session: &mut Session,
    body: &[u8],
    world: &mut W,
    sink: &mut K,
) -> Option<Ending>
    ensures answers { Answers session.old body.now session.new (W.state world.old) (W.state world.new) (K.written sink.old) (K.written sink.new) result }
    ensures later { K.faults sink.old ≤ K.faults sink.new }
    ensures cause { result ≡ Some Ending.Sink → Rose (K.faults sink.old) (K.faults sink.new) }
{
    let outcome = session.step(rt, alloc, body, world);
    write_outcome(sink, &outcome)
}

/// Serves a client until an exit, the end of its input or a fault. No message is left unanswered before the next one
/// is read.
#[tactic(auto, using(crate::proofs::Furthers::serving))]
pub fn serve<W: World, S: Source, K: Sink>(
    rt: &(impl Threads + Sync),
    alloc: Global,
    session: &mut Session,
    frames: &mut Frames,
    world: &mut W,
    source: &mut S,
    sink: &mut K,
) -> Ending
    requires new { frames.old ≡ record { place = 0; held = []; fault = None } }
    ensures serves { Serves session.old session.new (S.left source.old) (K.written sink.old) (K.written sink.new) (W.state world.old) (W.state world.new) result }
    ensures read_later { S.faults source.old ≤ S.faults source.new }
    ensures read_cause { result ≡ Ending.Frames FrameFault.ReadFault → Rose (S.faults source.old) (S.faults source.new) }
    ensures write_later { K.faults sink.old ≤ K.faults sink.new }
    ensures write_cause { result ≡ Ending.Sink → Rose (K.faults sink.old) (K.faults sink.new) }
{
    for _ in 0..u64::MAX {
        let body = match frames.next(alloc, source) {
            Ok(Some(body)) => body,
            Ok(None) => return Ending::Input,
            Err(fault) => return Ending::Frames(fault),
        };
        if let Some(ending) = answer(rt, alloc, session, &body, world, sink) {
            return ending;
        }
    }
    Ending::Frames(FrameFault::OutOfMemory)
}
