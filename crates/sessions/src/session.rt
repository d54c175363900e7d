ghost use Rattle.std.specs.Prelude.{◌≡◌, Option};
ghost use Rattle.json_rpc.specs.Messages.{Heard, IsFaultOf, parse_error, invalid_request};
ghost use Rattle.answers.specs.Sessions.{Seen, start};
ghost use Rattle.answers.specs.Messages.{meaning_in};
ghost use Rattle.sessions.specs.declared.failure.Failure.TheVariants as variant;
ghost use Rattle.sessions.specs.Outcomes.{said_of};
ghost use Rattle.sessions.specs.Worlds.{WorldState};
ghost use Rattle.sessions.specs.Meets.{Meets, Answered};

use crate::cursors::Cursors;
use crate::failure::Failure;
use crate::open_documents::OpenDocuments;
use crate::outcome::Outcome;
use crate::replies::failure_reply;
use crate::world::World;
use answers::Phase;
use json_rpc::{Message, RpcFault, RpcRefusal, read_message};
use lsp_forms::Initialize;
use std::alloc::{AllocError, Global};
use std::marker::Model;
use std::thread::Threads;

/// What is kept of one client between its messages.
#[derive(Drop)]
pub struct Session {
    pub(crate) phase: Phase,
    pub(crate) options: Initialize,
    pub(crate) documents: OpenDocuments,
    pub(crate) cursors: Cursors,
}

impl Model for Session {
    ghost use Rattle.answers.specs.Sessions.{Seen};
    ghost use Rattle.sessions.specs.Options.{AreInRange};

    ghost Value = { Seen };

    ghost view = { λ s. record { phase = s.phase; options = s.options; documents = s.documents; lists = s.cursors } };

    ghost invariant = { λ s. AreInRange s.options };
}

/// The failure that a fault's code names.
fn failure_at(fault: &RpcFault) -> Failure
    ensures no_json { fault.now.code ≡ parse_error → result ≡ variant.ParseError }
    ensures no_message { fault.now.code ≡ invalid_request → result ≡ variant.InvalidRequest }
{
    if fault.code == -32_700 {
        Failure::ParseError
    } else {
        Failure::InvalidRequest
    }
}

/// The outcome of a body that is no message: a reply with the id that it shows, or with null.
#[tactic(auto, using(crate::proofs::Faulted::faulted))]
fn refuse(alloc: Global, fault: RpcFault) -> Result<Outcome, AllocError>
    ensures refused { (s : Seen) (h : Option Heard) (w : WorldState) → IsFaultOf h fault → Answered s (meaning_in s h) s (said_of result) w w }
{
    let failure = failure_at(&fault);
    let RpcFault { id, .. } = fault;
    match failure_reply(alloc, id.as_ref(), failure) {
        Ok(reply) => Ok(Outcome::Reply(reply)),
        Err(_) => match id {
            Some(id) => Ok(Outcome::NoMemory(id)),
            None => Err(AllocError),
        },
    }
}

impl Session {
    /// A session that waits for `initialize`. It takes no memory.
    pub fn new(alloc: Global) -> Session
        ensures start { result ≡ start }
    {
        Session {
            phase: Phase::Fresh,
            options: Initialize {
                limit: 4000,
                depth: 1,
                count: 20,
            },
            documents: OpenDocuments::new(alloc),
            cursors: Cursors::new(alloc),
        }
    }

    /// Takes one message. An Err is want of memory where nothing can be replied: the message couldn't be read, its
    /// reply has the id null, or the name of a document that is opened found no room. The session then ends.
    pub fn step<W: World>(
        &mut self,
        rt: &(impl Threads + Sync),
        alloc: Global,
        body: &[u8],
        world: &mut W,
    ) -> Result<Outcome, AllocError>
        ensures meets { Meets self.old body.now self.new (said_of result) (W.state world.old) (W.state world.new) }
    {
        match read_message(alloc, body) {
            Ok(Message::Request { id, method, params }) => {
                Ok(self.request(rt, alloc, id, method.as_str(), &params, world))
            }
            Ok(Message::Notice { method, params }) => {
                self.notice(alloc, method.as_str(), &params)
            }
            Ok(Message::Response) => Ok(Outcome::Silent),
            Err(RpcRefusal::Fault(fault)) => refuse(alloc, fault),
            Err(RpcRefusal::OutOfMemory) => Err(AllocError),
        }
    }
}
