ghost use Rattle.std.specs.Prelude.{◌≡◌, ◌≤◌, ◌+◌, ◌++◌, length, codes, decimal, IfOk, OnErr};
ghost use Rattle.std.specs.Vec.{vec_len, vec_capacity};
ghost use Rattle.decl_index.specs.History.{KeepsRanges};
ghost use Rattle.answers.specs.Messages.{publishes};
ghost use Rattle.answers.specs.Sessions.{Seen};
ghost use Rattle.sessions.specs.Changed.{IsChanged, OpensVersion};
ghost use Rattle.sessions.specs.Meets.{Answered};
ghost use Rattle.sessions.specs.Outcomes.{replied_or};
ghost use Rattle.sessions.specs.Publications.{Learns};

use crate::failure::Failure;
use crate::loading::{Files, load_files};
use crate::replies::{failure_reply, result_reply};
use crate::world::World;
use answers::NamedFiles;
use decl_index::{Change, ChangeFault};
use itoa::Buffer;
use json_rpc::Id;
use lists::{Items, Text};
use lsp_forms::make_version;
use std::alloc::{AllocError, Global};
use std::thread::Threads;

/// How many bytes a version and the end of its reply take at most.
const ROOM: usize = 12;

/// The reply that tells a version, up to the version, with room for the rest of it.
fn open_reply(alloc: Global, id: &Id) -> Result<Vec<u8>, AllocError>
    ensures opening { IfOk result (λ opening. OpensVersion id.now opening.items) }
    ensures room { IfOk result (λ opening. vec_len opening + ROOM ≤ vec_capacity opening) }
{
    let version = make_version(alloc, 0)?;
    let mut reply = result_reply(alloc, id, version)?;
    let end = reply.len() - 3;
    reply.truncate(end);
    reply.reserve(ROOM)?;
    Ok(reply)
}

/// Appends a piece for which there is room.
fn append(reply: &mut Vec<u8>, piece: &[u8])
    requires room { vec_len reply.old + length piece.now ≤ vec_capacity reply.old }
    ensures items { reply.new.items ≡ reply.old.items ++ piece.now }
    ensures capacity { vec_capacity reply.new ≡ vec_capacity reply.old }
{
    for byte in piece {
        reply.push_reserved(*byte);
    }
}

/// The reply with its version. It takes no memory.
fn tell_version(opening: Vec<u8>, number: u32) -> Vec<u8>
    requires room { vec_len opening + ROOM ≤ vec_capacity opening }
    ensures items { result.items ≡ opening.items ++ (decimal number ++ codes "}}") }
{
    let mut reply = opening;
    let mut digits = Buffer::new();
    append(&mut reply, digits.format(number).as_bytes());
    append(&mut reply, b"}}");
    reply
}

/// Makes a change, and answers its version or why it is refused. The reply has its room before the change is made, so
/// that want of memory leaves no change behind.
#[tactic(auto, using(crate::proofs::Changing::changes))]
pub fn make_change<W: World>(
    alloc: Global,
    id: &Id,
    change: Change,
    world: &mut W,
) -> Result<Vec<u8>, AllocError>
    requires ranges { KeepsRanges change }
    ensures changed { IfOk result (λ reply. IsChanged change id.now reply.items (W.state world.old) (W.state world.new)) }
    ensures no_memory { OnErr result (Learns (W.state world.old) (W.state world.new)) }
{
    let opening = open_reply(alloc, id)?;
    match world.publish(alloc, change) {
        Ok(number) => Ok(tell_version(opening, number)),
        Err(ChangeFault::OutOfMemory) => Err(AllocError),
        Err(fault) => failure_reply(alloc, Some(id), Failure::ChangeRefused(fault)),
    }
}

/// Publishes the classes of these files, removes the classes of these names, and sets the counts of uses: the files are
/// loaded first, and the first that gives nothing is answered.
pub fn publish<W: World>(
    rt: &(impl Threads + Sync),
    alloc: Global,
    id: &Id,
    files: &NamedFiles,
    removes: Items<Text>,
    counts: Items<(Text, u32)>,
    world: &mut W,
) -> Result<Vec<u8>, AllocError>
    ensures answered { (s : Seen) → Answered s (publishes id.now files.now removes counts) s (replied_or id.now result) (W.state world.old) (W.state world.new) }
{
    match load_files(rt, alloc, world, files)? {
        Files::Classes(puts) => {
            let change = Change::Publish {
                puts,
                removes,
                counts,
            };
            make_change(alloc, id, change, world)
        }
        Files::Missing(index) => {
            failure_reply(alloc, Some(id), Failure::InvalidParams { cause: 9, index })
        }
        Files::TooLong(index) => {
            failure_reply(alloc, Some(id), Failure::InvalidParams { cause: 10, index })
        }
        Files::NoClass {
            index,
            class,
            place,
        } => failure_reply(
            alloc,
            Some(id),
            Failure::NoClass {
                index,
                class,
                place,
            },
        ),
        Files::NoText(index) => {
            failure_reply(alloc, Some(id), Failure::InvalidParams { cause: 21, index })
        }
        Files::Unreadable(index) => { failure_reply(alloc, Some(id), Failure::ReadFault { index }) }
    }
}
