ghost use Rattle.std.specs.Prelude.{◌≡◌, ◌<◌, ◌≤◌, length, take, IfOk, IfSome, OnErr, IsErrOf};
ghost use Rattle.std.specs.Io.KnownBytes.{Consumes, IsAtEnd};
ghost use Rattle.outside.specs.Causes.{Rose};
ghost use Rattle.outside.specs.Taken.{Took};
ghost use Rattle.outside.specs.declared.reading.ReadFault.TheVariants.{Failed, OutOfMemory};

use crate::source::{self, Source};
use std::alloc::{AllocError, Global};

/// The most bytes that are asked for at a time.
const PIECE: usize = 65_536;

/// Why bytes weren't read.
#[derive(Clone, Copy, Debug)]
pub enum ReadFault {
    Failed,
    OutOfMemory,
}

impl From<source::Failed> for ReadFault {
    ghost from_gives = { λ _ fault. fault ≡ Failed };

    fn from(_failed: source::Failed) -> ReadFault {
        ReadFault::Failed
    }
}

impl From<AllocError> for ReadFault {
    ghost from_gives = { λ _ fault. fault ≡ OutOfMemory };

    fn from(_error: AllocError) -> ReadFault {
        ReadFault::OutOfMemory
    }
}

/// The bytes up to the end, or the first `limit` of them. They are asked for in pieces of at most 65,536
/// bytes. After a fault the bytes that were taken are gone,
/// at most the first `limit` of them.
pub fn read_up_to<S: Source>(
    alloc: Global,
    source: &mut S,
    limit: usize,
) -> Result<Vec<u8>, ReadFault>
    ensures bytes { IfOk result (λ v. Consumes (S.left source.old) (S.left source.new) v.items) }
    ensures bound { IfOk result (λ v. length v.items ≤ limit) }
    ensures end { IfOk result (λ v. length v.items < limit → IsAtEnd (S.left source.new)) }
    ensures exact { IfOk result (λ v. IfSome (S.left source.old) (λ bytes. v.items ≡ take limit bytes)) }
    ensures taken { OnErr result (Took limit (S.left source.old) (S.left source.new)) }
    ensures later { S.faults source.old ≤ S.faults source.new }
    ensures cause { IsErrOf result ReadFault.Failed → Rose (S.faults source.old) (S.faults source.new) }
{
    let mut buf = room_for_a_piece(alloc)?;
    read_through(alloc, source, buf.as_mut_slice(), limit)
}

/// Room for one piece, on the heap.
fn room_for_a_piece(alloc: Global) -> Result<Vec<u8>, AllocError>
    ensures { IfOk result (λ v. 0 < length v.items) }
{
    let buf = vec![in alloc; 0u8; PIECE]?;
    Ok(buf)
}

/// The bytes up to the end, or the first `limit` of them, in pieces no longer than `buf`.
fn read_through<S: Source>(
    alloc: Global,
    source: &mut S,
    buf: &mut [u8],
    limit: usize,
) -> Result<Vec<u8>, ReadFault>
    requires { 0 < length buf.old }
    ensures bytes { IfOk result (λ v. Consumes (S.left source.old) (S.left source.new) v.items) }
    ensures bound { IfOk result (λ v. length v.items ≤ limit) }
    ensures end { IfOk result (λ v. length v.items < limit → IsAtEnd (S.left source.new)) }
    ensures exact { IfOk result (λ v. IfSome (S.left source.old) (λ bytes. v.items ≡ take limit bytes)) }
    ensures taken { OnErr result (Took limit (S.left source.old) (S.left source.new)) }
    ensures later { S.faults source.old ≤ S.faults source.new }
    ensures cause { IsErrOf result ReadFault.Failed → Rose (S.faults source.old) (S.faults source.new) }
{
    let mut bytes = Vec::new(alloc);
    while bytes.len() < limit {
        let room = (limit - bytes.len()).min(buf.len());
        let count = source.read(&mut buf[..room])?;
        if count == 0 {
            return Ok(bytes);
        }
        bytes.extend_from_slice(&buf[..count])?;
    }
    Ok(bytes)
}
