ghost use Rattle.std.specs.Prelude.{◌≡◌, ◌≤◌, ◌-◌, ◌++◌, ◌==◌, ◌⊎◌, [], drop, take, length, vec_len, IfOk, OnErr, MatchResult, IsErrOf};
ghost use Rattle.std.specs.Io.KnownBytes.{Keeps};
ghost use Rattle.outside.specs.Causes.{Rose};
ghost use Rattle.json_rpc.specs.Streams.{Holds};

use crate::fault::FrameFault;
use outside::Source;
use std::alloc::{AllocError, Global};
use std::marker::Model;
use std::mem;

/// A body of so many bytes is handed over in the buffer that it was read into, where nothing follows it.
const LONG: usize = 65_536;

/// Bytes that were taken from a source and not given yet. Contracts see them. Given bytes stay in the
/// buffer until the next read, so each byte is moved a fixed number of times.
#[derive(Drop)]
pub struct Held {
    bytes: Vec<u8>,
    /// So many bytes of the buffer were given.
    given: usize,
}

impl Model for Held {
    ghost use Rattle.std.specs.Prelude.{List, ℕ, ◌≤◌, drop, length};

    ghost Value = { List ℕ };

    ghost view = { λ h. drop h.given h.bytes.items };

    ghost invariant = { λ h. h.given ≤ length h.bytes.items };
}

/// Drops the first n bytes.
fn drop_prefix(bytes: &mut Vec<u8>, n: usize)
    requires { n ≤ vec_len bytes.old }
    ensures { bytes.new.items ≡ drop n bytes.old.items }
{
    let left = bytes.len() - n;
    bytes.rotate_left(n);
    bytes.truncate(left);
}

impl Held {
    /// No bytes.
    pub fn new(alloc: Global) -> Held
        ensures { result ≡ [] }
    {
        Held {
            bytes: Vec::new(alloc),
            given: 0,
        }
    }

    /// How many bytes are held and not given yet.
    pub fn len(&self) -> usize
        ensures { result ≡ length self.now }
    {
        self.bytes.len() - self.given
    }

    /// Whether all bytes are given.
    pub fn is_empty(&self) -> bool
        ensures { result ≡ (length self.now == 0) }
    {
        self.bytes.len() == self.given
    }

    /// The bytes that are held and not given yet.
    pub fn as_slice(&self) -> &[u8]
        ensures { result.now ≡ self.now }
    {
        &self.bytes[self.given..]
    }

    /// Forgets the given bytes.
    fn compact(&mut self)
        ensures { self.new ≡ self.old }
    {
        let given = self.given;
        self.given = 0;
        drop_prefix(&mut self.bytes, given);
    }

    /// Takes at most `room` bytes from a source, by way of a piece, and answers how many.
    pub fn fill<S: Source>(
        &mut self,
        source: &mut S,
        piece: &mut [u8],
        room: usize,
    ) -> Result<usize, FrameFault>
        requires { room ≤ length piece.old }
        ensures bytes { MatchResult result
            (λ count. Holds self.old self.new (S.left source.old) (S.left source.new) count room)
            (λ e. (self.new ≡ self.old) × Keeps (S.left source.old) (S.left source.new) × ((e ≡ FrameFault.ReadFault) ⊎ (e ≡ FrameFault.OutOfMemory))) }
        ensures later { S.faults source.old ≤ S.faults source.new }
        ensures cause { IsErrOf result FrameFault.ReadFault → Rose (S.faults source.old) (S.faults source.new) }
    {
        if self.given > 0 {
            self.compact();
        }
        self.bytes.reserve(room)?;
        let count = source.read(&mut piece[..room])?;
        self.bytes.extend_from_slice(&piece[..count])?;
        Ok(count)
    }

    /// The bytes from a place up to an end. They are given, and those before them.
    pub fn take(&mut self, alloc: Global, from: usize, end: usize) -> Result<Vec<u8>, AllocError>
        requires order { from ≤ end }
        requires within { end ≤ length self.old }
        ensures body { IfOk result (λ v. v.items ≡ take (end - from) (drop from self.old)) }
        ensures rest { IfOk result (λ _. self.new ≡ drop end self.old) }
        ensures err { OnErr result (self.new ≡ self.old) }
    {
        if end - from >= LONG && end == self.len() {
            let bytes = mem::replace(&mut self.bytes, Vec::new(alloc));
            let start = self.given + from;
            self.given = 0;
            return Ok(without_prefix(bytes, start));
        }
        let body = Vec::from_slice(alloc, &self.as_slice()[from..end])?;
        self.given += end;
        Ok(body)
    }
}

/// The bytes after the first n.
fn without_prefix(bytes: Vec<u8>, n: usize) -> Vec<u8>
    requires { n ≤ vec_len bytes }
    ensures { result.items ≡ drop n bytes.items }
{
    let mut bytes = bytes;
    drop_prefix(&mut bytes, n);
    bytes
}
