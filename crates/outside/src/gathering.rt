ghost use Rattle.std.specs.Prelude.{◌≡◌, ◌≤◌, ◌++◌, ℕ, List, Option, [], OnOk, OnErr, IsErrOf};
ghost use Rattle.std.specs.Io.KnownBytes.{Appends};
ghost use Rattle.outside.specs.Causes.{Rose, HasCause};
ghost use Rattle.outside.specs.Gathered.{Gathered, WrotePrefix};
ghost use Rattle.outside.specs.declared.gathering.WriteFault.TheVariants.{Failed, OutOfMemory};

use crate::sink::{Sink, write_all};
use crate::source;
use std::alloc::{AllocError, Global};
use std::marker::Model;

/// So many bytes are gathered before they are handed over.
const PIECE: usize = 65_536;

/// Why bytes weren't written.
#[derive(Clone, Copy, Debug)]
pub enum WriteFault {
    Failed,
    OutOfMemory,
}

impl From<source::Failed> for WriteFault {
    ghost from_gives = { λ _ fault. fault ≡ Failed };

    fn from(_failed: source::Failed) -> WriteFault {
        WriteFault::Failed
    }
}

impl From<AllocError> for WriteFault {
    ghost from_gives = { λ _ fault. fault ≡ OutOfMemory };

    fn from(_error: AllocError) -> WriteFault {
        WriteFault::OutOfMemory
    }
}

/// Output that is gathered, and handed to a sink in pieces of 65,536 bytes or more; only the last piece
/// may be shorter. Contracts see the bytes that are still held.
#[derive(Drop)]
pub struct Gathering {
    held: Vec<u8>,
}

impl Model for Gathering {
    ghost use Rattle.std.specs.Prelude.{List, ℕ};

    ghost Value = { List ℕ };

    ghost view = { λ g. g.held.items };
}

impl Gathering {
    /// Nothing is held yet.
    pub fn new(alloc: Global) -> Gathering
        ensures { result ≡ [] }
    {
        Gathering {
            held: Vec::new(alloc),
        }
    }

    /// Adds bytes to what is held, and hands all of it over where it is long enough. After a fault a
    /// prefix of all bytes was written.
    pub fn put<K: Sink>(&mut self, sink: &mut K, bytes: &[u8]) -> Result<(), WriteFault>
        ensures added { OnOk result ((start : Option (List ℕ)) → (all : List ℕ) →
            Gathered start (K.written sink.old) self.old all
            → Gathered start (K.written sink.new) self.new (all ++ bytes.now)) }
        ensures prefix { OnErr result ((start : Option (List ℕ)) → (all : List ℕ) →
            Gathered start (K.written sink.old) self.old all
            → WrotePrefix start (K.written sink.new) (all ++ bytes.now)) }
        ensures no_memory { IsErrOf result WriteFault.OutOfMemory → (self.new ≡ self.old) × (sink.new ≡ sink.old) }
        ensures held { IsErrOf result WriteFault.Failed → self.new ≡ self.old ++ bytes.now }
        ensures later { K.faults sink.old ≤ K.faults sink.new }
        ensures cause { IsErrOf result WriteFault.Failed → Rose (K.faults sink.old) (K.faults sink.new) }
    {
        self.held.extend_from_slice(bytes)?;
        if self.held.len() < PIECE {
            return Ok(());
        }
        self.flush(sink)?;
        Ok(())
    }

    /// Hands over all that is held. It takes no memory. After a fault a prefix of all bytes was written.
    pub fn flush<K: Sink>(&mut self, sink: &mut K) -> Result<(), source::Failed>
        ensures empty { OnOk result (self.new ≡ []) }
        ensures all { OnOk result ((start : Option (List ℕ)) → (all : List ℕ) →
            Gathered start (K.written sink.old) self.old all
            → Appends start (K.written sink.new) all) }
        ensures prefix { OnErr result ((start : Option (List ℕ)) → (all : List ℕ) →
            Gathered start (K.written sink.old) self.old all
            → WrotePrefix start (K.written sink.new) all) }
        ensures held { OnErr result (self.new ≡ self.old) }
        ensures cause { HasCause (K.faults sink.old) (K.faults sink.new) result }
    {
        write_all(sink, self.held.as_slice())?;
        self.held.clear();
        Ok(())
    }
}
