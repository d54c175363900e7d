ghost use Rattle.std.specs.Prelude.{◌≡◌, ◌≤◌, ℕ, List, [], Option, length, IfOk, OnErr, IfSome, IsErrOf};
ghost use Rattle.outside.specs.Causes.{Rose};
ghost use Rattle.outside.specs.Held.{held_under, Gives, Leaves};
ghost use Rattle.outside.specs.declared.shelf.HeldFile.{HeldFile};
ghost use Rattle.outside.specs.declared.shelf.LoadFault.TheVariants.{OutOfMemory};

use lists::{Items, Text};
use std::alloc::AllocError;

/// The most bytes that a load gives.
pub const LONGEST_LOAD: usize = 16_777_216;

/// A file in memory, under its name.
#[derive(Debug, Drop)]
pub struct HeldFile {
    pub name: Text,
    pub bytes: Items<u8>,
}

/// What a load found. `TooLong` has the length in bytes.
#[derive(Clone, Copy, Debug)]
pub enum Loaded {
    Bytes,
    Missing,
    TooLong(u64),
}

/// Why a load found nothing out.
#[derive(Clone, Copy, Debug)]
pub enum LoadFault {
    Failed,
    OutOfMemory,
}

impl From<AllocError> for LoadFault {
    ghost from_gives = { λ _ fault. fault ≡ OutOfMemory };

    fn from(_error: AllocError) -> LoadFault {
        LoadFault::OutOfMemory
    }
}

/// Files by their names. A shelf may tell what it holds, and counts its faults.
pub trait Shelf {
    ghost holds: { Self → Option (List HeldFile) };

    ghost faults: { Self → ℕ };

    /// How often the shelf has failed; it stands still at the end of its type.
    fn faults(&self) -> u64
        ensures { result ≡ faults self.now };

    /// Puts the bytes held under the name in place of what `out` holds. `out` is empty after every
    /// other answer than `Bytes`.
    fn load(&mut self, name: &str, out: &mut Vec<u8>) -> Result<Loaded, LoadFault>
        ensures answer { IfOk result (λ loaded. IfSome (holds self.old) (λ files.
            Gives (held_under files name.now) loaded out.new.items)) }
        ensures bound { IfOk result (λ loaded. Leaves loaded out.new.items) }
        ensures empty { OnErr result (out.new.items ≡ []) }
        ensures unchanged { holds self.new ≡ holds self.old }
        ensures later { faults self.old ≤ faults self.new }
        ensures cause { IsErrOf result LoadFault.Failed → Rose (faults self.old) (faults self.new) };
}

/// Loads from a list of files: the first one of that name counts.
#[tactic(auto, unfolding(crate::specs::Held::held_under, crate::specs::Held::answer_for))]
pub(crate) fn load_held(
    files: &[HeldFile],
    name: &str,
    out: &mut Vec<u8>,
) -> Result<Loaded, AllocError>
    ensures answer { IfOk result (λ loaded. Gives (held_under files.now name.now) loaded out.new.items) }
    ensures bound { IfOk result (λ loaded. Leaves loaded out.new.items) }
    ensures empty { OnErr result (out.new.items ≡ []) }
{
    for file in files {
        if file.name.as_str() == name {
            return load_bytes(file.bytes.as_slice(), out);
        }
    }
    out.clear();
    Ok(Loaded::Missing)
}

/// Loads bytes that are held.
#[tactic(auto, unfolding(crate::specs::Held::answer_for))]
fn load_bytes(bytes: &[u8], out: &mut Vec<u8>) -> Result<Loaded, AllocError>
    ensures answer { IfOk result (λ loaded. Gives (Option.Some bytes.now) loaded out.new.items) }
    ensures bound { IfOk result (λ loaded. Leaves loaded out.new.items) }
    ensures empty { OnErr result (out.new.items ≡ []) }
{
    out.clear();
    if bytes.len() > LONGEST_LOAD {
        return Ok(Loaded::TooLong(bytes.len() as u64));
    }
    out.extend_from_slice(bytes)?;
    Ok(Loaded::Bytes)
}
