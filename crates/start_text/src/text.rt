ghost use Rattle.std.specs.Prelude.{◌≡◌, ◌≤◌, List, length, Some, IfOk, IsErrOf, string_bytes};
ghost use Rattle.outside.specs.Held.{held_under, longest_load};
ghost use Rattle.outside.specs.declared.shelf.HeldFile.{HeldFile};
ghost use Rattle.start_text.specs.Faults.{Meets, LeavesShelf};
ghost use Rattle.start_text.specs.Starts.{text_fault};

use crate::fault::StartFault;
use outside::{Loaded, Shelf};
use std::alloc::Global;

/// The text of bytes that a shelf gave.
fn text_of(bytes: Vec<u8>) -> Result<String, StartFault>
    requires { length bytes.items ≤ longest_load }
    ensures fault { Meets (text_fault (Some bytes.items)) result }
    ensures text { IfOk result (λ text. string_bytes text ≡ bytes.items) }
    ensures inside { IsErrOf result StartFault.Failed → ⊥ }
{
    match String::from_utf8(bytes) {
        Ok(text) => Ok(text),
        Err(_) => Err(StartFault::NotUtf8),
    }
}

/// The start text of this name.
pub fn read_text<H: Shelf>(alloc: Global, shelf: &mut H, name: &str) -> Result<String, StartFault>
    ensures fault { (files : List HeldFile) → H.holds shelf.old ≡ Some files → Meets (text_fault (held_under files name.now)) result }
    ensures text { (files : List HeldFile) → H.holds shelf.old ≡ Some files → IfOk result (λ text. held_under files name.now ≡ Some (string_bytes text)) }
    ensures short { IfOk result (λ text. length (string_bytes text) ≤ longest_load) }
    ensures shelf { LeavesShelf (H.holds shelf.old) (H.holds shelf.new) (H.faults shelf.old) (H.faults shelf.new) result }
{
    let mut bytes = Vec::new(alloc);
    match shelf.load(name, &mut bytes)? {
        Loaded::Bytes => text_of(bytes),
        Loaded::Missing => Err(StartFault::NoText),
        Loaded::TooLong(_) => Err(StartFault::LongText),
    }
}
