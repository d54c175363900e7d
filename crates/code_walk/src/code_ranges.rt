ghost use Rattle.std.specs.Prelude.{◌≡◌, ◌≢◌, ◌≤◌, ℕ, List, length, IfOk, IfErr, MatchResult};
ghost use Rattle.class_pool.specs.Reading.{Gives};
ghost use Rattle.class_shape.specs.Layout.{HasLayout};
ghost use Rattle.code_walk.specs.declared.fault.WalkFault.{WalkFault};
ghost use Rattle.code_walk.specs.declared.fault.WalkCause.TheVariants.{OutOfMemory};
ghost use Rattle.code_walk.specs.Code.{AreCodes, IsCodeFault};
ghost use Rattle.code_walk.specs.CodeReading.{codes_read, told, told_cause};
ghost use Rattle.code_walk.specs.Faults.{no_memory};

use crate::code_attribute::all_ranges;
use crate::fault::{WalkCause, WalkFault};
use class_pool::{ClassCause, ClassFault, read_pool};
use class_shape::method_attributes;
use std::alloc::Global;

/// A cause of the reading as one of the walk: the only one that bytes have here is that of an attribute.
fn told_cause(cause: ClassCause) -> WalkCause
    ensures { result ≡ told_cause cause }
{
    match cause {
        ClassCause::OutOfMemory => WalkCause::OutOfMemory,
        ClassCause::Truncated | ClassCause::Magic | ClassCause::Version => WalkCause::Attribute,
        ClassCause::Tag | ClassCause::Place | ClassCause::Extra => WalkCause::Attribute,
        ClassCause::Descriptor | ClassCause::Name | ClassCause::Attribute => WalkCause::Attribute,
    }
}

fn told(fault: ClassFault) -> WalkFault
    ensures { result ≡ told fault }
{
    WalkFault {
        at: fault.at,
        cause: told_cause(fault.cause),
    }
}

#[tactic(auto, unfolding(crate::specs::CodeReading::codes_read))]
fn codes_in(alloc: Global, bytes: &[u8]) -> Result<Vec<(u32, u32)>, ClassFault>
    requires { length bytes.now ≤ 16777216 }
    ensures { Gives (λ v. v.items) result (codes_read bytes.now) }
{
    let pool = read_pool(alloc, bytes)?;
    let methods = method_attributes(alloc, bytes)?;
    all_ranges(alloc, &pool, &methods)
}

/// The code of a class file: the places of the first byte and of the one after the last, for each `Code`
/// attribute of each method in file order, abstract and native ones too. A `Code` inside a `Code` isn't looked
/// at. Or the place of the length of the first `Code` attribute whose parts don't fill it (Attribute).
pub fn codes(alloc: Global, bytes: &[u8]) -> Result<Vec<(u32, u32)>, WalkFault>
    requires small { length bytes.now ≤ 16777216 }
    requires layout { HasLayout bytes.now }
    // What is answered are the ranges of all code.
    ensures found { IfOk result (λ v. AreCodes bytes.now v.items) }
    // These are answered, unless memory runs out.
    ensures only { (ranges : List (ℕ × ℕ)) → AreCodes bytes.now ranges → MatchResult result (λ v. v.items ≡ ranges) (λ fault. fault ≡ no_memory) }
    // A fault is the first `Code` attribute that isn't one.
    ensures first { IfErr result (λ fault. fault.cause ≢ OutOfMemory → IsCodeFault bytes.now fault) }
    // It is answered, unless memory runs out.
    ensures refused { (fault : WalkFault) → IsCodeFault bytes.now fault → MatchResult result (λ _. ⊥) (λ answered. answered ≢ no_memory → answered ≡ fault) }
    // Want of memory has no place.
    ensures memory { IfErr result (λ fault. fault.cause ≡ OutOfMemory → fault.at ≡ 0) }
{
    match codes_in(alloc, bytes) {
        Ok(ranges) => Ok(ranges),
        Err(fault) => Err(told(fault)),
    }
}
