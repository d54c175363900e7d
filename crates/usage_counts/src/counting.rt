ghost use Rattle.std.specs.Prelude.{◌≡◌, ◌≢◌, ◌≤◌, List, length, OnOk, OnErr, IfErr, MatchResult};
ghost use Rattle.class_shape.specs.declared.shapes.ClassShape.{ClassShape};
ghost use Rattle.class_shape.specs.Shapes.{IsClassFile};
ghost use Rattle.code_walk.specs.declared.fault.WalkFault.{WalkFault};
ghost use Rattle.code_walk.specs.declared.fault.WalkCause.TheVariants.{OutOfMemory};
ghost use Rattle.code_walk.specs.Faults.{no_memory};
ghost use Rattle.usage_counts.specs.Counts.{Key, AreAdded};
ghost use Rattle.usage_counts.specs.Files.{AreUses, IsUseFault};

use crate::additions::add_all;
use crate::counts::Counts;
use crate::file_tallies::file_tallies;
use code_walk::WalkFault;
use std::alloc::Global;

/// Adds the uses in a class file that `read_class` accepts. An instruction uses the field or the method that it names,
/// under the class that it names, where the class, the name and the descriptor can be decoded and the class has an
/// internal name, so that members of arrays don't count; `invokedynamic` uses none. The first fault is that of the
/// `Code` attributes (Attribute), and then code by code that of its instructions (Opcode, Cut, Switch) before the
/// first index that isn't one of such a member (Place, at the index). After a fault the counts are as they were.
/// Memory for a use is taken while the file is counted, and for each new key.
pub fn count_file(alloc: Global, bytes: &[u8], counts: &mut Counts) -> Result<(), WalkFault>
    requires small { length bytes.now ≤ 16777216 }
    requires class { (shape : ClassShape) × IsClassFile bytes.now shape }
    // The uses in the file are added, held at 4,294,967,295, and no other key is changed.
    ensures added { OnOk result ((keys : List Key) × AreUses bytes.now keys × AreAdded counts.old keys counts.new) }
    // A file whose instructions name their members is counted, unless memory runs out.
    ensures only { (keys : List Key) → AreUses bytes.now keys → MatchResult result (λ _. AreAdded counts.old keys counts.new) (λ fault. fault ≡ no_memory) }
    // A fault is the first of the file.
    ensures first { IfErr result (λ fault. fault.cause ≢ OutOfMemory → IsUseFault bytes.now fault) }
    // It is answered, unless memory runs out.
    ensures refused { (fault : WalkFault) → IsUseFault bytes.now fault → MatchResult result (λ _. ⊥) (λ answered. answered ≢ no_memory → answered ≡ fault) }
    // Want of memory has no place.
    ensures memory { IfErr result (λ fault. fault.cause ≡ OutOfMemory → fault.at ≡ 0) }
    // After a fault the counts are as before.
    ensures unchanged { OnErr result (counts.new ≡ counts.old) }
{
    let tallies = file_tallies(alloc, bytes)?;
    add_all(alloc, &mut counts.uses, &tallies)?;
    Ok(())
}
