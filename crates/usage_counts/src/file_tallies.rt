ghost use Rattle.std.specs.Prelude.{◌≡◌, ◌≢◌, ◌≤◌, List, length, IfOk, IfErr, MatchResult};
ghost use Rattle.std.specs.List.{AllByRecursion, flat_map};
ghost use Rattle.class_pool.specs.Spelling.{Head, IsPoolOf};
ghost use Rattle.class_shape.specs.Layout.{HasLayout};
ghost use Rattle.code_walk.specs.declared.fault.WalkFault.{WalkFault};
ghost use Rattle.code_walk.specs.declared.fault.WalkCause.TheVariants.{OutOfMemory};
ghost use Rattle.code_walk.specs.Faults.{no_memory};
ghost use Rattle.usage_counts.specs.Counts.{Key};
ghost use Rattle.usage_counts.specs.Files.{LiesIn, UsesOfCodes, IsFaultOfCodes, AreUses, IsUseFault, OneWalk};
ghost use Rattle.usage_counts.specs.Tallies.{key_at, AreTold};

use crate::code_members::add_code;
use crate::members::MemberPlace;
use crate::tallies::{KeyTally, key_tallies};
use class_pool::{Pool, read_pool};
use code_walk::{WalkCause, WalkFault, codes, list_or_fault, one_fault, one_list};
use std::alloc::Global;

/// The members that these codes name.
fn members_of(
    alloc: Global,
    pool: &Pool<'_>,
    bytes: &[u8],
    ranges: &[(u32, u32)],
) -> Result<Vec<MemberPlace>, WalkFault>
    requires small { length bytes.now ≤ 16777216 }
    requires within { AllByRecursion (LiesIn (length bytes.now)) ranges.now }
    ensures found { IfOk result (λ members. UsesOfCodes pool.now.entries bytes.now ranges.now (flat_map (key_at pool.now.entries) members.items)) }
    ensures first { IfErr result (λ fault. fault.cause ≢ OutOfMemory → IsFaultOfCodes pool.now.entries bytes.now ranges.now fault) }
    ensures memory { IfErr result (λ fault. fault.cause ≡ OutOfMemory → fault.at ≡ 0) }
{
    let mut members = Vec::new(alloc);
    for range in ranges {
        add_code(alloc, pool, bytes, *range, &mut members)?;
    }
    Ok(members)
}

/// How often these codes use each key.
fn tallies_of(
    alloc: Global,
    pool: &Pool<'_>,
    bytes: &[u8],
    ranges: &[(u32, u32)],
) -> Result<Vec<KeyTally>, WalkFault>
    requires small { length bytes.now ≤ 16777216 }
    requires within { AllByRecursion (LiesIn (length bytes.now)) ranges.now }
    ensures found { IfOk result (λ tallies. (keys : List Key) × UsesOfCodes pool.now.entries bytes.now ranges.now keys × AreTold tallies.items keys) }
    ensures first { IfErr result (λ fault. fault.cause ≢ OutOfMemory → IsFaultOfCodes pool.now.entries bytes.now ranges.now fault) }
    ensures memory { IfErr result (λ fault. fault.cause ≡ OutOfMemory → fault.at ≡ 0) }
{
    let members = members_of(alloc, pool, bytes, ranges)?;
    Ok(key_tallies(alloc, pool, &members)?)
}

/// The pool of a class file, whose bytes have one: the only fault is want of memory.
fn pool_of(alloc: Global, bytes: &[u8]) -> Result<Pool<'_>, WalkFault>
    requires { length bytes.now ≤ 16777216 }
    ensures found { IfOk result (λ pool. IsPoolOf bytes.now pool) }
    ensures only { IfOk result (λ pool. (other : Head) → IsPoolOf bytes.now other → other ≡ pool) }
    ensures memory { IfErr result (λ fault. fault ≡ no_memory) }
{
    match read_pool(alloc, bytes) {
        Ok(pool) => Ok(pool),
        Err(_) => Err(WalkFault {
            at: 0,
            cause: WalkCause::OutOfMemory,
        }),
    }
}

/// The laws of instructions, for what is answered below.
fn one_walk()
    ensures { OneWalk }
{
    one_list();
    one_fault();
    list_or_fault();
}

/// How often a class file uses each key, or its first fault.
pub fn file_tallies(alloc: Global, bytes: &[u8]) -> Result<Vec<KeyTally>, WalkFault>
    requires small { length bytes.now ≤ 16777216 }
    requires layout { HasLayout bytes.now }
    ensures found { IfOk result (λ tallies. (keys : List Key) × AreUses bytes.now keys × AreTold tallies.items keys) }
    ensures only { (keys : List Key) → AreUses bytes.now keys → MatchResult result (λ tallies. AreTold tallies.items keys) (λ fault. fault ≡ no_memory) }
    ensures first { IfErr result (λ fault. fault.cause ≢ OutOfMemory → IsUseFault bytes.now fault) }
    ensures refused { (fault : WalkFault) → IsUseFault bytes.now fault → MatchResult result (λ _. ⊥) (λ answered. answered ≢ no_memory → answered ≡ fault) }
    ensures memory { IfErr result (λ fault. fault.cause ≡ OutOfMemory → fault.at ≡ 0) }
{
    one_walk();
    let ranges = codes(alloc, bytes)?;
    let pool = pool_of(alloc, bytes)?;
    match tallies_of(alloc, &pool, bytes, &ranges) {
        Ok(tallies) => Ok(tallies),
        Err(fault) => Err(fault),
    }
}
