ghost use Rattle.std.specs.Prelude.{◌≡◌, ◌≢◌, ◌+◌, ◌≤◌, ◌++◌, List, length, OnOk, IfErr};
ghost use Rattle.std.specs.List.{All, flat_map};
ghost use Rattle.code_walk.specs.declared.fault.WalkCause.TheVariants.{OutOfMemory};
ghost use Rattle.usage_counts.specs.Counts.{Key};
ghost use Rattle.usage_counts.specs.Uses.{used};
ghost use Rattle.usage_counts.specs.Files.{AreNamed, UsesOfCode, IsPlaceFault, IsFaultOfCode};
ghost use Rattle.usage_counts.specs.Tallies.{key_at};

use crate::members::{MemberPlace, member_of};
use class_pool::Pool;
use code_walk::{Instr, WalkFault, instructions};
use std::alloc::Global;

/// Adds the members that these instructions name.
fn add_members(
    pool: &Pool<'_>,
    bytes: &[u8],
    list: &[Instr],
    members: &mut Vec<MemberPlace>,
) -> Result<(), WalkFault>
    requires { All (λ i. i.at ≤ 16777216) list.now }
    ensures named { OnOk result (AreNamed pool.now.entries bytes.now list.now) }
    ensures used { OnOk result (flat_map (key_at pool.now.entries) members.new.items ≡ flat_map (key_at pool.now.entries) members.old.items ++ flat_map (used pool.now.entries bytes.now) list.now) }
    ensures first { IfErr result (λ fault. fault.cause ≢ OutOfMemory → IsPlaceFault pool.now.entries bytes.now list.now fault) }
    ensures memory { IfErr result (λ fault. fault.cause ≡ OutOfMemory → fault.at ≡ 0) }
{
    for i in list {
        if let Some(member) = member_of(pool, bytes, i)? {
            members.push(member)?;
        }
    }
    Ok(())
}

/// Adds the members that a code names.
pub fn add_code(
    alloc: Global,
    pool: &Pool<'_>,
    bytes: &[u8],
    code: (u32, u32),
    members: &mut Vec<MemberPlace>,
) -> Result<(), WalkFault>
    requires small { length bytes.now ≤ 16777216 }
    requires in_order { code.0 ≤ code.1 }
    requires in_file { code.1 ≤ length bytes.now }
    ensures found { OnOk result ((more : List Key) × UsesOfCode pool.now.entries bytes.now code more × (flat_map (key_at pool.now.entries) members.new.items ≡ flat_map (key_at pool.now.entries) members.old.items ++ more)) }
    ensures first { IfErr result (λ fault. fault.cause ≢ OutOfMemory → IsFaultOfCode pool.now.entries bytes.now code fault) }
    ensures memory { IfErr result (λ fault. fault.cause ≡ OutOfMemory → fault.at ≡ 0) }
{
    let list = instructions(alloc, bytes, code)?;
    add_members(pool, bytes, &list, members)
}
