ghost use Rattle.std.specs.Prelude.{◌≡◌, fold, map, IfOk};
ghost use Rattle.offers.specs.Grouping.{AreGroups};
ghost use Rattle.offers.specs.Hashing.{mixed, text_hash, base_hash, type_hash, call_hash, count_hash};

use crate::groups::Groups;
use crate::member::Member;
use std::alloc::{AllocError, Global};
use type_names::{Base, Erased};

/// A hash with one number more.
fn mixed(hash: u64, more: u64) -> u64
    ensures { result ≡ mixed hash more }
{
    hash.wrapping_mul(131).wrapping_add(more)
}

/// A hash with a text more.
#[tactic(auto, unfolding(crate::specs::Hashing::text_hash))]
pub(crate) fn text_hash(hash: u64, text: &str) -> u64
    ensures { result ≡ text_hash hash text.now }
{
    let mut whole = hash;
    for byte in text.as_bytes() {
        whole = mixed(whole, u64::from(*byte));
    }
    whole
}

/// A hash with a type without its dimensions more.
fn base_hash(hash: u64, base: &Base) -> u64
    ensures { result ≡ base_hash hash base.now }
{
    match base {
        Base::Byte => mixed(hash, 66),
        Base::Char => mixed(hash, 67),
        Base::Double => mixed(hash, 68),
        Base::Float => mixed(hash, 70),
        Base::Int => mixed(hash, 73),
        Base::Long => mixed(hash, 74),
        Base::Short => mixed(hash, 83),
        Base::Boolean => mixed(hash, 90),
        Base::Class(name) => text_hash(mixed(hash, 76), name.as_str()),
    }
}

/// A hash with types more.
fn types_hash(hash: u64, kinds: &[Erased]) -> u64
    ensures { result ≡ fold type_hash hash kinds.now }
{
    let mut whole = hash;
    for kind in kinds {
        whole = base_hash(whole, &kind.base);
    }
    whole
}

/// The hash of a member's name and parameter types.
#[tactic(auto, unfolding(crate::specs::Hashing::call_hash))]
pub(crate) fn call_hash(member: &Member) -> u64
    ensures { result ≡ call_hash member.now }
{
    let name = text_hash(0, member.name.as_str());
    types_hash(name, member.params.as_slice())
}

/// The hash of a member's name and number of parameters.
#[tactic(auto, unfolding(crate::specs::Hashing::count_hash))]
pub(crate) fn count_hash(member: &Member) -> u64
    ensures { result ≡ count_hash member.now }
{
    text_hash(member.params.len() as u64, member.name.as_str())
}

/// Members in groups by their names and parameter types.
pub(crate) fn call_groups(alloc: Global, members: &[Member]) -> Result<Groups, AllocError>
    ensures { IfOk result (λ groups. AreGroups (map call_hash members.now) groups) }
{
    let mut groups = Groups::new(alloc, members.len())?;
    for i in 0..members.len() {
        groups = groups.with(call_hash(&members[i]), i)?;
    }
    Ok(groups)
}

/// Members in groups by their names and numbers of parameters.
pub(crate) fn count_groups(alloc: Global, members: &[Member]) -> Result<Groups, AllocError>
    ensures { IfOk result (λ groups. AreGroups (map count_hash members.now) groups) }
{
    let mut groups = Groups::new(alloc, members.len())?;
    for i in 0..members.len() {
        groups = groups.with(count_hash(&members[i]), i)?;
    }
    Ok(groups)
}
