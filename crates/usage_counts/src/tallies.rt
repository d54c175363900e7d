ghost use Rattle.std.specs.Prelude.{◌≡◌, ◌+◌, ◌*◌, ℕ, IsTrue, IfOk, OnOk};
ghost use Rattle.std.specs.List.{flat_map, sum_by};
ghost use Rattle.usage_counts.specs.declared.members.MemberPlace.{MemberPlace};
ghost use Rattle.usage_counts.specs.Counts.{Key, times};
ghost use Rattle.usage_counts.specs.Uses.{listed};
ghost use Rattle.usage_counts.specs.Tallies.{key_at, places_sum, amount, AreTold, IsRoomAt};

use crate::members::{MemberPlace, key_at};
use class_pool::Pool;
use lists::Text;
use std::alloc::{AllocError, Global};

/// How often a file uses the member at a place.
#[derive(Clone, Copy, Debug)]
pub struct PlaceTally {
    pub member: MemberPlace,
    pub number: u32,
}

/// How often a file uses a key.
#[derive(Debug, Drop)]
pub struct KeyTally {
    pub key: Text,
    pub number: u32,
}

/// Whether a tally is the member's, and one more use fits in.
fn is_room_at(tallies: &[PlaceTally], slot: usize, member: MemberPlace) -> bool
    ensures { IsTrue result → IsRoomAt tallies.now slot member }
{
    match tallies.get(slot) {
        Some(tally) => tally.member == member && tally.number < u32::MAX,
        None => false,
    }
}

/// One use more in a tally.
fn raise(tallies: &mut [PlaceTally], slot: usize, member: MemberPlace)
    requires { IsRoomAt tallies.old slot member }
    ensures { (f : MemberPlace → ℕ) → places_sum f tallies.new ≡ places_sum f tallies.old + f member }
{
    let number = tallies[slot].number + 1;
    tallies[slot] = PlaceTally { member, number };
}

/// Where the tally of a place stands, if it has one yet.
fn slot_of(slots: &[u32], place: u16) -> usize {
    match slots.get(place as usize) {
        Some(slot) => *slot as usize,
        None => 0,
    }
}

fn set_slot(slots: &mut [u32], place: u16, slot: u32) {
    if let Some(old) = slots.get_mut(place as usize) {
        *old = slot;
    }
}

/// One use more of a member, in its tally or in a new one.
fn count_member(
    slots: &mut [u32],
    tallies: &mut Vec<PlaceTally>,
    member: MemberPlace,
) -> Result<(), AllocError>
    ensures { (f : MemberPlace → ℕ) → OnOk result (places_sum f tallies.new.items ≡ places_sum f tallies.old.items + f member) }
{
    let slot = slot_of(slots, member.place);
    if is_room_at(tallies, slot, member) {
        raise(tallies, slot, member);
        return Ok(());
    }
    set_slot(slots, member.place, tallies.len().min(4_294_967_295) as u32);
    tallies.push(PlaceTally { member, number: 1 })?;
    Ok(())
}

/// Room for where the tally of each place stands.
fn no_slots(alloc: Global, members: &[MemberPlace]) -> Result<Vec<u32>, AllocError> {
    let most = members.iter().map(|m| m.place).max().unwrap_or(0);
    vec![in alloc; 0; most as usize + 1]
}

/// How often the members at their places are used.
fn tallies_of(alloc: Global, members: &[MemberPlace]) -> Result<Vec<PlaceTally>, AllocError>
    ensures { IfOk result (λ v. (f : MemberPlace → ℕ) → places_sum f v.items ≡ sum_by f members.now) }
{
    let mut slots = no_slots(alloc, members)?;
    let mut tallies = Vec::new(alloc);
    for member in members {
        count_member(&mut slots, &mut tallies, *member)?;
    }
    Ok(tallies)
}

/// So many uses of a key, where there is one.
fn push_key(keys: &mut Vec<KeyTally>, key: Option<Text>, number: u32) -> Result<(), AllocError>
    ensures { (q : Key) → OnOk result (amount q keys.new.items ≡ amount q keys.old.items + number * times q (listed key)) }
{
    match key {
        Some(key) => {
            keys.push(KeyTally { key, number })?;
            Ok(())
        }
        None => Ok(()),
    }
}

/// The same by keys. What has no key isn't among them.
fn keys_of(
    alloc: Global,
    pool: &Pool<'_>,
    tallies: &[PlaceTally],
) -> Result<Vec<KeyTally>, AllocError>
    ensures { IfOk result (λ v. (q : Key) → amount q v.items ≡ places_sum (λ m. times q (key_at pool.now.entries m)) tallies.now) }
{
    let mut keys = Vec::new(alloc);
    for tally in tallies {
        let key = key_at(alloc, pool, tally.member)?;
        push_key(&mut keys, key, tally.number)?;
    }
    Ok(keys)
}

/// How often the keys of these members are used.
pub fn key_tallies(
    alloc: Global,
    pool: &Pool<'_>,
    members: &[MemberPlace],
) -> Result<Vec<KeyTally>, AllocError>
    ensures { IfOk result (λ v. AreTold v.items (flat_map (key_at pool.now.entries) members.now)) }
{
    let tallies = tallies_of(alloc, members)?;
    match keys_of(alloc, pool, &tallies) {
        Ok(keys) => Ok(keys),
        Err(error) => Err(error),
    }
}
