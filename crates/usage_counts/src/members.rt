ghost use Rattle.std.specs.Prelude.{◌≡◌, ◌≢◌, ◌+◌, ◌*◌, ◌≤◌, true, false, get_or, IfOk, IfErr};
ghost use Rattle.code_walk.specs.declared.fault.WalkCause.TheVariants.{Place};
ghost use Rattle.usage_counts.specs.Uses.{names_field, names_member, index_at, opcode_at, member_at, is_named, key, key_of, listed, used};
ghost use Rattle.usage_counts.specs.Tallies.{key_at, key_if};

use class_pool::{Pool, decode_modified};
use code_walk::{Instr, WalkCause, WalkFault};
use lists::Text;
use std::alloc::{AllocError, Global};
use type_names::is_internal_name;

/// A member by its place of the pool, and whether it is a field.
#[derive(Clone, Copy, Debug, PartialEq, Eq)]
pub struct MemberPlace {
    pub place: u16,
    pub field: bool,
}

/// Whether an instruction with this opcode names a field.
fn names_field(opcode: u8) -> bool
    ensures { result ≡ names_field opcode }
{
    0xB2 <= opcode && opcode <= 0xB5
}

/// Whether an instruction with this opcode names a field or a method of the pool.
fn names_member(opcode: u8) -> bool
    ensures { result ≡ names_member opcode }
{
    names_field(opcode) || 0xB6 <= opcode && opcode <= 0xB9
}

fn byte_at(bytes: &[u8], at: usize) -> u8
    ensures { result ≡ get_or bytes.now at 0 }
{
    match bytes.get(at) {
        Some(byte) => *byte,
        None => 0,
    }
}

/// The index after the opcode of an instruction.
fn index_at(bytes: &[u8], i: &Instr) -> u16
    ensures { result ≡ index_at bytes.now i.now }
{
    let high = byte_at(bytes, i.at as usize + 1) as u16;
    let low = byte_at(bytes, i.at as usize + 2) as u16;
    256 * high + low
}

fn key_text(owner: Text, name: &Text, descriptor: &Text) -> Result<Text, AllocError>
    ensures { IfOk result (λ t. t ≡ key owner name.now descriptor.now) }
{
    let mut key = owner;
    key.push_str(".")?;
    key.push_str(name.as_str())?;
    key.push_str(":")?;
    key.push_str(descriptor.as_str())?;
    Ok(key)
}

/// The key of a member, by the bytes of its texts.
fn key_of(
    alloc: Global,
    owner: &[u8],
    name: &[u8],
    descriptor: &[u8],
) -> Result<Option<Text>, AllocError>
    ensures { IfOk result (λ o. o ≡ key_of (owner.now, name.now, descriptor.now)) }
{
    let Some(owner) = decode_modified(alloc, owner)? else {
        return Ok(None);
    };
    if !is_internal_name(owner.as_str()) {
        return Ok(None);
    }
    let Some(name) = decode_modified(alloc, name)? else {
        return Ok(None);
    };
    let Some(descriptor) = decode_modified(alloc, descriptor)? else {
        return Ok(None);
    };
    Ok(Some(key_text(owner, &name, &descriptor)?))
}

/// The member that an instruction names; or the place of its index where that isn't one of such a member.
pub fn member_of(pool: &Pool<'_>, bytes: &[u8], i: &Instr) -> Result<Option<MemberPlace>, WalkFault>
    requires { i.now.at ≤ 16777216 }
    ensures named { IfOk result (λ o. is_named pool.now.entries bytes.now i.now ≡ true) }
    ensures used { IfOk result (λ o. key_if pool.now.entries o ≡ used pool.now.entries bytes.now i.now) }
    ensures unnamed { IfErr result (λ fault. is_named pool.now.entries bytes.now i.now ≡ false) }
    ensures place { IfErr result (λ fault. fault ≡ record { at = i.now.at + 1; cause = Place }) }
{
    let opcode = byte_at(bytes, i.at as usize);
    if !names_member(opcode) {
        return Ok(None);
    }
    let place = index_at(bytes, i);
    let field = names_field(opcode);
    match pool.member(place, field) {
        Some(_) => Ok(Some(MemberPlace { place, field })),
        None => Err(WalkFault {
            at: i.at + 1,
            cause: WalkCause::Place,
        }),
    }
}

/// The key of a member by its place, where it has one.
pub fn key_at(
    alloc: Global,
    pool: &Pool<'_>,
    member: MemberPlace,
) -> Result<Option<Text>, AllocError>
    ensures { IfOk result (λ o. listed o ≡ key_at pool.now.entries member) }
{
    match pool.member(member.place, member.field) {
        Some((owner, name, descriptor)) => key_of(alloc, owner, name, descriptor),
        None => Ok(None),
    }
}
