ghost use Rattle.std.specs.Prelude.{◌≡◌, ◌≤◌, ◌-◌, ◌+◌, length, IfOk};
ghost use Rattle.class_pool.specs.Reading.{number_at, on_ok, Gives};
ghost use Rattle.class_shape.specs.Reading.{rest_of, index_at, own_at, attribute_at, member_at, row_at, many_at};
ghost use Rattle.class_shape.specs.Views.{Reads};

use crate::unread::Unread;
use class_pool::{ClassFault, block_of, u16_at, u32_at};
use std::marker::Model;

/// An index into the pool, and its place in the file.
#[derive(Clone, Copy, Debug)]
pub struct IndexAt {
    pub at: u32,
    pub index: u16,
}

/// A field or method.
#[derive(Clone, Copy, Debug)]
pub struct MemberAt {
    pub flags: u16,
    pub name: IndexAt,
    pub descriptor: IndexAt,
}

/// The flags, this class and the super class.
#[derive(Clone, Copy, Debug)]
pub struct OwnAt {
    pub flags: u16,
    pub this: IndexAt,
    pub parent: IndexAt,
}

/// A row of `InnerClasses`.
#[derive(Clone, Copy, Debug)]
pub struct RowAt {
    pub inner: IndexAt,
    pub outer: IndexAt,
    pub name: IndexAt,
    pub flags: u16,
}

/// A class attribute: its name, the place of its length, its bytes, and the place where they end.
#[derive(Drop)]
pub struct AttributeAt<'a> {
    pub name: IndexAt,
    pub len_at: u32,
    pub end: u32,
    pub body: &'a [u8],
}

impl<'a> Model for AttributeAt<'a> {
    ghost use Rattle.std.specs.Prelude.{length, ◌≤◌};
    ghost use Rattle.class_shape.specs.Reading.{AttributeSeen};

    ghost Value = { AttributeSeen };

    ghost view = { λ a. record { name = a.name; len_at = a.len_at; end = a.end; body = a.body.now } };

    ghost invariant = { λ a. length a.body.now ≤ a.end };
}

/// The place in the file of the first byte that is left.
pub fn place_of(left: &Unread<'_>) -> u32
    ensures { result ≡ left.now.end - length left.now.bytes.now }
{
    left.end - left.bytes.len() as u32
}

/// The number of two bytes at the front, and what is left after it.
pub fn short_of(left: Unread<'_>) -> Result<(u16, Unread<'_>), ClassFault>
    ensures long { IfOk result (λ x. length x.1.bytes.now + 2 ≡ length left.entry.bytes.now) }
    ensures exact { Reads (λ n. n) result (λ end. number_at end 2) left.entry }
{
    let (number, bytes) = u16_at(left.end, left.bytes)?;
    let rest = Unread {
        end: left.end,
        bytes,
    };
    Ok((number, rest))
}

/// The index at the front, and what is left after it.
#[tactic(auto, unfolding(crate::specs::Reading::index_at))]
pub fn index_of(left: Unread<'_>) -> Result<(IndexAt, Unread<'_>), ClassFault>
    ensures long { IfOk result (λ x. length x.1.bytes.now + 2 ≡ length left.entry.bytes.now) }
    ensures exact { Reads (λ index. index) result index_at left.entry }
{
    let at = place_of(&left);
    let (index, rest) = short_of(left)?;
    Ok((IndexAt { at, index }, rest))
}

/// The attribute at the front, and what is left after it.
#[tactic(auto, unfolding(crate::specs::Reading::attribute_at))]
pub fn attribute_of(left: Unread<'_>) -> Result<(AttributeAt<'_>, Unread<'_>), ClassFault>
    ensures shorter { IfOk result (λ x. length x.1.bytes.now ≤ length left.entry.bytes.now) }
    ensures exact { Reads (λ attribute. attribute) result attribute_at left.entry }
{
    let (name, rest) = index_of(left)?;
    let len_at = place_of(&rest);
    let (len, bytes) = u32_at(left.end, rest.bytes)?;
    let (body, bytes) = block_of(left.end, len as usize, bytes)?;
    let rest = Unread {
        end: left.end,
        bytes,
    };
    let attribute = AttributeAt {
        name,
        len_at,
        end: place_of(&rest),
        body,
    };
    Ok((attribute, rest))
}

/// What is left after so many attributes, which are passed unread.
fn after_attributes(count: u16, left: Unread<'_>) -> Result<Unread<'_>, ClassFault>
    ensures same_end { IfOk result (λ rest. rest.end ≡ left.entry.end) }
    ensures shorter { IfOk result (λ rest. length rest.bytes.now ≤ length left.entry.bytes.now) }
    ensures exact { Gives (λ rest. rest.bytes.now) result (on_ok rest_of (many_at (attribute_at left.entry.end) count left.entry.bytes.now)) }
{
    let mut rest = left;
    for _ in 0..count {
        let (_, next) = attribute_of(rest)?;
        rest = next;
    }
    Ok(rest)
}

/// The bytes after so many attributes, which are passed unread.
pub fn pass_attributes(total: u32, count: u16, bytes: &[u8]) -> Result<&[u8], ClassFault>
    requires { length bytes.now ≤ total }
    ensures shorter { IfOk result (λ x. length x.now ≤ length bytes.now) }
    ensures exact { Gives (λ x. x.now) result (on_ok rest_of (many_at (attribute_at total) count bytes.now)) }
{
    let rest = after_attributes(count, Unread { end: total, bytes })?;
    Ok(rest.bytes)
}

/// The field or method at the front, and what is left after it.
#[tactic(auto, unfolding(crate::specs::Reading::member_at, crate::specs::Reading::counted_at))]
pub fn member_of(left: Unread<'_>) -> Result<(MemberAt, Unread<'_>), ClassFault>
    ensures { Reads (λ member. member) result member_at left.entry }
{
    let (flags, rest) = short_of(left)?;
    let (name, rest) = index_of(rest)?;
    let (descriptor, rest) = index_of(rest)?;
    let (count, rest) = short_of(rest)?;
    let rest = after_attributes(count, rest)?;
    let member = MemberAt {
        flags,
        name,
        descriptor,
    };
    Ok((member, rest))
}

/// The flags, this class and the super class at the front, and what is left after them.
#[tactic(auto, unfolding(crate::specs::Reading::own_at))]
pub fn own_of(left: Unread<'_>) -> Result<(OwnAt, Unread<'_>), ClassFault>
    ensures { Reads (λ own. own) result own_at left.entry }
{
    let (flags, rest) = short_of(left)?;
    let (this, rest) = index_of(rest)?;
    let (parent, rest) = index_of(rest)?;
    let own = OwnAt {
        flags,
        this,
        parent,
    };
    Ok((own, rest))
}

/// The row at the front, and what is left of the attribute after it.
#[tactic(auto, unfolding(crate::specs::Reading::row_at))]
pub fn row_of(left: Unread<'_>) -> Result<(RowAt, Unread<'_>), ClassFault>
    ensures { Reads (λ row. row) result row_at left.entry }
{
    let (inner, rest) = index_of(left)?;
    let (outer, rest) = index_of(rest)?;
    let (name, rest) = index_of(rest)?;
    let (flags, rest) = short_of(rest)?;
    let row = RowAt {
        inner,
        outer,
        name,
        flags,
    };
    Ok((row, rest))
}
