ghost use Rattle.class_pool.specs.Reading.{Gives};
ghost use Rattle.class_shape.specs.Views.{lists_view, body_view, Reads};
ghost use Rattle.class_shape.specs.Reading.{index_at, attribute_at, member_at, row_at, counted_at, many_at, lists_at, body_at};

use crate::parts::{
    AttributeAt, IndexAt, MemberAt, OwnAt, RowAt, attribute_of, index_of, member_of, own_of,
    place_of, row_of, short_of,
};
use crate::unread::Unread;
use class_pool::{ClassCause, ClassFault};
use std::alloc::Global;

fn many_indices(
    alloc: Global,
    count: u16,
    left: Unread<'_>,
) -> Result<(Vec<IndexAt>, Unread<'_>), ClassFault>
    ensures { Reads (λ indices. indices.items) result (λ end. many_at (index_at end) count) left.entry }
{
    let mut all = Vec::new(alloc);
    let mut rest = left;
    for _ in 0..count {
        let (one, next) = index_of(rest)?;
        all.push(one)?;
        rest = next;
    }
    Ok((all, rest))
}

/// A count of two bytes and so many indices, and what is left after them.
#[tactic(auto, unfolding(crate::specs::Reading::counted_at))]
pub fn counted_indices(
    alloc: Global,
    left: Unread<'_>,
) -> Result<(Vec<IndexAt>, Unread<'_>), ClassFault>
    ensures { Reads (λ indices. indices.items) result (λ end. counted_at end (index_at end)) left.entry }
{
    let (count, rest) = short_of(left)?;
    many_indices(alloc, count, rest)
}

fn many_members(
    alloc: Global,
    count: u16,
    left: Unread<'_>,
) -> Result<(Vec<MemberAt>, Unread<'_>), ClassFault>
    ensures { Reads (λ members. members.items) result (λ end. many_at (member_at end) count) left.entry }
{
    let mut all = Vec::new(alloc);
    let mut rest = left;
    for _ in 0..count {
        let (one, next) = member_of(rest)?;
        all.push(one)?;
        rest = next;
    }
    Ok((all, rest))
}

/// A count of two bytes and so many members, and what is left after them.
#[tactic(auto, unfolding(crate::specs::Reading::counted_at))]
pub fn counted_members(
    alloc: Global,
    left: Unread<'_>,
) -> Result<(Vec<MemberAt>, Unread<'_>), ClassFault>
    ensures { Reads (λ members. members.items) result (λ end. counted_at end (member_at end)) left.entry }
{
    let (count, rest) = short_of(left)?;
    many_members(alloc, count, rest)
}

fn many_attributes(
    alloc: Global,
    count: u16,
    left: Unread<'_>,
) -> Result<(Vec<AttributeAt<'_>>, Unread<'_>), ClassFault>
    ensures { Reads (λ attributes. attributes.items) result (λ end. many_at (attribute_at end) count) left.entry }
{
    let mut all = Vec::new(alloc);
    let mut rest = left;
    for _ in 0..count {
        let (one, next) = attribute_of(rest)?;
        all.push(one)?;
        rest = next;
    }
    Ok((all, rest))
}

/// A count of two bytes and so many attributes, and what is left after them.
#[tactic(auto, unfolding(crate::specs::Reading::counted_at))]
pub fn counted_attributes(
    alloc: Global,
    left: Unread<'_>,
) -> Result<(Vec<AttributeAt<'_>>, Unread<'_>), ClassFault>
    ensures { Reads (λ attributes. attributes.items) result (λ end. counted_at end (attribute_at end)) left.entry }
{
    let (count, rest) = short_of(left)?;
    many_attributes(alloc, count, rest)
}

fn many_rows(
    alloc: Global,
    count: u16,
    left: Unread<'_>,
) -> Result<(Vec<RowAt>, Unread<'_>), ClassFault>
    ensures { Reads (λ rows. rows.items) result (λ end. many_at (row_at end) count) left.entry }
{
    let mut all = Vec::new(alloc);
    let mut rest = left;
    for _ in 0..count {
        let (one, next) = row_of(rest)?;
        all.push(one)?;
        rest = next;
    }
    Ok((all, rest))
}

/// A count of two bytes and so many rows, and what is left after them.
#[tactic(auto, unfolding(crate::specs::Reading::counted_at))]
pub fn counted_rows(alloc: Global, left: Unread<'_>) -> Result<(Vec<RowAt>, Unread<'_>), ClassFault>
    ensures { Reads (λ rows. rows.items) result (λ end. counted_at end (row_at end)) left.entry }
{
    let (count, rest) = short_of(left)?;
    many_rows(alloc, count, rest)
}

/// The interfaces, the fields, the methods and the class attributes.
#[derive(Drop)]
pub struct Lists<'a> {
    pub interfaces: Vec<IndexAt>,
    pub fields: Vec<MemberAt>,
    pub methods: Vec<MemberAt>,
    pub attributes: Vec<AttributeAt<'a>>,
}

#[tactic(auto, unfolding(crate::specs::Reading::lists_at))]
fn lists_of<'a>(alloc: Global, left: Unread<'a>) -> Result<(Lists<'a>, Unread<'a>), ClassFault>
    ensures { Reads lists_view result lists_at left.entry }
{
    let (interfaces, rest) = counted_indices(alloc, left)?;
    let (fields, rest) = counted_members(alloc, rest)?;
    let (methods, rest) = counted_members(alloc, rest)?;
    let (attributes, rest) = counted_attributes(alloc, rest)?;
    let lists = Lists {
        interfaces,
        fields,
        methods,
        attributes,
    };
    Ok((lists, rest))
}

/// What stands after the pool.
#[derive(Drop)]
pub struct Body<'a> {
    pub own: OwnAt,
    pub lists: Lists<'a>,
}

/// What stands after the pool, up to the end of the file.
#[tactic(auto, unfolding(crate::specs::Reading::body_at))]
pub fn body_of(alloc: Global, left: Unread<'_>) -> Result<Body<'_>, ClassFault>
    ensures { Gives body_view result (body_at left.entry.end left.entry.bytes.now) }
{
    let (own, rest) = own_of(left)?;
    let (lists, rest) = lists_of(alloc, rest)?;
    if !rest.bytes.is_empty() {
        return Err(ClassFault {
            at: place_of(&rest),
            cause: ClassCause::Extra,
        });
    }
    Ok(Body { own, lists })
}
