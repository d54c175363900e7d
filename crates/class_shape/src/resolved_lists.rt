ghost use Rattle.std.specs.Prelude.{◌≡◌, ◌≤◌, ◌<◌, length};
ghost use Rattle.std.specs.Str.{bytes_eq};
ghost use Rattle.class_pool.specs.Reading.{Gives};
ghost use Rattle.class_shape.specs.Shapes.{inner_classes};
ghost use Rattle.class_shape.specs.Reading.{counted_at, row_at};
ghost use Rattle.class_shape.specs.Meaning.{each, joined, index_name, member_shape, row_shape, rows_in, inner_rows, attribute_rows, rows_to_end};

use crate::parts::{AttributeAt, IndexAt, MemberAt, RowAt};
use crate::resolved::{class_name, fault, member_shape, row_shape, text_use};
use crate::shapes::{InnerRow, MemberKind, MemberShape};
use crate::tables::counted_rows;
use crate::unread::Unread;
use class_pool::{ClassCause, ClassFault, Pool, no_memory};
use lists::{Items, Text};
use std::alloc::Global;

/// The names of the classes at the indices, in order.
pub fn class_names(
    alloc: Global,
    pool: &Pool<'_>,
    indices: &[IndexAt],
) -> Result<Items<Text>, ClassFault>
    ensures { Gives (λ names. names) result (each (index_name pool.now.entries) indices.now) }
{
    let mut names = Items::new(alloc);
    for i in 0..indices.len() {
        let name = class_name(alloc, pool, indices[i])?;
        names.push(name)?;
    }
    Ok(names)
}

/// The shapes of fields or of methods, in order.
pub fn member_shapes(
    alloc: Global,
    pool: &Pool<'_>,
    kind: MemberKind,
    members: &[MemberAt],
) -> Result<Items<MemberShape>, ClassFault>
    ensures { Gives (λ shapes. shapes) result (each (member_shape pool.now.entries kind) members.now) }
{
    let mut shapes = Items::new(alloc);
    for i in 0..members.len() {
        let shape = member_shape(alloc, pool, kind, &members[i])?;
        shapes.push(shape)?;
    }
    Ok(shapes)
}

/// The shapes of rows of `InnerClasses`, in order.
fn row_shapes(alloc: Global, pool: &Pool<'_>, rows: &[RowAt]) -> Result<Items<InnerRow>, ClassFault>
    ensures { Gives (λ shapes. shapes) result (each (row_shape pool.now.entries) rows.now) }
{
    let mut shapes = Items::new(alloc);
    for i in 0..rows.len() {
        let shape = row_shape(alloc, pool, &rows[i])?;
        shapes.push(shape)?;
    }
    Ok(shapes)
}

/// The rows of an `InnerClasses`, whose count must be that of its length.
fn rows_in(alloc: Global, len_at: u32, end: u32, body: &[u8]) -> Result<Vec<RowAt>, ClassFault>
    requires { length body.now ≤ end }
    ensures { Gives (λ rows. rows.items) result (rows_to_end len_at (counted_at end (row_at end) body.now)) }
{
    match counted_rows(alloc, Unread { end, bytes: body }) {
        Ok((rows, rest)) => {
            if !rest.bytes.is_empty() {
                return Err(fault(len_at, ClassCause::Attribute));
            }
            Ok(rows)
        }
        Err(error) => {
            if error == no_memory() {
                return Err(error);
            }
            Err(fault(len_at, ClassCause::Attribute))
        }
    }
}

#[tactic(auto, unfolding(crate::specs::Meaning::inner_rows))]
fn inner_rows(
    alloc: Global,
    pool: &Pool<'_>,
    attribute: &AttributeAt<'_>,
) -> Result<Items<InnerRow>, ClassFault>
    ensures { Gives (λ shapes. shapes) result (inner_rows pool.now.entries attribute.now) }
{
    let rows = rows_in(alloc, attribute.len_at, attribute.end, attribute.body)?;
    row_shapes(alloc, pool, &rows)
}

/// Whether an attribute of this name is `InnerClasses` (JVMS 4.7.6).
pub fn is_inner_classes(name: &[u8]) -> bool
    ensures { result ≡ bytes_eq name.now inner_classes }
{
    name == b"InnerClasses".as_slice()
}

/// The rows that one class attribute gives.
#[tactic(auto, unfolding(crate::specs::Meaning::attribute_rows))]
fn attribute_rows(
    alloc: Global,
    pool: &Pool<'_>,
    attribute: &AttributeAt<'_>,
) -> Result<Items<InnerRow>, ClassFault>
    ensures { Gives (λ shapes. shapes) result (attribute_rows pool.now.entries attribute.now) }
{
    let name = text_use(pool, attribute.name.at, attribute.name.index)?;
    if !is_inner_classes(name) {
        return Ok(Items::new(alloc));
    }
    inner_rows(alloc, pool, attribute)
}

/// The rows of all class attributes, joined in order.
pub fn all_rows(
    alloc: Global,
    pool: &Pool<'_>,
    attributes: &[AttributeAt<'_>],
) -> Result<Items<InnerRow>, ClassFault>
    ensures { Gives (λ shapes. shapes) result (joined (attribute_rows pool.now.entries) attributes.now) }
{
    let mut all = Items::new(alloc);
    for i in 0..attributes.len() {
        let rows = attribute_rows(alloc, pool, &attributes[i])?;
        all.append(rows)?;
    }
    Ok(all)
}
