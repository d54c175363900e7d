ghost use Rattle.std.specs.Prelude.{◌≤◌, length, Ok};
ghost use Rattle.class_pool.specs.Reading.{Gives};
ghost use Rattle.class_pool.specs.Spelling.{Head};
ghost use Rattle.class_shape.specs.Parts.{Body, IsFile};
ghost use Rattle.class_shape.specs.Places.{method_attributes};
ghost use Rattle.class_shape.specs.Views.{attribute_lists, Reads};
ghost use Rattle.class_shape.specs.Reading.{many_at, method_at, methods_at, methods_read};

use crate::parts::{AttributeAt, index_of, own_of, short_of};
use crate::reader::after_pool;
use crate::tables::{counted_attributes, counted_indices, counted_members};
use crate::unread::Unread;
use class_pool::{ClassFault, read_pool};
use std::alloc::Global;

/// The attributes of the method at the front, and what is left after it.
#[tactic(auto, unfolding(crate::specs::Reading::method_at))]
fn method_of(
    alloc: Global,
    left: Unread<'_>,
) -> Result<(Vec<AttributeAt<'_>>, Unread<'_>), ClassFault>
    ensures { Reads (λ attributes. attributes.items) result method_at left.entry }
{
    let (_, rest) = short_of(left)?;
    let (_, rest) = index_of(rest)?;
    let (_, rest) = index_of(rest)?;
    counted_attributes(alloc, rest)
}

/// The attributes of so many methods at the front, and what is left after them.
fn many_methods(
    alloc: Global,
    count: u16,
    left: Unread<'_>,
) -> Result<(Vec<Vec<AttributeAt<'_>>>, Unread<'_>), ClassFault>
    ensures { Reads (λ methods. attribute_lists methods.items) result (λ end. many_at (method_at end) count) left.entry }
{
    let mut all = Vec::new(alloc);
    let mut rest = left;
    for _ in 0..count {
        let (one, next) = method_of(alloc, rest)?;
        all.push(one)?;
        rest = next;
    }
    Ok((all, rest))
}

/// The attributes of the methods, in what stands after the pool.
#[tactic(auto, unfolding(crate::specs::Reading::methods_at, crate::specs::Reading::counted_at))]
fn methods_of(
    alloc: Global,
    left: Unread<'_>,
) -> Result<(Vec<Vec<AttributeAt<'_>>>, Unread<'_>), ClassFault>
    ensures { Reads (λ methods. attribute_lists methods.items) result methods_at left.entry }
{
    let (_, rest) = own_of(left)?;
    let (_, rest) = counted_indices(alloc, rest)?;
    let (_, rest) = counted_members(alloc, rest)?;
    let (count, rest) = short_of(rest)?;
    many_methods(alloc, count, rest)
}

#[tactic(auto, unfolding(crate::specs::Reading::methods_read))]
fn methods_in(alloc: Global, bytes: &[u8]) -> Result<Vec<Vec<AttributeAt<'_>>>, ClassFault>
    requires { length bytes.now ≤ 16777216 }
    ensures { Gives (λ x. attribute_lists x.items) result (methods_read bytes.now) }
{
    let pool = read_pool(alloc, bytes)?;
    let (all, _) = methods_of(alloc, after_pool(&pool, bytes))?;
    Ok(all)
}

/// For each method of a class file its attributes, with the places of their lengths and of their ends, in file
/// order. Of bytes that aren't a class file nothing is said.
pub fn method_attributes(
    alloc: Global,
    bytes: &[u8],
) -> Result<Vec<Vec<AttributeAt<'_>>>, ClassFault>
    requires { length bytes.now ≤ 16777216 }
    // They are what reading from left to right gives.
    ensures exact { Gives (λ x. attribute_lists x.items) result (methods_read bytes.now) }
    // They are those of the file's parts, unless memory runs out.
    ensures found { (h : Head) (b : Body) → IsFile bytes.now h b → Gives (λ x. attribute_lists x.items) result (Ok (method_attributes h b)) }
{
    methods_in(alloc, bytes)
}
