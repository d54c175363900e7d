ghost use Rattle.std.specs.Prelude.{◌≡◌, ◌≤◌, ◌+◌, length, IfOk};
ghost use Rattle.class_pool.specs.Reading.{Gives};
ghost use Rattle.class_pool.specs.Index.{text_in};
ghost use Rattle.class_shape.specs.Meaning.{joined};
ghost use Rattle.class_shape.specs.Views.{attribute_lists};
ghost use Rattle.code_walk.specs.Code.{is_code_name};
ghost use Rattle.code_walk.specs.CodeReading.{front_at, tables_at, code_at, of_attribute, attribute_ranges, method_ranges};

use class_pool::{ClassCause, ClassFault, Pool, block_of, no_memory, u16_at, u32_at};
use class_shape::{AttributeAt, pass_attributes};
use std::alloc::Global;

/// The code at the front of a `Code` attribute's bytes, which end at `total`, and the bytes after it.
#[tactic(auto, unfolding(crate::specs::CodeReading::front_at))]
fn front_of(total: u32, body: &[u8]) -> Result<(&[u8], &[u8]), ClassFault>
    requires { length body.now ≤ total }
    ensures exact { Gives (λ x. (x.0.now, x.1.now)) result (front_at total body.now) }
    ensures within { IfOk result (λ x. length x.0.now + length x.1.now + 8 ≡ length body.now) }
{
    let (_, rest) = u16_at(total, body)?;
    let (_, rest) = u16_at(total, rest)?;
    let (len, rest) = u32_at(total, rest)?;
    block_of(total, len as usize, rest)
}

/// The bytes after the handlers and the attributes at the front.
#[tactic(auto, unfolding(crate::specs::CodeReading::tables_at, class_shape::specs::Reading::counted_at))]
fn pass_tables(total: u32, bytes: &[u8]) -> Result<&[u8], ClassFault>
    requires { length bytes.now ≤ total }
    ensures { Gives (λ x. x.now) result (tables_at total bytes.now) }
{
    let (count, rest) = u16_at(total, bytes)?;
    let (_, rest) = block_of(total, 8 * count as usize, rest)?;
    let (count, rest) = u16_at(total, rest)?;
    pass_attributes(total, count, rest)
}

/// The length of the code in the bytes of a `Code` attribute, which end at `total`.
#[tactic(auto, unfolding(crate::specs::CodeReading::code_at))]
fn code_len(total: u32, body: &[u8]) -> Result<u32, ClassFault>
    requires { length body.now ≤ total }
    ensures exact { Gives (λ n. n) result (code_at total body.now) }
    ensures within { IfOk result (λ n. n + 8 ≤ length body.now) }
{
    let (code, rest) = front_of(total, body)?;
    let rest = pass_tables(total, rest)?;
    if !rest.is_empty() {
        return Err(ClassFault {
            at: total,
            cause: ClassCause::Truncated,
        });
    }
    Ok(code.len() as u32)
}

/// The length of the code, or the fault of the attribute, whose length stands at `len_at`.
fn code_len_or_fault(len_at: u32, end: u32, body: &[u8]) -> Result<u32, ClassFault>
    requires { length body.now ≤ end }
    ensures exact { Gives (λ n. n) result (of_attribute len_at (code_at end body.now)) }
    ensures within { IfOk result (λ n. n + 8 ≤ length body.now) }
{
    match code_len(end, body) {
        Ok(len) => Ok(len),
        Err(error) => {
            if error == no_memory() {
                return Err(error);
            }
            Err(ClassFault {
                at: len_at,
                cause: ClassCause::Attribute,
            })
        }
    }
}

/// Whether the text at a place of the pool is `Code`.
fn is_code(pool: &Pool<'_>, name: u16) -> bool
    ensures { result ≡ is_code_name (text_in pool.now.entries name) }
{
    match pool.utf8(name) {
        Some(text) => text == b"Code".as_slice(),
        None => false,
    }
}

/// The range of the code of an attribute; nothing where it is no `Code`.
#[tactic(auto, unfolding(crate::specs::CodeReading::attribute_ranges))]
fn attribute_ranges(
    alloc: Global,
    pool: &Pool<'_>,
    attribute: &AttributeAt<'_>,
) -> Result<Vec<(u32, u32)>, ClassFault>
    ensures { Gives (λ ranges. ranges.items) result (attribute_ranges pool.now.entries attribute.now) }
{
    let mut ranges = Vec::new(alloc);
    if is_code(pool, attribute.name.index) {
        let len = code_len_or_fault(attribute.len_at, attribute.end, attribute.body)?;
        let start = attribute.end - attribute.body.len() as u32 + 8;
        ranges.push((start, start + len))?;
    }
    Ok(ranges)
}

/// The ranges of the code of a method's attributes, joined in order.
fn method_ranges(
    alloc: Global,
    pool: &Pool<'_>,
    attributes: &[AttributeAt<'_>],
) -> Result<Vec<(u32, u32)>, ClassFault>
    ensures { Gives (λ ranges. ranges.items) result (method_ranges pool.now.entries attributes.now) }
{
    let mut all = Vec::new(alloc);
    for i in 0..attributes.len() {
        let ranges = attribute_ranges(alloc, pool, &attributes[i])?;
        all.extend_from_slice(&ranges)?;
    }
    Ok(all)
}

fn joined_ranges(
    alloc: Global,
    pool: &Pool<'_>,
    methods: &[Vec<AttributeAt<'_>>],
) -> Result<Vec<(u32, u32)>, ClassFault>
    ensures { Gives (λ ranges. ranges.items) result (joined (λ v. method_ranges pool.now.entries v.items) methods.now) }
{
    let mut all = Vec::new(alloc);
    for i in 0..methods.len() {
        let ranges = method_ranges(alloc, pool, &methods[i])?;
        all.extend_from_slice(&ranges)?;
    }
    Ok(all)
}

/// The ranges of the code of all methods, joined in order.
pub fn all_ranges(
    alloc: Global,
    pool: &Pool<'_>,
    methods: &[Vec<AttributeAt<'_>>],
) -> Result<Vec<(u32, u32)>, ClassFault>
    ensures { Gives (λ ranges. ranges.items) result (joined (method_ranges pool.now.entries) (attribute_lists methods.now)) }
{
    joined_ranges(alloc, pool, methods)
}
