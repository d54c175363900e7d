ghost use Rattle.std.specs.Prelude.{◌≡◌, ◌<◌, ◌+◌, IfOk, Some};
ghost use Rattle.std.specs.Str.{bytes_eq};
ghost use Rattle.class_pool.specs.declared.fault.ClassCause.TheVariants.{Place, Name, Descriptor};
ghost use Rattle.class_pool.specs.Reading.{Gives};
ghost use Rattle.class_shape.specs.Meaning.{text_use, class_use, class_name, plain_name, or_none, internal, spelled, is_descriptor, well_formed, member_shape, row_shape, needed};

use crate::parts::{IndexAt, MemberAt, RowAt};
use crate::shapes::{InnerRow, MemberKind, MemberShape};
use class_pool::{ClassCause, ClassFault, Pool, decode_modified};
use lists::Text;
use std::alloc::{AllocError, Global};
use type_names::{is_internal_name, read_field, read_method};

/// The violation of this cause at a place of the file.
pub fn fault(at: u32, cause: ClassCause) -> ClassFault
    ensures { result ≡ record { at = at; cause = cause } }
{
    ClassFault { at, cause }
}

/// The bytes of the text at a place of the pool, whose index stands at `at`.
pub fn text_use<'a>(pool: &'a Pool<'_>, at: u32, index: u16) -> Result<&'a [u8], ClassFault>
    ensures { Gives (λ raw. raw.now) result (text_use pool.now.entries at index) }
{
    match pool.utf8(index) {
        Some(raw) => Ok(raw),
        None => Err(fault(at, ClassCause::Place)),
    }
}

/// The bytes of the name of the class at a place of the pool.
#[tactic(auto, unfolding(crate::specs::Meaning::class_use))]
fn class_use<'a>(pool: &'a Pool<'_>, at: u32, index: u16) -> Result<&'a [u8], ClassFault>
    ensures { Gives (λ raw. raw.now) result (class_use pool.now.entries at index) }
{
    match pool.name_place(index) {
        Some(name) => text_use(pool, pool.start(index) + 1, name),
        None => Err(fault(at, ClassCause::Place)),
    }
}

/// The name of the class at a place of the pool.
#[tactic(auto, unfolding(crate::specs::Meaning::class_name))]
pub fn class_name(alloc: Global, pool: &Pool<'_>, index: IndexAt) -> Result<Text, ClassFault>
    ensures { Gives (λ name. name) result (class_name pool.now.entries index.at index.index) }
{
    let raw = class_use(pool, index.at, index.index)?;
    match decode_modified(alloc, raw)? {
        Some(name) => internal(index.at, name),
        None => Err(fault(index.at, ClassCause::Name)),
    }
}

/// The name, where it is an internal name.
fn internal(at: u32, name: Text) -> Result<Text, ClassFault>
    ensures { Gives (λ name. name) result (internal at (Some name)) }
{
    if !is_internal_name(name.as_str()) {
        return Err(fault(at, ClassCause::Name));
    }
    Ok(name)
}

/// The name of the class at a place of the pool; place 0 is none.
pub fn class_or_none(
    alloc: Global,
    pool: &Pool<'_>,
    index: IndexAt,
) -> Result<Option<Text>, ClassFault>
    ensures { Gives (λ name. name) result (or_none (class_name pool.now.entries) index.at index.index) }
{
    if index.index == 0 {
        return Ok(None);
    }
    Ok(Some(class_name(alloc, pool, index)?))
}

/// The text at a place of the pool, which must be one.
#[tactic(auto, unfolding(crate::specs::Meaning::plain_name))]
fn plain_name(alloc: Global, pool: &Pool<'_>, index: IndexAt) -> Result<Text, ClassFault>
    ensures { Gives (λ name. name) result (plain_name pool.now.entries index.at index.index) }
{
    let raw = text_use(pool, index.at, index.index)?;
    match decode_modified(alloc, raw)? {
        Some(name) => Ok(name),
        None => Err(fault(index.at, ClassCause::Name)),
    }
}

/// The text at a place of the pool; place 0 is none.
fn plain_or_none(alloc: Global, pool: &Pool<'_>, index: IndexAt) -> Result<Option<Text>, ClassFault>
    ensures { Gives (λ name. name) result (or_none (plain_name pool.now.entries) index.at index.index) }
{
    if index.index == 0 {
        return Ok(None);
    }
    Ok(Some(plain_name(alloc, pool, index)?))
}

/// Whether a text is a descriptor of a field, or of a method.
fn is_descriptor(alloc: Global, kind: MemberKind, text: &Text) -> Result<bool, AllocError>
    ensures { IfOk result (λ b. b ≡ is_descriptor kind text.now) }
{
    match kind {
        MemberKind::Field => Ok(read_field(alloc, text.as_str())?.is_some()),
        MemberKind::Method => Ok(read_method(alloc, text.as_str())?.is_some()),
    }
}

/// A descriptor, where it was decoded.
fn well_formed(
    alloc: Global,
    kind: MemberKind,
    at: u32,
    text: Option<Text>,
) -> Result<Option<Text>, ClassFault>
    ensures { Gives (λ text. text) result (well_formed kind at text) }
{
    match text {
        None => Ok(None),
        Some(text) => {
            if !is_descriptor(alloc, kind, &text)? {
                return Err(fault(at, ClassCause::Descriptor));
            }
            Ok(Some(text))
        }
    }
}

/// The shape of a field or method.
#[tactic(auto, unfolding(crate::specs::Meaning::member_shape))]
pub fn member_shape(
    alloc: Global,
    pool: &Pool<'_>,
    kind: MemberKind,
    member: &MemberAt,
) -> Result<MemberShape, ClassFault>
    ensures { Gives (λ shape. shape) result (member_shape pool.now.entries kind member.now) }
{
    let name = text_use(pool, member.name.at, member.name.index)?;
    let raw = text_use(pool, member.descriptor.at, member.descriptor.index)?;
    let text = decode_modified(alloc, raw)?;
    let descriptor = well_formed(alloc, kind, member.descriptor.at, text)?;
    let name = decode_modified(alloc, name)?;
    Ok(MemberShape {
        flags: member.flags,
        name,
        descriptor,
    })
}

/// The shape of a row of `InnerClasses`.
#[tactic(auto, unfolding(crate::specs::Meaning::row_shape))]
pub fn row_shape(alloc: Global, pool: &Pool<'_>, row: &RowAt) -> Result<InnerRow, ClassFault>
    ensures { Gives (λ shape. shape) result (row_shape pool.now.entries row.now) }
{
    let inner = class_name(alloc, pool, row.inner)?;
    let outer = class_or_none(alloc, pool, row.outer)?;
    let name = plain_or_none(alloc, pool, row.name)?;
    Ok(InnerRow {
        inner,
        outer,
        name,
        flags: row.flags,
    })
}
