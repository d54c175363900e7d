ghost use Rattle.std.specs.Prelude.{◌↔◌, IsTrue, IfOk, IfSome};
ghost use Rattle.std.specs.List.{AllByRecursion};
ghost use Rattle.class_shape.specs.declared.shapes.MemberKind.TheVariants.{Field, Method};
ghost use Rattle.class_shape.specs.Shapes.{IsDescriptor};
ghost use Rattle.workload.specs.Writing.{IsInternal, IsWholeMember, IsWholeRow, IsWhole};

use class_shape::{ClassShape, InnerRow, MemberKind, MemberShape};
use lists::Text;
use std::alloc::{AllocError, Global};
use type_names::{is_internal_name, read_field, read_method};

fn is_internal_or_none(name: &Option<Text>) -> bool
    ensures { IsTrue result ↔ IfSome name.now IsInternal }
{
    match name {
        Some(name) => is_internal_name(name.as_str()),
        None => true,
    }
}

fn are_internal(names: &[Text]) -> bool
    ensures { IsTrue result ↔ AllByRecursion IsInternal names.now }
{
    for i in 0..names.len() {
        if !is_internal_name(names[i].as_str()) {
            return false;
        }
    }
    true
}

fn is_field(alloc: Global, text: &Text) -> Result<bool, AllocError>
    ensures { IfOk result (λ b. IsTrue b ↔ IsDescriptor Field text.now) }
{
    match read_field(alloc, text.as_str()) {
        Ok(Some(_)) => Ok(true),
        Ok(None) => Ok(false),
        Err(error) => Err(error),
    }
}

fn is_method(alloc: Global, text: &Text) -> Result<bool, AllocError>
    ensures { IfOk result (λ b. IsTrue b ↔ IsDescriptor Method text.now) }
{
    match read_method(alloc, text.as_str()) {
        Ok(Some(_)) => Ok(true),
        Ok(None) => Ok(false),
        Err(error) => Err(error),
    }
}

fn is_descriptor(alloc: Global, kind: MemberKind, text: &Text) -> Result<bool, AllocError>
    ensures { IfOk result (λ b. IsTrue b ↔ IsDescriptor kind text.now) }
{
    match kind {
        MemberKind::Field => is_field(alloc, text),
        MemberKind::Method => is_method(alloc, text),
    }
}

fn is_whole_member(
    alloc: Global,
    kind: MemberKind,
    member: &MemberShape,
) -> Result<bool, AllocError>
    ensures { IfOk result (λ b. IsTrue b ↔ IsWholeMember kind member.now) }
{
    let Some(_) = &member.name else {
        return Ok(false);
    };
    match &member.descriptor {
        Some(text) => is_descriptor(alloc, kind, text),
        None => Ok(false),
    }
}

fn are_whole_members(
    alloc: Global,
    kind: MemberKind,
    members: &[MemberShape],
) -> Result<bool, AllocError>
    ensures { IfOk result (λ b. IsTrue b ↔ AllByRecursion (IsWholeMember kind) members.now) }
{
    for i in 0..members.len() {
        if !is_whole_member(alloc, kind, &members[i])? {
            return Ok(false);
        }
    }
    Ok(true)
}

fn is_whole_row(row: &InnerRow) -> bool
    ensures { IsTrue result ↔ IsWholeRow row.now }
{
    is_internal_name(row.inner.as_str()) && is_internal_or_none(&row.outer)
}

fn are_whole_rows(rows: &[InnerRow]) -> bool
    ensures { IsTrue result ↔ AllByRecursion IsWholeRow rows.now }
{
    for i in 0..rows.len() {
        if !is_whole_row(&rows[i]) {
            return false;
        }
    }
    true
}

fn has_internal_names(shape: &ClassShape) -> bool
    ensures { IsTrue result ↔ (IsInternal shape.now.name × IfSome shape.now.parent IsInternal × AllByRecursion IsInternal shape.now.interfaces × AllByRecursion IsWholeRow shape.now.inner) }
{
    is_internal_name(shape.name.as_str())
        && is_internal_or_none(&shape.parent)
        && are_internal(shape.interfaces.as_slice())
        && are_whole_rows(shape.inner.as_slice())
}

/// Whether a shape can be written: its names of classes are internal names, and each member has a name and a
/// descriptor of its kind.
pub fn is_whole(alloc: Global, shape: &ClassShape) -> Result<bool, AllocError>
    ensures exact { IfOk result (λ b. IsTrue b ↔ IsWhole shape.now) }
{
    if !has_internal_names(shape) {
        return Ok(false);
    }
    if !are_whole_members(alloc, MemberKind::Field, shape.fields.as_slice())? {
        return Ok(false);
    }
    are_whole_members(alloc, MemberKind::Method, shape.methods.as_slice())
}
