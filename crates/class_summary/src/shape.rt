ghost use Rattle.std.specs.Prelude.{◌≡◌, IfOk};
ghost use Rattle.std.specs.List.{filter_map};
ghost use Rattle.class_summary.specs.Flags.{has_flag};
ghost use Rattle.class_summary.specs.Summaries.{drops_field, drops_method, drops_members, field_kept, method_kept, fields_kept, methods_kept, supers_kept, said_by, nesting_in, summary_of};

use class_shape::{ClassShape, InnerRow, MemberShape};
use known_classes::{ClassSummary, FieldSummary, MethodSummary, Nesting, copy_text};
use lists::{Copies, Items, Text, copy_all};
use std::alloc::{AllocError, Global};
use type_names::{read_field, read_method};

const PRIVATE: u16 = 0x0002;

const BRIDGE: u16 = 0x0040;

const SYNTHETIC: u16 = 0x1000;

const MODULE: u16 = 0x8000;

/// Whether a flag is among these flags.
#[tactic(auto, unfolding(crate::specs::Flags::has_flag))]
fn has_flag(flags: u16, flag: u16) -> bool
    ensures { result ≡ has_flag flags flag }
{
    flags & flag != 0
}

fn drops_field(flags: u16) -> bool
    ensures { result ≡ drops_field flags }
{
    has_flag(flags, PRIVATE) || has_flag(flags, SYNTHETIC)
}

fn drops_method(flags: u16) -> bool
    ensures { result ≡ drops_method flags }
{
    drops_field(flags) || has_flag(flags, BRIDGE)
}

fn drops_members(flags: u16) -> bool
    ensures { result ≡ drops_members flags }
{
    has_flag(flags, MODULE) || has_flag(flags, SYNTHETIC)
}

/// What is kept of a field.
#[tactic(auto, unfolding(crate::specs::Summaries::field_kept))]
fn field_kept(alloc: Global, member: &MemberShape) -> Result<Option<FieldSummary>, AllocError>
    ensures { IfOk result (λ kept. kept ≡ field_kept member.now) }
{
    if drops_field(member.flags) {
        return Ok(None);
    }
    let Some(name) = &member.name else {
        return Ok(None);
    };
    let Some(text) = &member.descriptor else {
        return Ok(None);
    };
    let Some(kind) = read_field(alloc, text.as_str())? else {
        return Ok(None);
    };
    Ok(Some(FieldSummary {
        name: name.copy(alloc)?,
        flags: member.flags,
        kind,
    }))
}

/// What is kept of a method.
#[tactic(auto, unfolding(crate::specs::Summaries::method_kept))]
fn method_kept(alloc: Global, member: &MemberShape) -> Result<Option<MethodSummary>, AllocError>
    ensures { IfOk result (λ kept. kept ≡ method_kept member.now) }
{
    if drops_method(member.flags) {
        return Ok(None);
    }
    let Some(name) = &member.name else {
        return Ok(None);
    };
    let Some(text) = &member.descriptor else {
        return Ok(None);
    };
    let Some(kind) = read_method(alloc, text.as_str())? else {
        return Ok(None);
    };
    Ok(Some(MethodSummary {
        name: name.copy(alloc)?,
        flags: member.flags,
        params: kind.params,
        result: kind.result,
    }))
}

fn all_fields(alloc: Global, members: &[MemberShape]) -> Result<Items<FieldSummary>, AllocError>
    ensures { IfOk result (λ kept. kept ≡ filter_map field_kept members.now) }
{
    let mut kept = Items::new(alloc);
    for i in 0..members.len() {
        let Some(field) = field_kept(alloc, &members[i])? else {
            continue;
        };
        kept.push(field)?;
    }
    Ok(kept)
}

fn all_methods(alloc: Global, members: &[MemberShape]) -> Result<Items<MethodSummary>, AllocError>
    ensures { IfOk result (λ kept. kept ≡ filter_map method_kept members.now) }
{
    let mut kept = Items::new(alloc);
    for i in 0..members.len() {
        let Some(method) = method_kept(alloc, &members[i])? else {
            continue;
        };
        kept.push(method)?;
    }
    Ok(kept)
}

/// The fields of a class with these flags.
#[tactic(auto, unfolding(crate::specs::Summaries::fields_kept))]
fn fields_kept(
    alloc: Global,
    flags: u16,
    members: &Items<MemberShape>,
) -> Result<Items<FieldSummary>, AllocError>
    ensures { IfOk result (λ kept. kept ≡ fields_kept flags members.now) }
{
    if drops_members(flags) {
        return Ok(Items::new(alloc));
    }
    all_fields(alloc, members.as_slice())
}

/// The methods of a class with these flags.
#[tactic(auto, unfolding(crate::specs::Summaries::methods_kept))]
fn methods_kept(
    alloc: Global,
    flags: u16,
    members: &Items<MemberShape>,
) -> Result<Items<MethodSummary>, AllocError>
    ensures { IfOk result (λ kept. kept ≡ methods_kept flags members.now) }
{
    if drops_members(flags) {
        return Ok(Items::new(alloc));
    }
    all_methods(alloc, members.as_slice())
}

/// The super class, and then the interfaces.
fn supers_kept(
    alloc: Global,
    parent: &Option<Text>,
    interfaces: &Items<Text>,
) -> Result<Items<Text>, AllocError>
    ensures { IfOk result (λ kept. kept ≡ supers_kept parent.now interfaces.now) }
{
    let others = copy_all(alloc, interfaces)?;
    let Some(parent) = parent else {
        return Ok(others);
    };
    let mut supers = Items::new(alloc);
    supers.push(parent.copy(alloc)?)?;
    supers.append(others)?;
    Ok(supers)
}

/// What a row says of its class.
fn nesting_of(alloc: Global, row: &InnerRow) -> Result<Nesting, AllocError>
    ensures { IfOk result (λ nesting. nesting ≡ said_by row.now) }
{
    Ok(Nesting {
        outer: copy_text(alloc, &row.outer)?,
        simple: copy_text(alloc, &row.name)?,
        flags: row.flags,
    })
}

/// The nesting of the class with this name, by the first row that speaks of it.
fn nesting_in(alloc: Global, name: &Text, rows: &[InnerRow]) -> Result<Option<Nesting>, AllocError>
    ensures { IfOk result (λ nesting. nesting ≡ nesting_in name.now rows.now) }
{
    for i in 0..rows.len() {
        let row = &rows[i];
        if name.same(&row.inner) {
            let nesting = nesting_of(alloc, row)?;
            return Ok(Some(nesting));
        }
    }
    Ok(None)
}

/// The summary of a class file's class: its name, flags and nesting, its super class and interfaces, and
/// the fields and methods that aren't private, synthetic or bridges and whose name and descriptor are
/// there. A module and a synthetic class keep no member.
pub fn from_shape(alloc: Global, shape: &ClassShape) -> Result<ClassSummary, AllocError>
    ensures exact { IfOk result (λ summary. summary ≡ summary_of shape.now) }
{
    let nesting = nesting_in(alloc, &shape.name, shape.inner.as_slice())?;
    let supers = supers_kept(alloc, &shape.parent, &shape.interfaces)?;
    let fields = fields_kept(alloc, shape.flags, &shape.fields)?;
    let methods = methods_kept(alloc, shape.flags, &shape.methods)?;
    Ok(ClassSummary {
        name: shape.name.copy(alloc)?,
        flags: shape.flags,
        nesting,
        supers,
        fields,
        methods,
    })
}
