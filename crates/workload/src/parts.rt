ghost use Rattle.std.specs.Prelude.{◌≡◌, ◌<◌, ◌++◌, OnOk, length, map};
ghost use Rattle.std.specs.List.{flat_map, AllByRecursion};
ghost use Rattle.byteorder.specs.Endian.{big_bytes};
ghost use Rattle.class_shape.specs.Parts.{row, member, attribute, own, lists, counted};
ghost use Rattle.workload.specs.Layout.{class_place, text_place, place_or_none, member_in, row_in, attributes_in, inner_bytes, own_in, lists_in};
ghost use Rattle.workload.specs.Flags.{IsShortMember, IsShortRow, HasShortFlags};

use crate::needs::Need;
use crate::plan::PoolPlan;
use byteorder::{BigEndian, ByteOrder};
use class_shape::{ClassShape, InnerRow, MemberShape};
use lists::Text;
use std::alloc::AllocError;

/// Adds a number of two bytes at the end.
pub fn put_u16(out: &mut Vec<u8>, n: u16) -> Result<(), AllocError>
    ensures written { OnOk result (out.new.items ≡ out.old.items ++ big_bytes 2 n) }
    ensures short { n < 65536 }
{
    let mut two = [0; 2];
    BigEndian::write_u16(&mut two, n);
    out.extend_from_slice(&two)?;
    Ok(())
}

/// Adds a number of four bytes at the end.
pub fn put_u32(out: &mut Vec<u8>, n: u32) -> Result<(), AllocError>
    ensures { OnOk result (out.new.items ≡ out.old.items ++ big_bytes 4 n) }
{
    let mut four = [0; 4];
    BigEndian::write_u32(&mut four, n);
    out.extend_from_slice(&four)?;
    Ok(())
}

/// Adds the place of a class at the end.
fn put_class(out: &mut Vec<u8>, plan: &PoolPlan<'_>, name: &Text) -> Result<(), AllocError>
    ensures { OnOk result (out.new.items ≡ out.old.items ++ big_bytes 2 (class_place plan.now name.now)) }
{
    put_u16(out, plan.place(Need::Class(name.as_str())))
}

/// Adds the place of a class at the end, 0 for none.
fn put_class_or_none(
    out: &mut Vec<u8>,
    plan: &PoolPlan<'_>,
    name: &Option<Text>,
) -> Result<(), AllocError>
    ensures { OnOk result (out.new.items ≡ out.old.items ++ big_bytes 2 (place_or_none (class_place plan.now) name.now)) }
{
    match name {
        Some(name) => put_class(out, plan, name),
        None => put_u16(out, 0),
    }
}

/// Adds the place of a text at the end, 0 for none.
fn put_text_or_none(
    out: &mut Vec<u8>,
    plan: &PoolPlan<'_>,
    text: &Option<Text>,
) -> Result<(), AllocError>
    ensures { OnOk result (out.new.items ≡ out.old.items ++ big_bytes 2 (place_or_none (text_place plan.now) text.now)) }
{
    match text {
        Some(text) => put_u16(out, plan.place(Need::Text(text.as_str()))),
        None => put_u16(out, 0),
    }
}

/// Adds the flags, this class and the super class at the end.
pub fn put_own(out: &mut Vec<u8>, plan: &PoolPlan<'_>, shape: &ClassShape) -> Result<(), AllocError>
    ensures written { OnOk result (out.new.items ≡ out.old.items ++ own (own_in plan.now shape.now)) }
    ensures short { OnOk result (shape.now.flags < 65536) }
{
    put_u16(out, shape.flags)?;
    put_class(out, plan, &shape.name)?;
    put_class_or_none(out, plan, &shape.parent)
}

fn put_each_class(out: &mut Vec<u8>, plan: &PoolPlan<'_>, names: &[Text]) -> Result<(), AllocError>
    ensures { OnOk result (out.new.items ≡ out.old.items ++ flat_map (big_bytes 2) (map (class_place plan.now) names.now)) }
{
    for i in 0..names.len() {
        put_class(out, plan, &names[i])?;
    }
    Ok(())
}

/// Adds the count of the interfaces and their places at the end.
fn put_classes(out: &mut Vec<u8>, plan: &PoolPlan<'_>, names: &[Text]) -> Result<(), AllocError>
    requires names { length names.now < 65536 }
    ensures { OnOk result (out.new.items ≡ out.old.items ++ counted (big_bytes 2) (map (class_place plan.now) names.now)) }
{
    put_u16(out, names.len() as u16)?;
    put_each_class(out, plan, names)
}

fn put_member(out: &mut Vec<u8>, plan: &PoolPlan<'_>, shape: &MemberShape) -> Result<(), AllocError>
    ensures written { OnOk result (out.new.items ≡ out.old.items ++ member (member_in plan.now shape.now)) }
    ensures short { OnOk result (shape.now.flags < 65536) }
{
    put_u16(out, shape.flags)?;
    put_text_or_none(out, plan, &shape.name)?;
    put_text_or_none(out, plan, &shape.descriptor)?;
    put_u16(out, 0)
}

fn put_each_member(
    out: &mut Vec<u8>,
    plan: &PoolPlan<'_>,
    shapes: &[MemberShape],
) -> Result<(), AllocError>
    ensures written { OnOk result (out.new.items ≡ out.old.items ++ flat_map member (map (member_in plan.now) shapes.now)) }
    ensures short { OnOk result (AllByRecursion IsShortMember shapes.now) }
{
    for i in 0..shapes.len() {
        put_member(out, plan, &shapes[i])?;
    }
    Ok(())
}

/// Adds the count of the fields or methods and each of them at the end.
fn put_members(
    out: &mut Vec<u8>,
    plan: &PoolPlan<'_>,
    shapes: &[MemberShape],
) -> Result<(), AllocError>
    requires shapes { length shapes.now < 65536 }
    ensures written { OnOk result (out.new.items ≡ out.old.items ++ counted member (map (member_in plan.now) shapes.now)) }
    ensures short { OnOk result (AllByRecursion IsShortMember shapes.now) }
{
    put_u16(out, shapes.len() as u16)?;
    put_each_member(out, plan, shapes)
}

fn put_row(out: &mut Vec<u8>, plan: &PoolPlan<'_>, shape: &InnerRow) -> Result<(), AllocError>
    ensures written { OnOk result (out.new.items ≡ out.old.items ++ row (row_in plan.now shape.now)) }
    ensures short { OnOk result (shape.now.flags < 65536) }
{
    put_class(out, plan, &shape.inner)?;
    put_class_or_none(out, plan, &shape.outer)?;
    put_text_or_none(out, plan, &shape.name)?;
    put_u16(out, shape.flags)
}

fn put_each_row(
    out: &mut Vec<u8>,
    plan: &PoolPlan<'_>,
    shapes: &[InnerRow],
) -> Result<(), AllocError>
    ensures written { OnOk result (out.new.items ≡ out.old.items ++ flat_map row (map (row_in plan.now) shapes.now)) }
    ensures short { OnOk result (AllByRecursion IsShortRow shapes.now) }
{
    for i in 0..shapes.len() {
        put_row(out, plan, &shapes[i])?;
    }
    Ok(())
}

/// Adds one `InnerClasses` that holds the rows at the end.
fn put_inner_classes(
    out: &mut Vec<u8>,
    plan: &PoolPlan<'_>,
    shapes: &[InnerRow],
) -> Result<(), AllocError>
    requires shapes { length shapes.now < 65536 }
    ensures written { OnOk result (out.new.items ≡ out.old.items ++ inner_bytes plan.now shapes.now) }
    ensures short { OnOk result (AllByRecursion IsShortRow shapes.now) }
{
    put_u16(out, plan.place(Need::Text("InnerClasses")))?;
    put_u32(out, 2 + 8 * shapes.len() as u32)?;
    put_u16(out, shapes.len() as u16)?;
    put_each_row(out, plan, shapes)
}

/// Adds the count of the class attributes at the end, and the one that holds the rows where there are some.
fn put_attributes(
    out: &mut Vec<u8>,
    plan: &PoolPlan<'_>,
    shapes: &[InnerRow],
) -> Result<(), AllocError>
    requires shapes { length shapes.now < 65536 }
    ensures written { OnOk result (out.new.items ≡ out.old.items ++ counted attribute (attributes_in plan.now shapes.now)) }
    ensures short { OnOk result (AllByRecursion IsShortRow shapes.now) }
{
    if shapes.is_empty() {
        put_u16(out, 0)?;
        return Ok(());
    }
    put_u16(out, 1)?;
    put_inner_classes(out, plan, shapes)?;
    Ok(())
}

/// Adds the interfaces, the fields, the methods and the attributes at the end.
pub fn put_lists(
    out: &mut Vec<u8>,
    plan: &PoolPlan<'_>,
    shape: &ClassShape,
) -> Result<(), AllocError>
    requires interfaces { length shape.now.interfaces < 65536 }
    requires fields { length shape.now.fields < 65536 }
    requires methods { length shape.now.methods < 65536 }
    requires inner { length shape.now.inner < 65536 }
    ensures written { OnOk result (out.new.items ≡ out.old.items ++ lists (lists_in plan.now shape.now)) }
    ensures short { OnOk result (HasShortFlags shape.now) }
{
    put_classes(out, plan, shape.interfaces.as_slice())?;
    put_members(out, plan, shape.fields.as_slice())?;
    put_members(out, plan, shape.methods.as_slice())?;
    put_attributes(out, plan, shape.inner.as_slice())
}
