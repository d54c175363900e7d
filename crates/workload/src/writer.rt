ghost use Rattle.std.specs.Prelude.{◌≡◌, ◌≤◌, ◌<◌, ◌++◌, OnOk, IfOk, IfErr, true, false, length, ◌≢◌, AllPairs};
ghost use Rattle.std.specs.List.{list_any};
ghost use Rattle.class_pool.specs.Spelling.{Head, IsPoolOf, head, header_bytes};
ghost use Rattle.class_shape.specs.Parts.{body};
ghost use Rattle.class_shape.specs.Shapes.{IsClassFile};
ghost use Rattle.workload.specs.declared.fault.WriteFault.TheVariants.{TooBig};
ghost use Rattle.workload.specs.Layout.{head_in, body_in, pool_of, file_of, entries_in};
ghost use Rattle.workload.specs.Writing.{IsWhole, is_too_big, has_long_list, is_long_text};
ghost use Rattle.workload.specs.Spelled.{IsWritten};

use crate::fault::WriteFault;
use crate::needs::needs_of;
use crate::parts::{put_lists, put_own, put_u16, put_u32};
use crate::plan::{PoolPlan, plan_of};
use crate::pool::put_entries;
use class_shape::ClassShape;
use lists::Items;
use std::alloc::{AllocError, Global};

/// Whether a list is longer than two bytes can count.
fn has_long_list(shape: &ClassShape) -> bool
    ensures { result ≡ has_long_list shape.now }
{
    shape.interfaces.len() > 65535
        || shape.fields.len() > 65535
        || shape.methods.len() > 65535
        || shape.inner.len() > 65535
}

/// Adds the ten bytes of the header at the end.
fn put_header(out: &mut Vec<u8>, plan: &PoolPlan<'_>, shape: &ClassShape) -> Result<(), AllocError>
    ensures written { OnOk result (out.new.items ≡ out.old.items ++ header_bytes (head_in plan.now shape.now).header) }
    ensures minor { OnOk result (shape.now.minor < 65536) }
    ensures major { OnOk result (shape.now.major < 65536) }
{
    put_u32(out, 0xCAFE_BABE)?;
    put_u16(out, shape.minor)?;
    put_u16(out, shape.major)?;
    put_u16(out, plan.count())
}

/// The bytes of a shape whose lists two bytes can count.
fn bytes_of(alloc: Global, plan: &PoolPlan<'_>, shape: &ClassShape) -> Result<Vec<u8>, WriteFault>
    requires lists { has_long_list shape.now ≡ false }
    ensures written { IfOk result (λ out. out.items ≡ head (head_in plan.now shape.now) ++ body (body_in plan.now shape.now)) }
    ensures fits { IfOk result (λ out. IsWritten plan.now shape.now) }
    ensures big { IfErr result (λ e. e ≡ TooBig → list_any is_long_text plan.now ≡ true) }
{
    let mut out = Vec::new(alloc);
    put_header(&mut out, plan, shape)?;
    put_entries(alloc, &mut out, plan, plan.as_slice())?;
    put_own(&mut out, plan, shape)?;
    put_lists(&mut out, plan, shape)?;
    Ok(out)
}

/// The bytes of a shape, in the order of its file.
fn file_bytes(alloc: Global, shape: &ClassShape) -> Result<Vec<u8>, WriteFault>
    ensures written { IfOk result (λ out. out.items ≡ file_of shape.now) }
    ensures fits { IfOk result (λ out. IsWritten (pool_of shape.now) shape.now) }
    ensures lists { IfOk result (λ out. has_long_list shape.now ≡ false) }
    ensures pool { IfOk result (λ out. length (pool_of shape.now) < 65535) }
    ensures big { IfErr result (λ e. e ≡ TooBig → is_too_big shape.now ≡ true) }
{
    if has_long_list(shape) {
        return Err(WriteFault::TooBig);
    }
    let needs = needs_of(alloc, shape)?;
    match plan_of(alloc, needs.as_slice())? {
        Some(plan) => bytes_of(alloc, &plan, shape),
        None => Err(WriteFault::TooBig),
    }
}

/// The class file of a shape (JVMS chapter 4). Of the files of the shape it is one: its pool holds each needed
/// entry once, in the order of first need, a class before its name; members have no attributes, and one
/// `InnerClasses` holds the rows where there are some. `TooBig` comes where the count of that pool, the
/// length of a list or that of a text in modified UTF-8 is more than 65,535, and nowhere else.
pub fn write_class(alloc: Global, shape: &ClassShape) -> Result<Items<u8>, WriteFault>
    requires new { 45 ≤ shape.now.major }
    requires whole { IsWhole shape.now }
    // What is written is a class file of the shape, so reading gives the shape back.
    ensures written { IfOk result (λ bytes. IsClassFile bytes shape.now) }
    // The same shape is written alike each time.
    ensures exact { IfOk result (λ bytes. bytes ≡ file_of shape.now) }
    // The pool that a reader finds holds each needed entry once, where it is first needed.
    ensures pool { IfOk result (λ bytes. (h : Head) → IsPoolOf bytes h → h.entries ≡ entries_in (pool_of shape.now)) }
    // No entry of that pool stands twice.
    ensures distinct { IfOk result (λ bytes. (h : Head) → IsPoolOf bytes h → AllPairs (λ a b. a ≢ b) h.entries) }
    // A shape that is too big is not written.
    ensures small { IfOk result (λ bytes. is_too_big shape.now ≡ false) }
    // Only a shape that is too big is refused as such.
    ensures big { IfErr result (λ e. e ≡ TooBig → is_too_big shape.now ≡ true) }
{
    let bytes = file_bytes(alloc, shape)?;
    Ok(Items::from_vec(bytes))
}
