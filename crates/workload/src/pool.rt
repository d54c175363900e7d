ghost use Rattle.std.specs.Prelude.{◌≡◌, ◌++◌, [], OnOk, IfErr, true, map};
ghost use Rattle.std.specs.List.{flat_map, list_any, AllByRecursion};
ghost use Rattle.class_pool.specs.Spelling.{entry};
ghost use Rattle.workload.specs.declared.fault.WriteFault.TheVariants.{TooBig};
ghost use Rattle.workload.specs.Needs.{text};
ghost use Rattle.workload.specs.Views.{need_seen};
ghost use Rattle.workload.specs.Layout.{entry_in};
ghost use Rattle.workload.specs.Writing.{is_long_text};
ghost use Rattle.workload.specs.Spelled.{IsSpelled};

use crate::fault::WriteFault;
use crate::modified::put_modified;
use crate::needs::Need;
use crate::parts::put_u16;
use crate::plan::PoolPlan;
use std::alloc::Global;

/// Adds the entry of a text at the end.
#[tactic(auto, using(crate::proofs::UnitLaws::text_spells))]
fn put_text(alloc: Global, out: &mut Vec<u8>, t: &str) -> Result<(), WriteFault>
    ensures written { OnOk result (out.new.items ≡ out.old.items ++ entry (entry_in [] (text t.now))) }
    ensures spelled { OnOk result (IsSpelled (text t.now)) }
    ensures big { IfErr result (λ e. e ≡ TooBig → is_long_text (text t.now) ≡ true) }
{
    let mut raw = Vec::new(alloc);
    put_modified(&mut raw, t)?;
    if raw.len() > 65535 {
        return Err(WriteFault::TooBig);
    }
    out.push(1)?;
    put_u16(out, raw.len() as u16)?;
    out.extend_from_slice(&raw)?;
    Ok(())
}

/// Adds an entry at the end.
fn put_entry(
    alloc: Global,
    out: &mut Vec<u8>,
    plan: &PoolPlan<'_>,
    need: Need<'_>,
) -> Result<(), WriteFault>
    ensures written { OnOk result (out.new.items ≡ out.old.items ++ entry (entry_in plan.now (need_seen need.entry))) }
    ensures spelled { OnOk result (IsSpelled (need_seen need.entry)) }
    ensures big { IfErr result (λ e. e ≡ TooBig → is_long_text (need_seen need.entry) ≡ true) }
{
    match need {
        Need::Class(name) => {
            out.push(7)?;
            put_u16(out, plan.place(Need::Text(name)))?;
            Ok(())
        }
        Need::Text(t) => put_text(alloc, out, t),
    }
}

/// Adds entries of the pool at the end.
pub fn put_entries(
    alloc: Global,
    out: &mut Vec<u8>,
    plan: &PoolPlan<'_>,
    needs: &[Need<'_>],
) -> Result<(), WriteFault>
    ensures written { OnOk result (out.new.items ≡ out.old.items ++ flat_map entry (map (entry_in plan.now) (map need_seen needs.now))) }
    ensures spelled { OnOk result (AllByRecursion IsSpelled (map need_seen needs.now)) }
    ensures big { IfErr result (λ e. e ≡ TooBig → list_any is_long_text (map need_seen needs.now) ≡ true) }
{
    for i in 0..needs.len() {
        put_entry(alloc, out, plan, needs[i])?;
    }
    Ok(())
}
