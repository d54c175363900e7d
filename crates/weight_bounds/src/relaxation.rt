// Steps that let numbers fall to what rules give.

ghost use Rattle.std.specs.Prelude.{◌≡◌, ◌<◌, ◌≤◌, ◌*◌, ◌+◌, ◌∷◌, ℕ, true, length, slice_get, slice_set, Some, OnOk, IsPermutation};
ghost use Rattle.terms.specs.Table.{has};
ghost use Rattle.weight_bounds.specs.Bounds.{place};
ghost use Rattle.weight_bounds.specs.Relaxed.{parameters};
ghost use Rattle.weight_bounds.specs.Rules.{Source, sources, of_decl, of_pair, source_rule, variable_rule, IsRule};
ghost use Rattle.weight_bounds.specs.Numbers.{IsStep, IsSettled, IsLowering, IsRelaxed};

use crate::costs::{args_cost, coercion_cost, number_at, place_of, variable_cost};
use crate::limit::Limit;
use crate::lookups::{decl_at, pair_at};
use crate::setting::Setting;
use std::alloc::AllocError;
use terms::Decl;
use weight_queue::WeightQueue;

/// Lets the number at a place fall, and puts the place in the queue under it.
fn put(
    numbers: &mut [u32],
    queue: &mut WeightQueue<usize>,
    place: usize,
    number: u32,
) -> Result<(), AllocError>
    requires in_range { place < length numbers.old }
    ensures set_there { OnOk result (numbers.new ≡ slice_set numbers.old place number) }
    ensures queued { OnOk result (IsPermutation ((number, place) ∷ queue.old.items) queue.new.items) }
{
    queue.reserve(1)?;
    numbers[place] = number;
    queue.push(number, place);
    Ok(())
}

/// Lets the number at a place fall to a cost, where there is one and it is less.
fn lower(
    limit: Limit,
    numbers: &mut [u32],
    queue: &mut WeightQueue<usize>,
    place: usize,
    cost: Option<u32>,
) -> Result<(), AllocError>
    requires in_range { place < length numbers.old }
    ensures lowering { OnOk result (IsLowering limit.value place cost numbers.old queue.old.items numbers.new queue.new.items) }
{
    let cost = match cost {
        Some(cost) => cost,
        None => return Ok(()),
    };
    if number_at(limit, numbers, place) <= cost {
        return Ok(());
    }
    put(numbers, queue, place, cost)?;
    Ok(())
}

/// The step for a declaration, where so many lambdas are left.
fn relax_decl(
    setting: &Setting,
    decl: &Decl,
    left: u32,
    numbers: &mut [u32],
    queue: &mut WeightQueue<usize>,
) -> Result<(), AllocError>
    requires in_range { place decl.now.result left < length numbers.old }
    requires rule { IsRule setting.now.parts.now (source_rule left (of_decl decl.now)) }
    ensures relaxed { OnOk result (IsRelaxed setting.now.parts.now setting.now.limit.value (source_rule left (of_decl decl.now)) numbers.old queue.old.items numbers.new queue.new.items) }
{
    let cost = args_cost(setting, numbers, left, decl.weight, decl.args.as_slice());
    lower(
        setting.limit,
        numbers,
        queue,
        place_of(decl.result, left),
        cost,
    )?;
    Ok(())
}

/// The step for a pair, where so many lambdas are left.
fn relax_pair(
    setting: &Setting,
    pair: (u32, u32),
    left: u32,
    numbers: &mut [u32],
    queue: &mut WeightQueue<usize>,
) -> Result<(), AllocError>
    requires in_range { place pair.1 left < length numbers.old }
    requires rule { IsRule setting.now.parts.now (source_rule left (of_pair setting.now.parts.now pair)) }
    ensures relaxed { OnOk result (IsRelaxed setting.now.parts.now setting.now.limit.value (source_rule left (of_pair setting.now.parts.now pair)) numbers.old queue.old.items numbers.new queue.new.items) }
{
    let cost = coercion_cost(setting, numbers, left, pair.0);
    lower(setting.limit, numbers, queue, place_of(pair.1, left), cost)?;
    Ok(())
}

/// The step for a variable of a type, where so many lambdas are left.
fn relax_variable(
    setting: &Setting,
    wanted: u32,
    left: u32,
    numbers: &mut [u32],
    queue: &mut WeightQueue<usize>,
) -> Result<(), AllocError>
    requires in_range { place wanted left < length numbers.old }
    requires rule { IsRule setting.now.parts.now (variable_rule setting.now.parts.now left wanted) }
    ensures relaxed { OnOk result (IsRelaxed setting.now.parts.now setting.now.limit.value (variable_rule setting.now.parts.now left wanted) numbers.old queue.old.items numbers.new queue.new.items) }
{
    let cost = variable_cost(setting);
    lower(setting.limit, numbers, queue, place_of(wanted, left), cost)?;
    Ok(())
}

/// The step for the source with a number, where there is one.
fn relax_source(
    setting: &Setting,
    source: u32,
    left: u32,
    numbers: &mut [u32],
    queue: &mut WeightQueue<usize>,
) -> Result<(), AllocError>
    requires deep { left ≤ setting.now.parts.now.depth }
    requires places { length numbers.old ≡ 4 * length setting.now.parts.now.types }
    ensures step { OnOk result (IsStep setting.now.parts.now setting.now.limit.value numbers.old queue.old.items numbers.new queue.new.items) }
    ensures settled { OnOk result ((s : Source) → slice_get (sources setting.now.parts.now) source ≡ Some s → IsSettled setting.now.parts.now setting.now.limit.value numbers.new queue.new.items (source_rule left s)) }
{
    let first = setting.parts.decls.len();
    let place = source as usize;
    if place < first {
        let decl = decl_at(setting.parts, place);
        relax_decl(setting, decl, left, numbers, queue)?;
        return Ok(());
    }
    if place - first < setting.parts.pairs.len() {
        let pair = pair_at(setting.parts, place - first);
        relax_pair(setting, pair, left, numbers, queue)?;
        return Ok(());
    }
    Ok(())
}

/// The steps for listed sources, where no more lambdas are left than the depth.
pub(crate) fn relax_listed(
    setting: &Setting,
    listed: &[u32],
    left: u32,
    numbers: &mut [u32],
    queue: &mut WeightQueue<usize>,
) -> Result<(), AllocError>
    requires places { length numbers.old ≡ 4 * length setting.now.parts.now.types }
    ensures step { OnOk result (IsStep setting.now.parts.now setting.now.limit.value numbers.old queue.old.items numbers.new queue.new.items) }
    ensures settled { OnOk result (left ≤ setting.now.parts.now.depth → (k : ℕ) → has k listed.now ≡ true → (s : Source) → slice_get (sources setting.now.parts.now) k ≡ Some s → IsSettled setting.now.parts.now setting.now.limit.value numbers.new queue.new.items (source_rule left s)) }
{
    if left > setting.parts.depth {
        return Ok(());
    }
    for source in listed {
        relax_source(setting, *source, left, numbers, queue)?;
    }
    Ok(())
}

/// The steps for all sources, where so many lambdas are left.
pub(crate) fn relax_sources(
    setting: &Setting,
    left: u32,
    numbers: &mut [u32],
    queue: &mut WeightQueue<usize>,
) -> Result<(), AllocError>
    requires deep { left ≤ setting.now.parts.now.depth }
    requires places { length numbers.old ≡ 4 * length setting.now.parts.now.types }
    ensures step { OnOk result (IsStep setting.now.parts.now setting.now.limit.value numbers.old queue.old.items numbers.new queue.new.items) }
    ensures settled { OnOk result ((k : ℕ) (s : Source) → slice_get (sources setting.now.parts.now) k ≡ Some s → IsSettled setting.now.parts.now setting.now.limit.value numbers.new queue.new.items (source_rule left s)) }
{
    let count = setting.parts.decls.len() + setting.parts.pairs.len();
    for source in 0..count as u32 {
        relax_source(setting, source, left, numbers, queue)?;
    }
    Ok(())
}

/// The steps for variables of the types that lambdas bind, where so many lambdas are left and one is around.
pub(crate) fn relax_variables(
    setting: &Setting,
    types: &[u32],
    left: u32,
    numbers: &mut [u32],
    queue: &mut WeightQueue<usize>,
) -> Result<(), AllocError>
    requires types { types.now ≡ parameters setting.now.parts.now }
    requires deep { left < setting.now.parts.now.depth }
    requires places { length numbers.old ≡ 4 * length setting.now.parts.now.types }
    ensures step { OnOk result (IsStep setting.now.parts.now setting.now.limit.value numbers.old queue.old.items numbers.new queue.new.items) }
    ensures settled { OnOk result ((t : ℕ) → has t (parameters setting.now.parts.now) ≡ true → IsSettled setting.now.parts.now setting.now.limit.value numbers.new queue.new.items (variable_rule setting.now.parts.now left t)) }
{
    for wanted in types {
        relax_variable(setting, *wanted, left, numbers, queue)?;
    }
    Ok(())
}
