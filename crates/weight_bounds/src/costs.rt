// What rules give their places by the numbers of what they want.

ghost use Rattle.std.specs.Prelude.{◌≡◌, ◌≤◌, ◌+◌};
ghost use Rattle.terms.specs.Weights.{binders_weight, coercion_weight, variable_weight};
ghost use Rattle.weight_bounds.specs.Bounds.{place};
ghost use Rattle.weight_bounds.specs.Numbers.{number_at, arg_cost, args_cost, IsWithin};

use crate::limit::Limit;
use crate::setting::Setting;
use terms::{Arg, Parts};

/// How many places each type has.
pub(crate) const PLACES: usize = 4;

/// The place of a type with so many lambdas left.
pub(crate) fn place_of(wanted: u32, left: u32) -> usize
    ensures value { result ≡ place wanted left }
{
    PLACES * wanted as usize + left as usize
}

/// The number at a place, above the limit where there is no such place.
pub(crate) fn number_at(limit: Limit, numbers: &[u32], place: usize) -> u32
    ensures value { result ≡ number_at limit.value numbers.now place }
{
    match numbers.get(place) {
        Some(number) => *number,
        None => limit.value + 1,
    }
}

/// The sum of two weights, none where it is above the limit.
fn sum_within(limit: Limit, weight: u32, number: u32) -> Option<u32>
    requires within { weight ≤ limit.value }
    ensures value { IsWithin limit.value (weight + number) result }
{
    if number > limit.value - weight {
        return None;
    }
    Some(weight + number)
}

/// What so many binders weigh together.
fn binders_weight(parts: &Parts, count: usize) -> u128
    ensures value { result ≡ binders_weight parts.now count }
{
    count as u128 * parts.steps.binder as u128
}

/// What a lambda with so many parameters weighs, where so many lambdas are left in its body.
fn lambda_cost(
    setting: &Setting,
    numbers: &[u32],
    left: u32,
    params: usize,
    wanted: u32,
) -> Option<u32>
    ensures value { IsWithin setting.now.limit.value (binders_weight setting.now.parts.now params + number_at setting.now.limit.value numbers.now (place wanted left)) result }
{
    let binders = binders_weight(setting.parts, params);
    if binders > setting.limit.value as u128 {
        return None;
    }
    sum_within(
        setting.limit,
        binders as u32,
        number_at(setting.limit, numbers, place_of(wanted, left)),
    )
}

/// What an argument weighs.
fn arg_cost(setting: &Setting, numbers: &[u32], left: u32, arg: &Arg) -> Option<u32>
    ensures value { IsWithin setting.now.limit.value (arg_cost setting.now.parts.now setting.now.limit.value numbers.now left arg.now) result }
{
    match arg {
        Arg::Plain(wanted) => sum_within(
            setting.limit,
            0,
            number_at(setting.limit, numbers, place_of(*wanted, left)),
        ),
        Arg::Fun(params, wanted) => {
            if left == 0 {
                return None;
            }
            lambda_cost(setting, numbers, left - 1, params.len(), *wanted)
        }
    }
}

/// A sum with what an argument weighs.
fn with_arg(setting: &Setting, numbers: &[u32], left: u32, sum: u32, arg: &Arg) -> Option<u32>
    requires within { sum ≤ setting.now.limit.value }
    ensures value { IsWithin setting.now.limit.value (sum + arg_cost setting.now.parts.now setting.now.limit.value numbers.now left arg.now) result }
{
    match arg_cost(setting, numbers, left, arg) {
        Some(more) => sum_within(setting.limit, sum, more),
        None => None,
    }
}

/// What arguments weigh with a declaration of this weight that wants them.
pub(crate) fn args_cost(
    setting: &Setting,
    numbers: &[u32],
    left: u32,
    weight: u32,
    args: &[Arg],
) -> Option<u32>
    ensures value { IsWithin setting.now.limit.value (args_cost setting.now.parts.now setting.now.limit.value numbers.now left weight args.now) result }
{
    if weight > setting.limit.value {
        return None;
    }
    let mut sum = weight;
    for arg in args {
        match with_arg(setting, numbers, left, sum, arg) {
            Some(more) => sum = more,
            None => return None,
        }
    }
    Some(sum)
}

/// What a coercion weighs.
#[tactic(auto, unfolding(terms::specs::Weights::coercion_weight))]
fn coercion_weight(parts: &Parts) -> u32
    ensures value { result ≡ coercion_weight parts.now }
{
    parts.steps.step
}

/// What a coercion weighs with the term of the lower type below it.
pub(crate) fn coercion_cost(
    setting: &Setting,
    numbers: &[u32],
    left: u32,
    lower: u32,
) -> Option<u32>
    ensures value { IsWithin setting.now.limit.value (coercion_weight setting.now.parts.now + number_at setting.now.limit.value numbers.now (place lower left)) result }
{
    let weight = coercion_weight(setting.parts);
    if weight > setting.limit.value {
        return None;
    }
    sum_within(
        setting.limit,
        weight,
        number_at(setting.limit, numbers, place_of(lower, left)),
    )
}

/// What a use of a variable weighs.
#[tactic(auto, unfolding(terms::specs::Weights::variable_weight))]
fn variable_weight(parts: &Parts) -> u32
    ensures value { result ≡ variable_weight parts.now }
{
    parts.steps.bound
}

/// What a variable weighs, none where that is above the limit.
pub(crate) fn variable_cost(setting: &Setting) -> Option<u32>
    ensures value { IsWithin setting.now.limit.value (variable_weight setting.now.parts.now) result }
{
    let weight = variable_weight(setting.parts);
    if weight > setting.limit.value {
        return None;
    }
    Some(weight)
}
