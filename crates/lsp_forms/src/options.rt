ghost use Rattle.std.specs.Prelude.{◌≡◌, ◌≤◌, Ok, Err, IfOk, IfErr, IfSome, codes, Option, Some, None, option_map};
ghost use Rattle.serde_json.specs.Find.{get};
ghost use Rattle.serde_json.specs.Data.{array};
ghost use Rattle.serde_json.specs.View.{items_view, view, number_view};
ghost use Rattle.terms.specs.Faults.{greatest_depth};
ghost use Rattle.lsp_forms.specs.Params.{FaultedAs};
ghost use Rattle.lsp_forms.specs.Forms.{initialize_from, initialize_of, optional, options_from, options_in, whole_or};

use crate::forms::{Initialize, ParamFault};
use crate::params::{MISSING, OUT_OF_RANGE, optional, refused, whole};
use json_rpc::Refused;
use serde_json::{Number, Value};
use terms::GREATEST_DEPTH;

const LIMIT: u64 = 4000;

const DEPTH: u64 = 1;

const COUNT: u64 = 20;

/// The number, or what stands in its place where it is left out.
#[tactic(auto, unfolding(crate::specs::Forms::whole_or))]
fn whole_or(number: Option<&Number>, low: u64, high: u64, default: u64) -> Option<u64>
    requires { default ≤ high }
    ensures value { result ≡ whole_or (option_map (λ n. number_view n.now) number.entry) low high default }
    ensures bound { IfSome result (λ n. n ≤ high) }
{
    match number {
        Some(number) => whole(number, low, high),
        None => Some(default),
    }
}

/// The options whose kinds are right.
#[tactic(auto, unfolding(crate::specs::Forms::options_in))]
fn options_in(
    limit: Option<&Number>,
    depth: Option<&Number>,
    count: Option<&Number>,
) -> Result<Initialize, Refused<ParamFault>>
    ensures form { IfOk result (λ form. options_in (whole_or (option_map (λ n. number_view n.now) limit.entry) 1 10000 4000) (whole_or (option_map (λ n. number_view n.now) depth.entry) 0 greatest_depth 1) (whole_or (option_map (λ n. number_view n.now) count.entry) 1 1000 20) ≡ Ok form) }
    ensures refusal { IfErr result (λ e. FaultedAs (options_in (whole_or (option_map (λ n. number_view n.now) limit.entry) 1 10000 4000) (whole_or (option_map (λ n. number_view n.now) depth.entry) 0 greatest_depth 1) (whole_or (option_map (λ n. number_view n.now) count.entry) 1 1000 20)) e) }
{
    let Some(limit) = whole_or(limit, 1, 10_000, LIMIT) else {
        return Err(refused(OUT_OF_RANGE));
    };
    let Some(depth) = whole_or(depth, 0, GREATEST_DEPTH as u64, DEPTH) else {
        return Err(refused(OUT_OF_RANGE));
    };
    let Some(count) = whole_or(count, 1, 1000, COUNT) else {
        return Err(refused(OUT_OF_RANGE));
    };
    Ok(Initialize {
        limit: limit as u32,
        depth: depth as u32,
        count,
    })
}

/// The options of an object.
#[tactic(auto, unfolding(crate::specs::Forms::options_from))]
fn options_from(options: &Value) -> Result<Initialize, Refused<ParamFault>>
    ensures form { IfOk result (λ form. options_from (optional (get (codes "limit") (view options.now))) (optional (get (codes "depth") (view options.now))) (optional (get (codes "count") (view options.now))) ≡ Ok form) }
    ensures refusal { IfErr result (λ e. FaultedAs (options_from (optional (get (codes "limit") (view options.now))) (optional (get (codes "depth") (view options.now))) (optional (get (codes "count") (view options.now)))) e) }
{
    let Some(limit) = optional(options.get("limit")) else {
        return Err(refused(MISSING));
    };
    let Some(depth) = optional(options.get("depth")) else {
        return Err(refused(MISSING));
    };
    let Some(count) = optional(options.get("count")) else {
        return Err(refused(MISSING));
    };
    options_in(limit, depth, count)
}

/// What stands in place of options that are left out.
#[tactic(auto, unfolding(crate::specs::Forms::initialize_from))]
fn defaults() -> Initialize
    ensures { Ok result ≡ initialize_from None }
{
    Initialize {
        limit: LIMIT as u32,
        depth: DEPTH as u32,
        count: COUNT,
    }
}

/// The options that an array stands for: none, where it is empty.
fn options_in_array(items: &[Value]) -> Result<Initialize, Refused<ParamFault>>
    ensures form { IfOk result (λ form. initialize_from (Some (array (items_view items.now))) ≡ Ok form) }
    ensures refusal { IfErr result (λ e. FaultedAs (initialize_from (Some (array (items_view items.now)))) e) }
{
    if items.is_empty() {
        return Ok(defaults());
    }
    Err(refused(MISSING))
}

/// The options of `initialize`; what is left out or null has its default.
#[tactic(auto, unfolding(crate::specs::Forms::initialize_from))]
pub fn read_initialize(params: &Value) -> Result<Initialize, Refused<ParamFault>>
    ensures form { IfOk result (λ form. initialize_of (view params.now) ≡ Ok form) }
    ensures refusal { IfErr result (λ e. FaultedAs (initialize_of (view params.now)) e) }
{
    match params.get("initializationOptions") {
        None | Some(Value::Null) => Ok(defaults()),
        Some(options) => match options {
            Value::Object(_) => options_from(options),
            Value::Array(items) => options_in_array(items.as_slice()),
            _ => Err(refused(MISSING)),
        },
    }
}
