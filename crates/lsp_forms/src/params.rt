ghost use Rattle.std.specs.Prelude.{◌≡◌, ◌≤◌, ◌<◌, IfSome, Option, Some, None, option_map};
ghost use Rattle.serde_json.specs.Find.{get};
ghost use Rattle.serde_json.specs.View.{view, number_view};
ghost use Rattle.lsp_forms.specs.Forms.{optional};
ghost use Rattle.lsp_forms.specs.Params.{member_of, text_of, number_of, whole, fault};

use crate::forms::ParamFault;
use json_rpc::Refused;
use serde_json::{Number, Value};

/// The greatest line or character.
pub const MOST_PLACE: u64 = 2_147_483_647;

/// The greatest cursor, version or count of uses.
pub const MOST_WORD: u64 = 4_294_967_295;

/// A parameter is missing or of the wrong kind.
pub const MISSING: u32 = 1;

/// A number isn't written as a whole number, or is out of its range.
pub const OUT_OF_RANGE: u32 = 2;

/// The command is unknown.
pub const UNKNOWN: u32 = 7;

/// The refusal for a cause that speaks of no list.
pub fn refused(cause: u32) -> Refused<ParamFault>
    ensures { result ≡ Refused.Fault (fault cause) }
{
    Refused::Fault(ParamFault { cause, index: 0 })
}

/// A member of a member.
#[tactic(auto, unfolding(crate::specs::Params::member_of))]
pub fn member<'a>(params: &'a Value, outer: &str, key: &str) -> Option<&'a Value>
    ensures { option_map (λ v. view v.now) result ≡ member_of key.now (get outer.now (view params.now)) }
{
    match params.get(outer) {
        Some(value) => value.get(key),
        None => None,
    }
}

/// A member of what may be missing.
#[tactic(auto, unfolding(crate::specs::Params::member_of))]
pub fn within<'a>(value: Option<&'a Value>, key: &str) -> Option<&'a Value>
    ensures { option_map (λ v. view v.now) result ≡ member_of key.now (option_map (λ v. view v.now) value.entry) }
{
    match value {
        Some(value) => value.get(key),
        None => None,
    }
}

/// The text that a parameter is.
#[tactic(auto, unfolding(crate::specs::Params::text_of))]
pub fn text_of(value: Option<&Value>) -> Option<&str>
    ensures { option_map (λ s. s.now) result ≡ text_of (option_map (λ v. view v.now) value.entry) }
{
    match value {
        Some(value) => value.as_str(),
        None => None,
    }
}

/// The number that a parameter is.
#[tactic(auto, unfolding(crate::specs::Params::number_of))]
pub fn number_of(value: Option<&Value>) -> Option<&Number>
    ensures { option_map (λ n. number_view n.now) result ≡ number_of (option_map (λ v. view v.now) value.entry) }
{
    match value {
        Some(value) => value.as_number(),
        None => None,
    }
}

/// The number, where it is written as a whole number from `low` to `high`.
#[tactic(auto, unfolding(crate::specs::Params::whole))]
pub fn whole(number: &Number, low: u64, high: u64) -> Option<u64>
    ensures value { result ≡ whole (number_view number.now) low high }
    ensures bound { IfSome result (λ n. n ≤ high) }
{
    match number.as_u64() {
        Some(n) if low <= n && n <= high => Some(n),
        _ => None,
    }
}

/// An optional number: None where it is of another kind, `Some(None)` where it is left out.
#[tactic(auto, unfolding(crate::specs::Forms::optional))]
pub fn optional(value: Option<&Value>) -> Option<Option<&Number>>
    ensures { option_map (λ o. option_map (λ n. number_view n.now) o) result ≡ optional (option_map (λ v. view v.now) value.entry) }
{
    match value {
        None | Some(Value::Null) => Some(None),
        Some(Value::Number(number)) => Some(Some(number)),
        Some(_) => None,
    }
}
