ghost use Rattle.std.specs.Prelude.{◌≡◌, Ok, IfOk, IfErr, Some, None, option_map, if◌then◌else◌};
ghost use Rattle.std.specs.List.{list_all};
ghost use Rattle.serde_json.specs.View.{view};
ghost use Rattle.lsp_forms.specs.Params.{RefusedAs};
ghost use Rattle.lsp_forms.specs.Weighing.{weight_names, is_number, word_in, is_word, weights_in, weights_of};

use crate::forms::{Command, ParamFault};
use crate::params::{MISSING, MOST_WORD, OUT_OF_RANGE, number_of, refused, whole, within};
use decl_index::Weights;
use json_rpc::Refused;
use serde_json::Value;

/// Whether a member is a number.
fn is_number(argument: Option<&Value>, name: &str) -> bool
    ensures { result ≡ is_number (option_map (λ v. view v.now) argument.entry) name.now }
{
    number_of(within(argument, name)).is_some()
}

/// The number that a member is, where it is one of 32 bits.
#[tactic(auto, unfolding(crate::specs::Weighing::word_in))]
fn word_in(argument: Option<&Value>, name: &str) -> Option<u32>
    ensures { result ≡ word_in (option_map (λ v. view v.now) argument.entry) name.now }
{
    let number = number_of(within(argument, name))?;
    match whole(number, 0, MOST_WORD) {
        Some(number) => Some(number as u32),
        None => None,
    }
}

/// Whether each of the ten is a number.
fn are_numbers(argument: Option<&Value>) -> bool
    ensures { result ≡ list_all (is_number (option_map (λ v. view v.now) argument.entry)) weight_names }
{
    is_number(argument, "bound")
        && is_number(argument, "binder")
        && is_number(argument, "local")
        && is_number(argument, "step")
        && is_number(argument, "lambda")
        && is_number(argument, "own")
        && is_number(argument, "package")
        && is_number(argument, "literal")
        && is_number(argument, "far")
        && is_number(argument, "span")
}

/// The ten as weights, None where one of them is no number of 32 bits.
#[tactic(auto, unfolding(crate::specs::Weighing::weights_in))]
fn weights_in(argument: Option<&Value>) -> Option<Weights>
    ensures { result ≡ (if list_all (is_word (option_map (λ v. view v.now) argument.entry)) weight_names then Some (weights_in (option_map (λ v. view v.now) argument.entry)) else None) }
{
    Some(Weights {
        bound: word_in(argument, "bound")?,
        binder: word_in(argument, "binder")?,
        local: word_in(argument, "local")?,
        step: word_in(argument, "step")?,
        lambda: word_in(argument, "lambda")?,
        own: word_in(argument, "own")?,
        package: word_in(argument, "package")?,
        literal: word_in(argument, "literal")?,
        far: word_in(argument, "far")?,
        span: word_in(argument, "span")?,
    })
}

/// The object of `insynth.weights`. All ten are needed; nothing tells what stands in place of one that is left out.
pub fn read_weights(argument: Option<&Value>) -> Result<Command, Refused<ParamFault>>
    ensures form { IfOk result (λ c. weights_of (option_map (λ v. view v.now) argument.entry) ≡ Ok c) }
    ensures refusal { IfErr result (λ e. RefusedAs (weights_of (option_map (λ v. view v.now) argument.entry)) e) }
{
    if !are_numbers(argument) {
        return Err(refused(MISSING));
    }
    let Some(weights) = weights_in(argument) else {
        return Err(refused(OUT_OF_RANGE));
    };
    match Weights::checked(weights) {
        Some(weights) => Ok(Command::SetWeights(weights)),
        None => Err(refused(OUT_OF_RANGE)),
    }
}
