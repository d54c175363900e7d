ghost use Rattle.std.specs.Prelude.{◌≡◌, Ok, Err, IfOk, IfErr, Option, Some, None, option_map};
ghost use Rattle.serde_json.specs.Find.{get};
ghost use Rattle.serde_json.specs.View.{view, number_view};
ghost use Rattle.lsp_forms.specs.Params.{RefusedAs, whole};
ghost use Rattle.lsp_forms.specs.Commands.{close_of, command_of, explain_at, explain_of, named_command, only_object, page_at, page_of, withdraw_of, word, word_if};
ghost use Rattle.lsp_forms.specs.Weighing.{weights_of};

use crate::forms::{Command, ParamFault};
use crate::params::{
    MISSING, MOST_WORD, OUT_OF_RANGE, UNKNOWN, number_of, optional, refused, text_of, whole, within,
};
use crate::publishing::read_publish;
use crate::weights::read_weights;
use json_rpc::Refused;
use serde_json::{Number, Value};
use std::alloc::Global;

/// The one item of a list of one object.
#[tactic(auto, unfolding(crate::specs::Commands::only_object, crate::specs::Commands::object_alone))]
fn only_object(value: Option<&Value>) -> Option<&Value>
    ensures { option_map (λ v. view v.now) result ≡ only_object (option_map (λ v. view v.now) value.entry) }
{
    let list = value?;
    match list.get(0) {
        Some(Value::Object(_)) if list.get(1).is_none() => list.get(0),
        _ => None,
    }
}

/// A number of 32 bits.
fn word(number: &Number) -> Option<u32>
    ensures { result ≡ word (number_view number.now) }
{
    match whole(number, 0, MOST_WORD) {
        Some(number) => Some(number as u32),
        None => None,
    }
}

/// A page whose numbers are there.
#[tactic(auto, unfolding(crate::specs::Commands::page_at))]
fn page_at(cursor: &Number, count: &Number) -> Result<Command, Refused<ParamFault>>
    ensures form { IfOk result (λ c. page_at (word (number_view cursor.now)) (whole (number_view count.now) 1 1000) ≡ Ok c) }
    ensures refusal { IfErr result (λ e. RefusedAs (page_at (word (number_view cursor.now)) (whole (number_view count.now) 1 1000)) e) }
{
    let Some(cursor) = word(cursor) else {
        return Err(refused(OUT_OF_RANGE));
    };
    let Some(count) = whole(count, 1, 1000) else {
        return Err(refused(OUT_OF_RANGE));
    };
    Ok(Command::Page { cursor, count })
}

/// The object of `insynth.page`.
#[tactic(auto, unfolding(crate::specs::Commands::page_from))]
fn read_page(argument: Option<&Value>) -> Result<Command, Refused<ParamFault>>
    ensures form { IfOk result (λ c. page_of (option_map (λ v. view v.now) argument.entry) ≡ Ok c) }
    ensures refusal { IfErr result (λ e. RefusedAs (page_of (option_map (λ v. view v.now) argument.entry)) e) }
{
    let Some(cursor) = number_of(within(argument, "cursor")) else {
        return Err(refused(MISSING));
    };
    let Some(count) = number_of(within(argument, "count")) else {
        return Err(refused(MISSING));
    };
    page_at(cursor, count)
}

/// The object of `insynth.close`.
#[tactic(auto, unfolding(crate::specs::Commands::one_from, crate::specs::Commands::one_at))]
fn read_close(argument: Option<&Value>) -> Result<Command, Refused<ParamFault>>
    ensures form { IfOk result (λ c. close_of (option_map (λ v. view v.now) argument.entry) ≡ Ok c) }
    ensures refusal { IfErr result (λ e. RefusedAs (close_of (option_map (λ v. view v.now) argument.entry)) e) }
{
    let Some(cursor) = number_of(within(argument, "cursor")) else {
        return Err(refused(MISSING));
    };
    let Some(cursor) = word(cursor) else {
        return Err(refused(OUT_OF_RANGE));
    };
    Ok(Command::Close { cursor })
}

/// An optional number of 32 bits: None where it is out of the range, `Some(None)` where it is left out.
#[tactic(auto, unfolding(crate::specs::Commands::word_if))]
fn word_if(number: Option<&Number>) -> Option<Option<u32>>
    ensures { result ≡ word_if (option_map (λ n. number_view n.now) number.entry) }
{
    match number {
        Some(number) => word(number).map(Some),
        None => Some(None),
    }
}

/// An explanation whose numbers are there.
#[tactic(auto, unfolding(crate::specs::Commands::explain_at))]
fn explain_at(cursor: &Number, item: Option<&Number>) -> Result<Command, Refused<ParamFault>>
    ensures form { IfOk result (λ c. explain_at (word (number_view cursor.now)) (word_if (option_map (λ n. number_view n.now) item.entry)) ≡ Ok c) }
    ensures refusal { IfErr result (λ e. RefusedAs (explain_at (word (number_view cursor.now)) (word_if (option_map (λ n. number_view n.now) item.entry))) e) }
{
    let Some(cursor) = word(cursor) else {
        return Err(refused(OUT_OF_RANGE));
    };
    let Some(item) = word_if(item) else {
        return Err(refused(OUT_OF_RANGE));
    };
    Ok(Command::Explain { cursor, item })
}

/// The object of `insynth.explain`.
#[tactic(auto, unfolding(crate::specs::Commands::explain_from))]
fn read_explain(argument: Option<&Value>) -> Result<Command, Refused<ParamFault>>
    ensures form { IfOk result (λ c. explain_of (option_map (λ v. view v.now) argument.entry) ≡ Ok c) }
    ensures refusal { IfErr result (λ e. RefusedAs (explain_of (option_map (λ v. view v.now) argument.entry)) e) }
{
    let Some(cursor) = number_of(within(argument, "cursor")) else {
        return Err(refused(MISSING));
    };
    let Some(item) = optional(within(argument, "item")) else {
        return Err(refused(MISSING));
    };
    explain_at(cursor, item)
}

/// The object of `insynth.withdraw`.
#[tactic(auto, unfolding(crate::specs::Commands::one_from, crate::specs::Commands::one_at))]
fn read_withdraw(argument: Option<&Value>) -> Result<Command, Refused<ParamFault>>
    ensures form { IfOk result (λ c. withdraw_of (option_map (λ v. view v.now) argument.entry) ≡ Ok c) }
    ensures refusal { IfErr result (λ e. RefusedAs (withdraw_of (option_map (λ v. view v.now) argument.entry)) e) }
{
    let Some(through) = number_of(within(argument, "through")) else {
        return Err(refused(MISSING));
    };
    let Some(through) = word(through) else {
        return Err(refused(OUT_OF_RANGE));
    };
    Ok(Command::Withdraw { through })
}

/// The command of this name.
#[tactic(auto, unfolding(crate::specs::Commands::named_command))]
fn named_command(
    alloc: Global,
    name: &str,
    argument: Option<&Value>,
) -> Result<Command, Refused<ParamFault>>
    ensures form { IfOk result (λ c. named_command name.now (option_map (λ v. view v.now) argument.entry) ≡ Ok c) }
    ensures refusal { IfErr result (λ e. RefusedAs (named_command name.now (option_map (λ v. view v.now) argument.entry)) e) }
{
    if name == "insynth.page" {
        return read_page(argument);
    }
    if name == "insynth.close" {
        return read_close(argument);
    }
    if name == "insynth.explain" {
        return read_explain(argument);
    }
    if name == "insynth.publish" {
        return read_publish(alloc, argument);
    }
    if name == "insynth.weights" {
        return read_weights(argument);
    }
    if name == "insynth.withdraw" {
        return read_withdraw(argument);
    }
    Err(refused(UNKNOWN))
}

/// The parameters of `workspace/executeCommand`. The causes come in this order: 1 where there is no command, 7
/// where it is unknown, 1 for all of its parameters, 2 for all, and then 8, 12 and 13 of a publication.
#[tactic(auto, unfolding(crate::specs::Commands::command_from))]
pub fn read_command(alloc: Global, params: &Value) -> Result<Command, Refused<ParamFault>>
    ensures form { IfOk result (λ c. command_of (view params.now) ≡ Ok c) }
    ensures refusal { IfErr result (λ e. RefusedAs (command_of (view params.now)) e) }
{
    let Some(name) = text_of(params.get("command")) else {
        return Err(refused(MISSING));
    };
    named_command(alloc, name, only_object(params.get("arguments")))
}
