ghost use Rattle.std.specs.Prelude.{◌≡◌, Ok, Err, IfOk, IfErr, ◌&&◌, is_some, length, Option, Some, None, option_map};
ghost use Rattle.serde_json.specs.Find.{as_str, get};
ghost use Rattle.serde_json.specs.View.{view, items_view, number_view};
ghost use Rattle.lsp_forms.specs.Params.{RefusedAs, every, item_fault};
ghost use Rattle.lsp_forms.specs.Commands.{counts, is_pair, is_text, list_of, name_from_text, names_at, pair_of, path_from_text, paths_at, publish_at, publish_of, published, use_at, use_from_pair, uses_at};

use crate::documents::kept;
use crate::forms::{Command, ParamFault};
use crate::keys::is_key;
use crate::params::{MISSING, MOST_WORD, OUT_OF_RANGE, number_of, refused, text_of, whole};
use crate::paths::path_of;
use json_rpc::Refused;
use lists::{Items, Text};
use serde_json::{Number, Value};
use std::alloc::Global;
use type_names::is_internal_name;

/// An item of `put` or of `sources` is no URI of a file of this host, or its path isn't UTF-8.
const NO_FILE: u32 = 8;

/// An item of `remove` is no internal name.
const NO_NAME: u32 = 12;

/// An item of `counts` has no key.
const NO_KEY: u32 = 13;

/// An item of `known` is no internal name.
const NOT_KNOWN: u32 = 22;

/// The refusal of the item with this number.
fn item_refused(cause: u32, number: u128) -> Refused<ParamFault>
    ensures { result ≡ Refused.Fault (item_fault cause number) }
{
    let index = number.min(u32::MAX as u128) as u32;
    Refused::Fault(ParamFault { cause, index })
}

/// An optional list, empty where it is left out; None where it is of another kind.
#[tactic(auto, unfolding(crate::specs::Commands::list_of))]
fn list_of(value: Option<&Value>) -> Option<&[Value]>
    ensures { option_map (λ s. items_view s.now) result ≡ list_of (option_map (λ v. view v.now) value.entry) }
{
    match value {
        None | Some(Value::Null) => Some(&[]),
        Some(Value::Array(values)) => Some(values.as_slice()),
        Some(_) => None,
    }
}

/// The text and the number of a list of exactly these two.
#[tactic(auto, unfolding(crate::specs::Commands::pair_from))]
fn pair_of(value: &Value) -> Option<(&str, &Number)>
    ensures { option_map (λ p. (p.0.now, number_view p.1.now)) result ≡ pair_of (view value.now) }
{
    let key = text_of(value.get(0))?;
    let number = number_of(value.get(1))?;
    match value.get(2) {
        None => Some((key, number)),
        Some(_) => None,
    }
}

/// Whether an item is a text.
fn is_text(value: &Value) -> bool
    ensures { result ≡ is_text (view value.now) }
{
    value.as_str().is_some()
}

/// Whether an item is a pair.
fn is_pair(value: &Value) -> bool
    ensures { result ≡ is_pair (view value.now) }
{
    pair_of(value).is_some()
}

/// Whether all items are texts.
fn are_texts(values: &[Value]) -> bool
    ensures { result ≡ every is_text (items_view values.now) }
{
    let mut rest = values;
    while let Some((value, more)) = rest.split_first() {
        if !is_text(value) {
            return false;
        }
        rest = more;
    }
    true
}

/// Whether all items are pairs.
fn are_pairs(values: &[Value]) -> bool
    ensures { result ≡ every is_pair (items_view values.now) }
{
    let mut rest = values;
    while let Some((value, more)) = rest.split_first() {
        if !is_pair(value) {
            return false;
        }
        rest = more;
    }
    true
}

/// Whether the number of a pair is a count of uses.
#[tactic(auto, unfolding(crate::specs::Commands::counts))]
fn counts(value: &Value) -> bool
    ensures { result ≡ counts (pair_of (view value.now)) }
{
    match pair_of(value) {
        Some((_, number)) => whole(number, 0, MOST_WORD).is_some(),
        None => true,
    }
}

/// Whether the numbers of all pairs are counts of uses.
fn all_count(values: &[Value]) -> bool
    ensures { result ≡ every (λ d. counts (pair_of d)) (items_view values.now) }
{
    let mut rest = values;
    while let Some((value, more)) = rest.split_first() {
        if !counts(value) {
            return false;
        }
        rest = more;
    }
    true
}

/// The path that an item of `put` or of `sources` names.
#[tactic(auto, unfolding(crate::specs::Commands::path_from_text))]
fn path_at(alloc: Global, value: &Value) -> Result<Option<Text>, Refused<ParamFault>>
    ensures path { IfOk result (λ path. path ≡ path_from_text (as_str (view value.now))) }
    ensures memory { IfErr result (λ e. e ≡ Refused.OutOfMemory) }
{
    match value.as_str() {
        Some(text) => path_of(alloc, text),
        None => Ok(None),
    }
}

/// The internal name that an item of `remove` or of `known` is.
#[tactic(auto, unfolding(crate::specs::Commands::name_from_text))]
fn name_at(alloc: Global, value: &Value) -> Result<Option<Text>, Refused<ParamFault>>
    ensures name { IfOk result (λ name. name ≡ name_from_text (as_str (view value.now))) }
    ensures memory { IfErr result (λ e. e ≡ Refused.OutOfMemory) }
{
    match value.as_str() {
        Some(text) if is_internal_name(text) => Ok(Some(kept(alloc, text)?)),
        _ => Ok(None),
    }
}

/// The key and the count of an item of `counts`.
#[tactic(auto, unfolding(crate::specs::Commands::use_from_pair, crate::specs::Commands::use_at))]
fn use_at(alloc: Global, value: &Value) -> Result<Option<(Text, u32)>, Refused<ParamFault>>
    ensures found { IfOk result (λ found. found ≡ use_from_pair (pair_of (view value.now))) }
    ensures memory { IfErr result (λ e. e ≡ Refused.OutOfMemory) }
{
    let Some((key, number)) = pair_of(value) else {
        return Ok(None);
    };
    let Some(count) = whole(number, 0, MOST_WORD) else {
        return Ok(None);
    };
    if !is_key(alloc, key)? {
        return Ok(None);
    }
    Ok(Some((kept(alloc, key)?, count as u32)))
}

/// The paths of items, the first of which has the number `from`, or the fault of the first that names no file.
#[tactic(auto, using(crate::proofs::Lists::starts))]
fn paths_of(
    alloc: Global,
    from: usize,
    values: &[Value],
) -> Result<Items<Text>, Refused<ParamFault>>
    ensures paths { IfOk result (λ paths. paths_at from (items_view values.now) ≡ Ok paths) }
    ensures refusal { IfErr result (λ e. RefusedAs (paths_at from (items_view values.now)) e) }
{
    let mut paths = Items::new(alloc);
    let mut rest = values;
    while let Some((value, more)) = rest.split_first() {
        let Some(path) = path_at(alloc, value)? else {
            let number = from as u128 + paths.len() as u128;
            return Err(item_refused(NO_FILE, number));
        };
        match paths.push(path) {
            Ok(()) => {}
            Err(_) => return Err(Refused::OutOfMemory),
        }
        rest = more;
    }
    Ok(paths)
}

/// The names of a list, or the fault of this cause of its first item that is no internal name.
#[tactic(auto, using(crate::proofs::Lists::starts))]
fn names_of(alloc: Global, cause: u32, values: &[Value]) -> Result<Items<Text>, Refused<ParamFault>>
    ensures names { IfOk result (λ names. names_at cause (items_view values.now) ≡ Ok names) }
    ensures refusal { IfErr result (λ e. RefusedAs (names_at cause (items_view values.now)) e) }
{
    let mut names = Items::new(alloc);
    let mut rest = values;
    while let Some((value, more)) = rest.split_first() {
        let Some(name) = name_at(alloc, value)? else {
            return Err(item_refused(cause, names.len() as u128));
        };
        match names.push(name) {
            Ok(()) => {}
            Err(_) => return Err(Refused::OutOfMemory),
        }
        rest = more;
    }
    Ok(names)
}

/// The items of `counts`, or the fault of its first item without a key.
#[tactic(auto, using(crate::proofs::Lists::starts))]
fn uses_of(alloc: Global, values: &[Value]) -> Result<Items<(Text, u32)>, Refused<ParamFault>>
    ensures uses { IfOk result (λ uses. uses_at (items_view values.now) ≡ Ok uses) }
    ensures refusal { IfErr result (λ e. RefusedAs (uses_at (items_view values.now)) e) }
{
    let mut uses = Items::new(alloc);
    let mut rest = values;
    while let Some((value, more)) = rest.split_first() {
        let Some(found) = use_at(alloc, value)? else {
            return Err(item_refused(NO_KEY, uses.len() as u128));
        };
        match uses.push(found) {
            Ok(()) => {}
            Err(_) => return Err(Refused::OutOfMemory),
        }
        rest = more;
    }
    Ok(uses)
}

/// A publication whose items are of the right kinds and whose numbers are counts.
#[tactic(auto, unfolding(crate::specs::Commands::published))]
fn published(
    alloc: Global,
    puts: &[Value],
    removes: &[Value],
    counted: &[Value],
    sources: &[Value],
    known: &[Value],
) -> Result<Command, Refused<ParamFault>>
    ensures form { IfOk result (λ c. published (paths_at 0 (items_view puts.now)) (paths_at (length puts.now) (items_view sources.now)) (names_at 12 (items_view removes.now)) (uses_at (items_view counted.now)) (names_at 22 (items_view known.now)) ≡ Ok c) }
    ensures refusal { IfErr result (λ e. RefusedAs (published (paths_at 0 (items_view puts.now)) (paths_at (length puts.now) (items_view sources.now)) (names_at 12 (items_view removes.now)) (uses_at (items_view counted.now)) (names_at 22 (items_view known.now))) e) }
{
    let sources_from = puts.len();
    let puts = paths_of(alloc, 0, puts)?;
    let sources = paths_of(alloc, sources_from, sources)?;
    let removes = names_of(alloc, NO_NAME, removes)?;
    let counts = uses_of(alloc, counted)?;
    let known = names_of(alloc, NOT_KNOWN, known)?;
    Ok(Command::Publish {
        puts,
        removes,
        counts,
        sources,
        known,
    })
}

/// Whether the items of the five lists are of the right kinds.
fn are_right(
    puts: &[Value],
    removes: &[Value],
    counted: &[Value],
    sources: &[Value],
    known: &[Value],
) -> bool
    ensures { result ≡ (every is_text (items_view puts.now) && (every is_text (items_view removes.now) && (every is_pair (items_view counted.now) && (every is_text (items_view sources.now) && every is_text (items_view known.now))))) }
{
    are_texts(puts)
        && are_texts(removes)
        && are_pairs(counted)
        && are_texts(sources)
        && are_texts(known)
}

/// A publication whose five parameters are lists.
#[tactic(auto, unfolding(crate::specs::Commands::publish_at))]
fn publish_at(
    alloc: Global,
    puts: &[Value],
    removes: &[Value],
    counted: &[Value],
    sources: &[Value],
    known: &[Value],
) -> Result<Command, Refused<ParamFault>>
    ensures form { IfOk result (λ c. publish_at (items_view puts.now) (items_view removes.now) (items_view counted.now) (items_view sources.now) (items_view known.now) ≡ Ok c) }
    ensures refusal { IfErr result (λ e. RefusedAs (publish_at (items_view puts.now) (items_view removes.now) (items_view counted.now) (items_view sources.now) (items_view known.now)) e) }
{
    if !are_right(puts, removes, counted, sources, known) {
        return Err(refused(MISSING));
    }
    if !all_count(counted) {
        return Err(refused(OUT_OF_RANGE));
    }
    published(alloc, puts, removes, counted, sources, known)
}

/// The object of `insynth.publish`.
#[tactic(auto, unfolding(crate::specs::Commands::publish_of, crate::specs::Commands::publish_from))]
pub fn read_publish(alloc: Global, argument: Option<&Value>) -> Result<Command, Refused<ParamFault>>
    ensures form { IfOk result (λ c. publish_of (option_map (λ v. view v.now) argument.entry) ≡ Ok c) }
    ensures refusal { IfErr result (λ e. RefusedAs (publish_of (option_map (λ v. view v.now) argument.entry)) e) }
{
    let Some(argument) = argument else {
        return Err(refused(MISSING));
    };
    let Some(puts) = list_of(argument.get("put")) else {
        return Err(refused(MISSING));
    };
    let Some(removes) = list_of(argument.get("remove")) else {
        return Err(refused(MISSING));
    };
    let Some(counted) = list_of(argument.get("counts")) else {
        return Err(refused(MISSING));
    };
    let Some(sources) = list_of(argument.get("sources")) else {
        return Err(refused(MISSING));
    };
    let Some(known) = list_of(argument.get("known")) else {
        return Err(refused(MISSING));
    };
    publish_at(alloc, puts, removes, counted, sources, known)
}
