ghost use Rattle.std.specs.Prelude.{◌≡◌, ◌≤◌, ◌++◌, ◌∷◌, [], codes, decimal, drop, map, length, take, IfOk, OnOk};
ghost use Rattle.std.specs.List.{flat_map};
ghost use Rattle.sheets.specs.Sheets.{IsSheet};
ghost use Rattle.terms.specs.Faults.{IsValid};
ghost use Rattle.sheets.specs.Writing.{IsWritable, arg_words, decl_head, decl_text, ended, form_words, last_lines, line_text, name_of, number_text, pair_text, sheet_text, spaced, type_text, word_text};

use crate::kind::NumberWord;
use itoa::Buffer;
use lists::Text;
use std::alloc::{AllocError, Global};
use terms::{Arg, Decl, Env, Form, Parts};

/// Adds a word after a space.
fn put_word(text: &mut Text, word: &str) -> Result<(), AllocError>
    ensures { OnOk result (text.new ≡ text.old ++ spaced word.now) }
{
    text.push_str(" ")?;
    text.push_str(word)
}

/// Adds a number in decimal after a space.
fn put_number(text: &mut Text, number: u32) -> Result<(), AllocError>
    ensures { OnOk result (text.new ≡ text.old ++ spaced (decimal number)) }
{
    let mut digits = Buffer::new();
    put_word(text, digits.format(number))
}

/// The text of a type.
fn name_of(types: &[Text], number: u32) -> &str
    ensures { result.now ≡ name_of types.now number }
{
    match types.get(number as usize) {
        Some(name) => name.as_str(),
        None => "",
    }
}

/// Adds the text of a type after a space.
fn put_name(text: &mut Text, types: &[Text], number: u32) -> Result<(), AllocError>
    ensures { OnOk result (text.new ≡ text.old ++ spaced (name_of types.now number)) }
{
    put_word(text, name_of(types, number))
}

/// Adds a line of two words.
fn put_line(text: &mut Text, first: &str, word: &str) -> Result<(), AllocError>
    ensures { OnOk result (text.new ≡ text.old ++ ended (line_text first.now (word.now ∷ []))) }
{
    text.push_str(first)?;
    put_word(text, word)?;
    text.push_str("\n")
}

/// The word of a line with a number.
#[tactic(auto, unfolding(crate::specs::Writing::word_text))]
fn word_text(word: NumberWord) -> &'static str
    ensures { result.now ≡ word_text word }
{
    match word {
        NumberWord::Limit => "limit",
        NumberWord::Depth => "depth",
        NumberWord::Bound => "bound",
        NumberWord::Binding => "binding",
        NumberWord::Step => "step",
    }
}

/// Adds a line with a number.
fn put_number_line(text: &mut Text, word: NumberWord, number: u32) -> Result<(), AllocError>
    ensures { OnOk result (text.new ≡ text.old ++ ended (number_text word number)) }
{
    let mut digits = Buffer::new();
    put_line(text, word_text(word), digits.format(number))
}

/// Adds the lines of types.
fn put_types(text: &mut Text, types: &[Text]) -> Result<(), AllocError>
    ensures { OnOk result (text.new ≡ text.old ++ flat_map (λ t. ended (type_text t)) types.now) }
{
    for name in types {
        put_line(text, "type", name.as_str())?;
    }
    Ok(())
}

/// Adds the line of a pair.
fn put_pair(text: &mut Text, types: &[Text], lower: u32, upper: u32) -> Result<(), AllocError>
    ensures { OnOk result (text.new ≡ text.old ++ ended (pair_text types.now (lower, upper))) }
{
    text.push_str("sub")?;
    put_name(text, types, lower)?;
    put_name(text, types, upper)?;
    text.push_str("\n")
}

/// Adds the lines of pairs.
fn put_pairs(text: &mut Text, types: &[Text], pairs: &[(u32, u32)]) -> Result<(), AllocError>
    ensures { OnOk result (text.new ≡ text.old ++ flat_map (λ p. ended (pair_text types.now p)) pairs.now) }
{
    for pair in pairs {
        put_pair(text, types, pair.0, pair.1)?;
    }
    Ok(())
}

/// Adds two words, each after a space.
fn put_two(text: &mut Text, first: &str, second: &str) -> Result<(), AllocError>
    ensures { OnOk result (text.new ≡ text.old ++ flat_map spaced (first.now ∷ second.now ∷ [])) }
{
    put_word(text, first)?;
    put_word(text, second)
}

/// Adds the words of a form.
#[tactic(auto, unfolding(crate::specs::Writing::form_words))]
fn put_form(text: &mut Text, form: &Form) -> Result<(), AllocError>
    ensures { OnOk result (text.new ≡ text.old ++ flat_map spaced (form_words form.now)) }
{
    match form {
        Form::Name(name) => put_two(text, "name", name.as_str()),
        Form::This => put_word(text, "this"),
        Form::Call(name) => put_two(text, "call", name.as_str()),
        Form::New(name) => put_two(text, "new", name.as_str()),
        Form::Method(name) => put_two(text, "method", name.as_str()),
        Form::Field(name, false) => put_two(text, "field", name.as_str()),
        Form::Field(name, true) => put_two(text, "hidden-field", name.as_str()),
        Form::Lambda(name) => put_two(text, "lambda", name.as_str()),
    }
}

/// Adds the texts of types, each after a space.
fn put_names(text: &mut Text, types: &[Text], numbers: &[u32]) -> Result<(), AllocError>
    ensures { OnOk result (text.new ≡ text.old ++ flat_map (λ n. spaced (name_of types.now n)) numbers.now) }
{
    for number in numbers {
        put_name(text, types, *number)?;
    }
    Ok(())
}

/// Adds the types of a lambda.
fn put_function(
    text: &mut Text,
    types: &[Text],
    params: &[u32],
    body: u32,
) -> Result<(), AllocError>
    ensures { OnOk result (text.new ≡ text.old ++ flat_map spaced (map (name_of types.now) params.now ++ codes "->" ∷ name_of types.now body ∷ [])) }
{
    put_names(text, types, params)?;
    put_word(text, "->")?;
    put_name(text, types, body)
}

/// Adds what a declaration wants at a place.
fn put_arg(text: &mut Text, types: &[Text], arg: &Arg) -> Result<(), AllocError>
    ensures { OnOk result (text.new ≡ text.old ++ flat_map spaced (arg_words types.now arg.now)) }
{
    match arg {
        Arg::Plain(wanted) => put_name(text, types, *wanted),
        Arg::Fun(params, body) => put_function(text, types, params.as_slice(), *body),
    }
}

/// Adds what a declaration wants.
fn put_args(text: &mut Text, types: &[Text], args: &[Arg]) -> Result<(), AllocError>
    ensures { OnOk result (text.new ≡ text.old ++ flat_map (λ a. flat_map spaced (arg_words types.now a)) args.now) }
{
    for arg in args {
        put_arg(text, types, arg)?;
    }
    Ok(())
}

/// The first word of a declaration's line.
#[tactic(auto, unfolding(crate::specs::Writing::decl_head))]
fn decl_head(crowded: bool) -> &'static str
    ensures { result.now ≡ decl_head crowded }
{
    if crowded { "crowded" } else { "decl" }
}

/// Adds the line of a declaration.
fn put_decl(text: &mut Text, types: &[Text], decl: &Decl) -> Result<(), AllocError>
    ensures { OnOk result (text.new ≡ text.old ++ ended (decl_text types.now decl.now)) }
{
    text.push_str(decl_head(decl.crowded))?;
    put_number(text, decl.weight)?;
    put_name(text, types, decl.result)?;
    put_form(text, &decl.form)?;
    put_args(text, types, decl.args.as_slice())?;
    text.push_str("\n")
}

/// Adds the lines of declarations.
fn put_decls(text: &mut Text, types: &[Text], decls: &[Decl]) -> Result<(), AllocError>
    ensures { OnOk result (text.new ≡ text.old ++ flat_map (λ d. ended (decl_text types.now d)) decls.now) }
{
    for decl in decls {
        put_decl(text, types, decl)?;
    }
    Ok(())
}

/// Adds the goal, the limit, the depth and the binder.
fn put_goal(text: &mut Text, parts: &Parts) -> Result<(), AllocError>
    ensures { OnOk result (text.new ≡ text.old ++ flat_map ended (take 4 (last_lines parts.now))) }
{
    put_line(text, "goal", name_of(parts.types.as_slice(), parts.goal))?;
    put_number_line(text, NumberWord::Limit, parts.limit)?;
    put_number_line(text, NumberWord::Depth, parts.depth)?;
    put_line(text, "binder", parts.binder.as_str())
}

/// Adds the three weights that belong to no declaration.
fn put_steps(text: &mut Text, parts: &Parts) -> Result<(), AllocError>
    ensures { OnOk result (text.new ≡ text.old ++ flat_map ended (drop 4 (last_lines parts.now))) }
{
    put_number_line(text, NumberWord::Bound, parts.steps.bound)?;
    put_number_line(text, NumberWord::Binding, parts.steps.binder)?;
    put_number_line(text, NumberWord::Step, parts.steps.step)
}

/// The text of the sheet of some parts.
#[tactic(auto, unfolding(crate::specs::Writing::sheet_text))]
fn written(alloc: Global, parts: &Parts) -> Result<Text, AllocError>
    ensures { IfOk result (λ text. text ≡ sheet_text parts.now) }
{
    let mut text = Text::from_str(alloc, "insynth sheet 2\n")?;
    let types = parts.types.as_slice();
    put_types(&mut text, types)?;
    put_pairs(&mut text, types, parts.pairs.as_slice())?;
    put_decls(&mut text, types, parts.decls.as_slice())?;
    put_goal(&mut text, parts)?;
    put_steps(&mut text, parts)?;
    Ok(text)
}

/// That a text which is an environment's sheet says it again: where the texts are words, the types are told apart, and the
/// text isn't too long, it is a sheet of this environment.
fn says_again(text: &str, parts: &Parts)
    requires text { text.now ≡ sheet_text parts.now }
    requires valid { IsValid parts.now }
    ensures { IsWritable parts.now → length text.now ≤ 16777216 → IsSheet text.now parts.now }
{}

/// The text of an environment's sheet, a sheet 2 with all of its lines: `type`, `sub`, `decl` and `crowded` in the order
/// of the parts, then `goal`, `limit`, `depth`, `binder`, `bound`, `binding` and `step`, each ended by a line feed. Where
/// the texts are words, the types are told apart and the text isn't too long, it says this environment again.
pub fn sheet_text(alloc: Global, env: &Env) -> Result<Text, AllocError>
    ensures text { IfOk result (λ text. text ≡ sheet_text env.now) }
    ensures again { OnOk result (IsWritable env.now → length (sheet_text env.now) ≤ 16777216 → IsSheet (sheet_text env.now) env.now) }
{
    let text = written(alloc, env.parts())?;
    says_again(text.as_str(), env.parts());
    Ok(text)
}
