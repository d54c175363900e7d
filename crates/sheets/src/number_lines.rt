ghost use Rattle.std.specs.Prelude.{◌≡◌};
ghost use Rattle.sheets.specs.Sheets.{is_same, told_number, usual, value_of, line_with, steps_of, step_word};

use crate::kind::NumberWord;
use terms::Steps;

/// A line with a number: its word, what it says, and where it stands, counted from 1.
#[derive(Clone, Copy, Debug)]
pub struct NumberLine {
    pub word: NumberWord,
    pub value: u32,
    pub line: u32,
}

/// Whether two words are the same one.
#[tactic(auto, unfolding(crate::specs::Sheets::is_same))]
fn is_same(left: NumberWord, right: NumberWord) -> bool
    ensures { result ≡ is_same left right }
{
    match left {
        NumberWord::Limit => matches!(right, NumberWord::Limit),
        NumberWord::Depth => matches!(right, NumberWord::Depth),
        NumberWord::Bound => matches!(right, NumberWord::Bound),
        NumberWord::Binding => matches!(right, NumberWord::Binding),
        NumberWord::Step => matches!(right, NumberWord::Step),
    }
}

/// The first line of this word, where there is one.
pub fn told(lines: &[NumberLine], word: NumberWord) -> Option<NumberLine>
    ensures { result ≡ told_number word lines.now }
{
    for line in lines {
        if is_same(word, line.word) {
            return Some(*line);
        }
    }
    None
}

/// The number of an environment for which no line says it.
fn usual(word: NumberWord) -> u32
    ensures { result ≡ usual word }
{
    match word {
        NumberWord::Limit => 4000,
        NumberWord::Depth => 1,
        NumberWord::Bound => Steps::usual().bound,
        NumberWord::Binding => Steps::usual().binder,
        NumberWord::Step => Steps::usual().step,
    }
}

/// What the line of this word says, the usual number where there is none.
pub fn value_of(lines: &[NumberLine], word: NumberWord) -> u32
    ensures { result ≡ value_of word lines.now }
{
    match told(lines, word) {
        Some(line) => line.value,
        None => usual(word),
    }
}

/// Where it stands, 0 where there is none.
pub fn line_with(lines: &[NumberLine], word: NumberWord) -> u32
    ensures { result ≡ line_with word lines.now }
{
    match told(lines, word) {
        Some(line) => line.line,
        None => 0,
    }
}

/// The three weights that belong to no declaration.
pub fn steps_of(lines: &[NumberLine]) -> Steps
    ensures { result ≡ steps_of lines.now }
{
    Steps {
        bound: value_of(lines, NumberWord::Bound),
        binder: value_of(lines, NumberWord::Binding),
        step: value_of(lines, NumberWord::Step),
    }
}

/// Which of these three has this number.
pub fn step_word(number: u32) -> NumberWord
    ensures { result ≡ step_word number }
{
    if number == 1 {
        return NumberWord::Bound;
    }
    if number == 2 {
        return NumberWord::Binding;
    }
    NumberWord::Step
}
