ghost use Rattle.std.specs.Prelude.{◌≡◌, ◌-◌, length};
ghost use Rattle.std.specs.List.{list_all};
ghost use Rattle.sheets.specs.Words.{texts, is_word, words_of};
ghost use Rattle.sheets.specs.SheetLines.{version_of, is_skipped, of_length, of_decl, of_newer, decl_kind, kind_by, kind_of};

use crate::words::{is_word, same, word};

/// Which sheets a line may stand in: the number of the sheet's first line.
#[derive(Clone, Copy, Debug, PartialEq, Eq)]
pub enum Version {
    One,
    Two,
}

/// The word of a line with a number.
#[derive(Clone, Copy, Debug, PartialEq, Eq)]
pub enum NumberWord {
    Limit,
    Depth,
    /// What a use of a variable weighs; this and those below stand in no sheet 1.
    Bound,
    /// What a binder weighs.
    Binding,
    /// What a coercion weighs.
    Step,
}

/// The form of a declaration.
#[derive(Clone, Copy, Debug, PartialEq, Eq)]
pub enum FormWord {
    Name,
    This,
    Call,
    New,
    Method,
    Field,
    HiddenField,
    Lambda,
}

/// What a line is by its words. A declaration has a flag that says whether it is crowded.
#[derive(Clone, Copy, Debug, PartialEq, Eq)]
pub enum Kind {
    Blank,
    Other,
    Type,
    Sub,
    Decl(bool, FormWord),
    Goal,
    Number(NumberWord),
    Binder,
}

/// The version that a sheet's first line says, where it says one.
#[tactic(auto, unfolding(crate::specs::SheetLines::version_of))]
pub fn version_of(line: &str) -> Option<Version>
    ensures { result ≡ version_of line.now }
{
    if same(line, "insynth sheet 1") {
        return Some(Version::One);
    }
    if same(line, "insynth sheet 2") {
        return Some(Version::Two);
    }
    None
}

/// What a line is in a sheet of this version; the words are its own.
#[tactic(auto, unfolding(crate::specs::SheetLines::kind_of))]
pub fn kind_of(version: Version, line: &str, words: &[&str]) -> Kind
    requires { texts words.now ≡ words_of line.now }
    ensures { result ≡ kind_of version line.now }
{
    if is_skipped(line.as_bytes()) {
        return Kind::Blank;
    }
    kind_by(version, words)
}

/// Whether a line is empty or a comment.
#[tactic(auto, unfolding(crate::specs::SheetLines::is_skipped))]
fn is_skipped(line: &[u8]) -> bool
    ensures { result ≡ is_skipped line.now }
{
    match line.first() {
        Some(byte) => *byte == b'#',
        None => true,
    }
}

/// Whether all of some texts are words.
fn all_words(words: &[&str]) -> bool
    ensures { result ≡ list_all is_word (texts words.now) }
{
    for text in words {
        if !is_word(text) {
            return false;
        }
    }
    true
}

/// The kind, where there are so many words, else none of the table.
fn of_length(count: usize, words: &[&str], kind: Kind) -> Kind
    ensures { result ≡ of_length count (texts words.now) kind }
{
    if words.len() == count {
        kind
    } else {
        Kind::Other
    }
}

/// A declaration of this form, where there are so many words or more, else none of the table.
fn of_decl(crowded: bool, least: usize, words: &[&str], form: FormWord) -> Kind
    ensures { result ≡ of_decl crowded least (texts words.now) form }
{
    if least <= words.len() {
        Kind::Decl(crowded, form)
    } else {
        Kind::Other
    }
}

/// A line with this number, where the sheet may have it.
#[tactic(auto, unfolding(crate::specs::SheetLines::of_newer))]
fn of_newer(version: Version, words: &[&str], word: NumberWord) -> Kind
    ensures { result ≡ of_newer version (texts words.now) word }
{
    match version {
        Version::One => Kind::Other,
        Version::Two => of_length(2, words, Kind::Number(word)),
    }
}

/// The kind by the words.
#[tactic(auto, unfolding(crate::specs::SheetLines::kind_by))]
fn kind_by(version: Version, words: &[&str]) -> Kind
    ensures { result ≡ kind_by version (texts words.now) }
{
    if !all_words(words) {
        return Kind::Other;
    }
    let first = word(words, 0);
    if same(first, "type") {
        return of_length(2, words, Kind::Type);
    }
    if same(first, "sub") {
        return of_length(3, words, Kind::Sub);
    }
    if same(first, "decl") {
        return decl_kind(false, words);
    }
    if same(first, "crowded") {
        return decl_kind(true, words);
    }
    if same(first, "goal") {
        return of_length(2, words, Kind::Goal);
    }
    if same(first, "limit") {
        return of_length(2, words, Kind::Number(NumberWord::Limit));
    }
    if same(first, "depth") {
        return of_length(2, words, Kind::Number(NumberWord::Depth));
    }
    if same(first, "binder") {
        return of_length(2, words, Kind::Binder);
    }
    if same(first, "bound") {
        return of_newer(version, words, NumberWord::Bound);
    }
    if same(first, "binding") {
        return of_newer(version, words, NumberWord::Binding);
    }
    if same(first, "step") {
        return of_newer(version, words, NumberWord::Step);
    }
    Kind::Other
}

/// A declaration's kind by the word of its form.
#[tactic(auto, unfolding(crate::specs::SheetLines::decl_kind))]
fn decl_kind(crowded: bool, words: &[&str]) -> Kind
    ensures { result ≡ decl_kind crowded (texts words.now) }
{
    let form = word(words, 3);
    if same(form, "name") {
        return of_decl(crowded, 5, words, FormWord::Name);
    }
    if same(form, "call") {
        return of_decl(crowded, 5, words, FormWord::Call);
    }
    if same(form, "new") {
        return of_decl(crowded, 5, words, FormWord::New);
    }
    if same(form, "method") {
        return of_decl(crowded, 5, words, FormWord::Method);
    }
    if same(form, "field") {
        return of_decl(crowded, 5, words, FormWord::Field);
    }
    if same(form, "hidden-field") {
        return of_decl(crowded, 5, words, FormWord::HiddenField);
    }
    if same(form, "this") {
        return of_decl(crowded, 4, words, FormWord::This);
    }
    if !same(form, "lambda") {
        return Kind::Other;
    }
    if same(word(words, words.len().saturating_sub(2)), "->") {
        return of_decl(crowded, 7, words, FormWord::Lambda);
    }
    Kind::Other
}
