ghost use Rattle.std.specs.Prelude.{◌≡◌, ◌<◌, ◌^◌, [], None, length, MatchResult};
ghost use Rattle.sheets.specs.Words.{texts, word, words_of, is_number};
ghost use Rattle.sheets.specs.SheetLines.{type_line, sub_line, decl_line, goal_line, number_line, binder_line, decl_words, line_by, line_of};
ghost use Rattle.sheets.specs.Causes.{cause_number, number_of};
ghost use Rattle.sheets.specs.Sheets.{cause, number_cause, once_cause, told_number};
ghost use Rattle.sheets.specs.Standing.{added, seen_by, RefusesAt, Takes};

use crate::cause::SheetCause;
use crate::declaration::decl_of;
use crate::kind::{FormWord, Kind, NumberWord, Version, kind_of};
use crate::number_lines::{NumberLine, told};
use crate::reading::SheetFault;
use crate::words::{is_number, number, word, words_of};
use lists::{Items, Text};
use name_places::Names;
use std::alloc::Global;
use terms::Decl;

/// What the lines read so far say, and where pairs, declarations and numbers stand.
#[derive(Drop)]
pub struct Sheet {
    pub names: Names,
    pub pairs: Items<(u32, u32)>,
    pub decls: Items<Decl>,
    pub goal: Option<u32>,
    pub numbers: Items<NumberLine>,
    pub binder: Option<Text>,
    pub pair_lines: Items<u32>,
    pub decl_lines: Items<u32>,
}

/// That there is no number, unless the word is one.
#[tactic(auto, unfolding(crate::specs::Sheets::number_cause))]
fn number_cause(word: &str, later: Option<SheetCause>) -> Option<SheetCause>
    ensures { number_of result ≡ number_cause (is_number word.now) (number_of later) }
{
    if is_number(word) {
        later
    } else {
        Some(SheetCause::NoNumber)
    }
}

/// A cause, where something was there before.
#[tactic(auto, unfolding(crate::specs::Sheets::once_cause))]
fn once_cause(cause: SheetCause, before: bool) -> Option<SheetCause>
    ensures { number_of result ≡ once_cause (cause_number cause) before }
{
    if before { Some(cause) } else { None }
}

/// Refuses a line of this number where it has a cause.
fn without_cause(cause: Option<SheetCause>, number_of_line: u32) -> Result<(), SheetFault>
    ensures { MatchResult result (λ _. number_of cause ≡ None) (λ fault. RefusesAt number_of_line (number_of cause) fault) }
{
    match cause {
        Some(cause) => Err(cause.at(number_of_line)),
        None => Ok(()),
    }
}

impl Sheet {
    /// No line was read.
    pub fn new(alloc: Global) -> Sheet
        ensures { result ≡ record {
          names = [];
          pairs = [];
          decls = [];
          goal = None;
          numbers = [];
          binder = None;
          pair_lines = [];
          decl_lines = [];
        } }
    {
        Sheet {
            names: Names::new(alloc),
            pairs: Items::new(alloc),
            decls: Items::new(alloc),
            goal: None,
            numbers: Items::new(alloc),
            binder: None,
            pair_lines: Items::new(alloc),
            decl_lines: Items::new(alloc),
        }
    }

    /// Takes the name of a type.
    #[tactic(auto, unfolding(crate::specs::Sheets::cause, crate::specs::Sheets::once_cause, crate::specs::Standing::added))]
    fn take_type(
        &mut self,
        alloc: Global,
        name: &str,
        number_of_line: u32,
    ) -> Result<(), SheetFault>
        requires room { length self.old.names < 2 ^ 32 }
        ensures { Takes number_of_line self.old self.new (type_line name.now) result }
    {
        if self.names.place(name).is_some() {
            return Err(SheetCause::TypeTwice.at(number_of_line));
        }
        self.names.push(alloc, name)?;
        Ok(())
    }

    /// Takes a pair. Each name is looked up once.
    #[tactic(auto, unfolding(crate::specs::Sheets::cause, crate::specs::Sheets::type_cause, crate::specs::Standing::added))]
    fn take_pair(&mut self, lower: &str, upper: &str, number_of_line: u32) -> Result<(), SheetFault>
        ensures { Takes number_of_line self.old self.new (sub_line lower.now upper.now) result }
    {
        let Some(lower) = self.names.place(lower) else {
            return Err(SheetCause::UnknownType.at(number_of_line));
        };
        let Some(upper) = self.names.place(upper) else {
            return Err(SheetCause::UnknownType.at(number_of_line));
        };
        self.pairs.push((lower, upper))?;
        self.pair_lines.push(number_of_line)?;
        Ok(())
    }

    /// Takes a declaration. Each name is looked up once.
    #[tactic(auto, unfolding(crate::specs::Sheets::cause, crate::specs::Sheets::number_cause, crate::specs::Sheets::type_cause, crate::specs::Standing::added))]
    fn take_decl(
        &mut self,
        alloc: Global,
        crowded: bool,
        form: FormWord,
        words: &[&str],
        number_of_line: u32,
    ) -> Result<(), SheetFault>
        ensures { Takes number_of_line self.old self.new (decl_line (decl_words crowded form (texts words.now))) result }
    {
        if !is_number(word(words, 1)) {
            return Err(SheetCause::NoNumber.at(number_of_line));
        }
        let Some(decl) = decl_of(alloc, &self.names, crowded, form, words)? else {
            return Err(SheetCause::UnknownType.at(number_of_line));
        };
        self.decls.push(decl)?;
        self.decl_lines.push(number_of_line)?;
        Ok(())
    }

    /// Takes the goal.
    #[tactic(auto, unfolding(crate::specs::Sheets::cause, crate::specs::Sheets::type_cause, crate::specs::Standing::added))]
    fn take_goal(&mut self, name: &str, number_of_line: u32) -> Result<(), SheetFault>
        ensures { Takes number_of_line self.old self.new (goal_line name.now) result }
    {
        let Some(goal) = self.names.place(name) else {
            return Err(SheetCause::UnknownType.at(number_of_line));
        };
        let cause = once_cause(SheetCause::LineTwice, self.goal.is_some());
        without_cause(cause, number_of_line)?;
        self.goal = Some(goal);
        Ok(())
    }

    /// Takes a number.
    #[tactic(auto, unfolding(crate::specs::Sheets::cause, crate::specs::Standing::added))]
    fn take_number(&mut self, word: NumberWord, text: &str, line: u32) -> Result<(), SheetFault>
        ensures { Takes line self.old self.new (number_line word text.now) result }
    {
        let before = told(self.numbers.as_slice(), word).is_some();
        let cause = number_cause(text, once_cause(SheetCause::LineTwice, before));
        without_cause(cause, line)?;
        let value = number(text);
        self.numbers.push(NumberLine { word, value, line })?;
        Ok(())
    }

    /// Takes the binder.
    #[tactic(auto, unfolding(crate::specs::Sheets::cause, crate::specs::Standing::added))]
    fn take_binder(
        &mut self,
        alloc: Global,
        name: &str,
        number_of_line: u32,
    ) -> Result<(), SheetFault>
        ensures { Takes number_of_line self.old self.new (binder_line name.now) result }
    {
        let cause = once_cause(SheetCause::LineTwice, self.binder.is_some());
        without_cause(cause, number_of_line)?;
        self.binder = Some(Text::from_str(alloc, name)?);
        Ok(())
    }

    /// Takes what the words of a line of this number say, or says its cause.
    #[tactic(auto, unfolding(crate::specs::Sheets::cause, crate::specs::Standing::added, crate::specs::SheetLines::line_by))]
    fn take_words(
        &mut self,
        alloc: Global,
        kind: Kind,
        words: &[&str],
        number_of_line: u32,
    ) -> Result<(), SheetFault>
        requires room { length self.old.names < 2 ^ 32 }
        ensures { Takes number_of_line self.old self.new (line_by kind (texts words.now)) result }
    {
        let name = word(words, 1);
        match kind {
            Kind::Blank => Ok(()),
            Kind::Other => Err(SheetCause::NoSuchLine.at(number_of_line)),
            Kind::Type => self.take_type(alloc, name, number_of_line),
            Kind::Sub => self.take_pair(name, word(words, 2), number_of_line),
            Kind::Decl(crowded, form) => {
                self.take_decl(alloc, crowded, form, words, number_of_line)
            }
            Kind::Goal => self.take_goal(name, number_of_line),
            Kind::Number(word) => self.take_number(word, name, number_of_line),
            Kind::Binder => self.take_binder(alloc, name, number_of_line),
        }
    }

    /// Takes a line of this number in a sheet of this version, or says its cause.
    pub fn take(
        &mut self,
        alloc: Global,
        version: Version,
        line: &str,
        number_of_line: u32,
    ) -> Result<(), SheetFault>
        requires room { length self.old.names < 2 ^ 32 }
        ensures { MatchResult result
            (λ _. (cause self.old.names (seen_by self.old) (line_of version line.now) ≡ None)
            × (self.new ≡ added number_of_line self.old (line_of version line.now)))
            (λ fault. RefusesAt number_of_line (cause self.old.names (seen_by self.old) (line_of version line.now)) fault) }
    {
        let words = words_of(alloc, line)?;
        let kind = kind_of(version, line, words.as_slice());
        self.take_words(alloc, kind, words.as_slice(), number_of_line)
    }
}
