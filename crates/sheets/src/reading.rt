ghost use Rattle.std.specs.Prelude.{◌≡◌, ◌<◌, ◌≤◌, ◌+◌, ◌^◌, ◌==◌, [], None, map, length, count_by, MatchResult, IfOk, option_and_then, unwrap_or, codes, is_some, true, false};
ghost use Rattle.std.specs.Str.Lines.{lines};
ghost use Rattle.sheets.specs.Words.{texts};
ghost use Rattle.sheets.specs.SheetLines.{line_of};
ghost use Rattle.sheets.specs.Sheets.{IsSheet, sheet_fault, first_fault, no_goal, told, goals_of, text_fault, lines_fault, body_of};
ghost use Rattle.sheets.specs.Writing.{IsWritable};
ghost use Rattle.sheets.specs.Standing.{Stands, Refuses, parts_by, places_by, fault_by};
ghost use Rattle.terms.specs.Faults.{HasLengths, IsValid, first_env_fault};
ghost use Rattle.sheets.specs.declared.reading.SheetFault.TheVariants.{OutOfMemory};

use crate::cause::SheetCause;
use crate::kind::{NumberWord, Version, version_of};
use crate::number_lines::{steps_of, value_of};
use crate::places::Places;
use crate::sheet::Sheet;
use crate::words::{lines_of, tail, word};
use lists::Text;
use std::alloc::{AllocError, Global};
use terms::{Env, Parts};

/// The most bytes that a sheet has.
const LONGEST: usize = 16_777_216;

/// Why bytes aren't a sheet.
#[derive(Clone, Copy, Debug, PartialEq, Eq)]
pub enum SheetFault {
    /// The line, from 1, and the number of the cause. Line 0 is the sheet as a whole.
    At(u32, u32),
    OutOfMemory,
}

impl From<AllocError> for SheetFault {
    ghost from_gives = { λ _ fault. fault ≡ OutOfMemory };

    fn from(_error: AllocError) -> SheetFault {
        SheetFault::OutOfMemory
    }
}

/// How many line feeds are among some bytes.
fn line_feeds(bytes: &[u8]) -> u32
    requires { length bytes.now < 2 ^ 32 }
    ensures counted { result ≡ count_by (λ b. b == 10) bytes.now }
    ensures bound { result ≤ length bytes.now }
{
    let mut count: u32 = 0;
    for byte in bytes {
        if *byte == b'\n' {
            count += 1;
        }
    }
    count
}

/// The text of a sheet's bytes, where there aren't too many of them.
#[tactic(auto, unfolding(crate::specs::Sheets::text_fault))]
fn text_of(bytes: &[u8]) -> Result<&str, SheetFault>
    ensures { MatchResult result
        (λ text. (text.now ≡ bytes.now) × (length bytes.now ≤ 16777216) × (text_fault bytes.now ≡ lines_fault (lines bytes.now)))
        (λ fault. Refuses (text_fault bytes.now) fault) }
{
    if bytes.len() > LONGEST {
        return Err(SheetCause::TooLong.at(0));
    }
    match str::from_utf8(bytes) {
        Ok(text) => Ok(text),
        Err(error) => Err(SheetCause::NotUtf8.at(line_feeds(&bytes[..error.valid_up_to()]) + 1)),
    }
}

/// What the lines after the first say; whether there is a goal isn't looked at.
fn read_lines(alloc: Global, version: Version, body: &[&str]) -> Result<Sheet, SheetFault>
    requires { length body.now ≤ 16777217 }
    ensures { let ls = map (line_of version) (texts body.now) in MatchResult result
        (λ sheet. Stands sheet ls × (first_fault 2 [] ls ≡ no_goal (told (goals_of ls)) (length body.now + 2)))
        (λ fault. Refuses (first_fault 2 [] ls) fault) }
{
    let mut sheet = Sheet::new(alloc);
    for number in 0..body.len() {
        match sheet.take(alloc, version, word(body, number), number as u32 + 2) {
            Ok(()) => {}
            Err(fault) => return Err(fault),
        }
    }
    Ok(sheet)
}

/// A sheet, where it has a goal; the line is the one after the last.
fn with_goal(sheet: Sheet, line: u32) -> Result<Sheet, SheetFault>
    ensures { MatchResult result
        (λ same. (same ≡ sheet) × (is_some sheet.goal ≡ true))
        (λ fault. (is_some sheet.goal ≡ false) × (fault ≡ SheetFault.At line 8)) }
{
    if sheet.goal.is_none() {
        return Err(SheetCause::NoGoal.at(line));
    }
    Ok(sheet)
}

/// What a sheet says, and the number of the line after its last.
#[derive(Drop)]
struct Read {
    sheet: Sheet,
    after: u32,
}

/// What the lines after the first say.
fn read_body(alloc: Global, version: Version, body: &[&str]) -> Result<Read, SheetFault>
    requires { length body.now ≤ 16777217 }
    ensures { let ls = map (line_of version) (texts body.now) in MatchResult result
        (λ read. Stands read.sheet ls × (first_fault 2 [] ls ≡ None) × (read.after ≡ length ls + 2) × (length ls ≤ 16777217))
        (λ fault. Refuses (first_fault 2 [] ls) fault) }
{
    let after = body.len() as u32 + 2;
    let lines = read_lines(alloc, version, body)?;
    match with_goal(lines, after) {
        Ok(sheet) => Ok(Read { sheet, after }),
        Err(fault) => Err(fault),
    }
}

/// What a sheet's text says.
#[tactic(auto, unfolding(crate::specs::Sheets::lines_fault))]
fn read_text(alloc: Global, text: &str) -> Result<Read, SheetFault>
    requires { length text.now ≤ 16777216 }
    ensures { let ls = body_of (lines text.now) in MatchResult result
        (λ read. Stands read.sheet ls × (lines_fault (lines text.now) ≡ None) × (read.after ≡ length ls + 2) × (length ls ≤ 16777217))
        (λ fault. Refuses (lines_fault (lines text.now)) fault) }
{
    let all = lines_of(alloc, text)?;
    let Some(version) = version_of(word(all.as_slice(), 0)) else {
        return Err(SheetCause::FirstLine.at(1));
    };
    let read = read_body(alloc, version, tail(all.as_slice(), 1))?;
    Ok(read)
}

/// What a sheet's bytes say, but for the faults of the environment.
fn read_bytes(alloc: Global, bytes: &[u8]) -> Result<Read, SheetFault>
    ensures { let ls = body_of (lines bytes.now) in MatchResult result
        (λ read. Stands read.sheet ls × (text_fault bytes.now ≡ None) × (read.after ≡ length ls + 2) × (length ls ≤ 16777217))
        (λ fault. Refuses (text_fault bytes.now) fault) }
{
    match text_of(bytes) {
        Ok(text) => read_text(alloc, text),
        Err(fault) => Err(fault),
    }
}

/// The binder, `p` where there is none.
fn binder_or_usual(alloc: Global, binder: Option<Text>) -> Result<Text, AllocError>
    ensures { IfOk result (λ text. text ≡ unwrap_or binder (codes "p")) }
{
    match binder {
        Some(text) => Ok(text),
        None => Text::from_str(alloc, "p"),
    }
}

/// The environment of what was read.
fn checked(alloc: Global, read: Read) -> Result<Env, SheetFault>
    requires { HasLengths (parts_by read.sheet) }
    ensures { MatchResult result
        (λ env. (env ≡ parts_by read.sheet) × IsValid (parts_by read.sheet))
        (λ fault. Refuses (option_and_then (fault_by (places_by read.sheet read.after)) (first_env_fault (parts_by read.sheet))) fault) }
{
    let Read { sheet, after } = read;
    let Sheet {
        names,
        pairs,
        decls,
        goal,
        numbers,
        binder,
        pair_lines,
        decl_lines,
    } = sheet;
    let parts = Parts {
        types: names.into_texts(),
        pairs,
        decls,
        goal: goal.unwrap_or(0),
        limit: value_of(numbers.as_slice(), NumberWord::Limit),
        depth: value_of(numbers.as_slice(), NumberWord::Depth),
        binder: binder_or_usual(alloc, binder)?,
        steps: steps_of(numbers.as_slice()),
    };
    let places = Places {
        pairs: pair_lines,
        decls: decl_lines,
        numbers,
        after,
    };
    match Env::checked(alloc, parts) {
        Ok(env) => Ok(env),
        Err(fault) => Err(places.fault(fault)),
    }
}

/// The environment that a sheet says, or the sheet's first fault. Its texts are words and its types are told apart, so it
/// can be written as a sheet.
pub fn read_sheet(alloc: Global, bytes: &[u8]) -> Result<Env, SheetFault>
    ensures sheet { MatchResult result (λ env. IsSheet bytes.now env) (λ fault. Refuses (sheet_fault bytes.now) fault) }
    ensures valid { IfOk result IsValid }
    ensures writable { IfOk result IsWritable }
{
    match read_bytes(alloc, bytes) {
        Ok(read) => checked(alloc, read),
        Err(fault) => Err(fault),
    }
}
