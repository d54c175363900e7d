ghost use Rattle.std.specs.Prelude.{◌≡◌, ◌≢◌, ◌∷◌, ◌++◌, [], map, string_bytes, codes, MatchResult, IfOk};
ghost use Rattle.command_line.specs.Words.{Asked, AskFor, AskForPlain, Commands, HasFewWorkers, IsFirstWrong, pairs_asked, plain_asked};

use crate::command::{Command, Plain, UsageFault};
use crate::number::sample_number;
use crate::scan::{Scan, is_file_name};

/// `serve`, with the words after it.
fn read_serve(rest: &[String]) -> Result<Command<'_>, UsageFault>
    ensures { MatchResult result
        (λ command. Commands command (codes "serve" ∷ map string_bytes rest.now))
        (λ fault. IsFirstWrong (codes "serve" ∷ map string_bytes rest.now) fault.word) }
{
    let mut scan = Scan::new();
    for word in rest {
        let Some(taken) = scan.take(word.as_str()) else {
            return Err(scan.fault());
        };
        scan = taken.scan;
    }
    match scan.end() {
        Ok(()) => Ok(Command::Serve {
            start: scan.start,
            pairs: scan.pairs,
            ahead: scan.ahead,
        }),
        Err(fault) => Err(fault),
    }
}

/// `list`, with the words after it, of which there is none.
fn read_list(rest: &[String]) -> Result<Command<'_>, UsageFault>
    ensures { MatchResult result
        (λ command. Commands command (codes "list" ∷ map string_bytes rest.now))
        (λ fault. IsFirstWrong (codes "list" ∷ map string_bytes rest.now) fault.word) }
{
    if !rest.is_empty() {
        return Err(UsageFault { word: 1 });
    }
    Ok(Command::List)
}

/// `upgrade`, with the words after it, of which there is none.
fn read_upgrade(rest: &[String]) -> Result<Command<'_>, UsageFault>
    ensures { MatchResult result
        (λ command. Commands command (codes "upgrade" ∷ map string_bytes rest.now))
        (λ fault. IsFirstWrong (codes "upgrade" ∷ map string_bytes rest.now) fault.word) }
{
    if !rest.is_empty() {
        return Err(UsageFault { word: 1 });
    }
    Ok(Command::Upgrade)
}

/// `count`, with the words after `--start`: the name of the start text and nothing else.
fn read_name(rest: &[String]) -> Result<Command<'_>, UsageFault>
    ensures { MatchResult result
        (λ command. Commands command (codes "count" ∷ codes "--start" ∷ map string_bytes rest.now))
        (λ fault. IsFirstWrong (codes "count" ∷ codes "--start" ∷ map string_bytes rest.now) fault.word) }
{
    let Some((file, after)) = rest.split_first() else {
        return Err(UsageFault { word: 2 });
    };
    if !is_file_name(file.as_str()) {
        return Err(UsageFault { word: 2 });
    }
    if !after.is_empty() {
        return Err(UsageFault { word: 3 });
    }
    Ok(Command::Count {
        start: file.as_str(),
    })
}

/// `count`, with the name after `--start=` and the words after that, of which there is none.
fn read_joined<'a>(file: &'a str, after: &[String]) -> Result<Command<'a>, UsageFault>
    ensures { MatchResult result
        (λ command. Commands command (codes "count" ∷ (codes "--start=" ++ file.now) ∷ map string_bytes after.now))
        (λ fault. IsFirstWrong (codes "count" ∷ (codes "--start=" ++ file.now) ∷ map string_bytes after.now) fault.word) }
{
    if !is_file_name(file) {
        return Err(UsageFault { word: 1 });
    }
    if !after.is_empty() {
        return Err(UsageFault { word: 2 });
    }
    Ok(Command::Count { start: file })
}

/// `count`, with the words after it.
fn read_count(rest: &[String]) -> Result<Command<'_>, UsageFault>
    ensures { MatchResult result
        (λ command. Commands command (codes "count" ∷ map string_bytes rest.now))
        (λ fault. IsFirstWrong (codes "count" ∷ map string_bytes rest.now) fault.word) }
{
    let Some((option, after)) = rest.split_first() else {
        return Err(UsageFault { word: 1 });
    };
    if option.as_str() == "--start" {
        return read_name(after);
    }
    match option.as_str().strip_prefix("--start=") {
        Some(file) => read_joined(file, after),
        None => Err(UsageFault { word: 1 }),
    }
}

/// `sample`, with the words after it: a number and nothing else.
fn read_sample(rest: &[String]) -> Result<Command<'_>, UsageFault>
    ensures { MatchResult result
        (λ command. Commands command (codes "sample" ∷ map string_bytes rest.now))
        (λ fault. IsFirstWrong (codes "sample" ∷ map string_bytes rest.now) fault.word) }
{
    let Some((word, after)) = rest.split_first() else {
        return Err(UsageFault { word: 1 });
    };
    let Some(number) = sample_number(word.as_str()) else {
        return Err(UsageFault { word: 1 });
    };
    if !after.is_empty() {
        return Err(UsageFault { word: 2 });
    }
    Ok(Command::Sample { number })
}

/// A command other than `serve`, by its first word and the words after it.
pub(crate) fn read_plain<'a>(first: &str, rest: &'a [String]) -> Result<Command<'a>, UsageFault>
    requires { first.now ≢ codes "serve" }
    ensures command { MatchResult result
        (λ command. Commands command (first.now ∷ map string_bytes rest.now))
        (λ fault. IsFirstWrong (first.now ∷ map string_bytes rest.now) fault.word) }
    ensures no_pairs { IfOk result (λ _. (asked : Asked) × AskFor asked (first.now ∷ map string_bytes rest.now) × ([] ≡ pairs_asked asked)) }
{
    if first == "list" {
        return read_list(rest);
    }
    if first == "upgrade" {
        return read_upgrade(rest);
    }
    if first == "count" {
        return read_count(rest);
    }
    if first == "sample" {
        return read_sample(rest);
    }
    Err(UsageFault { word: 0 })
}

/// What the words after the program's name ask for: `list`; `upgrade`; `serve` with `--start FILE` or `--start=FILE` at
/// most once, `--ahead N` with one digit from 1 to 8 at most once and at most 63 pairs `IN=OUT`, in any order; `count` with
/// `--start FILE` or `--start=FILE`; or `sample` with a number of one to seven digits, at most 1,000,000. The name of the
/// start text is borrowed from its word.
pub fn read_command(words: &[String]) -> Result<Command<'_>, UsageFault>
    ensures command { MatchResult result
        (λ command. Commands command (map string_bytes words.now))
        (λ fault. IsFirstWrong (map string_bytes words.now) fault.word) }
    ensures workers { IfOk result HasFewWorkers }
{
    let Some((first, rest)) = words.split_first() else {
        return Err(UsageFault { word: 0 });
    };
    if first.as_str() == "serve" {
        return read_serve(rest);
    }
    read_plain(first.as_str(), rest)
}

/// What words ask for that don't ask for a server.
pub fn plain_command(words: &[String]) -> Plain<'_>
    requires plain { AskForPlain (map string_bytes words.now) }
    ensures asked { AskFor (plain_asked result) (map string_bytes words.now) }
{
    match read_command(words) {
        Ok(Command::Count { start }) => Plain::Count { start },
        Ok(Command::Sample { number }) => Plain::Sample { number },
        Ok(Command::List) => Plain::List,
        Ok(Command::Upgrade) => Plain::Upgrade,
        Ok(
            Command::Serve {
                start: _,
                pairs: _,
                ahead: _,
            },
        ) => Plain::List,
        Err(_) => Plain::List,
    }
}
