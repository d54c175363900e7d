ghost use Rattle.std.specs.Prelude.{◌≡◌, ◌∷◌, ◌++◌, map, string_bytes, codes, IfOk, IfErr};
ghost use Rattle.command_line.specs.Words.{Asked, AskFor, pairs_asked};
ghost use Rattle.command_line.specs.Scanned.{names_in, named, RefusesWords};

use crate::command::UsageFault;
use crate::scan::Scan;
use crate::words::read_plain;
use json_rpc::Refused;
use std::alloc::{AllocError, Global};

/// Keeps the names of a pair, where one was found.
fn keep(
    alloc: Global,
    names: &mut Vec<(String, String)>,
    pair: Option<(&str, &str)>,
) -> Result<(), AllocError>
    ensures { IfOk result (λ _. map named names.new.items ≡ map named names.old.items ++ names_in pair.entry) }
{
    if let Some((input, output)) = pair {
        names.push((
            String::from_str(alloc, input)?,
            String::from_str(alloc, output)?,
        ))?;
    }
    Ok(())
}

/// The names of the pairs among the words after `serve`.
fn names_of(alloc: Global, rest: &[String]) -> Result<Vec<(String, String)>, Refused<UsageFault>>
    ensures names { IfOk result (λ names. (asked : Asked) × AskFor asked (codes "serve" ∷ map string_bytes rest.now) × (map named names.items ≡ pairs_asked asked)) }
    ensures fault { IfErr result (λ fault. RefusesWords (codes "serve" ∷ map string_bytes rest.now) fault) }
{
    let mut names = Vec::new(alloc);
    let mut scan = Scan::new();
    for word in rest {
        let Some(taken) = scan.take(word.as_str()) else {
            return Err(Refused::Fault(scan.fault()));
        };
        if keep(alloc, &mut names, taken.pair).is_err() {
            return Err(Refused::OutOfMemory);
        }
        scan = taken.scan;
    }
    match scan.end() {
        Ok(()) => Ok(names),
        Err(fault) => Err(Refused::Fault(fault)),
    }
}

/// The names of the pairs of files, in the order of the words: the file that is read, and the one that is written. There
/// are none for a command other than `serve`. The fault is that of `read_command`.
pub fn client_names(
    alloc: Global,
    words: &[String],
) -> Result<Vec<(String, String)>, Refused<UsageFault>>
    ensures names { IfOk result (λ names. (asked : Asked) × AskFor asked (map string_bytes words.now) × (map named names.items ≡ pairs_asked asked)) }
    ensures fault { IfErr result (λ fault. RefusesWords (map string_bytes words.now) fault) }
{
    let Some((first, rest)) = words.split_first() else {
        return Err(Refused::Fault(UsageFault { word: 0 }));
    };
    if first.as_str() == "serve" {
        return names_of(alloc, rest);
    }
    match read_plain(first.as_str(), rest) {
        Ok(_) => Ok(Vec::new(alloc)),
        Err(fault) => Err(Refused::Fault(fault)),
    }
}
