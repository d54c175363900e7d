// For each type the sources that want it: declarations by their numbers, and pairs by theirs after them.

ghost use Rattle.std.specs.Prelude.{◌≡◌, ◌<◌, ℕ, true, map, length, IfOk, OnOk};
ghost use Rattle.terms.specs.Faults.{HasLengths};
ghost use Rattle.weight_bounds.specs.Rules.{sources, of_decl};
ghost use Rattle.weight_bounds.specs.Users.{Uses, AreUsers, wants, wanted_of};

use crate::lookups::{decl_at, pair_at};
use std::alloc::{AllocError, Global};
use terms::{Arg, Parts};

/// Lists a source for a type, where there is such a type.
fn add_user(users: &mut Vec<Vec<u32>>, wanted: u32, source: u32) -> Result<(), AllocError>
    ensures as_many { length users.new.items ≡ length users.old.items }
    ensures kept { OnOk result ((t k : ℕ) → Uses (map (λ l. l.items) users.old.items) t k → Uses (map (λ l. l.items) users.new.items) t k) }
    ensures added { OnOk result (wanted < length users.old.items → Uses (map (λ l. l.items) users.new.items) wanted source) }
{
    let place = wanted as usize;
    if place >= users.len() {
        return Ok(());
    }
    users[place].push(source)?;
    Ok(())
}

/// The type of an argument, or that of a lambda's body.
fn wanted_of(arg: &Arg) -> u32
    ensures value { result ≡ wanted_of arg.now }
{
    match arg {
        Arg::Plain(wanted) => *wanted,
        Arg::Fun(_, wanted) => *wanted,
    }
}

/// Lists a source for what it wants.
fn add_users(users: &mut Vec<Vec<u32>>, args: &[Arg], source: u32) -> Result<(), AllocError>
    ensures as_many { length users.new.items ≡ length users.old.items }
    ensures kept { OnOk result ((t k : ℕ) → Uses (map (λ l. l.items) users.old.items) t k → Uses (map (λ l. l.items) users.new.items) t k) }
    ensures added { OnOk result ((t : ℕ) → wants t args.now ≡ true → t < length users.old.items → Uses (map (λ l. l.items) users.new.items) t source) }
{
    for arg in args {
        add_user(users, wanted_of(arg), source)?;
    }
    Ok(())
}

/// Lists the declarations for what they want.
fn add_decls(users: &mut Vec<Vec<u32>>, parts: &Parts) -> Result<(), AllocError>
    requires lengths { HasLengths parts.now }
    ensures as_many { length users.new.items ≡ length users.old.items }
    ensures users { OnOk result (AreUsers (map of_decl parts.now.decls) (map (λ l. l.items) users.new.items)) }
{
    for i in 0..parts.decls.len() {
        let decl = decl_at(parts, i);
        add_users(users, decl.args.as_slice(), i as u32)?;
    }
    Ok(())
}

/// Lists the pairs for their lower types.
fn add_pairs(users: &mut Vec<Vec<u32>>, parts: &Parts) -> Result<(), AllocError>
    requires lengths { HasLengths parts.now }
    requires decls { AreUsers (map of_decl parts.now.decls) (map (λ l. l.items) users.old.items) }
    ensures as_many { length users.new.items ≡ length users.old.items }
    ensures users { OnOk result (AreUsers (sources parts.now) (map (λ l. l.items) users.new.items)) }
{
    let first = parts.decls.len();
    for j in 0..parts.pairs.len() {
        let pair = pair_at(parts, j);
        add_user(users, pair.0, (first + j) as u32)?;
    }
    Ok(())
}

/// So many empty lists.
fn no_users(alloc: Global, types: usize) -> Result<Vec<Vec<u32>>, AllocError>
    ensures as_many { IfOk result (λ users. length users.items ≡ types) }
{
    let mut users = Vec::new(alloc);
    for _ in 0..types {
        users.push(Vec::new(alloc))?;
    }
    Ok(users)
}

/// For each type the sources that want it.
pub(crate) fn users_of(alloc: Global, parts: &Parts) -> Result<Vec<Vec<u32>>, AllocError>
    requires lengths { HasLengths parts.now }
    ensures as_many { IfOk result (λ users. length users.items ≡ length parts.now.types) }
    ensures users { IfOk result (λ users. AreUsers (sources parts.now) (map (λ l. l.items) users.items)) }
{
    let mut users = no_users(alloc, parts.types.len())?;
    add_decls(&mut users, parts)?;
    add_pairs(&mut users, parts)?;
    Ok(users)
}
