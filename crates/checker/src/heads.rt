// The declarations of an environment by their results, and the pairs by their upper types.

ghost use Rattle.std.specs.Prelude.{◌≡◌, ℕ, map, IfOk};
ghost use Rattle.terms.specs.declared.parts.Decl.{Decl};
ghost use Rattle.checker.specs.Heads.{AreHeads};

use number_places::places_by_number;
use std::alloc::{AllocError, Global};
use terms::{Decl, Env};

/// For each type the declarations that give it, and the pairs in which it is the upper type, by their numbers.
#[derive(Drop)]
pub(crate) struct Heads {
    pub(crate) by_result: Vec<Vec<u32>>,
    pub(crate) by_upper: Vec<Vec<u32>>,
}

/// What the declarations give.
fn results_of(alloc: Global, decls: &[Decl]) -> Result<Vec<u32>, AllocError>
    ensures { IfOk result (λ results. results.items ≡ map (λ (d : Decl). d.result) decls.now) }
{
    let mut results = Vec::new(alloc);
    for decl in decls {
        results.push(decl.result)?;
    }
    Ok(results)
}

/// The upper types of the pairs.
fn uppers_of(alloc: Global, pairs: &[(u32, u32)]) -> Result<Vec<u32>, AllocError>
    ensures { IfOk result (λ uppers. uppers.items ≡ map (λ (p : ℕ × ℕ). p.1) pairs.now) }
{
    let mut uppers = Vec::new(alloc);
    for pair in pairs {
        uppers.push(pair.1)?;
    }
    Ok(uppers)
}

/// The tables of an environment, in time linear in its types, pairs and declarations.
pub(crate) fn heads_of(alloc: Global, env: &Env) -> Result<Heads, AllocError>
    ensures { IfOk result (λ heads. AreHeads env.now heads) }
{
    let parts = env.parts();
    let types = parts.types.as_slice().len();
    let results = results_of(alloc, parts.decls.as_slice())?;
    let uppers = uppers_of(alloc, parts.pairs.as_slice())?;
    Ok(Heads {
        by_result: places_by_number(alloc, types, results.as_slice())?,
        by_upper: places_by_number(alloc, types, uppers.as_slice())?,
    })
}
