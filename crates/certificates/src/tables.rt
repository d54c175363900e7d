// What floors are told from.

ghost use Rattle.std.specs.Prelude.{◌≡◌, ◌<◌, ◌++◌, ℕ, length, map, IfOk, OnOk};
ghost use Rattle.succinct.specs.Compression.{IsCompression, of_decl, of_pair};
ghost use Rattle.terms.specs.declared.parts.Decl.{Decl};
ghost use Rattle.patterns.specs.Patterned.{ArePatterns, AreSought};
ghost use Rattle.edges.specs.Edges.{AreEdges};
ghost use Rattle.least_weights.specs.LeastWeight.{AreLeastWeights};
ghost use Rattle.certificates.specs.Results.{AreByResult, results_of};
ghost use Rattle.certificates.specs.Tables.{AreTables};

use edges::Edges;
use least_weights::Least;
use number_places::places_by_number;
use patterns::Patterns;
use std::alloc::{AllocError, Global};
use succinct::Compressed;
use terms::{Decl, Env};

/// The states of a search with their least weights, and the declarations and pairs by what they give.
#[derive(Drop)]
pub(crate) struct Tables {
    pub(crate) compressed: Compressed,
    pub(crate) patterns: Patterns,
    pub(crate) least: Least,
    /// For each type the declarations and pairs that give it, the pairs numbered after the declarations.
    pub(crate) by_result: Vec<Vec<u32>>,
}

/// The patterns of an environment at its goal.
fn patterns_of(alloc: Global, env: &Env, compressed: &Compressed) -> Result<Patterns, AllocError>
    requires compressed { IsCompression env.now compressed.now }
    ensures patterns { IfOk result (λ d. ArePatterns compressed.now env.now.goal env.now.depth d) }
    ensures sought { IfOk result (λ d. AreSought compressed.now d) }
    ensures small { IfOk result (λ d. length d.states < 4294967296) }
{
    let parts = env.parts();
    Patterns::derive(alloc, compressed, parts.goal, parts.depth)
}

/// The least weights at the states of these patterns, by their edges.
fn least_by(
    alloc: Global,
    env: &Env,
    compressed: &Compressed,
    patterns: &Patterns,
    edges: &Edges,
) -> Result<Least, AllocError>
    requires compressed { IsCompression env.now compressed.now }
    requires patterns { ArePatterns compressed.now env.now.goal env.now.depth patterns.now }
    requires edges { AreEdges env.now compressed.now patterns.now edges.now }
    ensures least { IfOk result (λ l. AreLeastWeights env.now patterns.now l) }
{
    let limit = env.parts().limit;
    Least::derive(alloc, env, compressed, patterns, edges, limit)
}

/// The least weights at the states of these patterns.
fn least_of(
    alloc: Global,
    env: &Env,
    compressed: &Compressed,
    patterns: &Patterns,
) -> Result<Least, AllocError>
    requires compressed { IsCompression env.now compressed.now }
    requires patterns { ArePatterns compressed.now env.now.goal env.now.depth patterns.now }
    ensures least { IfOk result (λ l. AreLeastWeights env.now patterns.now l) }
{
    let edges = Edges::derive(alloc, env, compressed, patterns)?;
    least_by(alloc, env, compressed, patterns, &edges)
}

/// Adds what declarations give.
fn add_decls(decls: &[Decl], results: &mut Vec<u32>) -> Result<(), AllocError>
    ensures { OnOk result (results.new.items ≡ results.old.items ++ map (λ (d : Decl). (of_decl d).result) decls.now) }
{
    for decl in decls {
        results.push(decl.result)?;
    }
    Ok(())
}

/// Adds what pairs give.
fn add_pairs(pairs: &[(u32, u32)], results: &mut Vec<u32>) -> Result<(), AllocError>
    ensures { OnOk result (results.new.items ≡ results.old.items ++ map (λ (p : ℕ × ℕ). (of_pair p).result) pairs.now) }
{
    for pair in pairs {
        results.push(pair.1)?;
    }
    Ok(())
}

/// What the declarations give, and then the pairs.
fn results_of(alloc: Global, env: &Env) -> Result<Vec<u32>, AllocError>
    ensures { IfOk result (λ results. results.items ≡ results_of env.now) }
{
    let parts = env.parts();
    let mut results = Vec::new(alloc);
    add_decls(parts.decls.as_slice(), &mut results)?;
    add_pairs(parts.pairs.as_slice(), &mut results)?;
    Ok(results)
}

/// For each type the places at which it stands among what the sources give.
fn places_of_results(alloc: Global, env: &Env, results: &[u32]) -> Result<Vec<Vec<u32>>, AllocError>
    requires results { results.now ≡ results_of env.now }
    ensures { IfOk result (λ lists. AreByResult env.now (map (λ l. l.items) lists.items)) }
{
    let parts = env.parts();
    let lists = places_by_number(alloc, parts.types.as_slice().len(), results)?;
    Ok(lists)
}

/// For each type the declarations and pairs that give it.
fn sources_by_result(alloc: Global, env: &Env) -> Result<Vec<Vec<u32>>, AllocError>
    ensures { IfOk result (λ lists. AreByResult env.now (map (λ l. l.items) lists.items)) }
{
    let results = results_of(alloc, env)?;
    let lists = places_of_results(alloc, env, results.as_slice())?;
    Ok(lists)
}

/// The tables of an environment whose least weights are known.
fn tables_with_least(
    alloc: Global,
    env: &Env,
    compressed: Compressed,
    patterns: Patterns,
    least: Least,
) -> Result<Tables, AllocError>
    requires compressed { IsCompression env.now compressed }
    requires patterns { ArePatterns compressed env.now.goal env.now.depth patterns }
    requires sought { AreSought compressed patterns }
    requires small { length patterns.states < 4294967296 }
    requires least { AreLeastWeights env.now patterns least }
    ensures tables { IfOk result (λ t. AreTables env.now t) }
{
    let by_result = sources_by_result(alloc, env)?;
    Ok(Tables {
        compressed,
        patterns,
        least,
        by_result,
    })
}

/// The tables of an environment whose patterns are known.
fn tables_with_patterns(
    alloc: Global,
    env: &Env,
    compressed: Compressed,
    patterns: Patterns,
) -> Result<Tables, AllocError>
    requires compressed { IsCompression env.now compressed }
    requires patterns { ArePatterns compressed env.now.goal env.now.depth patterns }
    requires sought { AreSought compressed patterns }
    requires small { length patterns.states < 4294967296 }
    ensures tables { IfOk result (λ t. AreTables env.now t) }
{
    let least = least_of(alloc, env, &compressed, &patterns)?;
    tables_with_least(alloc, env, compressed, patterns, least)
}

/// The tables of an environment that is compressed.
fn tables_with(alloc: Global, env: &Env, compressed: Compressed) -> Result<Tables, AllocError>
    requires compressed { IsCompression env.now compressed }
    ensures tables { IfOk result (λ t. AreTables env.now t) }
{
    let patterns = patterns_of(alloc, env, &compressed)?;
    tables_with_patterns(alloc, env, compressed, patterns)
}

/// The tables of an environment. Memory is about linear in it, and in the declarations that can be used at each state.
pub(crate) fn tables_of(alloc: Global, env: &Env) -> Result<Tables, AllocError>
    ensures tables { IfOk result (λ t. AreTables env.now t) }
{
    let compressed = Compressed::new(alloc, env)?;
    tables_with(alloc, env, compressed)
}
