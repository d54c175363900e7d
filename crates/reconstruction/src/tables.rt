// The tables of a search.

ghost use Rattle.std.specs.Prelude.{◌≡◌, ◌<◌, ℕ, length, slice_get, Some, IfOk};
ghost use Rattle.succinct.specs.Compression.{IsCompression};
ghost use Rattle.patterns.specs.Patterned.{ArePatterns};
ghost use Rattle.edges.specs.Edges.{Edge, AreEdges};
ghost use Rattle.least_weights.specs.LeastWeight.{AreLeastWeights};
ghost use Rattle.reconstruction.specs.Levelled.{AreComplete};
ghost use Rattle.reconstruction.specs.Totals.{AreTotals, AreLightest};
ghost use Rattle.reconstruction.specs.Usable.{AreFloors, AreUsable};

use crate::totals::{all_lightest, all_totals};
use crate::usable::{all_floors, all_usable};
use edges::Edges;
use least_weights::Least;
use lists::Items;
use patterns::Patterns;
use std::alloc::{AllocError, Global};
use succinct::{Compressed, Rows};
use terms::Env;

/// What a search looks at and never changes.
#[derive(Drop)]
pub struct Tables {
    pub env: Env,
    pub patterns: Patterns,
    pub edges: Edges,
    pub least: Least,
    /// What each edge weighs with the least weights at its tails; one above the limit stands for all above it.
    pub totals: Items<u32>,
    /// For each edge a total that no head which it adds is below, its coercion included.
    pub floors: Items<u32>,
    /// The edges of each state whose floors are within the limit, by rising floors.
    pub usable: Rows,
}

/// The patterns of an environment at its goal.
fn patterns_for(alloc: Global, env: &Env, compressed: &Compressed) -> Result<Patterns, AllocError>
    ensures patterns { IfOk result (λ d. ArePatterns compressed.now env.now.goal env.now.depth d) }
{
    let parts = env.parts();
    Patterns::derive(alloc, compressed, parts.goal, parts.depth)
}

/// The edges of all states of these patterns.
fn edges_for(
    alloc: Global,
    env: &Env,
    compressed: &Compressed,
    patterns: &Patterns,
) -> Result<Edges, AllocError>
    requires compressed { IsCompression env.now compressed.now }
    requires patterns { ArePatterns compressed.now env.now.goal env.now.depth patterns.now }
    ensures edges { IfOk result (λ edges. AreEdges env.now compressed.now patterns.now edges) }
{
    Edges::derive(alloc, env, compressed, patterns)
}

/// The least weights at the states of these patterns.
fn least_for(
    alloc: Global,
    env: &Env,
    compressed: &Compressed,
    patterns: &Patterns,
    edges: &Edges,
) -> Result<Least, AllocError>
    requires compressed { IsCompression env.now compressed.now }
    requires patterns { ArePatterns compressed.now env.now.goal env.now.depth patterns.now }
    requires edges { AreEdges env.now compressed.now patterns.now edges.now }
    ensures least { IfOk result (λ l. AreLeastWeights env.now patterns.now l) }
    ensures as_many { IfOk result (λ l. length l ≡ length patterns.now.states) }
{
    let limit = env.parts().limit;
    Least::derive(alloc, env, compressed, patterns, edges, limit)
}

/// A total for each state that no declaration's edge there is below. Want of memory is also answered where there
/// would be 2^32 states.
fn lightest_for(
    alloc: Global,
    env: &Env,
    patterns: &Patterns,
    edges: &Edges,
    totals: &[u32],
) -> Result<Items<u32>, AllocError>
    requires as_many { length totals.now ≡ length edges.now }
    requires in_range { (m : ℕ) (e : Edge) → slice_get edges.now m ≡ Some e → e.state < length patterns.now.states }
    ensures light { IfOk result (λ all. AreLightest env.now edges.now totals.now all) }
{
    let states = patterns.states().len();
    if states > 4_294_967_295 {
        return Err(AllocError);
    }
    all_lightest(alloc, env.parts(), edges, totals, states)
}

/// The floors of the edges.
fn floors_for(
    alloc: Global,
    env: &Env,
    patterns: &Patterns,
    edges: &Edges,
    totals: &[u32],
) -> Result<Items<u32>, AllocError>
    requires as_many { length totals.now ≡ length edges.now }
    requires in_range { (m : ℕ) (e : Edge) → slice_get edges.now m ≡ Some e → e.state < length patterns.now.states }
    ensures floors { IfOk result (λ floors. AreFloors env.now edges.now totals.now floors) }
{
    let lightest = lightest_for(alloc, env, patterns, edges, totals)?;
    all_floors(alloc, env, edges, totals, lightest.as_slice())
}

/// The usable edges of the states. Want of memory is also answered where there would be 2^32 states.
fn usable_for(
    alloc: Global,
    env: &Env,
    patterns: &Patterns,
    edges: &Edges,
    floors: &[u32],
) -> Result<Rows, AllocError>
    requires in_range { (m : ℕ) (e : Edge) → slice_get edges.now m ≡ Some e → e.state < length patterns.now.states }
    ensures usable { IfOk result (λ rows. AreUsable env.now.limit floors.now edges.now rows) }
{
    let states = patterns.states().len();
    if states > 4_294_967_295 {
        return Err(AllocError);
    }
    all_usable(alloc, env.parts().limit, edges, floors, states)
}

/// What edges total, and those that can be used.
#[derive(Drop)]
struct Weighed {
    totals: Items<u32>,
    floors: Items<u32>,
    usable: Rows,
}

/// What the edges total with these least weights.
fn weighed_by(
    alloc: Global,
    env: &Env,
    patterns: &Patterns,
    edges: &Edges,
    least: &Least,
) -> Result<Weighed, AllocError>
    requires as_many { length least.now ≡ length patterns.now.states }
    requires in_range { (m : ℕ) (e : Edge) → slice_get edges.now m ≡ Some e → e.state < length patterns.now.states }
    ensures totals { IfOk result (λ all. AreTotals env.now.limit least.now edges.now all.totals) }
    ensures floors { IfOk result (λ all. AreFloors env.now edges.now all.totals all.floors) }
    ensures usable { IfOk result (λ all. AreUsable env.now.limit all.floors edges.now all.usable) }
{
    let totals = all_totals(alloc, env, patterns, edges, least)?;
    let floors = floors_for(alloc, env, patterns, edges, totals.as_slice())?;
    let usable = usable_for(alloc, env, patterns, edges, floors.as_slice())?;
    Ok(Weighed {
        totals,
        floors,
        usable,
    })
}

/// The tables of an environment for which all the rest is known.
fn complete_tables(
    env: Env,
    compressed: &Compressed,
    patterns: Patterns,
    edges: Edges,
    least: Least,
    weighed: Weighed,
) -> Tables
    requires compressed { IsCompression env compressed.now }
    requires patterns { ArePatterns compressed.now env.goal env.depth patterns }
    requires edges { AreEdges env compressed.now patterns edges }
    requires least { AreLeastWeights env patterns least }
    requires totals { AreTotals env.limit least edges weighed.totals }
    requires floors { AreFloors env edges weighed.totals weighed.floors }
    requires usable { AreUsable env.limit weighed.floors edges weighed.usable }
    ensures complete { AreComplete result }
    ensures env { result.env ≡ env }
{
    let _ = env.parts();
    Tables {
        env,
        patterns,
        edges,
        least,
        totals: weighed.totals,
        floors: weighed.floors,
        usable: weighed.usable,
    }
}

/// The tables of an environment whose edges and least weights are known.
fn tables_with_least(
    alloc: Global,
    env: Env,
    compressed: &Compressed,
    patterns: Patterns,
    edges: Edges,
    least: Least,
) -> Result<Tables, AllocError>
    requires compressed { IsCompression env compressed.now }
    requires patterns { ArePatterns compressed.now env.goal env.depth patterns }
    requires edges { AreEdges env compressed.now patterns edges }
    requires least { AreLeastWeights env patterns least }
    requires as_many { length least ≡ length patterns.states }
    ensures complete { IfOk result (λ t. AreComplete t) }
    ensures env { IfOk result (λ t. t.env ≡ env) }
{
    let weighed = weighed_by(alloc, &env, &patterns, &edges, &least)?;
    Ok(complete_tables(env, compressed, patterns, edges, least, weighed))
}

/// The tables of an environment whose edges are known.
fn tables_with_edges(
    alloc: Global,
    env: Env,
    compressed: &Compressed,
    patterns: Patterns,
    edges: Edges,
) -> Result<Tables, AllocError>
    requires compressed { IsCompression env compressed.now }
    requires patterns { ArePatterns compressed.now env.goal env.depth patterns }
    requires edges { AreEdges env compressed.now patterns edges }
    ensures complete { IfOk result (λ t. AreComplete t) }
    ensures env { IfOk result (λ t. t.env ≡ env) }
{
    let least = least_for(alloc, &env, compressed, &patterns, &edges)?;
    tables_with_least(alloc, env, compressed, patterns, edges, least)
}

/// The tables of an environment whose patterns are known.
fn tables_with_patterns(
    alloc: Global,
    env: Env,
    compressed: &Compressed,
    patterns: Patterns,
) -> Result<Tables, AllocError>
    requires compressed { IsCompression env compressed.now }
    requires patterns { ArePatterns compressed.now env.goal env.depth patterns }
    ensures complete { IfOk result (λ t. AreComplete t) }
    ensures env { IfOk result (λ t. t.env ≡ env) }
{
    let edges = edges_for(alloc, &env, compressed, &patterns)?;
    tables_with_edges(alloc, env, compressed, patterns, edges)
}

/// The tables of a search for the inhabitants of an environment's goal. Memory is about linear in the
/// environment, and in the declarations that can be used at each state.
pub fn tables_of(alloc: Global, env: Env) -> Result<Tables, AllocError>
    ensures complete { IfOk result (λ t. AreComplete t) }
    ensures env { IfOk result (λ t. t.env ≡ env) }
{
    let compressed = Compressed::new(alloc, &env)?;
    let patterns = patterns_for(alloc, &env, &compressed)?;
    tables_with_patterns(alloc, env, &compressed, patterns)
}
