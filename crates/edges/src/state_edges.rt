// The edges of a state.

ghost use Rattle.std.specs.Prelude.{◌≡◌, ◌<◌, ◌++◌, [], ℕ, true, length, slice_index_or, slice_get, Some, OnOk, IsTrue};
ghost use Rattle.succinct.specs.Compression.{IsCompression};
ghost use Rattle.succinct.specs.Sets.{has};
ghost use Rattle.patterns.specs.Patterned.{ArePatterns};
ghost use Rattle.patterns.specs.States.{types_at};
ghost use Rattle.patterns.specs.declared.state.State.{State};
ghost use Rattle.edges.specs.Made.{edge_at, edges_at, bound_at, sources_at, AreFound};

use crate::head::Head;
use crate::sources::find_sources;
use crate::table::Table;
use crate::tails::find_tails;
use crate::weights::cost_of;
use patterns::Patterns;
use std::alloc::AllocError;
use succinct::Compressed;
use terms::Env;

/// What the making of one edge overwrites.
#[derive(Drop)]
pub struct Scratch {
    pub sources: Vec<u32>,
    pub tails: Vec<u32>,
}

/// Puts the edge of a source at the end, unless it alone is above the limit.
fn add_source(
    env: &Env,
    compressed: &Compressed,
    patterns: &Patterns,
    state: u32,
    number: u32,
    tails: &mut Vec<u32>,
    table: &mut Table,
) -> Result<(), AllocError>
    requires found { AreFound patterns.now state (slice_index_or compressed.now.wanted number []) }
    ensures added { OnOk result (table.new ≡ table.old ++ edge_at env.now compressed.now patterns.now state number) }
{
    let weight = match cost_of(env, number) {
        Some(weight) => weight,
        None => return Ok(()),
    };
    find_tails(patterns, state, compressed.wanted(number), tails)?;
    let source = Some(number);
    table.push(
        Head {
            state,
            source,
            weight,
        },
        tails.as_slice(),
    )
}

/// Puts the edges of sources at the end, in their order.
fn add_sources(
    env: &Env,
    compressed: &Compressed,
    patterns: &Patterns,
    state: u32,
    sources: &[u32],
    tails: &mut Vec<u32>,
    table: &mut Table,
) -> Result<(), AllocError>
    requires found { (n : ℕ) → has n sources.now ≡ true → AreFound patterns.now state (slice_index_or compressed.now.wanted n []) }
    ensures added { OnOk result (table.new ≡ table.old ++ edges_at env.now compressed.now patterns.now state sources.now) }
{
    for number in sources {
        add_source(env, compressed, patterns, state, *number, tails, table)?;
    }
    Ok(())
}

/// Whether a type is in a set.
fn has(types: &[u32], goal: u32) -> bool
    ensures value { result ≡ has goal types.now }
{
    for one in types {
        if goal == *one {
            return true;
        }
    }
    false
}

/// Puts the edge of the variables of a state at the end, where its goal is bound.
fn add_bound(
    env: &Env,
    patterns: &Patterns,
    state: u32,
    table: &mut Table,
) -> Result<(), AllocError>
    requires in_range { state < length patterns.now.states }
    ensures added { OnOk result (table.new ≡ table.old ++ bound_at env.now patterns.now state) }
{
    let found = patterns.states()[state as usize];
    if !has(patterns.types_of(found.set), found.goal) {
        return Ok(());
    }
    let source = None;
    table.push(
        Head {
            state,
            source,
            weight: env.variable_weight(),
        },
        &[],
    )
}

/// Puts the edges of a state at the end.
pub fn add_state(
    env: &Env,
    compressed: &Compressed,
    patterns: &Patterns,
    state: u32,
    scratch: &mut Scratch,
    table: &mut Table,
) -> Result<(), AllocError>
    requires compressed { IsCompression env.now compressed.now }
    requires patterns { (goal : ℕ) × ArePatterns compressed.now goal env.now.depth patterns.now }
    requires in_range { state < length patterns.now.states }
    ensures added { OnOk result (table.new ≡ table.old ++ (bound_at env.now patterns.now state ++ edges_at env.now compressed.now patterns.now state (sources_at compressed.now patterns.now state))) }
{
    let _ = env.parts();
    add_bound(env, patterns, state, table)?;
    find_sources(compressed, patterns, state, &mut scratch.sources)?;
    let Scratch { sources, tails } = scratch;
    add_sources(
        env,
        compressed,
        patterns,
        state,
        sources.as_slice(),
        tails,
        table,
    )
}
