// The partial terms that grow from one by the edges at a state.

ghost use Rattle.std.specs.Prelude.{◌≡◌, ◌+◌, ◌*◌, ◌<◌, ◌≤◌, ◌∷◌, [], OnOk, slice_index_or, length};
ghost use Rattle.terms.specs.Faults.{IsValid};
ghost use Rattle.terms.specs.Weights.{coercion_weight};
ghost use Rattle.reconstruction.specs.Tabled.{front_of, place_by_numbers, numbered_under, IsParent, IsTurn, AreHeld, AreGrown, Grew};
ghost use Rattle.reconstruction.specs.Totals.{lower_in, lambdas_by, lambdas_under, AreTotals};
ghost use Rattle.reconstruction.specs.Usable.{AreFloors, AreUsable, IsWithin};
ghost use Rattle.reconstruction.specs.Ways.{edge_at, head_numbers, heads_at, way_numbers, ways_at, IsHeadOf, AreHeadsAt, IsWayOf, AreWaysAt};

use crate::built_terms::wanted_by;
use crate::item::{Arena, Head, Item, Parent};
use crate::longer_fronts::grow_by;
use crate::numbered_place::Lambdas;
use crate::tables::Tables;
use crate::totals::{declared, number_at};
use crate::usable::{lower, within};
use std::alloc::AllocError;
use terms::{Arg, Parts};

/// What an edge may total at the most below a coercion that weighs so much.
fn room_of(tables: &Tables, parent: Parent, step: u32) -> u32
    ensures room { tables.now.env.limit ≤ parent.base + (step + result) }
{
    let limit = tables.env.parts().limit;
    limit.saturating_sub(parent.base).saturating_sub(step)
}

/// The usable edges of a state whose floors are within a room.
fn usable_at(tables: &Tables, state: u32, room: u32) -> &[u32]
    requires usable { AreUsable tables.now.env.limit tables.now.floors tables.now.edges tables.now.usable }
    ensures within { IsWithin tables.now.floors room (slice_index_or tables.now.usable state []) result.now }
{
    within(tables.floors.as_slice(), tables.usable.row(state), room)
}

/// The lambdas around the places that a declaration of these wants opens.
fn lambdas_by(args: &[Arg], lambdas: Lambdas, decl: u32) -> Lambdas
    requires number { decl < 2147483648 }
    ensures value { result ≡ lambdas_by args.now lambdas decl }
{
    if args.len() != 1 {
        return lambdas;
    }
    match &args[0] {
        Arg::Fun(_, _) => lambdas.with_lambda(decl),
        Arg::Plain(_) => lambdas,
    }
}

/// The lambdas around the places that a declaration opens: one more where it wants a lambda.
fn lambdas_under(parts: &Parts, lambdas: Lambdas, decl: u32) -> Lambdas
    requires number { decl < 2147483648 }
    ensures value { result ≡ lambdas_under parts.now lambdas decl }
{
    lambdas_by(wanted_by(parts, decl), lambdas, decl)
}

/// The state of the lower type, where an edge is a coercion.
fn lower_of(tables: &Tables, edge: u32) -> Option<u32>
    requires in_range { edge < length tables.now.edges }
    ensures value { result ≡ lower_in tables.now.env (edge_at tables.now.edges edge).source (edge_at tables.now.edges edge).tails }
{
    lower(
        tables.env.parts(),
        tables.edges.source(edge),
        tables.edges.tails(edge),
    )
}

/// The total of an edge.
fn total_at(tables: &Tables, edge: u32) -> u32
    ensures value { result ≡ slice_index_or tables.now.totals edge 0 }
{
    number_at(tables.totals.as_slice(), edge)
}

/// Adds what grows by a declaration of this total, whose wants are sought in these states.
fn grow_decl(
    tables: &Tables,
    arena: &mut Arena,
    children: &mut Vec<(u32, Item)>,
    parent: Parent,
    decl: u32,
    total: u32,
    tails: &[u32],
) -> Result<(), AllocError>
    requires parent { IsParent tables.now arena.old parent }
    requires children { AreHeld tables.now arena.old children.old.items }
    requires number { decl < 2147483648 }
    requires turn { IsTurn tables.now (place_by_numbers tables.now parent.place) (2 * decl + 1) total (numbered_under (lambdas_under tables.now.env parent.place.lambdas decl) tails.now) }
    ensures grew { OnOk result (Grew tables.now arena.old arena.new (front_of arena.old parent.front) ((2 * decl + 1) ∷ []) children.old.items children.new.items) }
    ensures grown { AreGrown arena.old arena.new }
{
    let head = Head {
        number: 2 * decl + 1,
        total,
        lambdas: lambdas_under(tables.env.parts(), parent.place.lambdas, decl),
    };
    grow_by(tables, arena, children, parent, head, tails)
}

/// Adds what grows by the declaration of an edge; a coercion adds nothing.
#[inline(always)]
fn grow_head(
    tables: &Tables,
    arena: &mut Arena,
    children: &mut Vec<(u32, Item)>,
    parent: Parent,
    step: u32,
    edge: u32,
) -> Result<(), AllocError>
    requires parent { IsParent tables.now arena.old parent }
    requires children { AreHeld tables.now arena.old children.old.items }
    requires step { step ≤ coercion_weight tables.now.env }
    requires in_range { edge < length tables.now.edges }
    requires totals { AreTotals tables.now.env.limit tables.now.least tables.now.edges tables.now.totals }
    requires valid { IsValid tables.now.env }
    requires turn { IsHeadOf tables.now parent.place step edge (edge_at tables.now.edges edge) }
    ensures grew { OnOk result (Grew tables.now arena.old arena.new (front_of arena.old parent.front) (head_numbers tables.now.env (edge_at tables.now.edges edge)) children.old.items children.new.items) }
    ensures grown { AreGrown arena.old arena.new }
{
    let total = total_at(tables, edge) + step;
    match declared(tables.env.parts(), tables.edges.source(edge)) {
        Some(decl) => grow_decl(
            tables,
            arena,
            children,
            parent,
            decl,
            total,
            tables.edges.tails(edge),
        ),
        None => Ok(()),
    }
}

/// Adds what grows by the declarations that give just the type of a state.
fn grow_heads(
    tables: &Tables,
    arena: &mut Arena,
    children: &mut Vec<(u32, Item)>,
    parent: Parent,
    step: u32,
    state: u32,
) -> Result<(), AllocError>
    requires parent { IsParent tables.now arena.old parent }
    requires children { AreHeld tables.now arena.old children.old.items }
    requires totals { AreTotals tables.now.env.limit tables.now.least tables.now.edges tables.now.totals }
    requires valid { IsValid tables.now.env }
    requires floors { AreFloors tables.now.env tables.now.edges tables.now.totals tables.now.floors }
    requires usable { AreUsable tables.now.env.limit tables.now.floors tables.now.edges tables.now.usable }
    requires step { step ≤ coercion_weight tables.now.env }
    requires turns { AreHeadsAt tables.now parent.place step state }
    ensures grew { OnOk result (Grew tables.now arena.old arena.new (front_of arena.old parent.front) (heads_at tables.now.env tables.now.edges state) children.old.items children.new.items) }
    ensures grown { AreGrown arena.old arena.new }
{
    let edges = usable_at(tables, state, room_of(tables, parent, step));
    for edge in edges {
        grow_head(tables, arena, children, parent, step, *edge)?;
    }
    Ok(())
}

/// Adds what grows by an edge, under a coercion where it is one.
fn grow_edge(
    tables: &Tables,
    arena: &mut Arena,
    children: &mut Vec<(u32, Item)>,
    parent: Parent,
    edge: u32,
) -> Result<(), AllocError>
    requires parent { IsParent tables.now arena.old parent }
    requires children { AreHeld tables.now arena.old children.old.items }
    requires totals { AreTotals tables.now.env.limit tables.now.least tables.now.edges tables.now.totals }
    requires valid { IsValid tables.now.env }
    requires floors { AreFloors tables.now.env tables.now.edges tables.now.totals tables.now.floors }
    requires usable { AreUsable tables.now.env.limit tables.now.floors tables.now.edges tables.now.usable }
    requires in_range { edge < length tables.now.edges }
    requires way { IsWayOf tables.now parent.place edge (edge_at tables.now.edges edge) }
    ensures grew { OnOk result (Grew tables.now arena.old arena.new (front_of arena.old parent.front) (way_numbers tables.now.env tables.now.edges (edge_at tables.now.edges edge)) children.old.items children.new.items) }
    ensures grown { AreGrown arena.old arena.new }
{
    match lower_of(tables, edge) {
        Some(lower) => {
            let coercion = tables.env.coercion_weight();
            grow_heads(tables, arena, children, parent, coercion, lower)
        }
        None => grow_head(tables, arena, children, parent, 0, edge),
    }
}

/// Adds what grows by the edges of the parent's first place. Those that can't be used are never looked at, and of
/// the others none after the first that is above what is left of the limit.
pub fn grow_edges(
    tables: &Tables,
    arena: &mut Arena,
    children: &mut Vec<(u32, Item)>,
    parent: Parent,
) -> Result<(), AllocError>
    requires parent { IsParent tables.now arena.old parent }
    requires children { AreHeld tables.now arena.old children.old.items }
    requires totals { AreTotals tables.now.env.limit tables.now.least tables.now.edges tables.now.totals }
    requires valid { IsValid tables.now.env }
    requires floors { AreFloors tables.now.env tables.now.edges tables.now.totals tables.now.floors }
    requires usable { AreUsable tables.now.env.limit tables.now.floors tables.now.edges tables.now.usable }
    requires ways { AreWaysAt tables.now parent.place parent.place.state }
    ensures grew { OnOk result (Grew tables.now arena.old arena.new (front_of arena.old parent.front) (ways_at tables.now.env tables.now.edges parent.place.state) children.old.items children.new.items) }
    ensures grown { AreGrown arena.old arena.new }
{
    let edges = usable_at(tables, parent.place.state, room_of(tables, parent, 0));
    for edge in edges {
        grow_edge(tables, arena, children, parent, *edge)?;
    }
    Ok(())
}
