ghost use Rattle.std.specs.Prelude.{◌≡◌, ◌<◌, ℕ, List, OnOk, IfOk, length, slice_get, Some, Contains};
ghost use Rattle.std.specs.List.{filter_map};
ghost use Rattle.graphs.specs.Graph.{InRange, AreFree, AreAncestors};
ghost use Rattle.name_places.specs.Places.{place_of, IsPlaced, IsGrown};
ghost use Rattle.subtyping.specs.Places.{IsListed, AreListed, row_of, graph_of, Rises, IsWithout, AreRows};
ghost use Rattle.type_names.specs.Names.{object_name};

use graphs::{ancestors, free_marks, without_cycles};
use known_classes::{ClassSummary, Classes};
use lists::{Items, Text};
use name_places::Names;
use std::alloc::{AllocError, Global};
use type_names::OBJECT;

/// The place of a name, as the number of a node.
pub(crate) fn place_in(names: &Names, name: &str) -> Option<usize>
    ensures { result ≡ place_of names.now name.now }
{
    match names.place(name) {
        Some(place) => Some(place as usize),
        None => None,
    }
}

/// Gives places to these names.
fn add_all(alloc: Global, names: &mut Names, supers: &[Text]) -> Result<(), AllocError>
    ensures placed { OnOk result ((b : List ℕ) → Contains supers.now b → IsPlaced names.new b) }
    ensures grown { IsGrown names.old names.new }
{
    for name in supers {
        names.add(alloc, name.as_str())?;
    }
    Ok(())
}

/// Gives places to a class and its supers.
fn add_class(alloc: Global, names: &mut Names, class: &ClassSummary) -> Result<(), AllocError>
    ensures listed { OnOk result (IsListed names.new class.now) }
    ensures grown { IsGrown names.old names.new }
{
    names.add(alloc, class.name.as_str())?;
    add_all(alloc, names, class.supers.as_slice())
}

/// The names of all classes and of all their supers.
pub(crate) fn names_of<C: Classes>(alloc: Global, known: &C) -> Result<Names, AllocError>
    ensures { IfOk result (λ names. AreListed (C.listed known.now) names) }
{
    let mut names = Names::new(alloc);
    for place in 0..known.count() {
        add_class(alloc, &mut names, known.at(place))?;
    }
    Ok(names)
}

/// The places of these names that have one.
fn places_of(alloc: Global, names: &Names, supers: &[Text]) -> Result<Items<usize>, AllocError>
    ensures { IfOk result (λ row. row ≡ filter_map (place_of names.now) supers.now) }
{
    let mut row = Items::new(alloc);
    for name in supers {
        let Some(place) = place_in(names, name.as_str()) else {
            continue;
        };
        row.push(place)?;
    }
    Ok(row)
}

/// The places of the supers of the class of this name.
fn row_of<C: Classes>(
    alloc: Global,
    known: &C,
    names: &Names,
    name: &Text,
) -> Result<Items<usize>, AllocError>
    ensures { IfOk result (λ row. row ≡ row_of (C.listed known.now) names.now name.now) }
{
    match known.find(name.as_str()) {
        Some(place) => places_of(alloc, names, known.at(place).supers.as_slice()),
        None => Ok(Items::new(alloc)),
    }
}

/// From each name the places of its supers.
pub(crate) fn graph_of<C: Classes>(
    alloc: Global,
    known: &C,
    names: &Names,
) -> Result<Items<Items<usize>>, AllocError>
    ensures { IfOk result (λ rows. rows ≡ graph_of (C.listed known.now) names.now) }
{
    let mut rows = Items::new(alloc);
    for name in names.texts() {
        rows.push(row_of(alloc, known, names, name)?)?;
    }
    Ok(rows)
}

/// The graph without the edges on cycles and those from Object.
pub(crate) fn steps_of(
    alloc: Global,
    names: &Names,
    graph: &[Items<usize>],
) -> Result<Items<Items<usize>>, AllocError>
    requires range { InRange graph.now }
    requires long { length graph.now ≡ length names.now }
    ensures { IfOk result (λ rows. IsWithout names.now graph.now rows) }
{
    let mut rows = without_cycles(alloc, graph)?;
    let Some(place) = place_in(names, OBJECT) else {
        return Ok(rows);
    };
    rows.set(place, Items::new(alloc));
    Ok(rows)
}

/// The ancestors of a node in rising order. The marks are lent.
fn row_above(
    alloc: Global,
    graph: &[Items<usize>],
    marks: &mut Vec<bool>,
    node: usize,
) -> Result<Items<usize>, AllocError>
    requires range { InRange graph.now }
    requires marks { AreFree (length graph.now) marks.old.items }
    ensures exact { IfOk result (λ nodes. AreAncestors graph.now node nodes) }
    ensures rises { IfOk result (λ nodes. Rises nodes) }
    ensures free { OnOk result (AreFree (length graph.now) marks.new.items) }
{
    let mut nodes = ancestors(alloc, graph, marks, node)?;
    nodes.sort_unstable();
    Ok(Items::from_vec(nodes))
}

/// The ancestors of each node.
pub(crate) fn rows_above(
    alloc: Global,
    graph: &[Items<usize>],
) -> Result<Items<Items<usize>>, AllocError>
    requires range { InRange graph.now }
    ensures { IfOk result (λ rows. AreRows graph.now rows) }
{
    let mut marks = free_marks(alloc, graph)?;
    let mut rows = Items::new(alloc);
    for node in 0..graph.len() {
        rows.push(row_above(alloc, graph, &mut marks, node)?)?;
    }
    Ok(rows)
}
