ghost use Rattle.std.specs.Prelude.{◌≡◌, ◌≤◌, All, length, IfOk};
ghost use Rattle.std.specs.List.{flat_map, AllZip};
ghost use Rattle.known_classes.specs.Known.{HasEachOnce};
ghost use Rattle.class_summary.specs.SourceSummaries.{summaries_of};
ghost use Rattle.source_classes.specs.TextUnits.{IsUnitOf, AreUnitsOf};
ghost use Rattle.source_classes.specs.SourceClasses.{outlines_of, all_summaries, AreSourceClasses};
ghost use Rattle.source_classes.specs.Laws.{HaveSourceClasses, AreOnlySourceClasses};
ghost use Rattle.source_classes.specs.Order.{HaveOwnNames, AreAlikeInAnyOrder};

use crate::published::published;
use crate::source::Source;
use known_classes::{ClassSummary, Classes, Merged};
use lists::{Items, Text};
use rayon::prelude::*;
use std::alloc::{AllocError, Global};
use std::thread::Threads;

/// The units of texts, by as many threads as there are processors.
fn sources_of(
    rt: &(impl Threads + Sync),
    alloc: Global,
    texts: &[Text],
) -> Result<Vec<Source>, AllocError>
    requires at_most_16_mib { All (λ text. length text ≤ 16777216) texts.now }
    ensures { IfOk result (λ sources. AreUnitsOf texts.now sources.items) }
{
    texts
        .par_iter()
        .with_min_len(1)
        .map(
            |text: &Text| -> Result<Source, AllocError>
                requires { length text.now ≤ 16777216 }
                ensures { IfOk result (IsUnitOf text.now) }
            { Source::read(alloc, text.as_str()) },
        )
        .collect::<Result<Vec<Source>, AllocError>>(rt, alloc)?
}

/// What is told of all classes before any name is looked up.
fn all_outlines(alloc: Global, sources: &[Source]) -> Result<Items<ClassSummary>, AllocError>
    ensures { IfOk result (λ all. all ≡ flat_map outlines_of sources.now) }
{
    let mut all = Items::new(alloc);
    for i in 0..sources.len() {
        all.append(sources[i].outlines(alloc)?)?;
    }
    Ok(all)
}

/// The summaries of the classes of each unit, by as many threads as there are processors.
fn each_summaries<C: Classes + Sync>(
    rt: &(impl Threads + Sync),
    alloc: Global,
    sources: &[Source],
    known: &C,
) -> Result<Vec<Items<ClassSummary>>, AllocError>
    ensures { IfOk result (λ each. AllZip (λ u all. all ≡ summaries_of u (C.listed known.now)) sources.now each.items) }
{
    sources
        .par_iter()
        .with_min_len(1)
        .map(
            |source: &Source| -> Result<Items<ClassSummary>, AllocError>
                ensures { IfOk result (λ all. all ≡ summaries_of source.now (C.listed known.entry.now)) }
            { source.summaries(alloc, known) },
        )
        .collect::<Result<Vec<Items<ClassSummary>>, AllocError>>(rt, alloc)?
}

/// These classes, list by list.
fn in_a_row(
    alloc: Global,
    lists: Vec<Items<ClassSummary>>,
) -> Result<Items<ClassSummary>, AllocError>
    ensures { IfOk result (λ all. all ≡ flat_map (λ classes. classes) lists.items) }
{
    let mut all = Items::new(alloc);
    for classes in lists {
        all.append(classes)?;
    }
    Ok(all)
}

/// The summaries of all classes.
fn all_summaries<C: Classes + Sync>(
    rt: &(impl Threads + Sync),
    alloc: Global,
    sources: &[Source],
    known: &C,
) -> Result<Items<ClassSummary>, AllocError>
    ensures { IfOk result (λ all. all ≡ all_summaries sources.now (C.listed known.now)) }
{
    in_a_row(alloc, each_summaries(rt, alloc, sources, known)?)
}

/// The classes of source texts, in the order of the texts and within each: of two of one name the later one
/// alone, and all without their private members. What the names in the texts may mean are the classes of all
/// the texts and `known`. A text without a class adds nothing, and none is refused; the only fault is want of
/// memory. Each text is read once, and as many threads as there are processors read them; the time is linear in the
/// texts and in the classes, but for a logarithm.
pub fn source_classes<C: Classes + Sync>(
    rt: &(impl Threads + Sync),
    alloc: Global,
    texts: &[Text],
    known: &C,
) -> Result<Items<ClassSummary>, AllocError>
    requires at_most_16_mib { All (λ text. length text ≤ 16777216) texts.now }
    ensures exact { IfOk result (AreSourceClasses texts.now (C.listed known.now)) }
    ensures total { HaveSourceClasses texts.now (C.listed known.now) }
    ensures only { IfOk result (AreOnlySourceClasses texts.now (C.listed known.now)) }
    ensures once { IfOk result HasEachOnce }
    ensures order { HaveOwnNames texts.now → HasEachOnce (C.listed known.now) → IfOk result (AreAlikeInAnyOrder texts.now (C.listed known.now)) }
{
    let sources = sources_of(rt, alloc, texts)?;
    let outlines = all_outlines(alloc, sources.as_slice())?;
    let in_sight = Merged::new(alloc, known, outlines)?;
    let all = all_summaries(rt, alloc, sources.as_slice(), &in_sight)?;
    let classes = published(alloc, all)?;
    Ok(classes)
}
