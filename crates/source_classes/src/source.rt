ghost use Rattle.std.specs.Prelude.{◌≡◌, ◌≤◌, length, IfOk};
ghost use Rattle.class_summary.specs.SourceSummaries.{summaries_of};
ghost use Rattle.source_classes.specs.TextUnits.{IsUnitOf};
ghost use Rattle.source_classes.specs.SourceClasses.{outlines_of};

use crate::outlines::outlines;
use class_summary::Resolver;
use java_tokens::tokens;
use java_units::{Unit, read_unit};
use known_classes::{ClassSummary, Classes};
use lists::Items;
use std::alloc::{AllocError, Global};
use std::marker::Model;

/// The unit of a text of at most 16 MiB.
#[derive(Drop)]
pub struct Source {
    unit: Unit,
}

impl Model for Source {
    ghost use Rattle.std.specs.Prelude.{◌+◌, ◌<◌, ◌^◌};
    ghost use Rattle.java_units.specs.UnitLaws.{IsNested};
    ghost use Rattle.java_units.specs.Dimensions.{dims_of_bounds, greatest, type_dims};
    ghost use Rattle.class_summary.specs.UnitTables.{SourceUnit};

    ghost Value = { SourceUnit };

    ghost view = { λ s. s.unit };

    ghost invariant = { λ s. IsNested s.unit.classes × (greatest type_dims s.unit.classes + dims_of_bounds s.unit.classes < 2 ^ 64) };
}

impl Source {
    /// The text's package, imports and classes.
    pub fn read(alloc: Global, text: &str) -> Result<Source, AllocError>
        requires at_most_16_mib { length text.now ≤ 16777216 }
        ensures { IfOk result (λ source. IsUnitOf text.now source) }
    {
        let all = tokens(alloc, text)?;
        let unit = read_unit(alloc, text, all.as_slice())?;
        Ok(Source { unit })
    }

    /// What is told of the classes before any name is looked up.
    pub fn outlines(&self, alloc: Global) -> Result<Items<ClassSummary>, AllocError>
        ensures { IfOk result (λ all. all ≡ outlines_of self.now) }
    {
        outlines(alloc, &self.unit)
    }

    /// The summaries of the classes.
    pub fn summaries<C: Classes>(
        &self,
        alloc: Global,
        known: &C,
    ) -> Result<Items<ClassSummary>, AllocError>
        ensures { IfOk result (λ all. all ≡ summaries_of self.now (C.listed known.now)) }
    {
        let resolver = Resolver::new(alloc, &self.unit, known)?;
        let all = resolver.summaries(alloc)?;
        Ok(all)
    }
}
