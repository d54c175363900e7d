ghost use Rattle.std.specs.Prelude.{◌≡◌, ◌+◌, ◌<◌, ◌^◌, length, IfOk};
ghost use Rattle.java_units.specs.UnitLaws.{IsNested};
ghost use Rattle.java_units.specs.Dimensions.{dims_of_bounds, greatest, type_dims};
ghost use Rattle.class_summary.specs.Names.{denoted_type};
ghost use Rattle.class_summary.specs.Variables.{IsMethodOf};
ghost use Rattle.class_summary.specs.SourceSummaries.{IsSourceSummary, summaries_of};

use crate::denoted_types::resolve_at;
use crate::source::summary_at;
use crate::unit_names::UnitNames;
use java_units::{TypeText, Unit};
use known_classes::{ClassSummary, Classes};
use lists::Items;
use std::alloc::{AllocError, Global};
use std::marker::Model;
use type_names::Erased;

/// What the names in a unit denote, where `known` are the classes known besides those of the unit. Its tables are
/// made once, so that many names of one unit are looked up in few steps each.
#[derive(Drop)]
pub struct Resolver<'a, C: Classes> {
    names: UnitNames<'a>,
    known: &'a C,
}

impl<'a, C: Classes> Model for Resolver<'a, C> {
    ghost use Rattle.class_summary.specs.SourceSummaries.{Source};

    ghost Value = { Source };

    ghost view = { λ r. record { unit = r.names; known = C.listed r.known.now } };
}

fn wide(number: Option<u32>) -> Option<usize>
    ensures { result ≡ number }
{
    match number {
        Some(number) => Some(number as usize),
        None => None,
    }
}

impl<'a, C: Classes> Resolver<'a, C> {
    /// The tables of a unit.
    pub fn new(alloc: Global, unit: &'a Unit, known: &'a C) -> Result<Resolver<'a, C>, AllocError>
        ensures made { IfOk result (λ r. r ≡ record { unit = unit.now; known = C.listed known.now }) }
    {
        Ok(Resolver {
            names: UnitNames::new(alloc, unit)?,
            known,
        })
    }

    /// The erased type that a type denotes at a class of the unit, or at a method of it; both are numbers in the
    /// unit.
    pub fn resolve(
        &self,
        alloc: Global,
        class: u32,
        method: Option<u32>,
        name: &TypeText,
    ) -> Result<Erased, AllocError>
        requires nested { IsNested self.now.unit.classes }
        requires class { class < length self.now.unit.classes }
        requires method { IsMethodOf self.now.unit.classes class method }
        requires dims { name.now.dims + dims_of_bounds self.now.unit.classes < 2 ^ 64 }
        ensures exact { IfOk result (λ kind. kind ≡ denoted_type self.now.unit class method name.now self.now.known) }
    {
        let kind = resolve_at(
            alloc,
            &self.names,
            class as usize,
            wide(method),
            name,
            self.known,
        )?;
        Ok(kind)
    }

    /// The summary of the class number i.
    pub fn summary(&self, alloc: Global, class: u32) -> Result<ClassSummary, AllocError>
        requires nested { IsNested self.now.unit.classes }
        requires class { class < length self.now.unit.classes }
        requires dims { greatest type_dims self.now.unit.classes + dims_of_bounds self.now.unit.classes < 2 ^ 64 }
        ensures exact { IfOk result (IsSourceSummary self.now.unit class self.now.known) }
    {
        let declared = &self.names.classes()[class as usize];
        let summary = summary_at(alloc, &self.names, class as usize, self.known, declared)?;
        Ok(summary)
    }

    /// The summaries of all classes, in their order.
    pub fn summaries(&self, alloc: Global) -> Result<Items<ClassSummary>, AllocError>
        requires nested { IsNested self.now.unit.classes }
        requires dims { greatest type_dims self.now.unit.classes + dims_of_bounds self.now.unit.classes < 2 ^ 64 }
        ensures exact { IfOk result (λ all. all ≡ summaries_of self.now.unit self.now.known) }
    {
        let classes = self.names.classes();
        let mut all = Items::new(alloc);
        for i in 0..classes.len() {
            let summary = summary_at(alloc, &self.names, i, self.known, &classes[i])?;
            all.push(summary)?;
        }
        Ok(all)
    }
}

/// The erased type that a type denotes at a class of the text, or at a method of it; both are numbers in the
/// text. `known` are the classes known besides those of the text. For many names of one text a `Resolver` is
/// faster.
pub fn resolve_name<C: Classes>(
    alloc: Global,
    unit: &Unit,
    class: u32,
    method: Option<u32>,
    name: &TypeText,
    known: &C,
) -> Result<Erased, AllocError>
    requires nested { IsNested unit.now.classes }
    requires class { class < length unit.now.classes }
    requires method { IsMethodOf unit.now.classes class method }
    requires dims { name.now.dims + dims_of_bounds unit.now.classes < 2 ^ 64 }
    ensures exact { IfOk result (λ kind. kind ≡ denoted_type unit.now class method name.now (C.listed known.now)) }
{
    Resolver::new(alloc, unit, known)?.resolve(alloc, class, method, name)
}

/// The summary of the class number i of a text. `known` are the classes known besides those of the text. For all
/// classes of one text a `Resolver` is faster.
pub fn from_unit<C: Classes>(
    alloc: Global,
    unit: &Unit,
    class: u32,
    known: &C,
) -> Result<ClassSummary, AllocError>
    requires nested { IsNested unit.now.classes }
    requires class { class < length unit.now.classes }
    requires dims { greatest type_dims unit.now.classes + dims_of_bounds unit.now.classes < 2 ^ 64 }
    ensures exact { IfOk result (IsSourceSummary unit.now class (C.listed known.now)) }
{
    Resolver::new(alloc, unit, known)?.summary(alloc, class)
}
