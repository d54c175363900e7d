ghost use Rattle.std.specs.Prelude.{◌≡◌, ◌&&◌, ◌==◌, if◌then◌else◌, ℕ, List, Option, Some, None, length, map, slice_get, bytes_eq, IfOk, OnOk};
ghost use Rattle.std.specs.Option.{option_copied};
ghost use Rattle.std.specs.BTreeMap.{get_by_text};
ghost use Rattle.class_summary.specs.Sources.{name_at, internal_name, canonical_name};
ghost use Rattle.class_summary.specs.Names.{own_by_canonical, member_named, imported, enclosing};
ghost use Rattle.class_summary.specs.Variables.{scopes_at};
ghost use Rattle.class_summary.specs.VariableEnds.{AreEnds, AreClassEnds};
ghost use Rattle.class_summary.specs.UnitTables.{numbered, GivesCanonical, GivesTop, GiveMembers};
ghost use Rattle.known_classes.specs.NameTables.{Table};

use crate::ends::Ends;
use crate::paths::{canonical_name, internal_name};
use crate::rules::is_member;
use crate::single_imports::singles_in;
use crate::unit_ends::UnitEnds;
use crate::variable_names::ClassVariables;
use java_units::{Import, SourceClass, Unit};
use known_classes::{put, put_at};
use lists::{Copies, Items, Text, at};
use std::alloc::{AllocError, Global};
use std::collections::BTreeMap;
use std::marker::Model;

/// A unit with tables of the names of its classes, which are made once.
#[derive(Drop)]
pub struct UnitNames<'a> {
    unit: &'a Unit,
    internal: Items<Text>,
    /// The first class of each canonical name.
    by_canonical: BTreeMap<String, usize>,
    /// The top-level classes by their names.
    top: BTreeMap<String, usize>,
    /// For each class its members by their names.
    members: Vec<BTreeMap<String, usize>>,
    /// For each class its type variables and those of its methods.
    variables: Vec<ClassVariables<'a>>,
    /// Where these variables end through their bounds.
    ends: UnitEnds<'a>,
    /// The places of the imports without star by their last names, of several the first.
    single: BTreeMap<String, usize>,
}

impl<'a> Model for UnitNames<'a> {
    ghost use Rattle.std.specs.Prelude.{◌≡◌, length, map};
    ghost use Rattle.std.specs.BTreeMap.{get_by_text};
    ghost use Rattle.class_summary.specs.Sources.{internal_name};
    ghost use Rattle.class_summary.specs.ImportTables.{GivesImported};
    ghost use Rattle.class_summary.specs.VariableEnds.{AreClassEnds, AreMethodEnds};
    ghost use Rattle.class_summary.specs.UnitTables.{SourceUnit, numbered, GivesCanonical, GivesTop, GiveMembers};

    ghost Value = { SourceUnit };

    ghost view = { λ n. n.unit.now };

    ghost invariant = { λ n. (n.internal ≡ numbered (internal_name n.unit.now) 0 (length n.unit.now.classes)) × GivesCanonical n.unit.now (get_by_text n.by_canonical) × GivesTop n.unit.now.classes (get_by_text n.top) × GiveMembers n.unit.now.classes (map get_by_text n.members.items) × (n.variables.items ≡ n.unit.now.classes) × AreClassEnds n.unit.now.classes n.ends.classes.items × AreMethodEnds n.unit.now.classes n.ends.methods.items × GivesImported n.unit.now.imports (get_by_text n.single) };
}

/// The internal names of the classes of a text.
fn internal_names(alloc: Global, unit: &Unit) -> Result<Items<Text>, AllocError>
    ensures { IfOk result (λ names. names ≡ numbered (internal_name unit.now) 0 (length unit.now.classes)) }
{
    let mut names = Items::new(alloc);
    for i in 0..unit.classes.len() {
        names.push(internal_name(alloc, unit, i)?)?;
    }
    Ok(names)
}

/// The first class of each canonical name, found from the last to the first.
fn canonical_in(alloc: Global, unit: &Unit) -> Result<BTreeMap<String, usize>, AllocError>
    ensures { IfOk result (λ by_canonical. GivesCanonical unit.now (get_by_text by_canonical)) }
{
    let mut by_canonical = BTreeMap::new(alloc);
    let mut left = unit.classes.len();
    while left > 0 {
        left -= 1;
        let name = canonical_name(alloc, unit, left)?;
        put(alloc, &mut by_canonical, name.as_str(), left)?;
    }
    Ok(by_canonical)
}

/// The top-level classes by their names, found from the last to the first.
fn top_in(alloc: Global, classes: &[SourceClass]) -> Result<BTreeMap<String, usize>, AllocError>
    ensures { IfOk result (λ top. GivesTop classes.now (get_by_text top)) }
{
    let mut top = BTreeMap::new(alloc);
    let mut left = classes.len();
    while left > 0 {
        left -= 1;
        let class = &classes[left];
        if class.outer.is_some() {
            continue;
        }
        put(alloc, &mut top, class.name.as_str(), left)?;
    }
    Ok(top)
}

/// As many empty tables as there are classes.
fn empty_tables(alloc: Global, count: usize) -> Result<Vec<BTreeMap<String, usize>>, AllocError>
    ensures { IfOk result (λ tables. (k : ℕ) (table : Table) (name : List ℕ) → slice_get (map get_by_text tables.items) k ≡ Some table → table name ≡ None) }
{
    let mut tables = Vec::new(alloc);
    for _table in 0..count {
        tables.push(BTreeMap::new(alloc))?;
    }
    Ok(tables)
}

/// The members of each class by their names, found from the last to the first.
fn members_in(
    alloc: Global,
    classes: &[SourceClass],
) -> Result<Vec<BTreeMap<String, usize>>, AllocError>
    ensures { IfOk result (λ members. GiveMembers classes.now (map get_by_text members.items)) }
{
    let mut members = empty_tables(alloc, classes.len())?;
    let mut left = classes.len();
    while left > 0 {
        left -= 1;
        let class = &classes[left];
        let Some(outer) = class.outer else {
            continue;
        };
        put_at(
            alloc,
            &mut members,
            outer as usize,
            class.name.as_str(),
            left,
        )?;
    }
    Ok(members)
}

/// The type variables of each class and of its methods.
fn variables_in<'a>(
    alloc: Global,
    classes: &'a [SourceClass],
) -> Result<Vec<ClassVariables<'a>>, AllocError>
    ensures { IfOk result (λ variables. variables.items ≡ classes.now) }
{
    let mut variables = Vec::new(alloc);
    for i in 0..classes.len() {
        variables.push(ClassVariables::new(alloc, &classes[i])?)?;
    }
    Ok(variables)
}

/// The first class of the text that has this name and stands directly in that class, or in none.
fn member_named(classes: &[SourceClass], outer: Option<usize>, name: &Text) -> Option<usize>
    ensures { result ≡ member_named outer name.now classes.now }
{
    for i in 0..classes.len() {
        if is_member(&classes[i], outer, name) {
            return Some(i);
        }
    }
    None
}

impl<'a> UnitNames<'a> {
    /// The tables of a unit.
    pub fn new(alloc: Global, unit: &'a Unit) -> Result<UnitNames<'a>, AllocError>
        ensures { IfOk result (λ names. names ≡ unit.now) }
    {
        let variables = variables_in(alloc, unit.classes.as_slice())?;
        let ends = UnitEnds::new(alloc, unit.classes.as_slice(), variables.as_slice())?;
        Ok(UnitNames {
            unit,
            internal: internal_names(alloc, unit)?,
            by_canonical: canonical_in(alloc, unit)?,
            top: top_in(alloc, unit.classes.as_slice())?,
            members: members_in(alloc, unit.classes.as_slice())?,
            variables,
            ends,
            single: singles_in(alloc, unit.imports.as_slice())?,
        })
    }

    /// The unit itself.
    pub fn unit(&self) -> &'a Unit
        ensures { result.now ≡ self.now }
    {
        self.unit
    }

    /// The classes of the unit.
    pub fn classes(&self) -> &'a [SourceClass]
        ensures { result.now ≡ self.now.classes }
    {
        self.unit.classes.as_slice()
    }

    /// The imports of the unit.
    pub fn imports(&self) -> &'a [Import]
        ensures { result.now ≡ self.now.imports }
    {
        self.unit.imports.as_slice()
    }

    /// The first import without star that ends with this name.
    pub fn imported(&self, name: &Text) -> Option<&'a Import>
        ensures { option_copied result ≡ imported name.now self.now.imports }
    {
        let Some(place) = self.single.get(name.as_str()).copied() else {
            return None;
        };
        at(self.unit.imports.as_slice(), place)
    }

    /// The parts of the package.
    pub fn package(&self) -> &'a Items<Text>
        ensures { result.now ≡ self.now.package }
    {
        &self.unit.package
    }

    /// The type variables of the classes, and those of their methods.
    pub fn variables(&self) -> &[ClassVariables<'a>]
        ensures { result.now ≡ self.now.classes }
    {
        self.variables.as_slice()
    }

    /// Where the variables of the classes end.
    pub fn class_ends(&self) -> &[Ends<'a>]
        ensures { AreClassEnds self.now.classes result.now }
    {
        self.ends.classes.as_slice()
    }

    /// Where the variables of a class end, or of a method of it; want of memory where there is none.
    pub fn ends_at(&self, class: usize, method: Option<usize>) -> Result<&Ends<'a>, AllocError>
        ensures { IfOk result (λ ends. AreEnds (scopes_at self.now.classes class method) ends.now) }
    {
        let found = match method {
            Some(method) => self.ends.of_method(class, method),
            None => self.ends.classes.get(class),
        };
        match found {
            Some(ends) => Ok(ends),
            None => Err(AllocError),
        }
    }

    /// The internal name of the class number i.
    pub fn internal(&self, alloc: Global, class: usize) -> Result<Text, AllocError>
        ensures { IfOk result (λ name. name ≡ internal_name self.now class) }
    {
        match self.internal.get(class) {
            Some(name) => name.copy(alloc),
            None => internal_name(alloc, self.unit, class),
        }
    }

    /// The first class with this canonical name.
    pub fn by_canonical(&self, name: &Text) -> Option<usize>
        ensures { result ≡ own_by_canonical self.now name.now }
    {
        self.by_canonical.get(name.as_str()).copied()
    }

    /// The first class that has this name and stands directly in that class, or in none.
    pub fn member(&self, outer: Option<usize>, name: &Text) -> Option<usize>
        ensures { result ≡ member_named outer name.now self.now.classes }
    {
        let Some(class) = outer else {
            return self.top.get(name.as_str()).copied();
        };
        match self.members.get(class) {
            Some(table) => table.get(name.as_str()).copied(),
            None => member_named(self.unit.classes.as_slice(), outer, name),
        }
    }
}
