ghost use Rattle.std.specs.Prelude.{◌≡◌, Some, None, map, slice_get, length, IfOk, IfSome, IfNone};
ghost use Rattle.std.specs.Option.{option_copied, option_map};
ghost use Rattle.std.specs.BTreeMap.{get_by_text};
ghost use Rattle.class_summary.specs.Variables.{bound_of};
ghost use Rattle.class_summary.specs.VariableTables.{GivesBounds, bound_at, variables_of};

use java_units::{SourceClass, SourceMethod, TypeText, TypeVar};
use known_classes::put;
use lists::{Text, at};
use std::alloc::{AllocError, Global};
use std::collections::BTreeMap;
use std::marker::Model;

/// A variable by its place in its declaration, with its bound.
#[derive(Drop)]
pub struct Named<'a> {
    pub place: usize,
    pub bound: Option<&'a TypeText>,
}

/// The type variables that a class or a method declares, with the place of the first of each name.
#[derive(Drop)]
pub struct VariableNames<'a> {
    vars: &'a [TypeVar],
    places: BTreeMap<String, usize>,
}

impl<'a> Model for VariableNames<'a> {
    ghost use Rattle.std.specs.Prelude.{List};
    ghost use Rattle.std.specs.BTreeMap.{get_by_text};
    ghost use Rattle.java_units.specs.declared.types.TypeVar.{TypeVar};
    ghost use Rattle.class_summary.specs.VariableTables.{GivesBounds};

    ghost Value = { List TypeVar };

    ghost view = { λ v. v.vars.now };

    ghost invariant = { λ v. GivesBounds v.vars.now (get_by_text v.places) };
}

/// The place of the first variable of each name, found from the last to the first.
fn places_in(alloc: Global, vars: &[TypeVar]) -> Result<BTreeMap<String, usize>, AllocError>
    ensures { IfOk result (λ places. GivesBounds vars.now (get_by_text places)) }
{
    let mut places = BTreeMap::new(alloc);
    let mut left = vars.len();
    while left > 0 {
        left -= 1;
        let var = &vars[left];
        put(alloc, &mut places, var.name.as_str(), left)?;
    }
    Ok(places)
}

impl<'a> VariableNames<'a> {
    fn new(alloc: Global, vars: &'a [TypeVar]) -> Result<VariableNames<'a>, AllocError>
        ensures { IfOk result (λ names. names ≡ vars.now) }
    {
        Ok(VariableNames {
            vars,
            places: places_in(alloc, vars)?,
        })
    }

    /// How many they are.
    pub fn count(&self) -> usize
        ensures { result ≡ length self.now }
    {
        self.vars.len()
    }

    /// The first variable with this name.
    pub fn named(&self, name: &Text) -> Option<Named<'a>>
        ensures none { IfNone result (bound_of name.now self.now ≡ None) }
        ensures some { IfSome result (λ v. (bound_of name.now self.now ≡ Some (option_copied v.bound)) × (bound_at self.now (Some v.place) ≡ Some (option_copied v.bound))) }
    {
        let Some(place) = self.places.get(name.as_str()).copied() else {
            return None;
        };
        let Some(var) = at(self.vars, place) else {
            return None;
        };
        Some(Named {
            place,
            bound: var.bound.as_ref(),
        })
    }

    /// The place of the first variable with this name, where there is one.
    pub fn place(&self, name: &Text) -> Option<usize> {
        self.places.get(name.as_str()).copied()
    }

    /// The variable at a place.
    pub fn at(&self, place: usize) -> Option<&'a TypeVar>
        ensures { option_map (λ v. v.now.bound) result ≡ bound_at self.now (Some place) }
    {
        at(self.vars, place)
    }
}

/// The type variables of a class and of each of its methods.
#[derive(Drop)]
pub struct ClassVariables<'a> {
    class: &'a SourceClass,
    own: VariableNames<'a>,
    methods: Vec<VariableNames<'a>>,
}

impl<'a> Model for ClassVariables<'a> {
    ghost use Rattle.std.specs.Prelude.{◌≡◌, map};
    ghost use Rattle.class_summary.specs.VariableTables.{DeclaredClass, variables_of};

    ghost Value = { DeclaredClass };

    ghost view = { λ c. c.class.now };

    ghost invariant = { λ c. (c.own ≡ c.class.now.vars) × (c.methods.items ≡ map variables_of c.class.now.methods) };
}

/// The type variables of each method.
fn methods_in<'a>(
    alloc: Global,
    methods: &'a [SourceMethod],
) -> Result<Vec<VariableNames<'a>>, AllocError>
    ensures { IfOk result (λ all. all.items ≡ map variables_of methods.now) }
{
    let mut all = Vec::new(alloc);
    for i in 0..methods.len() {
        all.push(VariableNames::new(alloc, methods[i].vars.as_slice())?)?;
    }
    Ok(all)
}

impl<'a> ClassVariables<'a> {
    /// The tables of a class.
    pub fn new(alloc: Global, class: &'a SourceClass) -> Result<ClassVariables<'a>, AllocError>
        ensures { IfOk result (λ made. made ≡ class.now) }
    {
        Ok(ClassVariables {
            class,
            own: VariableNames::new(alloc, class.vars.as_slice())?,
            methods: methods_in(alloc, class.methods.as_slice())?,
        })
    }

    /// The variables that the class declares.
    pub fn own(&self) -> &VariableNames<'a>
        ensures { result.now ≡ self.now.vars }
    {
        &self.own
    }

    /// The variables that the method of this number declares.
    pub fn method(&self, method: usize) -> Option<&VariableNames<'a>>
        ensures { option_copied result ≡ option_map variables_of (slice_get self.now.methods method) }
    {
        self.methods.get(method)
    }
}
