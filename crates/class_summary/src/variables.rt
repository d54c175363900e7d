ghost use Rattle.std.specs.Prelude.{◌≡◌, ◌++◌, suc, length, drop, map, Some, None, IfOk, IfSome, IfNone, MatchOption};
ghost use Rattle.std.specs.Option.{option_copied, option_map};
ghost use Rattle.class_summary.specs.Variables.{Scope, bound_of, variable_in, variable_of, variables, class_scope, method_scope, scopes_at};
ghost use Rattle.class_summary.specs.VariableTables.{bound_at};
ghost use Rattle.class_summary.specs.VariableEnds.{StandsAt};

use crate::paths::around;
use crate::variable_names::{ClassVariables, Named, VariableNames};
use java_units::{SourceClass, TypeText, TypeVar};
use lists::Text;
use std::alloc::{AllocError, Global};
use std::marker::Model;

/// The type variables that a class or a method declares, with the number of that class.
#[derive(Drop)]
pub struct Declared<'s, 'a> {
    class: usize,
    names: Option<&'s VariableNames<'a>>,
}

impl<'s, 'a> Model for Declared<'s, 'a> {
    ghost use Rattle.std.specs.Prelude.{[], unwrap_or};
    ghost use Rattle.std.specs.Option.{option_copied};
    ghost use Rattle.class_summary.specs.Variables.{Scope};

    ghost Value = { Scope };

    ghost view = { λ d. record { class = d.class; vars = unwrap_or (option_copied d.names) [] } };
}

impl<'s, 'a> Declared<'s, 'a> {
    /// The number of the class.
    pub fn class(&self) -> usize
        ensures { result ≡ self.now.class }
    {
        self.class
    }

    /// How many variables it declares.
    pub fn count(&self) -> usize
        ensures { result ≡ length self.now.vars }
    {
        match self.names {
            Some(names) => names.count(),
            None => 0,
        }
    }

    /// The first variable with this name.
    #[tactic(auto, unfolding(crate::specs::Variables::bound_of))]
    fn named(&self, name: &Text) -> Option<Named<'a>>
        ensures none { IfNone result (bound_of name.now self.now.vars ≡ None) }
        ensures some { IfSome result (λ v. (bound_of name.now self.now.vars ≡ Some (option_copied v.bound)) × (bound_at self.now.vars (Some v.place) ≡ Some (option_copied v.bound))) }
    {
        match self.names {
            Some(names) => names.named(name),
            None => None,
        }
    }

    /// The place of the first variable with this name.
    pub fn place(&self, name: &Text) -> Option<usize> {
        match self.names {
            Some(names) => names.place(name),
            None => None,
        }
    }

    /// The variable at a place.
    pub fn at(&self, place: usize) -> Option<&'a TypeVar>
        ensures { option_map (λ v. v.now.bound) result ≡ bound_at self.now.vars (Some place) }
    {
        match self.names {
            Some(names) => names.at(place),
            None => None,
        }
    }
}

/// A variable that was found: the place of its scope and its own place there, the class at which it is declared, and
/// its bound.
#[derive(Drop)]
pub struct Met<'a> {
    pub level: usize,
    pub place: usize,
    pub class: usize,
    pub bound: Option<&'a TypeText>,
}

/// The variable with this name in the first scope that declares one.
fn variable_in<'a>(scopes: &[Declared<'_, 'a>], name: &Text) -> Option<Met<'a>>
    ensures none { IfNone result (variable_in name.now scopes.now ≡ None) }
    ensures found { IfSome result (λ m. variable_in name.now scopes.now ≡ Some (record { bound = option_copied m.bound; class = m.class; scopes = drop m.level scopes.now })) }
    ensures stands { IfSome result (λ m. StandsAt scopes.now m.level m.place m.class (option_copied m.bound)) }
{
    for i in 0..scopes.len() {
        let scope = &scopes[i];
        let Some(var) = scope.named(name) else {
            continue;
        };
        return Some(Met {
            level: i,
            place: var.place,
            class: scope.class(),
            bound: var.bound,
        });
    }
    None
}

/// The variable that a type is, where it is a single name.
#[tactic(auto, unfolding(crate::specs::Variables::variable_of))]
pub fn variable_of<'a>(scopes: &[Declared<'_, 'a>], parts: &[Text]) -> Option<Met<'a>>
    ensures none { IfNone result (variable_of parts.now scopes.now ≡ None) }
    ensures found { IfSome result (λ m. variable_of parts.now scopes.now ≡ Some (record { bound = option_copied m.bound; class = m.class; scopes = drop m.level scopes.now })) }
    ensures stands { IfSome result (λ m. StandsAt scopes.now m.level m.place m.class (option_copied m.bound)) }
{
    match parts {
        [name] => variable_in(scopes, name),
        _ => None,
    }
}

/// How many variables the scopes declare, and one more; None where that can't be counted.
pub fn most_steps(scopes: &[Declared<'_, '_>]) -> Option<usize>
    ensures { IfSome result (λ n. n ≡ suc (variables scopes.now)) }
{
    let mut count = 1usize;
    for i in 0..scopes.len() {
        count = count.checked_add(scopes[i].count())?;
    }
    Some(count)
}

/// The variables that the class number i declares.
fn class_scope<'s, 'a>(classes: &'s [ClassVariables<'a>], class: usize) -> Declared<'s, 'a>
    ensures { result ≡ class_scope classes.now class }
{
    let names = match classes.get(class) {
        Some(declared) => Some(declared.own()),
        None => None,
    };
    Declared { class, names }
}

/// The variables that a method of the class number i declares.
fn method_scope<'s, 'a>(
    classes: &'s [ClassVariables<'a>],
    class: usize,
    method: usize,
) -> Declared<'s, 'a>
    ensures { result ≡ method_scope classes.now class method }
{
    let names = match classes.get(class) {
        Some(declared) => declared.method(method),
        None => None,
    };
    Declared { class, names }
}

/// These scopes, and then those of these classes.
fn with_classes<'s, 'a>(
    mut scopes: Vec<Declared<'s, 'a>>,
    classes: &'s [ClassVariables<'a>],
    numbers: &[usize],
) -> Result<Vec<Declared<'s, 'a>>, AllocError>
    ensures { IfOk result (λ all. all.items ≡ scopes.entry.items ++ map (class_scope classes.now) numbers.now) }
{
    for i in 0..numbers.len() {
        scopes.push(class_scope(classes, numbers[i]))?;
    }
    Ok(scopes)
}

/// The scopes at a class, or at a method of it, from the innermost outwards; the classes by their variables.
pub fn scopes_at<'s, 'a>(
    alloc: Global,
    classes: &[SourceClass],
    variables: &'s [ClassVariables<'a>],
    class: usize,
    method: Option<usize>,
) -> Result<Vec<Declared<'s, 'a>>, AllocError>
    requires { variables.now ≡ classes.now }
    ensures { IfOk result (λ scopes. scopes.items ≡ scopes_at classes.now class method) }
{
    let numbers = around(alloc, classes, class)?;
    let mut first = Vec::new(alloc);
    let Some(method) = method else {
        return with_classes(first, variables, numbers.as_slice());
    };
    first.push(method_scope(variables, class, method))?;
    with_classes(first, variables, numbers.as_slice())
}
