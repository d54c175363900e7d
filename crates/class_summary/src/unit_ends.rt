ghost use Rattle.std.specs.Prelude.{◌≡◌, ℕ, true, List, slice_get, Option, Some, IfOk, IfSome};
ghost use Rattle.std.specs.Option.{option_copied, option_and_then};
ghost use Rattle.java_units.specs.UnitLaws.{IsNested};
ghost use Rattle.class_summary.specs.Variables.{scopes_at};
ghost use Rattle.class_summary.specs.VariableEnds.{Reach, AreEnds, AreClassEnds, AreMethodEnds};

use crate::ends::{Ends, ends_in};
use crate::variable_names::ClassVariables;
use crate::variables::scopes_at;
use java_units::SourceClass;
use std::alloc::{AllocError, Global};
use std::marker::Model;

/// Where the variables of each method of a class end.
#[derive(Drop)]
pub struct MethodEnds<'a> {
    each: Vec<Ends<'a>>,
}

impl<'a> Model for MethodEnds<'a> {
    ghost use Rattle.std.specs.Prelude.{List, Option};
    ghost use Rattle.class_summary.specs.VariableEnds.{Reach};

    ghost Value = { List (List (Option Reach)) };

    ghost view = { λ m. m.each.items };
}

/// Where the type variables of a unit end: those of each class, and those of its methods. Of classes that aren't
/// nested as those of a text are, nothing is told.
#[derive(Drop)]
pub struct UnitEnds<'a> {
    pub classes: Vec<Ends<'a>>,
    pub methods: Vec<MethodEnds<'a>>,
}

/// Whether each class stands after the class around it.
fn is_nested(classes: &[SourceClass]) -> bool
    ensures { result ≡ true → IsNested classes.now }
{
    for i in 0..classes.len() {
        if let Some(outer) = classes[i].outer {
            if outer as usize >= i {
                return false;
            }
        }
    }
    true
}

/// Where the variables of each class end.
fn class_ends<'a>(
    alloc: Global,
    classes: &[SourceClass],
    variables: &[ClassVariables<'a>],
) -> Result<Vec<Ends<'a>>, AllocError>
    requires nested { IsNested classes.now }
    requires variables { variables.now ≡ classes.now }
    ensures { IfOk result (λ all. AreClassEnds classes.now all.items) }
{
    let mut all = Vec::new(alloc);
    for i in 0..classes.len() {
        let scopes = scopes_at(alloc, classes, variables, i, None)?;
        let ends = ends_in(alloc, scopes.as_slice(), all.as_slice())?;
        all.push(ends)?;
    }
    Ok(all)
}

/// Where the variables of each method of the class number i end.
fn method_ends<'a>(
    alloc: Global,
    classes: &[SourceClass],
    variables: &[ClassVariables<'a>],
    tables: &[Ends<'a>],
    class: usize,
    count: usize,
) -> Result<MethodEnds<'a>, AllocError>
    requires nested { IsNested classes.now }
    requires variables { variables.now ≡ classes.now }
    requires tables { AreClassEnds classes.now tables.now }
    ensures { IfOk result (λ all. (m : ℕ) (ends : List (Option Reach)) → slice_get all m ≡ Some ends → AreEnds (scopes_at classes.now class (Some m)) ends) }
{
    let mut each = Vec::new(alloc);
    for m in 0..count {
        let scopes = scopes_at(alloc, classes, variables, class, Some(m))?;
        let ends = ends_in(alloc, scopes.as_slice(), tables)?;
        each.push(ends)?;
    }
    Ok(MethodEnds { each })
}

/// Where the variables of the methods of each class end.
fn all_method_ends<'a>(
    alloc: Global,
    classes: &[SourceClass],
    variables: &[ClassVariables<'a>],
    tables: &[Ends<'a>],
) -> Result<Vec<MethodEnds<'a>>, AllocError>
    requires nested { IsNested classes.now }
    requires variables { variables.now ≡ classes.now }
    requires tables { AreClassEnds classes.now tables.now }
    ensures { IfOk result (λ all. AreMethodEnds classes.now all.items) }
{
    let mut all = Vec::new(alloc);
    for i in 0..classes.len() {
        let count = classes[i].methods.len();
        let methods = method_ends(alloc, classes, variables, tables, i, count)?;
        all.push(methods)?;
    }
    Ok(all)
}

impl<'a> UnitEnds<'a> {
    /// The tables of the classes of a unit.
    pub fn new(
        alloc: Global,
        classes: &[SourceClass],
        variables: &[ClassVariables<'a>],
    ) -> Result<UnitEnds<'a>, AllocError>
        requires { variables.now ≡ classes.now }
        ensures classes { IfOk result (λ e. AreClassEnds classes.now e.classes.items) }
        ensures methods { IfOk result (λ e. AreMethodEnds classes.now e.methods.items) }
    {
        if !is_nested(classes) {
            return Ok(UnitEnds {
                classes: Vec::new(alloc),
                methods: Vec::new(alloc),
            });
        }
        let own = class_ends(alloc, classes, variables)?;
        let methods = all_method_ends(alloc, classes, variables, own.as_slice())?;
        Ok(UnitEnds {
            classes: own,
            methods,
        })
    }

    /// The table of the method of a class.
    pub fn of_method(&self, class: usize, method: usize) -> Option<&Ends<'a>>
        ensures { IfSome result (λ ends. (methods : List (List (Option Reach))) × (slice_get self.now.methods.items class ≡ Some methods) × (slice_get methods method ≡ Some ends.now)) }
    {
        self.methods.get(class)?.each.get(method)
    }
}
