ghost use Rattle.std.specs.Prelude.{◌≡◌, ◌||◌, ◌++◌, ◌<◌, ℕ, Bool, List, not, bytes_eq, slice_index_or, IfOk, OnOk, length};
ghost use Rattle.std.specs.BTreeSet.{contains_text};
ghost use Rattle.java_bodies.specs.Scopes.{last_marks, local_of, hidden_of, locals_of, hiddens_of, names_of};

use crate::site::Local;
use crate::variables::Variable;
use lists::{Copies, Items, Text};
use std::alloc::{AllocError, Global};
use std::collections::BTreeSet;

/// Adds a name to those met; whether it is new.
fn meet(alloc: Global, met: &mut BTreeSet<String>, name: &str) -> Result<bool, AllocError>
    ensures fresh { IfOk result (λ fresh. fresh ≡ not (contains_text met.old name.now)) }
    ensures met { OnOk result ((other : List ℕ) → contains_text met.new other ≡ (bytes_eq name.now other || contains_text met.old other)) }
{
    if met.contains(name) {
        return Ok(false);
    }
    met.insert(String::from_str(alloc, name)?)?;
    Ok(true)
}

/// For each variable, whether no later one has its name.
fn last_marks(alloc: Global, variables: &[Variable]) -> Result<Vec<bool>, AllocError>
    ensures { IfOk result (λ marks. marks.items ≡ last_marks variables.now) }
{
    let mut marks = Vec::new(alloc);
    let mut met = BTreeSet::new(alloc);
    let mut left = variables.len();
    while left > 0 {
        left -= 1;
        let variable = &variables[left];
        let fresh = meet(alloc, &mut met, variable.name.as_str())?;
        marks.push(fresh)?;
    }
    marks.reverse();
    Ok(marks)
}

/// Whether the mark at a place is set.
fn is_set(marks: &[bool], k: usize) -> bool
    requires { k < length marks.now }
    ensures { (d : Bool) → result ≡ slice_index_or marks.now k d }
{
    marks[k]
}

/// Adds a variable that can be used.
fn add_local(alloc: Global, variable: &Variable, all: &mut Items<Local>) -> Result<(), AllocError>
    ensures { OnOk result (all.new ≡ all.old ++ local_of variable.now) }
{
    let Some(kind) = &variable.kind else {
        return Ok(());
    };
    all.push(Local {
        name: variable.name.copy(alloc)?,
        kind: kind.copy(alloc)?,
    })
}

/// Adds the name of a variable that can't be used.
fn add_hidden(alloc: Global, variable: &Variable, all: &mut Items<Text>) -> Result<(), AllocError>
    ensures { OnOk result (all.new ≡ all.old ++ hidden_of variable.now) }
{
    if variable.kind.is_some() {
        return Ok(());
    }
    all.push(variable.name.copy(alloc)?)
}

/// The variables that can be used; the marks say which count.
fn usable_ones(
    alloc: Global,
    variables: &[Variable],
    marks: &[bool],
) -> Result<Items<Local>, AllocError>
    requires { marks.now ≡ last_marks variables.now }
    ensures { IfOk result (λ all. all ≡ locals_of variables.now) }
{
    let mut all = Items::new(alloc);
    for k in 0..variables.len() {
        let variable = &variables[k];
        if !is_set(marks, k) {
            continue;
        }
        add_local(alloc, variable, &mut all)?;
    }
    Ok(all)
}

/// The names in scope that can't be used.
fn hidden_ones(
    alloc: Global,
    variables: &[Variable],
    marks: &[bool],
) -> Result<Items<Text>, AllocError>
    requires { marks.now ≡ last_marks variables.now }
    ensures { IfOk result (λ all. all ≡ hiddens_of variables.now) }
{
    let mut all = Items::new(alloc);
    for k in 0..variables.len() {
        let variable = &variables[k];
        if !is_set(marks, k) {
            continue;
        }
        add_hidden(alloc, variable, &mut all)?;
    }
    Ok(all)
}

/// What variables give a hole: of several of one name the last one counts.
#[derive(Debug, Drop)]
pub struct Names {
    pub locals: Items<Local>,
    pub hidden: Items<Text>,
}

/// The variables that can be used, and the names that can't.
pub fn names_of(alloc: Global, variables: &[Variable]) -> Result<Names, AllocError>
    ensures { IfOk result (λ names. names ≡ names_of variables.now) }
{
    let marks = last_marks(alloc, variables)?;
    let locals = usable_ones(alloc, variables, marks.as_slice())?;
    let hidden = hidden_ones(alloc, variables, marks.as_slice())?;
    Ok(Names { locals, hidden })
}
