ghost use Rattle.std.specs.Prelude.{◌≡◌, ◌++◌, ◌<◌, map, IfOk, OnOk, length};
ghost use Rattle.java_bodies.specs.Variables.{of_param};
ghost use Rattle.java_bodies.specs.Openers.{gathered};
ghost use Rattle.java_bodies.specs.Statements.{own_statement};
ghost use Rattle.java_bodies.specs.Scopes.{header_before, entered, stated, added_at, own_variable, variables_of};

use crate::body::Body;
use crate::headers::{begins_at, header_variables};
use crate::statements::{is_declaration, named, own_statement, statement};
use crate::variables::{Variable, declared, of_param};
use java_units::Param;
use java_units::forms::{begins, first_text, prefix, tail};
use lists::{Items, Text};
use std::alloc::{AllocError, Global};

/// What the header right before a place declares.
#[tactic(auto, unfolding(crate::specs::Scopes::header_before))]
fn header_before(
    alloc: Global,
    body: &Body<'_, '_>,
    k: usize,
) -> Result<Items<Variable>, AllocError>
    requires { k < length body.now.before }
    ensures { IfOk result (λ all. all ≡ header_before body.now.before k) }
{
    if k == 0 {
        return Ok(Items::new(alloc));
    }
    let before = body.before();
    if !begins(")", tail(before, k - 1)) {
        return Ok(Items::new(alloc));
    }
    match body.opener(k - 1) {
        Some(opening) => {
            let header = prefix(
                tail(tail(before, opening), 1),
                (k - 1).saturating_sub(opening),
            );
            header_variables(alloc, before, opening, header)
        }
        None => Ok(Items::new(alloc)),
    }
}

/// What the header of a block declares, from behind its brace.
#[tactic(auto, unfolding(crate::specs::Scopes::entered))]
fn entered(alloc: Global, body: &Body<'_, '_>, k: usize) -> Result<Items<Variable>, AllocError>
    requires { k < length body.now.before }
    ensures { IfOk result (λ all. all ≡ entered body.now.before k) }
{
    if k == 0 {
        return Ok(Items::new(alloc));
    }
    if !begins("{", tail(body.before(), k - 1)) {
        return Ok(Items::new(alloc));
    }
    header_before(alloc, body, k - 1)
}

/// What the statement at a place declares, where one begins there.
#[tactic(auto, unfolding(crate::specs::Scopes::stated))]
fn stated(alloc: Global, body: &Body<'_, '_>, k: usize) -> Result<Items<Variable>, AllocError>
    ensures { IfOk result (λ all. all ≡ stated body.now k) }
{
    if !begins_at(body, k) {
        return Ok(Items::new(alloc));
    }
    declared(alloc, statement(tail(body.before(), k)))
}

/// Adds what a place adds to the scope of the hole.
#[tactic(auto, unfolding(crate::specs::Scopes::added_at))]
fn add_at(
    alloc: Global,
    body: &Body<'_, '_>,
    k: usize,
    all: &mut Items<Variable>,
) -> Result<(), AllocError>
    requires { k < length body.now.before }
    ensures { OnOk result (all.new ≡ all.old ++ added_at body.now k) }
{
    if !body.keeps_blocks(k) {
        return Ok(());
    }
    let mut more = entered(alloc, body, k)?;
    more.append(stated(alloc, body, k)?)?;
    all.append(more)
}

/// The variables of the parameters.
fn of_params(alloc: Global, params: &[Param]) -> Result<Items<Variable>, AllocError>
    ensures { IfOk result (λ all. all ≡ map of_param params.now) }
{
    let mut all = Items::new(alloc);
    for param in params {
        all.push(of_param(alloc, param)?)?;
    }
    Ok(all)
}

/// Adds the variables of the body.
fn add_body(alloc: Global, body: &Body<'_, '_>, all: &mut Items<Variable>) -> Result<(), AllocError>
    ensures { OnOk result (all.new ≡ all.old ++ gathered (added_at body.now) (length body.now.before)) }
{
    for k in 0..body.before().len() {
        add_at(alloc, body, k, all)?;
    }
    Ok(())
}

/// The variable that the hole's own statement declares.
#[tactic(auto, unfolding(crate::specs::Scopes::own_variable))]
fn own_variable(alloc: Global, body: &Body<'_, '_>) -> Result<Items<Variable>, AllocError>
    ensures { IfOk result (λ all. all ≡ own_variable (own_statement body.now.before)) }
{
    let own = own_statement(body.before());
    let mut all = Items::new(alloc);
    if !is_declaration(own) {
        return Ok(all);
    }
    let name = Text::from_str(alloc, first_text(named(own)))?;
    all.push(Variable { name, kind: None })?;
    Ok(all)
}

/// All variables in scope, in the order of their places.
#[tactic(auto, unfolding(crate::specs::Scopes::variables_of))]
pub fn variables_of(
    alloc: Global,
    params: &[Param],
    body: &Body<'_, '_>,
) -> Result<Items<Variable>, AllocError>
    ensures { IfOk result (λ all. all ≡ variables_of params.now body.now) }
{
    let mut all = of_params(alloc, params)?;
    add_body(alloc, body, &mut all)?;
    all.append(own_variable(alloc, body)?)?;
    Ok(all)
}
