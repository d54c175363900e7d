ghost use Rattle.std.specs.Prelude.{◌≡◌, ◌≢◌, ◌<◌, ◌≤◌, ◌^◌, [], length, Some, None, IfOk, OnOk, IfErr};
ghost use Rattle.terms.specs.View.{expr};
ghost use Rattle.terms.specs.Typing.{is_below, type_of};
ghost use Rattle.terms.specs.Weights.{weight_of};
ghost use Rattle.terms.specs.Place.{is_inhabitant};
ghost use Rattle.terms.specs.Rating.{is_wanted};
ghost use Rattle.terms.specs.Faults.{or_then, limit_fault, depth_fault, steps_fault, pairs_fault, order_fault, decls_fault, goal_fault, first_env_fault, IsValid, HasLengths};
ghost use Rattle.terms.specs.Table.{IsTable};
ghost use Rattle.terms.specs.Closed.{AreClosed};
ghost use Rattle.terms.specs.declared.fault.EnvFault.TheVariants.{OutOfMemory};

use crate::above;
use crate::context::{Ctx, MOST_ROWS};
use crate::declarations::decls_fault;
use crate::depth::is_shallow;
use crate::fault::EnvFault;
use crate::marks::closed_types;
use crate::parts::{GREATEST_DEPTH, Parts};
use crate::rating::{Rating, told};
use crate::rows::Rows;
use crate::term::Term;
use lists::{Copies, Items};
use std::alloc::{AllocError, Global};
use std::marker::Model;

/// A valid environment. Contracts see its parts. It keeps a table of what each type is below, so that
/// one question about a pair takes logarithmic time.
#[derive(Drop)]
pub struct Env {
    parts: Parts,
    /// For each type the types that it is strictly below, in rising order.
    above: Items<Items<u32>>,
}

impl Model for Env {
    ghost use Rattle.terms.specs.declared.parts.Parts.{Parts};
    ghost use Rattle.terms.specs.Faults.{IsValid, HasLengths};
    ghost use Rattle.terms.specs.Table.{IsTable};

    ghost Value = { Parts };

    ghost view = { λ e. e.parts };

    ghost invariant = { λ e. IsValid e.parts × HasLengths e.parts × IsTable e.parts.pairs e.above };
}

impl Env {
    /// The environment of these parts, or the first thing that is wrong with them. Time is about linear in the
    /// parts where few types stand directly above one, but for the logarithms of a table's rows.
    pub fn checked(alloc: Global, parts: Parts) -> Result<Env, EnvFault>
        requires lengths { HasLengths parts }
        ensures very_parts { IfOk result (λ env. env ≡ parts) }
        ensures valid { OnOk result (IsValid parts) }
        ensures first_fault { IfErr result (λ fault. fault ≢ OutOfMemory → first_env_fault parts ≡ Some fault) }
    {
        match bounds_fault(&parts) {
            Some(fault) => Err(fault),
            None => Env::with_bounds(alloc, parts),
        }
    }

    /// The environment of parts that are known to be valid. It makes the table alone and looks for no fault.
    pub fn of_valid(alloc: Global, parts: Parts) -> Result<Env, AllocError>
        requires valid { IsValid parts }
        requires lengths { HasLengths parts }
        ensures very_parts { IfOk result (λ env. env ≡ parts) }
    {
        match above::table_of(alloc, parts.types.as_slice().len(), parts.pairs.as_slice()) {
            Ok(above) => Ok(Env { parts, above }),
            Err(_) => Err(AllocError),
        }
    }

    /// The environment of parts whose limit, depth and steps are right.
    fn with_bounds(alloc: Global, parts: Parts) -> Result<Env, EnvFault>
        requires lengths { HasLengths parts }
        requires bounds { or_then (limit_fault parts) (or_then (depth_fault parts) (steps_fault parts)) ≡ None }
        ensures very_parts { IfOk result (λ env. env ≡ parts) }
        ensures valid { OnOk result (IsValid parts) }
        ensures first_fault { IfErr result (λ fault. fault ≢ OutOfMemory → first_env_fault parts ≡ Some fault) }
    {
        match above::table_of(alloc, parts.types.as_slice().len(), parts.pairs.as_slice()) {
            Ok(above) => {
                let closed = closed_types(alloc, &Rows::of(above.as_slice()))?;
                Env::with_table(parts, above, closed.as_slice())
            }
            Err(fault) => Err(fault),
        }
    }

    /// The environment of parts of which only transitivity, declarations and goal are left to look at.
    fn with_table(parts: Parts, above: Items<Items<u32>>, closed: &[bool]) -> Result<Env, EnvFault>
        requires lengths { HasLengths parts }
        requires bounds { or_then (limit_fault parts) (or_then (depth_fault parts) (steps_fault parts)) ≡ None }
        requires sound { pairs_fault (length parts.types) 0 [] parts.pairs ≡ None }
        requires table { IsTable parts.pairs above }
        requires len { length above ≡ length parts.types }
        requires closed { AreClosed above closed.now }
        ensures very_parts { IfOk result (λ env. env ≡ parts) }
        ensures valid { OnOk result (IsValid parts) }
        ensures first_fault { IfErr result (λ fault. first_env_fault parts ≡ Some fault) }
    {
        match later_fault(&parts, above.as_slice(), closed) {
            Some(fault) => Err(fault),
            None => Ok(Env { parts, above }),
        }
    }

    /// An equal environment in memory of its own.
    pub fn copy(&self, alloc: Global) -> Result<Env, AllocError>
        ensures equal { IfOk result (λ copy. copy ≡ self.now) }
    {
        Ok(Env {
            parts: self.parts.copy(alloc)?,
            above: above::copy_rows(alloc, &self.above)?,
        })
    }

    /// The parts, as they were given.
    pub fn parts(&self) -> &Parts
        ensures value { result.now ≡ self.now }
        ensures valid { IsValid result.now }
        ensures lengths { HasLengths result.now }
    {
        &self.parts
    }

    /// Whether a value of the one type may stand where the other is wanted. Takes logarithmic time.
    #[tactic(auto, unfolding(crate::specs::Typing::is_below))]
    pub fn is_below(&self, lower: u32, upper: u32) -> bool
        ensures value { result ≡ is_below self.now lower upper }
    {
        if lower == upper {
            return true;
        }
        above::is_pair(self.above.as_slice(), lower, upper)
    }

    /// The type of a term in a context. It is none also where rows and nested lambdas are more than 3
    /// together. Takes no memory.
    pub fn type_of(&self, ctx: &Ctx<'_>, term: &Term) -> Option<u32>
        ensures value { result ≡ type_of self.now ctx.now (expr term.now) }
    {
        if ctx.used > MOST_ROWS {
            return None;
        }
        match self.rate(ctx, term) {
            Some(rating) => Some(rating.result),
            None => None,
        }
    }

    /// The weight of a term in a context, without the coercion to the goal. It is none where there is no
    /// type or the sum passes 4,294,967,295. Takes no memory.
    pub fn weight(&self, ctx: &Ctx<'_>, term: &Term) -> Option<u32>
        ensures value { result ≡ weight_of self.now ctx.now (expr term.now) }
    {
        if ctx.used > MOST_ROWS {
            return None;
        }
        match self.rate(ctx, term) {
            Some(rating) => told(rating.weight),
            None => None,
        }
    }

    /// Whether the term is one of the list: it fits the goal within the depth and the limit. Takes no memory.
    pub fn is_inhabitant(&self, term: &Term) -> bool
        ensures value { result ≡ is_inhabitant self.now (expr term.now) }
    {
        let parts = self.parts();
        match self.rate(&Ctx::empty(), term) {
            Some(rating) => self.is_wanted(parts, rating, term),
            None => false,
        }
    }

    /// Whether a closed term with this rating is an inhabitant.
    #[tactic(auto, unfolding(crate::specs::Rating::is_wanted))]
    fn is_wanted(&self, parts: &Parts, rating: Rating, term: &Term) -> bool
        requires same { parts.now ≡ self.now }
        requires small { rating.weight ≤ 4294967296 }
        ensures { result ≡ is_wanted self.now rating (expr term.now) }
    {
        if !self.is_below(rating.result, parts.goal) {
            return false;
        }
        if !is_shallow(term, parts.depth) {
            return false;
        }
        rating.weight + self.step(rating.result, parts.goal) as u64 <= parts.limit as u64
    }
}

impl Copies for Env {
    fn copy(&self, alloc: Global) -> Result<Env, AllocError> {
        Env::copy(self, alloc)
    }
}

/// What is wrong with the limit, the depth or the steps.
fn bounds_fault(parts: &Parts) -> Option<EnvFault>
    ensures { result ≡ or_then (limit_fault parts.now) (or_then (depth_fault parts.now) (steps_fault parts.now)) }
{
    if parts.limit == 0 || parts.limit > 10_000 {
        return Some(EnvFault::Limit(parts.limit));
    }
    if parts.depth > GREATEST_DEPTH {
        return Some(EnvFault::Depth(parts.depth));
    }
    steps_fault(parts)
}

/// The first of the steps that is out of its range.
fn steps_fault(parts: &Parts) -> Option<EnvFault>
    ensures { result ≡ steps_fault parts.now }
{
    let steps = parts.steps;
    if steps.bound == 0 || steps.bound > 100 {
        return Some(EnvFault::Step(1));
    }
    if steps.binder == 0 || steps.binder > 100 {
        return Some(EnvFault::Step(2));
    }
    if steps.step == 0 || steps.step > 10_000 {
        return Some(EnvFault::Step(3));
    }
    None
}

/// What is wrong besides the limit, the depth, the steps and the single pairs.
fn later_fault(parts: &Parts, rows: &[Items<u32>], closed: &[bool]) -> Option<EnvFault>
    requires lengths { HasLengths parts.now }
    requires table { IsTable parts.now.pairs rows.now }
    requires len { length rows.now ≡ length parts.now.types }
    requires closed { AreClosed rows.now closed.now }
    requires sound { pairs_fault (length parts.now.types) 0 [] parts.now.pairs ≡ None }
    ensures { result ≡ or_then (order_fault (length parts.now.types) parts.now.pairs) (or_then (decls_fault (length parts.now.types) 0 parts.now.decls) (goal_fault parts.now)) }
{
    let fault = above::first_gap(&Rows::of(rows), closed);
    if fault.is_some() {
        return fault;
    }
    let fault = decls_fault(parts.decls.as_slice(), parts.types.as_slice().len());
    if fault.is_some() {
        return fault;
    }
    goal_fault(parts)
}

/// What is wrong with the goal.
fn goal_fault(parts: &Parts) -> Option<EnvFault>
    requires few { length parts.now.decls < 2 ^ 31 }
    ensures { result ≡ goal_fault parts.now }
{
    if parts.goal as usize >= parts.types.as_slice().len() {
        return Some(EnvFault::TypeRange(parts.decls.len() as u32));
    }
    None
}
