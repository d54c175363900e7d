ghost use Rattle.std.specs.Prelude.{◌≡◌, ◌<◌, ◌++◌, ◌∷◌, [], bytes_eq, length, map, slice_get, IfSome};
ghost use Rattle.terms.specs.View.{expr};
ghost use Rattle.terms.specs.Weights.{binders_weight};
ghost use Rattle.plain_listing.specs.Generate.{bound, candidates};
ghost use Rattle.plain_listing.specs.Tables.{listed, for_type, at, same_rows, number_of};
ghost use Rattle.plain_listing.specs.Reads.{here, deeper};

use lists::Items;
use terms::{Arg, Env, Term};

/// What a step of the generator reads: the environment, the tables so far, and the context of the terms
/// that it makes.
#[derive(Clone, Copy)]
pub struct PlainPlace<'a> {
    pub env: &'a Env,
    /// How deep lambdas may nest.
    pub depth: u32,
    /// For each weight, for each context, for each type the terms. Context 0 has no lambda.
    pub rows: &'a [Items<Items<Items<Term>>>],
    /// The number of the context.
    pub number: usize,
    /// The context: for each lambda around the terms its parameters.
    pub context: &'a [Items<u32>],
    /// The types of the variables: those of the context, one row after the other.
    pub variables: &'a [u32],
    /// All contexts.
    pub contexts: &'a [Items<Items<u32>>],
}

/// The terms for a type, in the lists by type.
fn for_type(column: &Items<Items<Term>>, wanted: u32) -> &[Term]
    ensures { map expr result.now ≡ listed (slice_get column.now wanted) }
{
    match column.get(wanted as usize) {
        Some(terms) => terms.as_slice(),
        None => &[],
    }
}

/// The terms for a type in a context, in the lists by context.
pub fn in_context(row: &Items<Items<Items<Term>>>, number: usize, wanted: u32) -> &[Term]
    ensures { map expr result.now ≡ for_type (slice_get row.now number) wanted }
{
    match row.get(number) {
        Some(column) => for_type(column, wanted),
        None => &[],
    }
}

/// The terms of a weight, for a type in a context.
fn terms_at(
    rows: &[Items<Items<Items<Term>>>],
    number: usize,
    weight: usize,
    wanted: u32,
) -> &[Term]
    ensures { map expr result.now ≡ at rows.now number weight wanted }
{
    match rows.get(weight) {
        Some(row) => in_context(row, number, wanted),
        None => &[],
    }
}

/// Whether two lists of types are the same.
fn is_same(row: &Items<u32>, params: &[u32]) -> bool
    ensures { result ≡ bytes_eq row.now params.now }
{
    row.as_slice() == params
}

/// Whether a context is the outer one with these parameters as one row more.
fn extends(context: &[Items<u32>], outer: &[Items<u32>], params: &[u32]) -> bool
    ensures { result ≡ same_rows context.now (outer.now ++ params.now ∷ []) }
{
    let count = outer.len();
    if context.len() != count + 1 {
        return false;
    }
    for i in 0..count {
        if !is_same(&context[i], outer[i].as_slice()) {
            return false;
        }
    }
    is_same(&context[count], params)
}

/// The number of the outer context with these parameters as one row more.
pub fn number_of(
    contexts: &[Items<Items<u32>>],
    outer: &[Items<u32>],
    params: &[u32],
) -> Option<usize>
    ensures value { result ≡ number_of contexts.now (outer.now ++ params.now ∷ []) }
    ensures within { IfSome result (λ n. n < length contexts.now) }
{
    for n in 0..contexts.len() {
        if extends(contexts[n].as_slice(), outer, params) {
            return Some(n);
        }
    }
    None
}

impl PlainPlace<'_> {
    /// The bodies of a lambda with these parameters that weighs `weight` with its binders.
    fn bodies(&self, params: &[u32], body: u32, weight: usize) -> &[Term]
        ensures { map expr result.now ≡ bound (λ j. deeper self.now params.now j body) (binders_weight self.now.env.now (length params.now)) weight }
    {
        let binders = self.env.binders_weight(params.len());
        if (weight as u128) < binders {
            return &[];
        }
        if self.context.len() >= self.depth as usize {
            return &[];
        }
        match number_of(self.contexts, self.context, params) {
            Some(n) => terms_at(self.rows, n, weight - binders as usize, body),
            None => &[],
        }
    }

    /// The terms that may stand as this argument and weigh `weight` there.
    pub fn candidates(&self, arg: &Arg, weight: usize) -> &[Term]
        ensures { map expr result.now ≡ candidates self.now.env.now (here self.now) (deeper self.now) arg.now weight }
    {
        match arg {
            Arg::Plain(wanted) => terms_at(self.rows, self.number, weight, *wanted),
            Arg::Fun(params, body) => self.bodies(params.as_slice(), *body, weight),
        }
    }
}
