ghost use Rattle.std.specs.Prelude.{◌≡◌, ◌+◌, ◌≤◌, ◌<◌, ◌^◌, map, IfOk, OnOk, OnErr};
ghost use Rattle.terms.specs.Expr.{Expr};
ghost use Rattle.terms.specs.View.{expr};
ghost use Rattle.terms.specs.Count.{expr_eq, once_if, count};
ghost use Rattle.terms.specs.Listing.{Progress, level_of};

use crate::contexts::contexts_of;
use crate::plain_place::in_context;
use crate::rows::row;
use lists::Items;
use std::alloc::{AllocError, Global};
use std::marker::Model;
use terms::{Env, Term};

/// The tables of an environment, weight by weight from 0. A contract sees how many weights they have.
#[derive(Drop)]
pub struct Tables {
    env: Env,
    /// The contexts in which terms are made; the first has no lambda.
    contexts: Items<Items<Items<u32>>>,
    /// For each weight, for each context, for each type the terms.
    rows: Vec<Items<Items<Items<Term>>>>,
}

impl Model for Tables {
    ghost use Rattle.std.specs.Prelude.{length};
    ghost use Rattle.terms.specs.Faults.{IsValid};
    ghost use Rattle.terms.specs.Listing.{Progress};
    ghost use Rattle.plain_listing.specs.Contexts.{AreContexts};
    ghost use Rattle.plain_listing.specs.Tables.{AreRight};

    ghost Value = { Progress };

    ghost view = { λ t. record { parts = t.env; from = length t.rows.items } };

    ghost invariant = { λ t. IsValid t.env × AreContexts t.env t.env.depth t.contexts × AreRight t.env t.env.depth t.contexts t.rows.items (length t.rows.items) };
}

/// Copies of the terms.
fn copies(alloc: Global, terms: &[Term]) -> Result<Items<Term>, AllocError>
    ensures { IfOk result (λ copies. copies ≡ terms.now) }
{
    let mut copies = Items::new(alloc);
    for term in terms {
        copies.push(term.copy(alloc)?)?;
    }
    Ok(copies)
}

impl Tables {
    /// Tables without any weight.
    pub fn new(alloc: Global, env: Env) -> Result<Tables, AllocError>
        ensures { IfOk result (λ tables. tables ≡ record { parts = env; from = 0 }) }
    {
        let contexts = contexts_of(alloc, &env, env.parts().depth)?;
        Ok(Tables {
            env,
            contexts,
            rows: Vec::new(alloc),
        })
    }

    /// The environment that is listed.
    pub fn env(&self) -> &Env
        ensures { result.now ≡ self.now.parts }
    {
        &self.env
    }

    /// The next weight.
    pub fn weight(&self) -> usize
        ensures { result ≡ self.now.from }
    {
        self.rows.as_slice().len()
    }

    /// The greatest weight of a term.
    pub fn limit(&self) -> u32
        ensures limit { result ≡ self.now.parts.limit }
        ensures small { result ≤ 10000 }
    {
        self.env.parts().limit
    }

    /// All inhabitants of the next weight, each once. After want of memory the tables are as before.
    pub fn next(&mut self, alloc: Global) -> Result<Items<Term>, AllocError>
        requires { self.old.from ≤ self.old.parts.limit }
        ensures all { IfOk result (λ terms. (e : Expr) →
            count (expr_eq e) (map expr terms) ≡ once_if (level_of self.old.parts self.old.from e)) }
        ensures ok { OnOk result (self.new ≡ record self.old { from = self.old.from + 1 }) }
        ensures err { OnErr result (self.new ≡ self.old) }
    {
        let rows = self.rows.as_slice();
        let depth = self.env.parts().depth;
        let row = row(alloc, &self.env, depth, self.contexts.as_slice(), rows)?;
        let terms = copies(alloc, in_context(&row, 0, self.env.parts().goal))?;
        self.rows.push(row)?;
        Ok(terms)
    }
}
