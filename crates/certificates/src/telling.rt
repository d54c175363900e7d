// What floors rest on: at a state with a floor the states of the needs of each head that may stand there, in order,
// until what the head weighs and their floors reach the floor.

ghost use Rattle.std.specs.Prelude.{◌≡◌, ◌-◌, ◌<◌, ℕ, List, [], ◌∷◌, true, length, slice_get, slice_index_or, Some, OnOk};
ghost use Rattle.terms.specs.Reading.{binders};
ghost use Rattle.terms.specs.Weights.{binders_weight};
ghost use Rattle.succinct.specs.Numbering.{IsGrown};
ghost use Rattle.succinct.specs.Sets.{has};
ghost use Rattle.edges.specs.Edges.{decl_cost};
ghost use Rattle.certificates.specs.Floors.{state_at};
ghost use Rattle.certificates.specs.Tables.{AreTables, IsLater};
ghost use Rattle.certificates.specs.Told.{number_of, AreTold, IsHeadTold, IsTypeTold, IsPairTold, AreLowersTold, IsStateTold};

use crate::tables::Tables;
use crate::told::Told;
use number_places::list_at;
use std::alloc::AllocError;
use terms::{Arg, Decl, Env};

/// What is left of a number after a weight.
fn less(rest: u32, weight: u128) -> u32
    ensures { result ≡ rest - weight }
{
    u128::from(rest).saturating_sub(weight) as u32
}

/// What is left of a number after the binders of an argument.
fn after_binders(env: &Env, arg: &Arg, rest: u32) -> u32
    ensures value { result ≡ rest - binders_weight env.now (binders (arg.now ∷ [])) }
{
    match arg {
        Arg::Plain(_) => rest,
        Arg::Fun(params, _) => less(rest, env.binders_weight(params.as_slice().len())),
    }
}

/// What is left of a number after a head and the binders of its arguments.
fn after_head(env: &Env, decl: &Decl, most: u32) -> u32
    ensures value { result ≡ most - decl_cost env.now decl.now }
{
    let mut rest = most.saturating_sub(decl.weight);
    for arg in decl.args.as_slice() {
        rest = after_binders(env, arg, rest);
    }
    rest
}

impl Tables {
    /// The least weight of a state, the limit and 1 where no term is within the limit.
    pub(crate) fn number_of(&self, env: &Env, state: u32) -> u32
        requires in_range { state < length self.now.least }
        ensures value { result ≡ number_of env.now self.now.least state }
    {
        let limit = env.parts().limit;
        match self.least.least(state) {
            Some(weight) => weight,
            None => limit + 1,
        }
    }

    /// Tells the states of a head's needs, in order, until their floors reach what is left.
    fn tell_needs(
        &self,
        env: &Env,
        state: u32,
        head: u32,
        most: u32,
        told: &mut Told,
    ) -> Result<(), AllocError>
        requires tables { AreTables env.now self.now }
        requires as_many { told.old.count ≡ length self.now.patterns.states }
        ensures later { OnOk result (IsLater told.old told.new) }
        ensures told { OnOk result ((all : List ℕ) → IsGrown told.new.states all → AreTold env.now self.now.patterns self.now.least all state (slice_index_or self.now.compressed.wanted head []) most) }
    {
        let mut rest = most;
        for need in self.compressed.wanted(head) {
            if rest == 0 {
                return Ok(());
            }
            let Some(next) = self.patterns.need_state(state, *need) else {
                return Ok(());
            };
            told.add(next)?;
            rest = rest.saturating_sub(self.number_of(env, next));
        }
        Ok(())
    }

    /// Tells what a floor rests on at a declaration, by its number.
    fn tell_head(
        &self,
        env: &Env,
        state: u32,
        head: u32,
        most: u32,
        told: &mut Told,
    ) -> Result<(), AllocError>
        requires tables { AreTables env.now self.now }
        requires as_many { told.old.count ≡ length self.now.patterns.states }
        ensures later { OnOk result (IsLater told.old told.new) }
        ensures told { OnOk result ((all : List ℕ) → IsGrown told.new.states all → IsHeadTold env.now self.now.compressed self.now.patterns self.now.least all state most head) }
    {
        match env.parts().decls.get(head as usize) {
            Some(decl) => self.tell_needs(env, state, head, after_head(env, decl, most), told),
            None => Ok(()),
        }
    }

    /// Tells what a floor rests on at the declarations that give a type.
    fn tell_type(
        &self,
        env: &Env,
        state: u32,
        goal: u32,
        most: u32,
        told: &mut Told,
    ) -> Result<(), AllocError>
        requires tables { AreTables env.now self.now }
        requires as_many { told.old.count ≡ length self.now.patterns.states }
        ensures later { OnOk result (IsLater told.old told.new) }
        ensures told { OnOk result ((all : List ℕ) → IsGrown told.new.states all → IsTypeTold env.now self.now.compressed self.now.patterns self.now.least all state most goal) }
    {
        let _parts = env.parts();
        for head in list_at(&self.by_result, goal as usize) {
            self.tell_head(env, state, *head, most, told)?;
        }
        Ok(())
    }

    /// Tells what a floor rests on at the declarations that give the lower type of a pair, by its number behind those of
    /// the declarations.
    fn tell_pair(
        &self,
        env: &Env,
        state: u32,
        source: u32,
        most: u32,
        told: &mut Told,
    ) -> Result<(), AllocError>
        requires tables { AreTables env.now self.now }
        requires as_many { told.old.count ≡ length self.now.patterns.states }
        ensures later { OnOk result (IsLater told.old told.new) }
        ensures told { OnOk result ((all : List ℕ) → IsGrown told.new.states all → IsPairTold env.now self.now.compressed self.now.patterns self.now.least all state most source) }
    {
        let parts = env.parts();
        let decls = parts.decls.as_slice().len();
        let place = source as usize;
        if place < decls {
            return Ok(());
        }
        match parts.pairs.get(place - decls) {
            Some(pair) => self.tell_type(env, state, pair.0, most, told),
            None => Ok(()),
        }
    }

    /// Tells what a floor rests on at the declarations that give a type strictly below this one.
    fn tell_lowers(
        &self,
        env: &Env,
        state: u32,
        goal: u32,
        most: u32,
        told: &mut Told,
    ) -> Result<(), AllocError>
        requires tables { AreTables env.now self.now }
        requires as_many { told.old.count ≡ length self.now.patterns.states }
        ensures later { OnOk result (IsLater told.old told.new) }
        ensures told { OnOk result ((all : List ℕ) → IsGrown told.new.states all → AreLowersTold env.now self.now.compressed self.now.patterns self.now.least all state most goal) }
    {
        let _parts = env.parts();
        for source in list_at(&self.by_result, goal as usize) {
            self.tell_pair(env, state, *source, most, told)?;
        }
        Ok(())
    }

    /// The type that is wanted at a state.
    fn goal_of(&self, state: u32) -> u32
        requires in_range { state < length self.now.patterns.states }
        ensures value { result ≡ (state_at self.now.patterns state).goal }
    {
        let at = self.patterns.states()[state as usize];
        at.goal
    }

    /// Tells all that the floor of a state rests on.
    fn tell_state(&self, env: &Env, state: u32, told: &mut Told) -> Result<(), AllocError>
        requires tables { AreTables env.now self.now }
        requires as_many { told.old.count ≡ length self.now.patterns.states }
        requires in_range { state < told.old.count }
        ensures later { OnOk result (IsLater told.old told.new) }
        ensures told { OnOk result ((all : List ℕ) → IsGrown told.new.states all → IsStateTold env.now self.now.compressed self.now.patterns self.now.least all state) }
    {
        let goal = self.goal_of(state);
        let floor = self.number_of(env, state);
        let below = floor.saturating_sub(env.coercion_weight());
        self.tell_type(env, state, goal, floor, told)?;
        self.tell_lowers(env, state, goal, below, told)?;
        Ok(())
    }

    /// Tells all that the floors of told states rest on, also of those that are told meanwhile. Want of memory is also
    /// answered where there would be 2^32 states.
    pub(crate) fn tell_all(&self, env: &Env, told: &mut Told) -> Result<(), AllocError>
        requires tables { AreTables env.now self.now }
        requires as_many { told.old.count ≡ length self.now.patterns.states }
        ensures later { OnOk result (IsLater told.old told.new) }
        ensures told { OnOk result ((state : ℕ) → has state told.new.states ≡ true → IsStateTold env.now self.now.compressed self.now.patterns self.now.least told.new.states state) }
    {
        for place in 0..4_294_967_296usize {
            let _states = told.as_slice();
            match told.at(place) {
                Some(state) => self.tell_state(env, state, told)?,
                None => return Ok(()),
            }
        }
        Err(AllocError)
    }
}
