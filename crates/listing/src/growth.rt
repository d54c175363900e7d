ghost use Rattle.std.specs.Prelude.{◌≡◌, ◌≢◌, ◌⊎◌, ◌<◌, ◌≤◌, ◌+◌, ◌++◌, [], true, false, None, length, map, OnOk, OnErr, IfOk};
ghost use Rattle.std.specs.Bool.{MatchBool};
ghost use Rattle.std.specs.Vec.{vec_len, vec_capacity};
ghost use Rattle.terms.specs.Typing.{type_in};
ghost use Rattle.terms.specs.View.{expr};
ghost use Rattle.terms.specs.Text.{text_of};
ghost use Rattle.terms.specs.Code.{prefix_code};
ghost use Rattle.terms.specs.Listing.{AreFew};
ghost use Rattle.listing.specs.Found.{IsListed, IsWithin, IsNoFurther, IsLonger, item_of};

use crate::item::{Item, Keyed};
use crate::level_order::put_in_order;
use crate::prefix_codes::code_of;
use java_print::text;
use lists::{Items, Text};
use std::alloc::{AllocError, Global};
use std::marker::Model;
use std::mem;
use terms::{Env, Level, Levels, Term};

/// Moves the items of a level behind the others. There is room for them.
fn move_items(found: &mut Vec<Item>, level: Vec<Keyed>)
    requires room { vec_len found.old + vec_len level ≤ vec_capacity found.old }
    ensures { found.new.items ≡ found.old.items ++ map item_of level.items }
{
    for keyed in level {
        let Keyed { item, code: _ } = keyed;
        found.push_reserved(item);
    }
}

/// A search with what was found of it, and the level that was given after that and is held until there
/// is memory for its texts and its order. Contracts see what is listed, and how many terms of the held level
/// have no text yet, and have one.
#[derive(Drop)]
pub struct Growing<E: Levels> {
    levels: E,
    found: Vec<Item>,
    /// The terms of the held level that have no text yet.
    waiting: Items<Term>,
    /// The terms of the held level that have one.
    keyed: Vec<Keyed>,
    /// What the terms of the held level weigh.
    weight: u32,
    /// All terms lighter than this are found.
    below: u64,
    /// Whether the search has no further level.
    at_end: bool,
}

impl<E: Levels> Model for Growing<E> {
    ghost use Rattle.std.specs.Prelude.{length};
    ghost use Rattle.terms.specs.contracts.term.Term as term;
    ghost use Rattle.std.specs.Coded.{codes};
    ghost use Rattle.listing.specs.Found.{Growth, IsKept};
    ghost use Rattle.terms.specs.Listing.{Skipped};

    ghost Value = { Growth };

    ghost coded = { Prim.hlevel (codes, term.the_row.coded) };

    ghost view = { λ s. record {
      listed = record {
        parts = (E.progress s.levels).parts;
        found = s.found.items;
        at_end = s.at_end;
        reached = E.reached s.levels;
        pops = E.popped s.levels;
      };
      waiting = length s.waiting;
      keyed = length s.keyed.items;
    } };

    ghost invariant = { λ s. IsKept (E.progress s.levels) s.found.items s.waiting s.keyed.items s.weight s.below s.at_end × Skipped (E.progress s.levels).parts s.below (E.reached s.levels) };
}

/// What is made for a term.
#[derive(Drop)]
struct Words {
    text: Text,
    code: Items<u64>,
}

/// The text and the code of a term.
fn words_of(alloc: Global, env: &Env, term: &Term) -> Result<Words, AllocError>
    requires typed { type_in env.now [] (expr term.now) ≢ None }
    ensures text { IfOk result (λ words. words.text ≡ text_of env.now (expr term.now)) }
    ensures code { IfOk result (λ words. words.code ≡ prefix_code (expr term.now)) }
{
    Ok(Words {
        text: text(alloc, env, term)?,
        code: code_of(alloc, term)?,
    })
}

impl<E: Levels> Growing<E> {
    /// Nothing found yet.
    pub fn new(alloc: Global, env: Env) -> Result<Growing<E>, AllocError>
        ensures fresh { IfOk result (λ growing. growing.listed ≡ record { parts = env; found = []; at_end = false; reached = 0; pops = 0 }) }
    {
        Ok(Growing {
            levels: E::over(alloc, env)?,
            found: Vec::new(alloc),
            waiting: Items::new(alloc),
            keyed: Vec::new(alloc),
            weight: 0,
            below: 0,
            at_end: false,
        })
    }

    /// The items found.
    pub fn found(&self) -> &[Item]
        ensures found { result.now ≡ self.now.listed.found }
        ensures listed { IsListed self.now.listed }
    {
        self.found.as_slice()
    }

    /// Whether the search has no further level.
    pub fn at_end(&self) -> bool
        ensures value { result ≡ self.now.listed.at_end }
    {
        self.at_end
    }

    /// The environment.
    pub fn env(&self) -> &Env
        ensures same { result.now ≡ self.now.listed.parts }
    {
        self.levels.env()
    }

    /// How many steps the search has taken.
    pub fn pops(&self) -> u64
        ensures count { result ≡ self.now.listed.pops }
        ensures few { AreFew self.now.listed.parts self.now.listed.reached result }
    {
        self.levels.pops()
    }

    /// Takes the next level to hold it, or notes the end.
    fn take_level(&mut self, alloc: Global) -> Result<(), AllocError>
        requires free { self.old.waiting + self.old.keyed ≡ 0 }
        requires going_on { self.old.listed.at_end ≡ false }
        ensures found { self.new.listed.found ≡ self.old.listed.found }
        ensures parts { self.new.listed.parts ≡ self.old.listed.parts }
        ensures next { OnOk result ((self.new.listed.at_end ≡ true) ⊎ (0 < self.new.waiting + self.new.keyed)) }
        ensures same_end { OnErr result (self.new.listed.at_end ≡ false) }
        ensures pops_rise { self.old.listed.pops ≤ self.new.listed.pops }
    {
        match self.levels.next_level(alloc)? {
            Some(level) => {
                let Level { weight, terms } = level;
                self.weight = weight;
                self.waiting = terms;
                Ok(())
            }
            None => {
                self.at_end = true;
                Ok(())
            }
        }
    }

    /// Makes the text and the code of one term of the held level.
    fn make_text(&mut self, alloc: Global) -> Result<(), AllocError>
        requires some { 0 < self.old.waiting }
        ensures listed { self.new.listed ≡ self.old.listed }
        ensures held { self.new.waiting + self.new.keyed ≡ self.old.waiting + self.old.keyed }
        ensures fewer { OnOk result (self.new.waiting < self.old.waiting) }
    {
        let Some(term) = self.waiting.as_slice().last() else {
            return Ok(());
        };
        let words = words_of(alloc, self.levels.env(), term)?;
        self.keyed.reserve(1)?;
        let Some(term) = self.waiting.pop() else {
            return Ok(());
        };
        let Words { text, code } = words;
        let item = Item {
            weight: self.weight,
            text,
            term,
        };
        self.keyed.push_reserved(Keyed { item, code });
        Ok(())
    }

    /// Makes the texts of the held level.
    fn make_texts(&mut self, alloc: Global) -> Result<(), AllocError>
        ensures listed { self.new.listed ≡ self.old.listed }
        ensures held { self.new.waiting + self.new.keyed ≡ self.old.waiting + self.old.keyed }
        ensures done { OnOk result (self.new.waiting ≡ 0) }
    {
        while !self.waiting.is_empty() {
            self.make_text(alloc)?;
        }
        Ok(())
    }

    /// Puts the held level into order and moves it behind what was found.
    fn settle(&mut self, alloc: Global) -> Result<(), AllocError>
        requires made { self.old.waiting ≡ 0 }
        requires some { 0 < self.old.keyed }
        ensures parts { self.new.listed.parts ≡ self.old.listed.parts }
        ensures longer { IsLonger self.old.listed.found self.new.listed.found }
        ensures bound { IsWithin self.new.listed.parts self.old.listed.found self.new.listed.found }
        ensures same_end { self.new.listed.at_end ≡ self.old.listed.at_end }
        ensures same_pops { self.new.listed.pops ≡ self.old.listed.pops }
        ensures grown { OnOk result (length self.old.listed.found < length self.new.listed.found) }
    {
        put_in_order(&mut self.keyed)?;
        let more = self.keyed.as_slice().len();
        if self.found.as_slice().len() + more >= 1 << 62 {
            return Err(AllocError);
        }
        self.found.reserve(more)?;
        let level = mem::replace(&mut self.keyed, Vec::new(alloc));
        move_items(&mut self.found, level);
        self.below = self.weight as u64 + 1;
        Ok(())
    }

    /// Adds the held level to what was found.
    fn add_held(&mut self, alloc: Global) -> Result<(), AllocError>
        requires some { 0 < self.old.waiting + self.old.keyed }
        ensures parts { self.new.listed.parts ≡ self.old.listed.parts }
        ensures longer { IsLonger self.old.listed.found self.new.listed.found }
        ensures bound { IsWithin self.new.listed.parts self.old.listed.found self.new.listed.found }
        ensures same_end { self.new.listed.at_end ≡ self.old.listed.at_end }
        ensures same_pops { self.new.listed.pops ≡ self.old.listed.pops }
        ensures grown { OnOk result (length self.old.listed.found < length self.new.listed.found) }
    {
        self.make_texts(alloc)?;
        self.settle(alloc)
    }

    /// Takes the next level and adds it, or notes the end.
    fn add_next(&mut self, alloc: Global) -> Result<(), AllocError>
        requires free { self.old.waiting + self.old.keyed ≡ 0 }
        requires going_on { self.old.listed.at_end ≡ false }
        ensures parts { self.new.listed.parts ≡ self.old.listed.parts }
        ensures longer { IsLonger self.old.listed.found self.new.listed.found }
        ensures bound { IsWithin self.new.listed.parts self.old.listed.found self.new.listed.found }
        ensures grown { OnOk result ((self.new.listed.at_end ≡ true) ⊎ (length self.old.listed.found < length self.new.listed.found)) }
        ensures going_on { OnErr result (self.new.listed.at_end ≡ false) }
        ensures pops_rise { self.old.listed.pops ≤ self.new.listed.pops }
    {
        self.take_level(alloc)?;
        if self.at_end() {
            return Ok(());
        }
        self.add_held(alloc)
    }

    /// Whether a level is held.
    fn holds_some(&self) -> bool
        ensures { MatchBool result (0 < self.now.waiting + self.now.keyed) (self.now.waiting + self.now.keyed ≡ 0) }
    {
        if !self.waiting.is_empty() {
            return true;
        }
        !self.keyed.is_empty()
    }

    /// Lengthens what was found by one level, the held one first, or notes the end.
    fn add_level(&mut self, alloc: Global) -> Result<(), AllocError>
        requires going_on { self.old.listed.at_end ≡ false }
        ensures parts { self.new.listed.parts ≡ self.old.listed.parts }
        ensures longer { IsLonger self.old.listed.found self.new.listed.found }
        ensures bound { IsWithin self.new.listed.parts self.old.listed.found self.new.listed.found }
        ensures grown { OnOk result ((self.new.listed.at_end ≡ true) ⊎ (length self.old.listed.found < length self.new.listed.found)) }
        ensures going_on { OnErr result (self.new.listed.at_end ≡ false) }
        ensures pops_rise { self.old.listed.pops ≤ self.new.listed.pops }
    {
        if self.holds_some() {
            return self.add_held(alloc);
        }
        self.add_next(alloc)
    }

    /// Whether so many items are found, or the search has met its end.
    fn is_enough(&self, wanted: usize) -> bool
        ensures { MatchBool result ((wanted ≤ length self.now.listed.found) ⊎ (self.now.listed.at_end ≡ true)) ((length self.now.listed.found < wanted) × (self.now.listed.at_end ≡ false)) }
    {
        if self.at_end {
            return true;
        }
        wanted <= self.found.as_slice().len()
    }

    /// Lengthens what was found until it holds so many items, or the search has met its end.
    pub fn lengthen(&mut self, alloc: Global, wanted: usize) -> Result<(), AllocError>
        ensures parts { self.new.listed.parts ≡ self.old.listed.parts }
        ensures longer { IsLonger self.old.listed.found self.new.listed.found }
        ensures bound { IsNoFurther self.new.listed.parts wanted self.old.listed.found self.new.listed.found }
        ensures enough { OnOk result ((wanted ≤ length self.new.listed.found) ⊎ (self.new.listed.at_end ≡ true)) }
        ensures end_stays { self.old.listed.at_end ≡ true → self.new.listed.at_end ≡ true }
        ensures short { OnErr result ((length self.old.listed.found < wanted) × (self.old.listed.at_end ≡ false)) }
        ensures pops_rise { self.old.listed.pops ≤ self.new.listed.pops }
    {
        while !self.is_enough(wanted) {
            self.add_level(alloc)?;
        }
        Ok(())
    }
}
