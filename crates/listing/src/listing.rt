ghost use Rattle.std.specs.Prelude.{◌≡◌, ◌↔◌, ◌<◌, ◌≤◌, ◌+◌, ◌^◌, ◌⊎◌, [], IsTrue, IfOk, OnOk, OnErr, true, false, length, take, drop};
ghost use Rattle.terms.specs.Listing.{AreFew};
ghost use Rattle.listing.specs.Found.{IsListed, IsLonger, IsNoFurther};
ghost use Rattle.listing.specs.Pages.{IsPage, items_of};

use crate::growth::Growing;
use crate::item::Item;
use crate::page::{Page, page_of};
use crate::same::Same;
use std::alloc::{AllocError, Global};
use std::marker::Model;
use terms::{Env, Levels};

/// The list of one environment, found level by level as far as someone asked. Contracts see the
/// environment's parts, the items found, whether the search has met its end, and its count of steps.
#[derive(Drop)]
pub struct Listing<E: Levels> {
    growing: Growing<E>,
}

impl<E: Levels> Model for Listing<E> {
    ghost use Rattle.terms.specs.contracts.term.Term as term;
    ghost use Rattle.std.specs.Coded.{codes};
    ghost use Rattle.listing.specs.Found.{Listed};

    ghost Value = { Listed };

    ghost coded = { Prim.hlevel (codes, term.the_row.coded) };

    ghost view = { λ l. l.growing.listed };
}

impl<E: Levels> Listing<E> {
    /// A listing that has found nothing yet. It owns the environment.
    pub fn new(alloc: Global, env: Env) -> Result<Listing<E>, AllocError>
        ensures fresh { IfOk result (λ listing. listing ≡ record { parts = env; found = []; at_end = false; reached = 0; pops = 0 }) }
    {
        Ok(Listing {
            growing: Growing::new(alloc, env)?,
        })
    }

    /// The page of at most `count` items from the item `from` on, counted from 0. It finds whole levels
    /// until one item more than the page is found, or the list is whole. After want of memory what was
    /// found stays, and the next call goes on; it never comes where nothing has to be found.
    pub fn page(&mut self, alloc: Global, from: u64, count: u64) -> Result<Page, AllocError>
        requires from { from < 2 ^ 62 }
        requires count { (1 ≤ count) × (count ≤ 1000) }
        ensures listed { IsListed self.new }
        ensures same_env { self.new.parts ≡ self.old.parts }
        ensures longer { IsLonger self.old.found self.new.found }
        ensures page { IfOk result (λ page. IsPage from count self.old self.new page) }
        ensures enough { OnOk result ((from + count + 1 ≤ length self.new.found) ⊎ (self.new.at_end ≡ true)) }
        ensures no_further { IsNoFurther self.new.parts (from + count + 1) self.old.found self.new.found }
        ensures end_met { IfOk result (λ page. length self.new.found ≤ from + count → self.new.at_end ≡ true) }
        ensures end_stays { self.old.at_end ≡ true → self.new.at_end ≡ true }
        ensures no_memory { OnErr result ((length self.old.found ≤ from + count) × (self.old.at_end ≡ false)) }
        ensures pops_rise { self.old.pops ≤ self.new.pops }
    {
        let before = self.growing.found().len();
        let longer = self.growing.lengthen(alloc, (from + count + 1) as usize);
        let found = self.growing.found().len();
        longer?;
        let at_end = self.growing.at_end();
        Ok(page_of(from, count, before as u64, found as u64, at_end))
    }

    /// The items of a page. Takes no memory.
    pub fn items(&self, page: &Page) -> &[Item]
        requires within { page.now.first + page.now.len ≤ length self.now.found }
        ensures slice { result.now ≡ items_of self.now page.now }
    {
        let first = page.first as usize;
        &self.growing.found()[first..first + page.len as usize]
    }

    /// Whether this is the list of that environment. Takes no memory.
    pub fn same_env(&self, env: &Env) -> bool
        ensures exact { IsTrue result ↔ (self.now.parts ≡ env.now) }
    {
        self.growing.env().parts().same(env.parts())
    }

    /// How many steps the search has taken, where it counts them: few for what it has reached, which is no further
    /// than the level after what is found. Takes no memory.
    pub fn pops(&self) -> u64
        ensures count { result ≡ self.now.pops }
        ensures few { AreFew self.now.parts self.now.reached result }
    {
        self.growing.pops()
    }
}
