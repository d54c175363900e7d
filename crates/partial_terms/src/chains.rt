// Lists that share their ends, kept in one growing table.

ghost use Rattle.std.specs.Prelude.{◌≡◌, ◌<◌, [], ◌∷◌, length, get_or, OnErr, IfOk, IfSome, IfNone};
ghost use Rattle.partial_terms.specs.Chained.{IsGrown};

use std::alloc::{AllocError, Global};
use std::marker::Model;

/// The first element of a list, and the number of the list that follows it.
#[derive(Clone, Copy)]
pub struct Link<T> {
    head: T,
    tail: u32,
}

/// Lists by number. List 0 is empty; each other one is an element before an earlier list. A list that is kept
/// stays as it is.
#[derive(Drop)]
pub struct Chains<T> {
    links: Vec<Link<T>>,
}

impl<T> Model for Chains<T> {
    ghost use Rattle.std.specs.Prelude.{List};
    ghost use Rattle.partial_terms.specs.Chained.{lists_of, AreLinked};

    ghost Value = { List (List T) };

    ghost view = { λ c. lists_of c.links.items };

    ghost invariant = { λ c. AreLinked c.links.items };
}

#[tactic(auto, using(crate::proofs::Chaining::chained_lists))]
impl<T: Copy> Chains<T> {
    /// The empty list alone. Takes no memory.
    pub fn new(alloc: Global) -> Chains<T>
        ensures empty { result ≡ [] ∷ [] }
    {
        Chains {
            links: Vec::new(alloc),
        }
    }

    /// Keeps the list of this element before the list of a number, and answers its number. Want of memory is
    /// also answered where there would be 2^32 lists.
    pub fn cons(&mut self, head: T, tail: u32) -> Result<u32, AllocError>
        requires tail { tail < length self.old }
        ensures kept { IfOk result (λ i. get_or self.new i [] ≡ head ∷ get_or self.old tail []) }
        ensures within { IfOk result (λ i. i < length self.new) }
        ensures unchanged { OnErr result (self.new ≡ self.old) }
        ensures grown { IsGrown self.old self.new }
    {
        if self.links.len() >= 4_294_967_295 {
            return Err(AllocError);
        }
        let place = self.links.len() as u32 + 1;
        self.links.push(Link { head, tail })?;
        Ok(place)
    }

    /// The first element of a list and the number of the rest, or `None` where the list is empty.
    pub fn first(&self, at: u32) -> Option<(T, u32)>
        requires in_range { at < length self.now }
        ensures some { IfSome result (λ p. get_or self.now at [] ≡ p.0 ∷ get_or self.now p.1 []) }
        ensures within { IfSome result (λ p. p.1 < length self.now) }
        ensures none { IfNone result (get_or self.now at [] ≡ []) }
    {
        let links = self.links.as_slice();
        if at == 0 {
            return None;
        }
        let link = links[at as usize - 1];
        Some((link.head, link.tail))
    }
}
