// For each state the edges of which it is a tail, as chains in flat tables.

ghost use Rattle.std.specs.Prelude.{◌≡◌, ◌<◌, ℕ, true, length, slice_index_or, IfOk, OnOk};
ghost use Rattle.succinct.specs.Sets.{has};
ghost use Rattle.least_weights.specs.Users.{Leads, AreChains, AreUsers};

use edges::Edges;
use std::alloc::{AllocError, Global};

/// An edge of a chain. A link is named by one more than its place.
#[derive(Clone, Copy, Drop)]
pub struct Link {
    pub edge: u32,
    /// The link after this one, 0 at the end.
    pub next: u32,
}

/// For each state the chain of the edges of which it is a tail.
#[derive(Drop)]
pub struct Users {
    /// The first link of each state, 0 where there is none.
    pub firsts: Vec<u32>,
    pub links: Vec<Link>,
}

/// Puts an edge before the chain of a state, where there is such a state. Want of memory is also answered where
/// there would be 2^32 links.
fn add_user(
    firsts: &mut Vec<u32>,
    links: &mut Vec<Link>,
    state: u32,
    edge: u32,
) -> Result<(), AllocError>
    requires chains { AreChains firsts.old.items links.old.items }
    ensures as_many { length firsts.new.items ≡ length firsts.old.items }
    ensures chains { OnOk result (AreChains firsts.new.items links.new.items) }
    ensures kept { OnOk result ((t m : ℕ) → Leads links.old.items (slice_index_or firsts.old.items t 0) m → Leads links.new.items (slice_index_or firsts.new.items t 0) m) }
    ensures added { OnOk result (state < length firsts.old.items → Leads links.new.items (slice_index_or firsts.new.items state 0) edge) }
{
    let place = state as usize;
    if place >= firsts.len() {
        return Ok(());
    }
    let count = links.len();
    if count > 4294967294 {
        return Err(AllocError);
    }
    let next = firsts[place];
    links.push(Link { edge, next })?;
    firsts[place] = count as u32 + 1;
    Ok(())
}

/// Puts an edge before the chains of its tails.
fn add_tails(
    firsts: &mut Vec<u32>,
    links: &mut Vec<Link>,
    tails: &[u32],
    edge: u32,
) -> Result<(), AllocError>
    requires chains { AreChains firsts.old.items links.old.items }
    ensures as_many { length firsts.new.items ≡ length firsts.old.items }
    ensures chains { OnOk result (AreChains firsts.new.items links.new.items) }
    ensures kept { OnOk result ((t m : ℕ) → Leads links.old.items (slice_index_or firsts.old.items t 0) m → Leads links.new.items (slice_index_or firsts.new.items t 0) m) }
    ensures added { OnOk result ((t : ℕ) → has t tails.now ≡ true → t < length firsts.old.items → Leads links.new.items (slice_index_or firsts.new.items t 0) edge) }
{
    for tail in tails {
        add_user(firsts, links, *tail, edge)?;
    }
    Ok(())
}

/// For each state the chain of the edges of which it is a tail.
pub fn users_of(alloc: Global, count: usize, edges: &Edges) -> Result<Users, AllocError>
    ensures as_many { IfOk result (λ users. length users.firsts.items ≡ count) }
    ensures chains { IfOk result (λ users. AreChains users.firsts.items users.links.items) }
    ensures users { IfOk result (λ users. AreUsers edges.now users.firsts.items users.links.items) }
{
    let mut firsts = vec![in alloc; 0u32; count]?;
    let mut links = Vec::new(alloc);
    for edge in 0..edges.len() {
        add_tails(&mut firsts, &mut links, edges.tails(edge), edge)?;
    }
    Ok(Users { firsts, links })
}
