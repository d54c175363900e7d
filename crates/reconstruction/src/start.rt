// The first partial term.

ghost use Rattle.std.specs.Prelude.{◌≡◌, [], ◌∷◌, OnOk};
ghost use Rattle.reconstruction.specs.Levelled.{AreComplete, IsAt};
ghost use Rattle.reconstruction.specs.NumberedPlaces.{IsNumbered};
ghost use Rattle.reconstruction.specs.Tabled.{place_by_numbers, least_of};

use crate::item::{Arena, Item};
use crate::numbered_place::{NO_LAMBDAS, NumberedPlace};
use crate::tables::Tables;
use std::alloc::AllocError;
use weight_queue::WeightQueue;

/// The least weight at a numbered place, above the limit where no term within it fits.
pub fn least_at(tables: &Tables, place: NumberedPlace) -> u32
    requires complete { AreComplete tables.now }
    requires place { IsNumbered tables.now.env tables.now.patterns place }
    ensures value { result ≡ least_of tables.now (place_by_numbers tables.now place) }
{
    let limit = tables.env.parts().limit;
    match tables.least.least(place.state) {
        Some(weight) => weight,
        None => limit + 1,
    }
}

/// Begins a search: with the empty front, where a term within the limit fits the goal, else with nothing.
pub fn begin(
    tables: &Tables,
    arena: &mut Arena,
    queue: &mut WeightQueue<Item>,
) -> Result<(), AllocError>
    requires complete { AreComplete tables.now }
    requires fronts { arena.old.fronts ≡ [] ∷ [] }
    requires stacks { arena.old.stacks ≡ [] ∷ [] }
    requires queue { queue.old.items ≡ [] }
    ensures at { OnOk result (IsAt tables.now arena.new 0 queue.new.items []) }
    ensures pops { queue.new.pops ≡ queue.old.pops }
{
    let place = NumberedPlace {
        lambdas: NO_LAMBDAS,
        state: 0,
    };
    let key = least_at(tables, place);
    if key > tables.env.parts().limit {
        return Ok(());
    }
    let stack = arena.stacks.cons(place, 0)?;
    queue.reserve(1)?;
    queue.push(key, Item { front: 0, stack });
    Ok(())
}
