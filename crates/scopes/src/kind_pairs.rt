ghost use Rattle.std.specs.Prelude.{◌≡◌, ◌++◌, ◌∷◌, [], ◌<◌, length, None, IfOk, OnOk};
ghost use Rattle.offers.specs.Pairs.{pairs_of};
ghost use Rattle.offers.specs.Views.{scene};
ghost use Rattle.scopes.specs.Kinds.{count, number_in, is_below_in};
ghost use Rattle.scopes.specs.Numbers.{moved};

use crate::numbers::Numbers;
use lists::Items;
use offers::{View, pairs_of};
use std::alloc::{AllocError, Global};

/// Adds a pair of places among the types of values by their numbers.
fn add_moved(
    numbers: &Numbers<'_>,
    low: u32,
    high: u32,
    all: &mut Items<(u32, u32)>,
) -> Result<(), AllocError>
    requires low { low < length numbers.now.types }
    requires high { high < length numbers.now.types }
    ensures { OnOk result (all.new ≡ all.old ++ (moved (number_in numbers.now None) low, moved (number_in numbers.now None) high) ∷ []) }
{
    all.push((numbers.moved(low), numbers.moved(high)))?;
    Ok(())
}

/// The pairs of types of which the first is a strict subtype of the second, in rising order.
pub(crate) fn kind_pairs(
    alloc: Global,
    view: &View<'_>,
    numbers: &Numbers<'_>,
) -> Result<Items<(u32, u32)>, AllocError>
    ensures { IfOk result (λ pairs. pairs ≡ pairs_of (count numbers.now) (is_below_in (scene view.now) numbers.now)) }
{
    let pairs = pairs_of(alloc, view, numbers.types())?;
    if !numbers.has_void() {
        return Ok(pairs);
    }
    let mut all = Items::new(alloc);
    for pair in pairs.as_slice() {
        add_moved(numbers, pair.0, pair.1, &mut all)?;
    }
    Ok(all)
}
