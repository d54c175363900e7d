ghost use Rattle.std.specs.Prelude.{◌≡◌, ◌++◌, ◌∷◌, [], ◌<◌, ◌≤◌, ◌^◌, if◌then◌else◌, length, IfOk, OnOk};
ghost use Rattle.offers.specs.Pairs.{row_of, rows_of, pairs_of};
ghost use Rattle.offers.specs.Types.{is_below_at};
ghost use Rattle.offers.specs.Placing.{IsPlaced};
ghost use Rattle.offers.specs.Views.{scene};

use crate::placed::Placed;
use crate::view::View;
use lists::Items;
use std::alloc::{AllocError, Global};
use type_names::Erased;

/// Adds the pair of these numbers, if it is one.
fn add_pair(
    view: &View<'_>,
    types: &Placed,
    low: u32,
    high: u32,
    pairs: &mut Items<(u32, u32)>,
) -> Result<(), AllocError>
    requires placed { IsPlaced view.now types.now }
    requires low { low < length types.now.types }
    requires high { high < length types.now.types }
    ensures { OnOk result (pairs.new ≡ pairs.old ++ (if is_below_at (scene view.now) types.now.types low high then (low, high) ∷ [] else [])) }
{
    if types.is_below(view, low as usize, high as usize) {
        pairs.push((low, high))?;
    }
    Ok(())
}

/// Adds the pairs whose first type has this number.
fn add_row(
    view: &View<'_>,
    types: &Placed,
    low: u32,
    pairs: &mut Items<(u32, u32)>,
) -> Result<(), AllocError>
    requires placed { IsPlaced view.now types.now }
    requires low { low < length types.now.types }
    requires few { length types.now.types < 2 ^ 32 }
    ensures { OnOk result (pairs.new ≡ pairs.old ++ row_of (is_below_at (scene view.now) types.now.types) low (length types.now.types)) }
{
    for high in 0..types.types().len() {
        add_pair(view, types, low, high as u32, pairs)?;
    }
    Ok(())
}

/// The pairs of these types of which the first is a strict subtype of the second.
fn placed_pairs(
    alloc: Global,
    view: &View<'_>,
    types: &Placed,
) -> Result<Items<(u32, u32)>, AllocError>
    requires placed { IsPlaced view.now types.now }
    requires few { length types.now.types < 2 ^ 32 }
    ensures { IfOk result (λ pairs. pairs ≡ pairs_of (length types.now.types) (is_below_at (scene view.now) types.now.types)) }
{
    let mut pairs = Items::new(alloc);
    for low in 0..types.types().len() {
        add_row(view, types, low as u32, &mut pairs)?;
    }
    Ok(pairs)
}

/// The pairs of types of which the first is a strict subtype of the second; want of memory where the types are
/// 2^32 or more.
pub fn pairs_of(
    alloc: Global,
    view: &View<'_>,
    types: &[Erased],
) -> Result<Items<(u32, u32)>, AllocError>
    ensures { IfOk result (λ pairs. pairs ≡ pairs_of (length types.now) (is_below_at (scene view.now) types.now)) }
{
    if types.len() > u32::MAX as usize {
        return Err(AllocError);
    }
    let types = Placed::of(alloc, view, types)?;
    let pairs = placed_pairs(alloc, view, &types)?;
    Ok(pairs)
}
