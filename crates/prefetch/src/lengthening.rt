ghost use Rattle.std.specs.Prelude.{◌≡◌, ◌⊎◌, ◌≤◌, ◌<◌, ◌^◌, true, false, length, OnOk, OnErr};
ghost use Rattle.listing.specs.Found.{IsListed, IsLonger, IsNoFurther};

use listing::Listing;
use std::alloc::{AllocError, Global};
use terms::Levels;

/// Lengthens what is found of a list until it holds so many items, or is the whole list. It finds whole levels, and none
/// beyond the one in which the last of these items stands. After want of memory what was found stays, and the next call goes
/// on; it never comes where nothing has to be found.
pub fn lengthen<E: Levels>(
    alloc: Global,
    listing: &mut Listing<E>,
    upto: u64,
) -> Result<(), AllocError>
    requires upto { (2 ≤ upto) × (upto ≤ 2 ^ 62) }
    ensures listed { IsListed listing.new }
    ensures same_env { listing.new.parts ≡ listing.old.parts }
    ensures longer { IsLonger listing.old.found listing.new.found }
    ensures enough { OnOk result ((upto ≤ length listing.new.found) ⊎ (listing.new.at_end ≡ true)) }
    ensures no_further { IsNoFurther listing.new.parts upto listing.old.found listing.new.found }
    ensures end_stays { listing.old.at_end ≡ true → listing.new.at_end ≡ true }
    ensures no_memory { OnErr result ((length listing.old.found < upto) × (listing.old.at_end ≡ false)) }
    ensures pops_rise { listing.old.pops ≤ listing.new.pops }
{
    listing.page(alloc, upto - 2, 1)?;
    Ok(())
}
