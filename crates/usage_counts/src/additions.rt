ghost use Rattle.std.specs.Prelude.{◌≡◌, ◌∷◌, [], OnOk, OnErr};
ghost use Rattle.std.specs.BTreeMap.{get_by_text};
ghost use Rattle.usage_counts.specs.Additions.{placed_by, raised_by, used_of};
ghost use Rattle.usage_counts.specs.Counts.{Key, AreUsed, with_uses};
ghost use Rattle.usage_counts.specs.Tallies.{uses_in, amount};

use crate::counts::Uses;
use crate::tallies::KeyTally;
use std::alloc::{AllocError, Global};

/// Gives a key that is used a place, with no use yet where it is new.
fn place(alloc: Global, uses: &mut Uses, tally: &KeyTally) -> Result<(), AllocError>
    ensures placed { OnOk result ((q : Key) → get_by_text uses.new q ≡ placed_by (uses_in q tally.now) (get_by_text uses.old q)) }
    ensures used { used_of uses.new.entries ≡ used_of uses.old.entries }
{
    if tally.number > 0 && !uses.contains_key(tally.key.as_str()) {
        uses.insert(String::from_str(alloc, tally.key.as_str())?, 0)?;
    }
    Ok(())
}

/// Gives each key that is used a place.
fn place_all(alloc: Global, uses: &mut Uses, tallies: &[KeyTally]) -> Result<(), AllocError>
    ensures placed { OnOk result ((q : Key) → get_by_text uses.new q ≡ placed_by (amount q tallies.now) (get_by_text uses.old q)) }
    ensures used { used_of uses.new.entries ≡ used_of uses.old.entries }
{
    for tally in tallies {
        place(alloc, uses, tally)?;
    }
    Ok(())
}

/// Takes out the keys without a use.
fn keep_used(uses: &mut Uses)
    ensures { uses.new.entries ≡ used_of uses.old.entries }
{
    uses.retain(|_, number| *number > 0);
}

/// So many uses more of a key that has a place.
fn add_one(uses: &mut Uses, tally: &KeyTally)
    ensures { (q : Key) → get_by_text uses.new q ≡ raised_by (uses_in q tally.now) (get_by_text uses.old q) }
{
    if let Some(number) = uses.get_mut(tally.key.as_str()) {
        *number = number.saturating_add(tally.number);
    }
}

/// So many uses more of each key.
fn add_each(uses: &mut Uses, tallies: &[KeyTally])
    ensures { (q : Key) → get_by_text uses.new q ≡ raised_by (amount q tallies.now) (get_by_text uses.old q) }
{
    for tally in tallies {
        add_one(uses, tally);
    }
}

/// Adds the uses of these keys, or leaves all as it was where memory runs out.
pub fn add_all(alloc: Global, uses: &mut Uses, tallies: &[KeyTally]) -> Result<(), AllocError>
    requires { AreUsed uses.old.entries }
    ensures added { OnOk result ((q : Key) → get_by_text uses.new q ≡ with_uses (get_by_text uses.old q) (amount q tallies.now)) }
    ensures used { AreUsed uses.new.entries }
    ensures unchanged { OnErr result (uses.new.entries ≡ uses.old.entries) }
{
    match place_all(alloc, uses, tallies) {
        Ok(()) => {
            add_each(uses, tallies);
            let _ = uses.len();
            Ok(())
        }
        Err(error) => {
            keep_used(uses);
            Err(error)
        }
    }
}
