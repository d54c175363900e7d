ghost use Rattle.std.specs.Prelude.{◌≡◌, IfOk, OnOk};
ghost use Rattle.std.specs.Arc.{arc_value};
ghost use Rattle.std.specs.BTreeMap.{get_by_text};
ghost use Rattle.std.specs.Option.{option_or};
ghost use Rattle.decl_index.specs.History.{Name, counted, CountsRise};
ghost use Rattle.decl_index.specs.Places.{count_pairs};

use lists::Text;
use std::alloc::{AllocError, Global};
use std::collections::BTreeMap;
use std::sync::Arc;

/// How often each key was used; a key that isn't there was never used.
pub type Counts = BTreeMap<String, u32>;

/// Gives counts to keys, one after the other.
fn set_all(alloc: Global, counts: &mut Counts, more: &[(Text, u32)]) -> Result<(), AllocError>
    ensures { OnOk result ((key : Name) → get_by_text counts.new key ≡ option_or (counted key more.now) (get_by_text counts.old key)) }
{
    for count in more {
        counts.insert(String::from_str(alloc, count.0.as_str())?, count.1)?;
    }
    Ok(())
}

/// Each map has its keys in rising order; this says so of the counts.
fn have_order(counts: &Counts)
    ensures { CountsRise (count_pairs counts.now) }
{
    let _ = counts.len();
}

/// The counts with these given to keys.
pub fn with_counts(
    alloc: Global,
    counts: &Arc<Counts, Global>,
    more: &[(Text, u32)],
) -> Result<Arc<Counts, Global>, AllocError>
    ensures keys { IfOk result (λ all. CountsRise (count_pairs (arc_value all))) }
    ensures counts { IfOk result (λ all. (key : Name) → get_by_text (arc_value all) key ≡ option_or (counted key more.now) (get_by_text (arc_value counts.now) key)) }
{
    if more.is_empty() {
        have_order(&**counts);
        return Arc::try_clone(counts);
    }
    let mut all = (**counts).clone()?;
    set_all(alloc, &mut all, more)?;
    have_order(&all);
    let shared = Arc::new(alloc, all).map_err(|_| AllocError)?;
    Ok(shared)
}
