// The sources that are offered at a state: those whose kinds are listed there.

ghost use Rattle.std.specs.Prelude.{◌≡◌, ◌<◌, ◌++◌, [], ℕ, true, length, slice_index_or, OnOk};
ghost use Rattle.succinct.specs.Sets.{has};
ghost use Rattle.edges.specs.Made.{sources_in, sources_at};

use patterns::Patterns;
use std::alloc::AllocError;
use succinct::{Compressed, make_set};

/// Puts the sources of some kinds at the end.
fn add_sources(
    compressed: &Compressed,
    kinds: &[u32],
    numbers: &mut Vec<u32>,
) -> Result<(), AllocError>
    requires in_range { (k : ℕ) → has k kinds.now ≡ true → k < length compressed.now.kinds }
    ensures added { OnOk result (numbers.new.items ≡ numbers.old.items ++ sources_in compressed.now.selected kinds.now) }
{
    for kind in kinds {
        numbers.extend_from_slice(compressed.select(*kind))?;
    }
    Ok(())
}

/// The sources that are offered at a state, rising, in the place of what is given.
pub fn find_sources(
    compressed: &Compressed,
    patterns: &Patterns,
    state: u32,
    numbers: &mut Vec<u32>,
) -> Result<(), AllocError>
    requires in_range { state < length patterns.now.states }
    requires kinds { (k : ℕ) → has k (slice_index_or patterns.now.lists state []) ≡ true → k < length compressed.now.kinds }
    ensures sources { OnOk result (numbers.new.items ≡ sources_at compressed.now patterns.now state) }
{
    numbers.clear();
    add_sources(compressed, patterns.patterns_of(state), numbers)?;
    make_set(numbers);
    Ok(())
}
