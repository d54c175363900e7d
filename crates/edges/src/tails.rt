// The states in which the wants of a source are sought.

ghost use Rattle.std.specs.Prelude.{◌≡◌, slice_index_or, [], OnOk};
ghost use Rattle.edges.specs.Made.{tails_at, AreFound};

use patterns::Patterns;
use std::alloc::AllocError;

/// The states in which the needs are sought from a state, in their order, in the place of what is given.
pub fn find_tails(
    patterns: &Patterns,
    state: u32,
    needs: &[u32],
    tails: &mut Vec<u32>,
) -> Result<(), AllocError>
    requires found { AreFound patterns.now state needs.now }
    ensures tails { OnOk result (tails.new.items ≡ tails_at patterns.now state needs.now) }
{
    tails.clear();
    for need in needs {
        match patterns.need_state(state, *need) {
            Some(tail) => tails.push(tail)?,
            None => unreachable!(),
        }
    }
    Ok(())
}
