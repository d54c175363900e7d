// Where the needs are sought, as a table.

ghost use Rattle.std.specs.Prelude.{◌≡◌, IfOk, length};
ghost use Rattle.patterns.specs.States.{AreWanted};

use lists::Items;
use std::alloc::{AllocError, Global};
use succinct::Need;

/// Where a need is sought: its type, and for a lambda the number of the need, by which the set that its body is
/// sought in is found.
#[derive(Clone, Copy, Debug)]
pub struct Wanted {
    pub lambda: bool,
    pub number: u32,
    pub goal: u32,
}

/// Where each need is sought. Want of memory is also answered where the needs are 2^32 or more.
pub fn all_wanted(alloc: Global, needs: &[Need]) -> Result<Items<Wanted>, AllocError>
    ensures wanted { IfOk result (λ wanted. AreWanted needs.now wanted) }
    ensures lengths { IfOk result (λ wanted. length wanted ≡ length needs.now) }
{
    if needs.len() > 4294967295 {
        return Err(AllocError);
    }
    let mut wanted = Items::new(alloc);
    for i in 0..needs.len() {
        let need = &needs[i];
        wanted.push(Wanted {
            lambda: need.lambda,
            number: i as u32,
            goal: need.result,
        })?;
    }
    Ok(wanted)
}
