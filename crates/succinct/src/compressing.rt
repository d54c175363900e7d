// The steps that number needs and kinds.

ghost use Rattle.std.specs.Prelude.{◌≡◌, ◌<◌, ◌≤◌, ◌++◌, ◌∷◌, [], ℕ, true, length, map, slice_get, Some, IfOk};
ghost use Rattle.succinct.specs.Compression.{need_of, IsKindOf, Source};
ghost use Rattle.succinct.specs.Numbering.{IsGrown};
ghost use Rattle.succinct.specs.Sets.{has};

use crate::kind::Succinct;
use crate::need::Need;
use crate::numbering::number_of;
use crate::sets::set_of;
use indexmap::IndexSet;
use lists::Items;
use std::alloc::{AllocError, Global};
use terms::Arg;

/// The succinct type of an argument.
pub fn need_of(alloc: Global, arg: &Arg) -> Result<Need, AllocError>
    ensures value { IfOk result (λ need. need ≡ need_of arg.now) }
{
    match arg {
        Arg::Plain(result) => Ok(Need {
            params: Items::new(alloc),
            result: *result,
            lambda: false,
        }),
        Arg::Fun(params, result) => Ok(Need {
            params: set_of(Vec::from_slice(alloc, params.as_slice())?),
            result: *result,
            lambda: true,
        }),
    }
}

/// The number of a need.
pub fn need_number(needs: &mut IndexSet<Need>, need: Need) -> Result<u32, AllocError>
    ensures stands { IfOk result (λ i. slice_get needs.new.keys i ≡ Some need) }
    ensures grown { IsGrown needs.old.keys needs.new.keys }
    ensures one_more { IfOk result (λ i. (j : ℕ) → length needs.old.keys ≤ j → j < length needs.new.keys → j ≡ i) }
{
    number_of(needs, need)
}

/// The number of a kind.
pub fn kind_number(kinds: &mut IndexSet<Succinct>, kind: Succinct) -> Result<u32, AllocError>
    ensures stands { IfOk result (λ i. slice_get kinds.new.keys i ≡ Some kind) }
    ensures grown { IsGrown kinds.old.keys kinds.new.keys }
    ensures one_more { IfOk result (λ i. (j : ℕ) → length kinds.old.keys ≤ j → j < length kinds.new.keys → j ≡ i) }
{
    number_of(kinds, kind)
}

/// The numbers of the needs of arguments, in the order of the arguments.
pub fn need_numbers(
    alloc: Global,
    needs: &mut IndexSet<Need>,
    args: &[Arg],
) -> Result<Vec<u32>, AllocError>
    ensures named { IfOk result (λ numbers. map (λ i. slice_get needs.new.keys i) numbers.items ≡ map (λ a. Some (need_of a)) args.now) }
    ensures grown { IsGrown needs.old.keys needs.new.keys }
    ensures no_more { IfOk result (λ numbers. (j : ℕ) → length needs.old.keys ≤ j → j < length needs.new.keys → has j numbers.items ≡ true) }
{
    let mut numbers = Vec::new(alloc);
    for arg in args {
        let need = need_of(alloc, arg)?;
        numbers.push(need_number(needs, need)?)?;
    }
    Ok(numbers)
}
