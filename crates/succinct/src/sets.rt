// Lists of numbers as sets.

ghost use Rattle.std.specs.Prelude.{◌≡◌, IfOk};
ghost use Rattle.succinct.specs.Sets.{set_of};

use lists::Items;
use std::alloc::AllocError;

/// The numbers as a strictly rising list, each once.
pub fn set_of(numbers: Vec<u32>) -> Items<u32>
    ensures value { result ≡ set_of numbers.items }
{
    let mut sorted = numbers;
    make_set(&mut sorted);
    Items::from_vec(sorted)
}

/// Makes the numbers a strictly rising list, each once, in their own memory.
pub fn make_set(numbers: &mut Vec<u32>)
    ensures set { numbers.new.items ≡ set_of numbers.old.items }
{
    numbers.sort_unstable();
    numbers.dedup();
}
