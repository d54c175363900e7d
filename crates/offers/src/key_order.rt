ghost use Rattle.std.specs.Prelude.{◌≡◌, IfOk, OnOk};
ghost use Rattle.offers.specs.Scenes.{put, sorted};
ghost use Rattle.offers.specs.Sorting.{IsPlace, Rises};

use known_classes::ClassSummary;
use lists::{Copies, Items};
use std::alloc::{AllocError, Global};
use std::cmp::Ordering;
use std::collections::VecDeque;
use type_names::Erased;

/// What is put in order by the bytes of a text.
pub(crate) trait Keyed: Sized {
    ghost use Rattle.std.specs.Prelude.{◌≡◌, List, ℕ};
    ghost use Rattle.std.specs.Ordering.{nat_cmp};
    ghost use Rattle.std.specs.Cmp.Lexicographic.{slice_cmp};

    ghost key_of: { Self → List ℕ };

    /// How the texts of two items stand to each other.
    fn compare_keys(&self, other: &Self) -> Ordering
        ensures { result ≡ slice_cmp nat_cmp (key_of self.now) (key_of other.now) };
}

impl Keyed for ClassSummary {
    ghost key_of = { λ c. c.name };

    fn compare_keys(&self, other: &ClassSummary) -> Ordering {
        self.name.compare(&other.name)
    }
}

impl Keyed for Erased {
    ghost use Rattle.type_names.specs.Descriptors.{field};

    ghost key_of = { field };

    fn compare_keys(&self, other: &Erased) -> Ordering {
        self.compare(other)
    }
}

/// The place among sorted items where an item goes, None where one of its key is there.
fn place<T: Keyed>(all: &VecDeque<T>, item: &T) -> Option<usize>
    requires { Rises T.key_of all.now.items }
    ensures { IsPlace T.key_of (T.key_of item.now) all.now.items result }
{
    let mut low = 0;
    let mut high = all.len();
    while low < high {
        let middle = low + (high - low) / 2;
        match item.compare_keys(&all[middle]) {
            Ordering::Less => high = middle,
            Ordering::Equal => return None,
            Ordering::Greater => low = middle + 1,
        }
    }
    Some(low)
}

/// Puts a copy of an item in its place among sorted ones, unless one of its key is there.
fn put<T: Keyed + Copies + Drop>(
    alloc: Global,
    all: &mut VecDeque<T>,
    item: &T,
) -> Result<(), AllocError>
    requires { Rises T.key_of all.old.items }
    ensures { OnOk result (all.new.items ≡ put T.key_of item.now all.old.items) }
{
    let Some(at) = place(all, item) else {
        return Ok(());
    };
    all.insert(at, item.copy(alloc)?)?;
    Ok(())
}

/// Copies of these items in rising order of their keys, of each key one.
pub(crate) fn sorted<T: Keyed + Copies + Drop>(
    alloc: Global,
    items: &[T],
) -> Result<Vec<T>, AllocError>
    ensures { IfOk result (λ all. all.items ≡ sorted T.key_of items.now) }
{
    let mut all = VecDeque::new(alloc);
    let mut left = items.len();
    while left > 0 {
        left -= 1;
        put(alloc, &mut all, &items[left])?;
    }
    Ok(Vec::from(all))
}

/// Puts an item in its place among sorted ones, unless one of its key is there.
fn put_item<T: Keyed + Drop>(all: &mut VecDeque<T>, item: T) -> Result<(), AllocError>
    requires { Rises T.key_of all.old.items }
    ensures { OnOk result (all.new.items ≡ put T.key_of item all.old.items) }
{
    let Some(at) = place(all, &item) else {
        return Ok(());
    };
    all.insert(at, item)?;
    Ok(())
}

/// These items themselves in rising order of their keys, of each key one.
pub(crate) fn in_order<T: Keyed + Drop>(
    alloc: Global,
    items: Items<T>,
) -> Result<Vec<T>, AllocError>
    ensures { IfOk result (λ all. all.items ≡ sorted T.key_of items) }
{
    let mut left = items;
    let mut all = VecDeque::new(alloc);
    while let Some(item) = left.pop() {
        put_item(&mut all, item)?;
    }
    Ok(Vec::from(all))
}
