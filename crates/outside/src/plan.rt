ghost use Rattle.std.specs.Prelude.{◌≡◌, ◌≤◌, ◌==◌, [], if◌then◌else◌, IsTrue};
ghost use Rattle.std.specs.List.{list_any};
ghost use Rattle.outside.specs.Causes.{Rose};
ghost use Rattle.outside.specs.Plans.{is_due, one_more};

use lists::Items;
use std::alloc::Global;

/// Which calls of an object in memory are to fail, by their numbers: the first call is number 1.
#[derive(Debug, Drop)]
pub struct FaultPlan {
    pub failing: Items<u64>,
    /// How many calls were made.
    pub calls: u64,
    /// How many of them failed.
    pub faults: u64,
}

impl FaultPlan {
    /// No call was made yet, and those with the listed numbers are to fail.
    pub fn new(failing: Items<u64>) -> FaultPlan
        ensures value { result ≡ record { failing = failing; calls = 0; faults = 0 } }
    {
        FaultPlan {
            failing,
            calls: 0,
            faults: 0,
        }
    }

    /// No call is to fail.
    pub fn none(alloc: Global) -> FaultPlan
        ensures value { result ≡ record { failing = []; calls = 0; faults = 0 } }
    {
        FaultPlan::new(Items::new(alloc))
    }

    /// Counts one call, and answers whether it is to fail.
    pub fn step(&mut self) -> bool
        ensures due { result ≡ is_due self.old }
        ensures counted { self.new ≡ record self.old {
          calls = one_more self.old.calls;
          faults = if is_due self.old then one_more self.old.faults else self.old.faults;
        } }
        ensures later { self.old.faults ≤ self.new.faults }
        ensures rose { IsTrue result → Rose self.old.faults self.new.faults }
    {
        self.calls = self.calls.saturating_add(1);
        let call = self.calls;
        let due = is_listed(self.failing.as_slice(), call);
        if due {
            self.faults = self.faults.saturating_add(1);
        }
        due
    }
}

/// Whether a number is in a list.
fn is_listed(numbers: &[u64], number: u64) -> bool
    ensures { result ≡ list_any (λ n. n == number) numbers.now }
{
    numbers.iter().any(|n| *n == number)
}
