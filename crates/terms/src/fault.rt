use std::alloc::AllocError;

/// Why parts make no environment. Numbers are places in the lists, from 0.
#[derive(Clone, Copy, Debug, PartialEq, Eq)]
pub enum EnvFault {
    /// A declaration has a number that is no type's; with the number of declarations, the goal is such a number.
    TypeRange(u32),
    /// A side of a pair is no type's number, or both sides are one type.
    PairRange(u32),
    /// A pair that stood before.
    PairTwice(u32),
    /// A declaration's weight isn't from 5 to 10,000.
    Weight(u32),
    /// The limit, which isn't from 1 to 10,000.
    Limit(u32),
    /// The first is below the second and that below the third, but the first isn't below the third.
    NotTransitive(u32, u32, u32),
    /// The depth, which is above the greatest.
    Depth(u32),
    /// A declaration whose arguments don't suit its form.
    Form(u32),
    /// The first of the three steps that is out of its range, counted from 1: `bound`, `binder`, `step`.
    Step(u32),
    /// There was no memory for the environment's table.
    OutOfMemory,
}

impl From<AllocError> for EnvFault {
    ghost use Rattle.std.specs.Prelude.{◌≡◌};
    ghost use Rattle.terms.specs.declared.fault.EnvFault.TheVariants.{OutOfMemory};

    ghost from_gives = { λ _ e. e ≡ OutOfMemory };

    fn from(_e: AllocError) -> EnvFault {
        EnvFault::OutOfMemory
    }
}
