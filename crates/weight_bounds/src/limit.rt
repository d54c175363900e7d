ghost use Rattle.std.specs.Prelude.{◌≤◌};

/// The greatest weight that counts.
#[derive(Clone, Copy)]
pub(crate) struct Limit {
    pub(crate) value: u32,
    ghost small: { value ≤ 10000 },
}
