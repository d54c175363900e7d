ghost use Rattle.std.specs.Prelude.{◌≡◌, ◌≤◌, ◌↔◌, IsTrue, MatchOption};
ghost use Rattle.decl_index.specs.Weighing.{usual, AreWeights};

/// What weighs how much in a version. A member of a class that isn't of the edited class's package weighs
/// `far + span / (1 + f)`, rounded down, where `f` is its usage count.
#[derive(Clone, Copy, Debug, PartialEq, Eq)]
pub struct Weights {
    /// A use of a variable that a lambda binds.
    pub bound: u32,
    /// A binder of a lambda.
    pub binder: u32,
    /// A local variable, a parameter, `this`.
    pub local: u32,
    /// A strict coercion at one place.
    pub step: u32,
    /// Making a functional interface from a lambda.
    pub lambda: u32,
    /// A member or constructor of the edited class.
    pub own: u32,
    /// A member or constructor of another class of its package.
    pub package: u32,
    /// `0`, `true`, `false` and `""`.
    pub literal: u32,
    /// Any other member or constructor, however often it is used.
    pub far: u32,
    /// What such a one weighs more where it is never used.
    pub span: u32,
}

/// Whether a weight is from `least` to `most`.
fn is_within(weight: u32, least: u32, most: u32) -> bool
    ensures { IsTrue result ↔ ((least ≤ weight) × (weight ≤ most)) }
{
    least <= weight && weight <= most
}

/// Whether the weight of a declaration is in its range.
fn is_of_declaration(weight: u32) -> bool
    ensures { IsTrue result ↔ ((5 ≤ weight) × (weight ≤ 10000)) }
{
    is_within(weight, 5, 10_000)
}

impl Weights {
    /// The weights of a history that sets none. It takes no memory.
    pub fn usual() -> Weights
        ensures usual { result ≡ usual }
        ensures ranges { AreWeights result }
    {
        Weights {
            bound: 1,
            binder: 1,
            local: 5,
            step: 10,
            lambda: 10,
            own: 20,
            package: 25,
            literal: 200,
            far: 215,
            span: 785,
        }
    }

    /// Whether a change may set the weights. It takes no memory.
    fn are_in_range(&self) -> bool
        ensures { IsTrue result ↔ AreWeights self.now }
    {
        is_within(self.bound, 1, 100)
            && is_within(self.binder, 1, 100)
            && is_within(self.step, 1, 10_000)
            && is_of_declaration(self.local)
            && is_of_declaration(self.lambda)
            && is_of_declaration(self.own)
            && is_of_declaration(self.package)
            && is_of_declaration(self.literal)
            && is_of_declaration(self.far)
            && self.far as u64 + self.span as u64 <= 10_000
    }

    /// The same weights where a change may set them: where `bound` and `binder` are from 1 to 100, `step` is from 1
    /// to 10,000, each other one but `span` from 5 to 10,000, and `far` and `span` together are at most 10,000. It
    /// takes no memory.
    pub fn checked(weights: Weights) -> Option<Weights>
        ensures exact { MatchOption result (AreWeights weights → ⊥) (λ same. (same ≡ weights) × AreWeights weights) }
    {
        if !weights.are_in_range() {
            return None;
        }
        Some(weights)
    }
}
