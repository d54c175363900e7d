ghost use Rattle.std.specs.Prelude.{◌≡◌, ◌≢◌, ◌++◌, ℕ, List, codes, decimal, MatchOption, IfSome};
ghost use Rattle.workload.specs.Samples.{text_before};

/// A sample's text, up to the number of the class that is wanted.
const BEFORE: &str = "package app; import sample.*; class Use { static void go(C0 a, C1 b) { C";

/// A sample's text, after that number.
const AFTER: &str = " r = } }";

/// What a sample's text has after its beginning.
fn after_beginning(source: &str) -> Option<&str>
    ensures { MatchOption result ((rest : List ℕ) → source.now ≢ codes "package app; import sample.*; class Use { static void go(C0 a, C1 b) { C" ++ rest) (λ rest. source.now ≡ codes "package app; import sample.*; class Use { static void go(C0 a, C1 b) { C" ++ rest.now) }
{
    source.strip_prefix(BEFORE)
}

/// What it has before its end.
fn before_end(rest: &str) -> Option<&str>
    ensures { MatchOption result ((found : List ℕ) → rest.now ≢ found ++ codes " r = } }") (λ found. rest.now ≡ found.now ++ codes " r = } }") }
{
    rest.strip_suffix(AFTER)
}

/// The number of the class that is wanted at the hole of a sample's text, in decimal; None where the text is that of no
/// sample.
#[tactic(auto, using(crate::proofs::Texts::digits))]
pub fn goal_in(source: &str) -> Option<&str>
    ensures exact { (goal : ℕ) → source.now ≡ text_before goal ++ codes "} }" → IfSome result (λ digits. digits.now ≡ decimal goal) }
{
    before_end(after_beginning(source)?)
}
