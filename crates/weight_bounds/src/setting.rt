ghost use Rattle.terms.specs.Faults.{IsValid, HasLengths};

use crate::limit::Limit;
use terms::Parts;

/// What numbers are found for: the parts of an environment, and the greatest weight that counts.
#[derive(Clone, Copy)]
pub(crate) struct Setting<'a> {
    pub(crate) parts: &'a Parts,
    pub(crate) limit: Limit,
    ghost valid: { IsValid parts.now },
    ghost lengths: { HasLengths parts.now },
}
