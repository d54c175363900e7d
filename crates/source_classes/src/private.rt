ghost use Rattle.std.specs.Prelude.{◌≡◌, ℕ, not, filter, IfOk};
ghost use Rattle.source_classes.specs.SourceClasses.{is_private, without_private};

use known_classes::{ClassSummary, FieldSummary, MethodSummary};
use lists::Items;
use std::alloc::{AllocError, Global};

const PRIVATE: u16 = 0x0002;

/// A member of a class, with its access flags (JVMS 4.5, 4.6).
trait Member {
    ghost flags_of: { Self → ℕ };

    fn flags(&self) -> u16
        ensures { result ≡ flags_of self.now };
}

impl Member for FieldSummary {
    ghost flags_of = { λ field. field.flags };

    fn flags(&self) -> u16 {
        self.flags
    }
}

impl Member for MethodSummary {
    ghost flags_of = { λ method. method.flags };

    fn flags(&self) -> u16 {
        self.flags
    }
}

/// Whether these are the flags of a private member.
#[tactic(auto, unfolding(class_summary::specs::Flags::has_flag))]
fn is_private(flags: u16) -> bool
    ensures { result ≡ is_private flags }
{
    flags & PRIVATE != 0
}

/// The members that aren't private, found from the last to the first.
fn others<M: Member + Drop>(alloc: Global, members: Items<M>) -> Result<Items<M>, AllocError>
    ensures { IfOk result (λ kept. kept ≡ filter (λ m. not (is_private (M.flags_of m))) members) }
{
    let mut left = members;
    let mut kept = Vec::new(alloc);
    while let Some(member) = left.pop() {
        if is_private(member.flags()) {
            continue;
        }
        kept.push(member)?;
    }
    kept.reverse();
    Ok(Items::from_vec(kept))
}

/// A class without its private members.
#[tactic(auto, unfolding(crate::specs::SourceClasses::without_private))]
pub fn without_private(alloc: Global, class: ClassSummary) -> Result<ClassSummary, AllocError>
    ensures { IfOk result (λ kept. kept ≡ without_private class) }
{
    let ClassSummary {
        name,
        flags,
        nesting,
        supers,
        fields,
        methods,
    } = class;
    Ok(ClassSummary {
        name,
        flags,
        nesting,
        supers,
        fields: others(alloc, fields)?,
        methods: others(alloc, methods)?,
    })
}
