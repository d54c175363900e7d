ghost use Rattle.std.specs.Prelude.{◌≡◌};

use crate::member::Member;
use std::marker::Model;

/// Members that are looked at. Contracts see them.
#[derive(Drop)]
pub struct MemberList<'a> {
    members: &'a [Member],
}

impl<'a> Model for MemberList<'a> {
    ghost use Rattle.std.specs.Prelude.{List};
    ghost use Rattle.offers.specs.declared.member.Member.{Member};

    ghost Value = { List Member };

    ghost view = { λ l. l.members.now };
}

impl<'a> MemberList<'a> {
    /// These members.
    pub fn new(members: &'a [Member]) -> MemberList<'a>
        ensures { result ≡ members.now }
    {
        MemberList { members }
    }

    /// The members.
    pub fn members(&self) -> &'a [Member]
        ensures { result.now ≡ self.now }
    {
        self.members
    }
}
