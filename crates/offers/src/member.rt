use lists::{Copies, Items, Text, copy_all};
use std::alloc::{AllocError, Global};
use type_names::Erased;

/// What a member of a class is.
#[derive(Clone, Copy, Debug, PartialEq, Eq)]
pub enum Kind {
    Field,
    Method,
    Constructor,
}

/// A member of a class with its owner's internal name, its access flags (JVMS 4.5 and 4.6) and its types. A field
/// has no parameters; a constructor is named `<init>`.
#[derive(Debug, Drop)]
pub struct Member {
    pub owner: Text,
    pub kind: Kind,
    pub name: Text,
    pub flags: u16,
    pub params: Items<Erased>,
    pub result: Option<Erased>,
}

/// A functional interface (JLS 9.8) by its internal name, with what its one method takes and gives; a method without
/// result gives nothing.
#[derive(Debug, Drop)]
pub struct Face {
    pub name: Text,
    pub params: Items<Erased>,
    pub result: Option<Erased>,
}

impl Copies for Member {
    fn copy(&self, alloc: Global) -> Result<Member, AllocError> {
        let result = match &self.result {
            Some(kind) => Some(kind.copy(alloc)?),
            None => None,
        };
        Ok(Member {
            owner: self.owner.copy(alloc)?,
            kind: self.kind,
            name: self.name.copy(alloc)?,
            flags: self.flags,
            params: copy_all(alloc, &self.params)?,
            result,
        })
    }
}
