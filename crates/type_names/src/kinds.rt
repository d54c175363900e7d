use lists::{Copies, Items, Text, copy_all};
use std::alloc::{AllocError, Global};

/// A type without its array dimensions.
#[derive(Debug, Drop)]
pub enum Base {
    Byte,
    Char,
    Double,
    Float,
    Int,
    Long,
    Short,
    Boolean,
    /// A class by its name. What the readers of this crate give is an internal name, as `java/lang/String`.
    Class(Text),
}

/// A type after erasure: so many array dimensions of a base.
#[derive(Debug, Drop)]
pub struct Erased {
    pub dims: u64,
    pub base: Base,
}

/// The types of a method: its parameters in order, and its result, which is None for `void`.
#[derive(Debug, Drop)]
pub struct MethodKind {
    pub params: Items<Erased>,
    pub result: Option<Erased>,
}

impl Copies for Base {
    fn copy(&self, alloc: Global) -> Result<Base, AllocError> {
        Ok(match self {
            Base::Byte => Base::Byte,
            Base::Char => Base::Char,
            Base::Double => Base::Double,
            Base::Float => Base::Float,
            Base::Int => Base::Int,
            Base::Long => Base::Long,
            Base::Short => Base::Short,
            Base::Boolean => Base::Boolean,
            Base::Class(name) => Base::Class(name.copy(alloc)?),
        })
    }
}

impl Copies for Erased {
    fn copy(&self, alloc: Global) -> Result<Erased, AllocError> {
        Ok(Erased {
            dims: self.dims,
            base: self.base.copy(alloc)?,
        })
    }
}

impl Copies for MethodKind {
    fn copy(&self, alloc: Global) -> Result<MethodKind, AllocError> {
        let params = copy_all(alloc, &self.params)?;
        let result = match &self.result {
            Some(kind) => Some(kind.copy(alloc)?),
            None => None,
        };
        Ok(MethodKind { params, result })
    }
}
