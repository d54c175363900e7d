ghost use Rattle.std.specs.Prelude.{◌≡◌, IfOk};

use lists::{Copies, Items, Text, copy_all};
use std::alloc::{AllocError, Global};
use type_names::Erased;

/// A field: its name, its access flags (JVMS 4.5) and its type.
#[derive(Debug, Drop)]
pub struct FieldSummary {
    pub name: Text,
    pub flags: u16,
    pub kind: Erased,
}

/// A method, or a constructor under the name `<init>`: its access flags (JVMS 4.6), the types of its
/// parameters in order, and its result, which is None for `void`.
#[derive(Debug, Drop)]
pub struct MethodSummary {
    pub name: Text,
    pub flags: u16,
    pub params: Items<Erased>,
    pub result: Option<Erased>,
}

/// How a class stands in another (JVMS 4.7.6): the internal name of the class around it, its simple name,
/// and its flags as a nested class. A local or anonymous class lacks one of both names.
#[derive(Debug, Drop)]
pub struct Nesting {
    pub outer: Option<Text>,
    pub simple: Option<Text>,
    pub flags: u16,
}

/// What is kept of a class. Its name and those of its supers are internal names, as `java/lang/String`; the
/// super class comes first, then the interfaces.
#[derive(Debug, Drop)]
pub struct ClassSummary {
    pub name: Text,
    pub flags: u16,
    pub nesting: Option<Nesting>,
    pub supers: Items<Text>,
    pub fields: Items<FieldSummary>,
    pub methods: Items<MethodSummary>,
}

impl Copies for FieldSummary {
    fn copy(&self, alloc: Global) -> Result<FieldSummary, AllocError> {
        Ok(FieldSummary {
            name: self.name.copy(alloc)?,
            flags: self.flags,
            kind: self.kind.copy(alloc)?,
        })
    }
}

impl Copies for MethodSummary {
    fn copy(&self, alloc: Global) -> Result<MethodSummary, AllocError> {
        let name = self.name.copy(alloc)?;
        let params = copy_all(alloc, &self.params)?;
        let result = match &self.result {
            Some(kind) => Some(kind.copy(alloc)?),
            None => None,
        };
        Ok(MethodSummary {
            name,
            flags: self.flags,
            params,
            result,
        })
    }
}

/// A copy of a text that may be missing.
pub fn copy_text(alloc: Global, text: &Option<Text>) -> Result<Option<Text>, AllocError>
    ensures { IfOk result (λ copy. copy ≡ text.now) }
{
    match text {
        Some(text) => Ok(Some(text.copy(alloc)?)),
        None => Ok(None),
    }
}

impl Copies for Nesting {
    fn copy(&self, alloc: Global) -> Result<Nesting, AllocError> {
        Ok(Nesting {
            outer: copy_text(alloc, &self.outer)?,
            simple: copy_text(alloc, &self.simple)?,
            flags: self.flags,
        })
    }
}

fn copy_nesting(alloc: Global, nesting: &Option<Nesting>) -> Result<Option<Nesting>, AllocError>
    ensures { IfOk result (λ copy. copy ≡ nesting.now) }
{
    match nesting {
        Some(nesting) => Ok(Some(nesting.copy(alloc)?)),
        None => Ok(None),
    }
}

impl Copies for ClassSummary {
    fn copy(&self, alloc: Global) -> Result<ClassSummary, AllocError> {
        Ok(ClassSummary {
            name: self.name.copy(alloc)?,
            flags: self.flags,
            nesting: copy_nesting(alloc, &self.nesting)?,
            supers: copy_all(alloc, &self.supers)?,
            fields: copy_all(alloc, &self.fields)?,
            methods: copy_all(alloc, &self.methods)?,
        })
    }
}
