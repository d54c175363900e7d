ghost use Rattle.std.specs.Prelude.{◌≡◌, IfOk};

use lists::{Copies, Items, Text, copy_all};
use std::alloc::{AllocError, Global};

/// A type as the text spells it, without its type arguments: its identifiers, or the one word of a
/// primitive, and its dimensions.
#[derive(Debug, Drop)]
pub struct TypeText {
    pub parts: Items<Text>,
    pub dims: u64,
}

/// A type variable, with its first bound.
#[derive(Debug, Drop)]
pub struct TypeVar {
    pub name: Text,
    pub bound: Option<TypeText>,
}

/// A parameter; the dots of variable arity are one more dimension.
#[derive(Debug, Drop)]
pub struct Param {
    pub name: Text,
    pub kind: TypeText,
}

/// A field, with its access flags (JVMS 4.5).
#[derive(Debug, Drop)]
pub struct SourceField {
    pub name: Text,
    pub flags: u16,
    pub kind: TypeText,
}

/// A method, or a constructor under the name `<init>`, with its access flags (JVMS 4.6). `result` is None
/// for `void` and for a constructor. `body` is the range of its block among all tokens of the text, from
/// its `{` up to the token after its `}`, or to the end of the tokens; the second number isn't in the range.
#[derive(Debug, Drop)]
pub struct SourceMethod {
    pub name: Text,
    pub flags: u16,
    pub vars: Items<TypeVar>,
    pub params: Items<Param>,
    pub result: Option<TypeText>,
    pub body: Option<(u32, u32)>,
}

/// How a class is declared.
#[derive(Clone, Copy, Debug, PartialEq, Eq)]
pub enum ClassKind {
    ClassDecl,
    InterfaceDecl,
    EnumDecl,
    RecordDecl,
    AnnotationDecl,
}

/// A class, with its access flags (JVMS 4.1, 4.7.6). `outer` is the number of the class around it in
/// `Unit::classes`. `supers` are the types that it extends and implements, as the text spells them;
/// `names_parent` tells that the first of them is the superclass that a class names.
#[derive(Debug, Drop)]
pub struct SourceClass {
    pub name: Text,
    pub outer: Option<u32>,
    pub kind: ClassKind,
    pub flags: u16,
    pub vars: Items<TypeVar>,
    pub supers: Items<TypeText>,
    pub names_parent: bool,
    pub fields: Items<SourceField>,
    pub methods: Items<SourceMethod>,
}

/// An import that isn't static; `star` tells that it ends with `.*`.
#[derive(Debug, Drop)]
pub struct Import {
    pub parts: Items<Text>,
    pub star: bool,
}

/// What a source text declares. A class stands after the class around it, and all in the order of the
/// text.
#[derive(Debug, Drop)]
pub struct Unit {
    pub package: Items<Text>,
    pub imports: Items<Import>,
    pub classes: Items<SourceClass>,
}

impl Copies for TypeText {
    fn copy(&self, alloc: Global) -> Result<TypeText, AllocError> {
        Ok(TypeText {
            parts: copy_all(alloc, &self.parts)?,
            dims: self.dims,
        })
    }
}

fn copy_bound(alloc: Global, bound: &Option<TypeText>) -> Result<Option<TypeText>, AllocError>
    ensures { IfOk result (λ copy. copy ≡ bound.now) }
{
    let Some(bound) = bound else {
        return Ok(None);
    };
    Ok(Some(bound.copy(alloc)?))
}

impl Copies for TypeVar {
    fn copy(&self, alloc: Global) -> Result<TypeVar, AllocError> {
        Ok(TypeVar {
            name: self.name.copy(alloc)?,
            bound: copy_bound(alloc, &self.bound)?,
        })
    }
}

impl Copies for Param {
    fn copy(&self, alloc: Global) -> Result<Param, AllocError> {
        Ok(Param {
            name: self.name.copy(alloc)?,
            kind: self.kind.copy(alloc)?,
        })
    }
}
