ghost use Rattle.std.specs.Prelude.{◌≡◌, ◌≤◌, ◌||◌, codes, Option, Some, None, IfOk};
ghost use Rattle.std.specs.List.{list_any};
ghost use Rattle.java_units.specs.Signs.{seen, seens};
ghost use Rattle.java_units.specs.Forms.{begins};
ghost use Rattle.java_units.specs.Members.{modifiers_at, modifiers_of, bit, flags_of, is_interface, is_enum, is_plain, member, field_flags, method_flags, constructor_flags, nested, class_flags, access};

use crate::lexemes::{Lexeme, begins};
use crate::pieces::head;
use crate::starts::{Run, starts};
use crate::types::ClassKind;
use std::alloc::{AllocError, Global};

/// The modifiers that set access flags.
#[derive(Clone, Copy, Debug)]
pub struct Modifiers {
    pub is_public: bool,
    pub is_private: bool,
    pub is_protected: bool,
    pub is_static: bool,
    pub is_abstract: bool,
}

/// Whether a word begins one of some forms.
pub fn has(word: &str, places: &[&[Lexeme<'_>]]) -> bool
    ensures { result ≡ list_any (begins word.now) (seens places.now) }
{
    for i in 0..places.len() {
        if begins(word, places[i]) {
            return true;
        }
    }
    false
}

/// The modifiers among these forms.
#[tactic(auto, unfolding(crate::specs::Members::modifiers_at))]
fn modifiers_at(places: &[&[Lexeme<'_>]]) -> Modifiers
    ensures { result ≡ modifiers_at (seens places.now) }
{
    Modifiers {
        is_public: has("public", places),
        is_private: has("private", places),
        is_protected: has("protected", places),
        is_static: has("static", places),
        is_abstract: has("abstract", places),
    }
}

/// The modifiers of a piece.
#[tactic(auto, unfolding(crate::specs::Members::modifiers_of))]
pub fn modifiers_of(alloc: Global, piece: &[Lexeme<'_>]) -> Result<Modifiers, AllocError>
    ensures { IfOk result (λ m. m ≡ modifiers_of (seen piece.now)) }
{
    let places = starts(alloc, Run::Leads, head(piece))?;
    Ok(modifiers_at(places.as_slice()))
}

/// A flag that is set or not.
#[tactic(auto, unfolding(crate::specs::Members::bit))]
fn bit(on: bool, flag: u16) -> u16
    ensures value { result ≡ bit on flag }
    ensures within { result ≤ flag }
{
    if on { flag } else { 0 }
}

/// PUBLIC, PRIVATE, PROTECTED, STATIC and ABSTRACT.
#[tactic(auto, unfolding(crate::specs::Members::flags_of))]
pub fn flags_of(modifiers: &Modifiers) -> u16
    ensures value { result ≡ flags_of modifiers.now }
    ensures within { result ≤ 0x040F }
{
    bit(modifiers.is_public, 0x0001)
        + bit(modifiers.is_private, 0x0002)
        + bit(modifiers.is_protected, 0x0004)
        + bit(modifiers.is_static, 0x0008)
        + bit(modifiers.is_abstract, 0x0400)
}

/// Whether it is an interface or an annotation.
pub fn is_interface(kind: ClassKind) -> bool
    ensures { result ≡ is_interface kind }
{
    match kind {
        ClassKind::ClassDecl => false,
        ClassKind::InterfaceDecl => true,
        ClassKind::EnumDecl => false,
        ClassKind::RecordDecl => false,
        ClassKind::AnnotationDecl => true,
    }
}

/// Whether it is an enum.
pub fn is_enum(kind: ClassKind) -> bool
    ensures { result ≡ is_enum kind }
{
    match kind {
        ClassKind::ClassDecl => false,
        ClassKind::InterfaceDecl => false,
        ClassKind::EnumDecl => true,
        ClassKind::RecordDecl => false,
        ClassKind::AnnotationDecl => false,
    }
}

/// Whether it is declared by `class`.
pub fn is_plain(kind: ClassKind) -> bool
    ensures { result ≡ is_plain kind }
{
    match kind {
        ClassKind::ClassDecl => true,
        ClassKind::InterfaceDecl => false,
        ClassKind::EnumDecl => false,
        ClassKind::RecordDecl => false,
        ClassKind::AnnotationDecl => false,
    }
}

/// A member of a class of this kind.
#[tactic(auto, unfolding(crate::specs::Members::member))]
fn member(around: ClassKind, modifiers: &Modifiers) -> Modifiers
    ensures { result ≡ member around modifiers.now }
{
    let opens = is_interface(around) && !modifiers.is_private;
    Modifiers {
        is_public: modifiers.is_public || opens,
        is_private: modifiers.is_private,
        is_protected: modifiers.is_protected,
        is_static: modifiers.is_static,
        is_abstract: modifiers.is_abstract,
    }
}

/// The flags of a field.
#[tactic(auto, unfolding(crate::specs::Members::field_flags))]
pub fn field_flags(around: ClassKind, modifiers: &Modifiers) -> u16
    ensures { result ≡ field_flags around modifiers.now }
{
    let mut all = member(around, modifiers);
    all.is_static = modifiers.is_static || is_interface(around);
    flags_of(&all)
}

/// The flags of a method.
#[tactic(auto, unfolding(crate::specs::Members::method_flags))]
pub fn method_flags(around: ClassKind, has_block: bool, modifiers: &Modifiers) -> u16
    ensures { result ≡ method_flags around has_block modifiers.now }
{
    let mut all = member(around, modifiers);
    let is_open = is_interface(around) && !(has_block || modifiers.is_static);
    all.is_abstract = modifiers.is_abstract || is_open;
    flags_of(&all)
}

/// The flags of a constructor.
#[tactic(auto, unfolding(crate::specs::Members::constructor_flags))]
pub fn constructor_flags(around: ClassKind, modifiers: &Modifiers) -> u16
    ensures { result ≡ constructor_flags around modifiers.now }
{
    let mut all = member(around, modifiers);
    all.is_private = modifiers.is_private || is_enum(around);
    flags_of(&all)
}

/// The modifiers of a class of this kind in a class, or in none.
#[tactic(auto, unfolding(crate::specs::Members::nested))]
pub fn nested(around: Option<ClassKind>, kind: ClassKind, modifiers: &Modifiers) -> Modifiers
    ensures { result ≡ nested around kind modifiers.now }
{
    let Some(outer) = around else {
        let mut all = *modifiers;
        all.is_abstract = modifiers.is_abstract || is_interface(kind);
        return all;
    };
    let mut all = member(outer, modifiers);
    let is_fixed = is_interface(outer) || !is_plain(kind);
    all.is_static = modifiers.is_static || is_fixed;
    all.is_abstract = modifiers.is_abstract || is_interface(kind);
    all
}

/// The flags of a class, INTERFACE among them.
#[tactic(auto, unfolding(crate::specs::Members::class_flags))]
pub fn class_flags(kind: ClassKind, modifiers: &Modifiers) -> u16
    ensures { result ≡ class_flags kind modifiers.now }
{
    flags_of(modifiers) + bit(is_interface(kind), 0x0200)
}

/// The access of a class alone.
#[tactic(auto, unfolding(crate::specs::Members::access))]
pub fn access(modifiers: &Modifiers) -> Modifiers
    ensures { result ≡ access modifiers.now }
{
    Modifiers {
        is_public: modifiers.is_public,
        is_private: modifiers.is_private,
        is_protected: modifiers.is_protected,
        is_static: false,
        is_abstract: false,
    }
}
