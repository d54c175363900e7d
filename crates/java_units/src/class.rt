ghost use Rattle.std.specs.Prelude.{◌≡◌, ◌++◌, ◌∷◌, [], IfOk, OnOk, codes, map};
ghost use Rattle.std.specs.List.{flat_map, list_any};
ghost use Rattle.java_units.specs.Words.{texts};
ghost use Rattle.java_units.specs.Signs.{seen, seens};
ghost use Rattle.java_units.specs.Forms.{begins, starts, clause_len};
ghost use Rattle.java_units.specs.Pieces.{pieces};
ghost use Rattle.java_units.specs.Values.{types_of};
ghost use Rattle.java_units.specs.Units.{kind_of, parent_of, supers_of, names_parent, body_in, members_of, number_in, kind_in, methods_of, class_by, class_of};

use crate::access::{
    Modifiers, class_flags, has, is_enum, is_interface, is_plain, modifiers_of, nested,
};
use crate::entries::up_to;
use crate::lexemes::{Lexeme, begins, tail};
use crate::members::{all_fields, all_methods, any_constructor, default_constructor};
use crate::pieces::{bare, end, held};
use crate::starts::{Run, starts};
use crate::table::{header_len, kind_len, named_len};
use crate::types::{ClassKind, SourceClass, SourceMethod, TypeText};
use crate::values::{first_text, type_text, types_of, vars_of};
use lists::{Items, Text};
use std::alloc::{AllocError, Global};

/// The class around another one: its number in the unit, and how it is declared.
#[derive(Clone, Copy, Debug)]
pub struct Around {
    pub number: u32,
    pub kind: ClassKind,
}

/// How a class is declared, by its head.
#[tactic(auto, unfolding(crate::specs::Units::kind_of))]
fn kind_of(head: &[Lexeme<'_>]) -> ClassKind
    ensures { result ≡ kind_of (seen head.now) }
{
    if begins("class", head) {
        return ClassKind::ClassDecl;
    }
    if begins("interface", head) {
        return ClassKind::InterfaceDecl;
    }
    if begins("enum", head) {
        return ClassKind::EnumDecl;
    }
    if begins("record", head) {
        return ClassKind::RecordDecl;
    }
    ClassKind::AnnotationDecl
}

/// The superclass that these lists of types name, or none.
fn parent_of(alloc: Global, places: &[&[Lexeme<'_>]]) -> Result<Items<TypeText>, AllocError>
    ensures { IfOk result (λ all. all ≡ parent_of (seens places.now)) }
{
    let mut all = Items::new(alloc);
    for i in 0..places.len() {
        if begins("extends", places[i]) {
            all.push(type_text(alloc, 0, tail(places[i], 1))?)?;
            return Ok(all);
        }
    }
    Ok(all)
}

/// The types of these lists that begin with one of these words.
fn all_types(
    alloc: Global,
    words: &[&str],
    places: &[&[Lexeme<'_>]],
) -> Result<Items<TypeText>, AllocError>
    ensures { IfOk result (λ all. all ≡ flat_map (types_of (texts words.now)) (seens places.now)) }
{
    let mut all = Items::new(alloc);
    for i in 0..places.len() {
        let types = types_of(alloc, words, places[i])?;
        all.append(types)?;
    }
    Ok(all)
}

/// The types that a class extends and implements.
#[tactic(auto, unfolding(crate::specs::Units::supers_of))]
fn supers_of(
    alloc: Global,
    kind: ClassKind,
    places: &[&[Lexeme<'_>]],
) -> Result<Items<TypeText>, AllocError>
    ensures { IfOk result (λ all. all ≡ supers_of kind (seens places.now)) }
{
    if is_plain(kind) {
        let mut all = parent_of(alloc, places)?;
        all.append(all_types(alloc, &["implements"], places)?)?;
        return Ok(all);
    }
    if is_interface(kind) {
        return all_types(alloc, &["extends", "implements"], places);
    }
    all_types(alloc, &["implements"], places)
}

/// Whether the first of the supers is a superclass that the class names.
#[tactic(auto, unfolding(crate::specs::Units::names_parent))]
fn names_parent(kind: ClassKind, places: &[&[Lexeme<'_>]]) -> bool
    ensures { result ≡ names_parent kind (seens places.now) }
{
    is_plain(kind) && has("extends", places)
}

/// What the block of a class of this kind holds of members.
#[tactic(auto, unfolding(crate::specs::Units::members_of, crate::specs::Units::body_in))]
pub fn members_of<'a, 'b>(kind: ClassKind, piece: &'b [Lexeme<'a>]) -> &'b [Lexeme<'a>]
    ensures { seen result.now ≡ members_of kind (seen piece.now) }
{
    let body = held(end(piece));
    if is_enum(kind) {
        return tail(tail(body, up_to(";", body)), 1);
    }
    body
}

/// The number of the class around, if there is one.
fn number_in(around: Option<Around>) -> Option<u32>
    ensures { result ≡ number_in around }
{
    match around {
        Some(class) => Some(class.number),
        None => None,
    }
}

/// The kind of the class around, if there is one.
fn kind_in(around: Option<Around>) -> Option<ClassKind>
    ensures { result ≡ kind_in around }
{
    match around {
        Some(class) => Some(class.kind),
        None => None,
    }
}

/// The methods of a class, with the constructor that a plain class gets.
#[tactic(auto, unfolding(crate::specs::Units::methods_of))]
fn methods_of(
    alloc: Global,
    kind: ClassKind,
    name: &str,
    count: usize,
    modifiers: &Modifiers,
    places: &[&[Lexeme<'_>]],
) -> Result<Items<SourceMethod>, AllocError>
    ensures { IfOk result (λ all. all ≡ methods_of kind name.now count modifiers.now (seens places.now)) }
{
    let mut all = all_methods(alloc, kind, name, count, places)?;
    if is_plain(kind) && !any_constructor(name, places) {
        all.push(default_constructor(alloc, modifiers)?)?;
        return Ok(all);
    }
    Ok(all)
}

/// What a class is beside its body.
#[derive(Clone, Copy)]
struct Named<'a> {
    kind: ClassKind,
    name: &'a str,
    modifiers: Modifiers,
}

/// A class of this kind and name, by its head and pieces.
#[tactic(auto, unfolding(crate::specs::Units::class_by))]
fn class_by(
    alloc: Global,
    around: Option<Around>,
    count: usize,
    head: &[Lexeme<'_>],
    named: &Named<'_>,
    places: &[&[Lexeme<'_>]],
) -> Result<SourceClass, AllocError>
    ensures { IfOk result (λ class. class ≡ class_by around count (seen head.now) named.now.kind named.now.name.now named.now.modifiers (seens places.now)) }
{
    let name = Text::from_str(alloc, named.name)?;
    let vars = vars_of(alloc, tail(head, named_len(head)))?;
    let clauses = starts(alloc, Run::Clauses, tail(head, header_len(head)))?;
    let lists = clauses.as_slice();
    let supers = supers_of(alloc, named.kind, lists)?;
    let fields = all_fields(alloc, named.kind, named.name, places)?;
    let methods = methods_of(
        alloc,
        named.kind,
        named.name,
        count,
        &named.modifiers,
        places,
    )?;
    Ok(SourceClass {
        name,
        outer: number_in(around),
        kind: named.kind,
        flags: class_flags(named.kind, &named.modifiers),
        vars,
        supers,
        names_parent: names_parent(named.kind, lists),
        fields,
        methods,
    })
}

/// The class that a piece of its form declares.
#[tactic(auto, unfolding(crate::specs::Units::class_of))]
pub fn class_of(
    alloc: Global,
    around: Option<Around>,
    count: usize,
    piece: &[Lexeme<'_>],
) -> Result<SourceClass, AllocError>
    ensures { IfOk result (λ class. class ≡ class_of around count (seen piece.now)) }
{
    let head = bare(piece);
    let kind = kind_of(head);
    let own = modifiers_of(alloc, piece)?;
    let named = Named {
        kind,
        name: first_text(tail(head, kind_len(head))),
        modifiers: nested(kind_in(around), kind, &own),
    };
    let places = starts(alloc, Run::Pieces, members_of(kind, piece))?;
    class_by(alloc, around, count, head, &named, places.as_slice())
}
