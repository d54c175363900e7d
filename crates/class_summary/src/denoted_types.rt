ghost use Rattle.std.specs.Prelude.{◌≡◌, ◌+◌, ◌<◌, ◌^◌, IfOk};
ghost use Rattle.std.specs.Option.{option_copied};
ghost use Rattle.java_units.specs.UnitLaws.{IsNested};
ghost use Rattle.java_units.specs.Dimensions.{dims_of_bounds};
ghost use Rattle.class_summary.specs.Variables.{end_at, end_of, scopes_at};
ghost use Rattle.class_summary.specs.Names.{internal_of, simple_class, canonical_of, member_class, dotted_class, in_package_else, class_of_name, primitive, primitive_of, base_of, denoted_type};

use crate::ends::{Ending, end_of};
use crate::paths::{canonical_name, follow, joined};
use crate::rules::{Denoted, class_with, internal_of, is, joined_with, simple_class, spelled};
use crate::unit_names::UnitNames;
use crate::variables::scopes_at;
use java_units::TypeText;
use known_classes::{Classes, canonical_named};
use lists::{Copies, Text};
use std::alloc::{AllocError, Global};
use type_names::{Base, Erased, OBJECT};

/// The canonical name of a class.
fn canonical_of<C: Classes>(
    alloc: Global,
    unit: &UnitNames<'_>,
    known: &C,
    class: &Denoted,
) -> Result<Text, AllocError>
    ensures { IfOk result (λ name. name ≡ canonical_of unit.now (C.listed known.now) class.now) }
{
    match class {
        Denoted::Own(i) => canonical_name(alloc, unit.unit(), *i),
        Denoted::Other(name) => canonical_named(alloc, known, name),
    }
}

/// A name of further parts behind that of a class.
#[tactic(auto, unfolding(crate::specs::Names::member_class))]
fn member_class<C: Classes>(
    alloc: Global,
    unit: &UnitNames<'_>,
    known: &C,
    class: &Denoted,
    rest: &[Text],
) -> Result<Denoted, AllocError>
    ensures { IfOk result (λ found. found ≡ member_class unit.now (C.listed known.now) class.now rest.now) }
{
    let mut name = canonical_of(alloc, unit, known, class)?;
    follow(&mut name, ".", rest)?;
    if let Some(found) = class_with(alloc, unit, known, &name)? {
        return Ok(found);
    }
    let mut inside = internal_of(alloc, unit, class)?;
    follow(&mut inside, "$", rest)?;
    Ok(Denoted::Other(inside))
}

/// The class that a name of one part denotes.
fn class_of_simple<C: Classes>(
    alloc: Global,
    unit: &UnitNames<'_>,
    class: usize,
    known: &C,
    name: &Text,
) -> Result<Denoted, AllocError>
    ensures { IfOk result (λ found. found ≡ in_package_else unit.now name.now (simple_class unit.now class (C.listed known.now) name.now)) }
{
    if let Some(found) = simple_class(alloc, unit, class, known, name)? {
        return Ok(found);
    }
    Ok(Denoted::Other(joined_with(alloc, "/", unit.package(), name)?))
}

/// The class that a name of several parts denotes.
fn class_of_dotted<C: Classes>(
    alloc: Global,
    unit: &UnitNames<'_>,
    class: usize,
    known: &C,
    first: &Text,
    rest: &[Text],
    parts: &[Text],
) -> Result<Denoted, AllocError>
    ensures { IfOk result (λ found. found ≡ dotted_class unit.now (C.listed known.now) (simple_class unit.now class (C.listed known.now) first.now) rest.now parts.now) }
{
    if let Some(found) = simple_class(alloc, unit, class, known, first)? {
        return member_class(alloc, unit, known, &found, rest);
    }
    spelled(alloc, unit, known, parts)
}

/// The class that a name denotes at the class number i, where it is no type variable.
#[tactic(auto, unfolding(crate::specs::Names::class_of_name))]
fn class_of_name<C: Classes>(
    alloc: Global,
    unit: &UnitNames<'_>,
    class: usize,
    known: &C,
    parts: &[Text],
) -> Result<Denoted, AllocError>
    ensures { IfOk result (λ found. found ≡ class_of_name unit.now class (C.listed known.now) parts.now) }
{
    match parts {
        [] => spelled(alloc, unit, known, parts),
        [name] => class_of_simple(alloc, unit, class, known, name),
        [first, rest @ ..] => class_of_dotted(alloc, unit, class, known, first, rest, parts),
    }
}

/// The primitive type that a word names.
#[tactic(auto, unfolding(crate::specs::Names::primitive))]
fn primitive(word: &Text) -> Option<Base>
    ensures { result ≡ primitive word.now }
{
    if is(word, "byte") {
        return Some(Base::Byte);
    }
    if is(word, "char") {
        return Some(Base::Char);
    }
    if is(word, "double") {
        return Some(Base::Double);
    }
    if is(word, "float") {
        return Some(Base::Float);
    }
    if is(word, "int") {
        return Some(Base::Int);
    }
    if is(word, "long") {
        return Some(Base::Long);
    }
    if is(word, "short") {
        return Some(Base::Short);
    }
    if is(word, "boolean") {
        return Some(Base::Boolean);
    }
    None
}

#[tactic(auto, unfolding(crate::specs::Names::primitive_of))]
fn primitive_of(parts: &[Text]) -> Option<Base>
    ensures { result ≡ primitive_of parts.now }
{
    match parts {
        [word] => primitive(word),
        _ => None,
    }
}

/// The erased type of a name that is no type variable, without its dimensions.
#[tactic(auto, unfolding(crate::specs::Names::base_of))]
fn base_of<C: Classes>(
    alloc: Global,
    unit: &UnitNames<'_>,
    class: usize,
    known: &C,
    parts: Option<&[Text]>,
) -> Result<Base, AllocError>
    ensures { IfOk result (λ base. base ≡ base_of unit.now class (C.listed known.now) (option_copied parts.entry)) }
{
    let Some(parts) = parts else {
        return Ok(Base::Class(Text::from_str(alloc, OBJECT)?));
    };
    if let Some(base) = primitive_of(parts) {
        return Ok(base);
    }
    let found = class_of_name(alloc, unit, class, known, parts)?;
    Ok(Base::Class(internal_of(alloc, unit, &found)?))
}

/// Where a type ends at a class of the text, or at a method of it, through the bounds of its variables.
fn end_at<'a>(
    alloc: Global,
    unit: &UnitNames<'a>,
    class: usize,
    method: Option<usize>,
    kind: &'a TypeText,
) -> Result<Ending<'a>, AllocError>
    requires { IsNested unit.now.classes }
    ensures { IfOk result (λ end. end_at end.dims end.class (option_copied end.parts) ≡ end_of (scopes_at unit.now.classes class method) class kind.now) }
{
    let scopes = scopes_at(alloc, unit.classes(), unit.variables(), class, method)?;
    let own = unit.ends_at(class, method)?;
    end_of(scopes.as_slice(), unit.class_ends(), own, class, kind)
}

/// The erased type that a type denotes at a class of the text, or at a method of it.
#[tactic(auto, unfolding(crate::specs::Names::denoted_type))]
pub fn resolve_at<C: Classes>(
    alloc: Global,
    unit: &UnitNames<'_>,
    class: usize,
    method: Option<usize>,
    name: &TypeText,
    known: &C,
) -> Result<Erased, AllocError>
    requires nested { IsNested unit.now.classes }
    requires dims { name.now.dims + dims_of_bounds unit.now.classes < 2 ^ 64 }
    ensures { IfOk result (λ kind. kind ≡ denoted_type unit.now class method name.now (C.listed known.now)) }
{
    let end = end_at(alloc, unit, class, method, name)?;
    let base = base_of(alloc, unit, end.class, known, end.parts)?;
    Ok(Erased {
        dims: end.dims,
        base,
    })
}
