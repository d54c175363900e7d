ghost use Rattle.std.specs.Prelude.{◌≡◌, ◌+◌, ◌<◌, ◌^◌, ◌++◌, length, map, slice_get, Some, None, IfOk};
ghost use Rattle.std.specs.List.{filter_map};
ghost use Rattle.java_units.specs.UnitLaws.{IsNested};
ghost use Rattle.java_units.specs.Dimensions.{dims_of_bounds, greatest, bound_dims, params_dims, method_dims, type_dims};
ghost use Rattle.class_summary.specs.Names.{denoted_type};
ghost use Rattle.class_summary.specs.SourceSummaries.{class_of, super_of, parent_of, last_supers, names_super, first_super, interfaces, supers_of, field_of, param_of, result_of, method_of, methods_from, nesting_of, summary_at, IsSourceSummary};

use crate::denoted_types::resolve_at;
use crate::unit_names::UnitNames;
use java_units::{ClassKind, Param, SourceClass, SourceField, SourceMethod, TypeText};
use known_classes::{ClassSummary, Classes, FieldSummary, MethodSummary, Nesting};
use lists::{Copies, Items, Text};
use std::alloc::{AllocError, Global};
use type_names::{Base, Erased, OBJECT};

/// The class that an erased type is: none for a primitive and for an array.
fn class_of(kind: Erased) -> Option<Text>
    ensures { result ≡ class_of kind }
{
    let Erased { dims, base } = kind;
    if dims != 0 {
        return None;
    }
    match base {
        Base::Class(name) => Some(name),
        _ => None,
    }
}

/// The class that a super denotes.
#[tactic(auto, unfolding(crate::specs::SourceSummaries::super_of))]
fn super_of<C: Classes>(
    alloc: Global,
    unit: &UnitNames<'_>,
    class: usize,
    known: &C,
    kind: &TypeText,
) -> Result<Option<Text>, AllocError>
    requires nested { IsNested unit.now.classes }
    requires dims { kind.now.dims + dims_of_bounds unit.now.classes < 2 ^ 64 }
    ensures { IfOk result (λ name. name ≡ super_of unit.now class (C.listed known.now) kind.now) }
{
    Ok(class_of(resolve_at(alloc, unit, class, None, kind, known)?))
}

/// The first super of a class that names no superclass.
fn parent_of(kind: ClassKind) -> &'static str
    ensures { result.now ≡ parent_of kind }
{
    match kind {
        ClassKind::ClassDecl => OBJECT,
        ClassKind::InterfaceDecl => OBJECT,
        ClassKind::EnumDecl => "java/lang/Enum",
        ClassKind::RecordDecl => "java/lang/Record",
        ClassKind::AnnotationDecl => OBJECT,
    }
}

/// A field, with the type that its text denotes.
#[tactic(auto, unfolding(crate::specs::SourceSummaries::field_of))]
fn field_of<C: Classes>(
    alloc: Global,
    unit: &UnitNames<'_>,
    class: usize,
    known: &C,
    field: &SourceField,
) -> Result<FieldSummary, AllocError>
    requires nested { IsNested unit.now.classes }
    requires dims { field.now.kind.dims + dims_of_bounds unit.now.classes < 2 ^ 64 }
    ensures { IfOk result (λ kept. kept ≡ field_of unit.now class (C.listed known.now) field.now) }
{
    let kind = resolve_at(alloc, unit, class, None, &field.kind, known)?;
    Ok(FieldSummary {
        name: field.name.copy(alloc)?,
        flags: field.flags,
        kind,
    })
}

/// The fields.
fn fields_of<C: Classes>(
    alloc: Global,
    unit: &UnitNames<'_>,
    class: usize,
    known: &C,
    fields: &[SourceField],
) -> Result<Items<FieldSummary>, AllocError>
    requires nested { IsNested unit.now.classes }
    requires dims { greatest (λ f. f.kind.dims) fields.now + dims_of_bounds unit.now.classes < 2 ^ 64 }
    ensures { IfOk result (λ kept. kept ≡ map (field_of unit.now class (C.listed known.now)) fields.now) }
{
    let mut kept = Items::new(alloc);
    for i in 0..fields.len() {
        kept.push(field_of(alloc, unit, class, known, &fields[i])?)?;
    }
    Ok(kept)
}

/// The types of the parameters of the method number m.
fn params_of<C: Classes>(
    alloc: Global,
    unit: &UnitNames<'_>,
    class: usize,
    method: usize,
    known: &C,
    params: &[Param],
) -> Result<Items<Erased>, AllocError>
    requires nested { IsNested unit.now.classes }
    requires dims { params_dims params.now + dims_of_bounds unit.now.classes < 2 ^ 64 }
    ensures { IfOk result (λ kept. kept ≡ map (param_of unit.now class method (C.listed known.now)) params.now) }
{
    let mut kept = Items::new(alloc);
    for i in 0..params.len() {
        kept.push(param_of(alloc, unit, class, method, known, &params[i])?)?;
    }
    Ok(kept)
}

/// The type of a parameter of the method number m.
#[tactic(auto, unfolding(crate::specs::SourceSummaries::param_of))]
fn param_of<C: Classes>(
    alloc: Global,
    unit: &UnitNames<'_>,
    class: usize,
    method: usize,
    known: &C,
    param: &Param,
) -> Result<Erased, AllocError>
    requires nested { IsNested unit.now.classes }
    requires dims { param.now.kind.dims + dims_of_bounds unit.now.classes < 2 ^ 64 }
    ensures { IfOk result (λ kind. kind ≡ param_of unit.now class method (C.listed known.now) param.now) }
{
    let kind = resolve_at(alloc, unit, class, Some(method), &param.kind, known)?;
    Ok(kind)
}

/// The type of the result of the method number m.
fn result_of<C: Classes>(
    alloc: Global,
    unit: &UnitNames<'_>,
    class: usize,
    method: usize,
    known: &C,
    kind: &Option<TypeText>,
) -> Result<Option<Erased>, AllocError>
    requires nested { IsNested unit.now.classes }
    requires dims { bound_dims kind.now + dims_of_bounds unit.now.classes < 2 ^ 64 }
    ensures { IfOk result (λ found. found ≡ result_of unit.now class method (C.listed known.now) kind.now) }
{
    let Some(kind) = kind else {
        return Ok(None);
    };
    let found = resolve_at(alloc, unit, class, Some(method), kind, known)?;
    Ok(Some(found))
}

/// The method number m, with the types that its texts denote.
#[tactic(auto, unfolding(crate::specs::SourceSummaries::method_of))]
fn method_of<C: Classes>(
    alloc: Global,
    unit: &UnitNames<'_>,
    class: usize,
    known: &C,
    number: usize,
    method: &SourceMethod,
) -> Result<MethodSummary, AllocError>
    requires nested { IsNested unit.now.classes }
    requires dims { method_dims method.now + dims_of_bounds unit.now.classes < 2 ^ 64 }
    ensures { IfOk result (λ kept. kept ≡ method_of unit.now class (C.listed known.now) number method.now) }
{
    let params = params_of(alloc, unit, class, number, known, method.params.as_slice())?;
    let result = result_of(alloc, unit, class, number, known, &method.result)?;
    Ok(MethodSummary {
        name: method.name.copy(alloc)?,
        flags: method.flags,
        params,
        result,
    })
}

/// The methods.
fn methods_of<C: Classes>(
    alloc: Global,
    unit: &UnitNames<'_>,
    class: usize,
    known: &C,
    methods: &[SourceMethod],
) -> Result<Items<MethodSummary>, AllocError>
    requires nested { IsNested unit.now.classes }
    requires dims { greatest method_dims methods.now + dims_of_bounds unit.now.classes < 2 ^ 64 }
    ensures { IfOk result (λ kept. kept ≡ methods_from unit.now class (C.listed known.now) 0 methods.now) }
{
    let mut kept = Items::new(alloc);
    for i in 0..methods.len() {
        kept.push(method_of(alloc, unit, class, known, i, &methods[i])?)?;
    }
    Ok(kept)
}

/// Whether a superclass is named and counts: a class alone may name one.
fn names_super(declared: &SourceClass) -> bool
    ensures { result ≡ names_super declared.now }
{
    match declared.kind {
        ClassKind::ClassDecl => declared.names_parent,
        ClassKind::InterfaceDecl => false,
        ClassKind::EnumDecl => false,
        ClassKind::RecordDecl => false,
        ClassKind::AnnotationDecl => false,
    }
}

/// The superclass that a class names, where that is a class; else the one of its kind.
#[tactic(auto, unfolding(crate::specs::SourceSummaries::first_super))]
fn first_super<C: Classes>(
    alloc: Global,
    unit: &UnitNames<'_>,
    class: usize,
    known: &C,
    declared: &SourceClass,
) -> Result<Text, AllocError>
    requires nested { IsNested unit.now.classes }
    requires dims { greatest (λ t. t.dims) declared.now.supers + dims_of_bounds unit.now.classes < 2 ^ 64 }
    ensures { IfOk result (λ name. name ≡ first_super unit.now class (C.listed known.now) declared.now) }
{
    if !names_super(declared) {
        return Text::from_str(alloc, parent_of(declared.kind));
    }
    let Some(parent) = declared.supers.get(0) else {
        return Text::from_str(alloc, parent_of(declared.kind));
    };
    let Some(name) = super_of(alloc, unit, class, known, parent)? else {
        return Text::from_str(alloc, parent_of(declared.kind));
    };
    Ok(name)
}

/// The interfaces that a class names.
fn interfaces(declared: &SourceClass) -> &[TypeText]
    ensures { result.now ≡ interfaces declared.now }
{
    let supers = declared.supers.as_slice();
    if !declared.names_parent {
        return supers;
    }
    match supers {
        [] => supers,
        [_, more @ ..] => more,
    }
}

/// The classes that some supers denote.
fn classes_of<C: Classes>(
    alloc: Global,
    unit: &UnitNames<'_>,
    class: usize,
    known: &C,
    supers: &[TypeText],
) -> Result<Items<Text>, AllocError>
    requires nested { IsNested unit.now.classes }
    requires dims { greatest (λ t. t.dims) supers.now + dims_of_bounds unit.now.classes < 2 ^ 64 }
    ensures { IfOk result (λ names. names ≡ filter_map (super_of unit.now class (C.listed known.now)) supers.now) }
{
    let mut names = Items::new(alloc);
    for i in 0..supers.len() {
        let Some(name) = super_of(alloc, unit, class, known, &supers[i])? else {
            continue;
        };
        names.push(name)?;
    }
    Ok(names)
}

/// The supers: the superclass, then each interface that is a class, then what the kind adds.
#[tactic(auto, unfolding(crate::specs::SourceSummaries::supers_of))]
fn supers_of<C: Classes>(
    alloc: Global,
    unit: &UnitNames<'_>,
    class: usize,
    known: &C,
    declared: &SourceClass,
) -> Result<Items<Text>, AllocError>
    requires nested { IsNested unit.now.classes }
    requires dims { greatest (λ t. t.dims) declared.now.supers + dims_of_bounds unit.now.classes < 2 ^ 64 }
    ensures { IfOk result (λ names. names ≡ supers_of unit.now class (C.listed known.now) declared.now) }
{
    let first = first_super(alloc, unit, class, known, declared)?;
    let rest = classes_of(alloc, unit, class, known, interfaces(declared))?;
    let last = last_supers(alloc, declared.kind)?;
    let mut names = Items::new(alloc);
    names.push(first)?;
    names.append(rest)?;
    names.append(last)?;
    Ok(names)
}

/// What follows the interfaces.
fn last_supers(alloc: Global, kind: ClassKind) -> Result<Items<Text>, AllocError>
    ensures { IfOk result (λ names. names ≡ last_supers kind) }
{
    let mut names = Items::new(alloc);
    match kind {
        ClassKind::AnnotationDecl => {
            names.push(Text::from_str(alloc, "java/lang/annotation/Annotation")?)?;
            Ok(names)
        }
        ClassKind::ClassDecl => Ok(names),
        ClassKind::InterfaceDecl => Ok(names),
        ClassKind::EnumDecl => Ok(names),
        ClassKind::RecordDecl => Ok(names),
    }
}

/// How a class stands in the class around it; a top-level class has no nesting.
fn nesting_of(
    alloc: Global,
    unit: &UnitNames<'_>,
    declared: &SourceClass,
) -> Result<Option<Nesting>, AllocError>
    ensures { IfOk result (λ nesting. nesting ≡ nesting_of unit.now declared.now declared.now.outer) }
{
    let Some(outer) = declared.outer else {
        return Ok(None);
    };
    Ok(Some(Nesting {
        outer: Some(unit.internal(alloc, outer as usize)?),
        simple: Some(declared.name.copy(alloc)?),
        flags: declared.flags,
    }))
}

/// The summary of a class of the text.
pub fn summary_at<C: Classes>(
    alloc: Global,
    unit: &UnitNames<'_>,
    class: usize,
    known: &C,
    declared: &SourceClass,
) -> Result<ClassSummary, AllocError>
    requires nested { IsNested unit.now.classes }
    requires dims { type_dims declared.now + dims_of_bounds unit.now.classes < 2 ^ 64 }
    ensures { IfOk result (λ summary. summary ≡ summary_at unit.now class (C.listed known.now) declared.now) }
{
    let name = unit.internal(alloc, class)?;
    let nesting = nesting_of(alloc, unit, declared)?;
    let supers = supers_of(alloc, unit, class, known, declared)?;
    let fields = fields_of(alloc, unit, class, known, declared.fields.as_slice())?;
    let methods = methods_of(alloc, unit, class, known, declared.methods.as_slice())?;
    Ok(ClassSummary {
        name,
        flags: declared.flags,
        nesting,
        supers,
        fields,
        methods,
    })
}
