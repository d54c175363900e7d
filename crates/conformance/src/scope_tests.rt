ghost use Rattle.std.specs.Prelude.{◌≡◌, ◌∷◌, [], length, Some, IfOk, OnOk};
ghost use Rattle.java_units.specs.UnitLaws.{IsNested};
ghost use Rattle.java_units.specs.Dimensions.{bound_dims, class_dims, dims_of_bounds, over_vars, total};
ghost use Rattle.class_summary.specs.Variables.{IsMethodOf};

use crate::unit_name_tests::{array_of, imports, is_class, library};
use class_summary::resolve_name;
use decl_index::Index;
use java_units::{ClassKind, SourceClass, SourceMethod, TypeText, TypeVar, Unit};
use lists::{Items, Text};
use std::alloc::{AllocError, Global};
use std::test::Fail;

/// A type variable with this bound, or with none where the bound is empty.
fn var_of(alloc: Global, name: &str, bound: &str) -> Result<TypeVar, AllocError>
    ensures { IfOk result (λ v. bound_dims v.bound ≡ 0) }
{
    let name = Text::from_str(alloc, name)?;
    if bound.is_empty() {
        return Ok(TypeVar { name, bound: None });
    }
    let mut parts = Items::new(alloc);
    parts.push(Text::from_str(alloc, bound)?)?;
    Ok(TypeVar {
        name,
        bound: Some(TypeText { parts, dims: 0 }),
    })
}

fn vars_of(alloc: Global, rows: &[(&str, &str)]) -> Result<Items<TypeVar>, AllocError>
    ensures { IfOk result (λ vars. over_vars bound_dims vars ≡ 0) }
{
    let mut vars = Items::new(alloc);
    for row in rows {
        let var = var_of(alloc, row.0, row.1)?;
        vars.push(var)?;
    }
    Ok(vars)
}

/// A list of one method with these variables.
fn one_method(alloc: Global, rows: &[(&str, &str)]) -> Result<Items<SourceMethod>, AllocError>
    ensures one { IfOk result (λ methods. length methods ≡ 1) }
    ensures bounds { IfOk result (λ methods. total (λ m. over_vars bound_dims m.vars) methods ≡ 0) }
{
    let method = SourceMethod {
        name: Text::from_str(alloc, "m")?,
        flags: 1,
        vars: vars_of(alloc, rows)?,
        params: Items::new(alloc),
        result: None,
        body: None,
    };
    let mut methods = Items::new(alloc);
    methods.push(method)?;
    Ok(methods)
}

/// A class with these variables and a method with those.
fn class_with(
    alloc: Global,
    name: &str,
    outer: Option<u32>,
    own: &[(&str, &str)],
    of_method: &[(&str, &str)],
) -> Result<SourceClass, AllocError>
    ensures outer { IfOk result (λ c. c.outer ≡ outer) }
    ensures method { IfOk result (λ c. length c.methods ≡ 1) }
    ensures bounds { IfOk result (λ c. class_dims c ≡ 0) }
{
    Ok(SourceClass {
        name: Text::from_str(alloc, name)?,
        outer,
        kind: ClassKind::ClassDecl,
        flags: 1,
        vars: vars_of(alloc, own)?,
        supers: Items::new(alloc),
        names_parent: false,
        fields: Items::new(alloc),
        methods: one_method(alloc, of_method)?,
    })
}

/// Adds a class, if the one around it stands before it.
fn add_class(classes: &mut Items<SourceClass>, class: SourceClass) -> Result<(), AllocError>
    requires nested { IsNested classes.old }
    requires bounds { dims_of_bounds classes.old ≡ 0 }
    requires own { class_dims class ≡ 0 }
    ensures nested { OnOk result (IsNested classes.new) }
    ensures bounds { OnOk result (dims_of_bounds classes.new ≡ 0) }
{
    if let Some(outer) = class.outer {
        if outer as usize >= classes.len() {
            return Ok(());
        }
    }
    classes.push(class)?;
    Ok(())
}

/// Classes of a text, each with the number of the class around it.
const CLASSES: [(&str, Option<u32>); 5] = [
    ("A", None),
    ("B", Some(0)),
    ("C", Some(1)),
    ("D", Some(0)),
    ("D", None),
];

/// The variable of each class that isn't nested.
const VARS: [(&str, &str); 1] = [("T", "D")];

fn vars_in(outer: Option<u32>) -> &'static [(&'static str, &'static str)] {
    match outer {
        Some(_) => &[],
        None => &VARS,
    }
}

/// `class A<T extends D> { class B { class C {} } class D {} } class D<T extends D> {}`.
fn nested_classes(alloc: Global) -> Result<Items<SourceClass>, AllocError>
    ensures nested { IfOk result (λ classes. IsNested classes) }
    ensures bounds { IfOk result (λ classes. dims_of_bounds classes ≡ 0) }
{
    let mut classes = Items::new(alloc);
    for (name, outer) in CLASSES {
        let class = class_with(alloc, name, outer, vars_in(outer), &[])?;
        add_class(&mut classes, class)?;
    }
    Ok(classes)
}

/// A text of package `p` with these classes.
fn unit_with(alloc: Global, classes: Items<SourceClass>) -> Result<Unit, AllocError>
    ensures { IfOk result (λ u. u.classes ≡ classes) }
{
    let mut package = Items::new(alloc);
    package.push(Text::from_str(alloc, "p")?)?;
    Ok(Unit {
        package,
        imports: imports(alloc)?,
        classes,
    })
}

/// Numbers of classes, names at them, and the classes that these denote.
const NESTED: [(u32, &str, &str); 16] = [
    (0, "A", "p/A"),
    (0, "B", "p/A$B"),
    (0, "C", "p/C"),
    (0, "D", "p/A$D"),
    (0, "T", "p/A$D"),
    (1, "C", "p/A$B$C"),
    (2, "A", "p/A"),
    (2, "B", "p/A$B"),
    (2, "C", "p/A$B$C"),
    (2, "D", "p/A$D"),
    (2, "T", "p/A$D"),
    (3, "C", "p/C"),
    (4, "A", "p/A"),
    (4, "B", "a/B"),
    (4, "D", "p/D"),
    (4, "T", "p/D"),
];

/// Whether a name denotes that class at a class of the text.
fn denotes(
    alloc: Global,
    unit: &Unit,
    known: &Index,
    row: &(u32, &str, &str),
) -> Result<bool, AllocError>
    requires nested { IsNested unit.now.classes }
    requires bounds { dims_of_bounds unit.now.classes ≡ 0 }
{
    if row.0 as usize >= unit.classes.len() {
        return Ok(false);
    }
    let array = array_of(alloc, row.1)?;
    let kind = resolve_name(alloc, unit, row.0, None, &array, known)?;
    Ok(is_class(&kind, 1, row.2))
}

#[test]
fn a_name_denotes_a_class_nested_around_the_place(rt: HostRuntime) -> Result<(), Fail> {
    let known = library(rt.alloc()).ok().ok_or("an index")?;
    let unit = unit_with(rt.alloc(), nested_classes(rt.alloc())?)?;
    for row in &NESTED {
        assert!(rt; denotes(rt.alloc(), &unit, &known, row)?);
    }
    Ok(())
}

/// The variables of a class: those of a cycle, and one whose bound is another.
const OWN: [(&str, &str); 5] = [("T", "B"), ("U", "V"), ("V", "U"), ("W", ""), ("Y", "T")];

/// The variables of its method.
const OF_METHOD: [(&str, &str); 2] = [("T", "K"), ("X", "Y")];

/// A text of package `p` with one class `A` and a method of it.
fn unit_with_vars(alloc: Global) -> Result<Unit, AllocError>
    ensures nested { IfOk result (λ u. IsNested u.classes) }
    ensures count { IfOk result (λ u. length u.classes ≡ 1) }
    ensures method { IfOk result (λ u. IsMethodOf u.classes 0 (Some 0)) }
    ensures bounds { IfOk result (λ u. dims_of_bounds u.classes ≡ 0) }
{
    let class = class_with(alloc, "A", None, &OWN, &OF_METHOD)?;
    let mut classes = Items::new(alloc);
    classes.push(class)?;
    unit_with(alloc, classes)
}

/// Names at the class, and the classes that they denote.
const AT_CLASS: [(u32, &str, &str); 6] = [
    (0, "T", "a/B"),
    (0, "U", "java/lang/Object"),
    (0, "V", "java/lang/Object"),
    (0, "W", "java/lang/Object"),
    (0, "X", "p/X"),
    (0, "Y", "a/B"),
];

/// Names at the method, and the classes that they denote. The bound of `Y` is the `T` of the class.
const AT_METHOD: [(&str, &str); 6] = [
    ("A", "p/A"),
    ("T", "p/K"),
    ("U", "java/lang/Object"),
    ("W", "java/lang/Object"),
    ("X", "a/B"),
    ("Y", "a/B"),
];

#[test]
fn a_name_denotes_the_bound_of_a_variable_of_the_class(rt: HostRuntime) -> Result<(), Fail> {
    let known = library(rt.alloc()).ok().ok_or("an index")?;
    let unit = unit_with_vars(rt.alloc())?;
    for row in &AT_CLASS {
        assert!(rt; denotes(rt.alloc(), &unit, &known, row)?);
    }
    Ok(())
}

#[test]
fn a_name_denotes_the_bound_of_a_variable_of_the_method(rt: HostRuntime) -> Result<(), Fail> {
    let known = library(rt.alloc()).ok().ok_or("an index")?;
    let unit = unit_with_vars(rt.alloc())?;
    for (name, class) in AT_METHOD {
        let array = array_of(rt.alloc(), name)?;
        let kind = resolve_name(rt.alloc(), &unit, 0, Some(0), &array, &known)?;
        assert!(rt; is_class(&kind, 1, class), "{name}");
    }
    Ok(())
}
