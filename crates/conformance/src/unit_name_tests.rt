ghost use Rattle.java_units.specs.UnitLaws.{IsNested};
ghost use Rattle.java_units.specs.Dimensions.{greatest, method_dims, type_dims, class_dims, dims_of_bounds};
ghost use Rattle.std.specs.Prelude.{◌≡◌, [], length, IfOk};

use class_summary::{ClassSummary, Nesting, from_unit, resolve_name};
use decl_index::{Change, ChangeFault, Index};
use java_units::{ClassKind, Import, SourceClass, SourceField, SourceMethod, TypeText, Unit};
use lists::{Items, Text};
use std::alloc::{AllocError, Global};
use std::test::Fail;
use type_names::{Base, Erased};

/// `NAME[]`.
pub fn array_of(alloc: Global, name: &str) -> Result<TypeText, AllocError>
    ensures { IfOk result (λ t. t.dims ≡ 1) }
{
    let mut parts = Items::new(alloc);
    parts.push(Text::from_str(alloc, name)?)?;
    Ok(TypeText { parts, dims: 1 })
}

pub fn is_class(kind: &Erased, dims: u64, name: &str) -> bool {
    match &kind.base {
        Base::Class(own) => own.as_str() == name && kind.dims == dims,
        _ => false,
    }
}

/// `int f;`
fn field_of_int(alloc: Global) -> Result<SourceField, AllocError>
    ensures { IfOk result (λ f. f.kind.dims ≡ 0) }
{
    let mut parts = Items::new(alloc);
    parts.push(Text::from_str(alloc, "int")?)?;
    Ok(SourceField {
        name: Text::from_str(alloc, "f")?,
        flags: 2,
        kind: TypeText { parts, dims: 0 },
    })
}

/// A constructor without parameters.
fn constructor(alloc: Global) -> Result<SourceMethod, AllocError>
    ensures dims { IfOk result (λ m. method_dims m ≡ 0) }
    ensures vars { IfOk result (λ m. m.vars ≡ []) }
{
    Ok(SourceMethod {
        name: Text::from_str(alloc, "<init>")?,
        flags: 1,
        vars: Items::new(alloc),
        params: Items::new(alloc),
        result: None,
        body: None,
    })
}

/// A class `A` of this kind, with a private field and a constructor.
fn class_of_kind(alloc: Global, kind: ClassKind) -> Result<SourceClass, AllocError>
    ensures outer { IfOk result (λ c. c.outer ≡ None) }
    ensures bounds { IfOk result (λ c. class_dims c ≡ 0) }
    ensures types { IfOk result (λ c. type_dims c ≡ 0) }
{
    let mut fields = Items::new(alloc);
    fields.push(field_of_int(alloc)?)?;
    let mut methods = Items::new(alloc);
    methods.push(constructor(alloc)?)?;
    Ok(SourceClass {
        name: Text::from_str(alloc, "A")?,
        outer: None,
        kind,
        flags: 1,
        vars: Items::new(alloc),
        supers: Items::new(alloc),
        names_parent: false,
        fields,
        methods,
    })
}

/// A text with this one class, in no package.
fn unit_of(alloc: Global, class: SourceClass) -> Result<Unit, AllocError>
    requires outer { class.outer ≡ None }
    requires bounds { class_dims class ≡ 0 }
    requires types { type_dims class ≡ 0 }
    ensures nested { IfOk result (λ u. IsNested u.classes) }
    ensures count { IfOk result (λ u. length u.classes ≡ 1) }
    ensures bounds { IfOk result (λ u. dims_of_bounds u.classes ≡ 0) }
    ensures types { IfOk result (λ u. greatest type_dims u.classes ≡ 0) }
{
    let mut classes = Items::new(alloc);
    classes.push(class)?;
    Ok(Unit {
        package: Items::new(alloc),
        imports: Items::new(alloc),
        classes,
    })
}

fn has_super(summary: &ClassSummary, place: usize, name: &str) -> bool {
    match summary.supers.get(place) {
        Some(own) => own.as_str() == name,
        None => false,
    }
}

fn is_of_text(summary: &ClassSummary, first: &str, supers: usize) -> bool {
    if summary.name.as_str() != "A" || summary.nesting.is_some() || summary.flags != 1 {
        return false;
    }
    if summary.fields.len() != 1 || summary.methods.len() != 1 || summary.supers.len() != supers {
        return false;
    }
    has_super(summary, 0, first)
}

/// Kinds of classes, the first super of each, and the number of supers.
const KINDS: [(ClassKind, &str, usize); 5] = [
    (ClassKind::ClassDecl, "java/lang/Object", 1),
    (ClassKind::InterfaceDecl, "java/lang/Object", 1),
    (ClassKind::EnumDecl, "java/lang/Enum", 1),
    (ClassKind::RecordDecl, "java/lang/Record", 1),
    (ClassKind::AnnotationDecl, "java/lang/Object", 2),
];

#[test]
fn a_class_of_a_text_is_summed_up(rt: HostRuntime) -> Result<(), Fail> {
    let known = Index::empty(rt.alloc())?;
    for (kind, first, supers) in KINDS {
        let class = class_of_kind(rt.alloc(), kind)?;
        let unit = unit_of(rt.alloc(), class)?;
        let summary = from_unit(rt.alloc(), &unit, 0, &known)?;
        assert!(rt; is_of_text(&summary, first, supers));
    }
    Ok(())
}

#[test]
fn a_name_denotes_a_class_of_the_text_or_of_java_lang(rt: HostRuntime) -> Result<(), Fail> {
    let known = Index::empty(rt.alloc())?;
    let class = class_of_kind(rt.alloc(), ClassKind::ClassDecl)?;
    let unit = unit_of(rt.alloc(), class)?;
    for (name, class) in [("String", "java/lang/String"), ("A", "A"), ("B", "B")] {
        let array = array_of(rt.alloc(), name)?;
        let kind = resolve_name(rt.alloc(), &unit, 0, None, &array, &known)?;
        assert!(rt; is_class(&kind, 1, class));
    }
    Ok(())
}

/// A list of two parts.
fn two_parts(alloc: Global, first: &str, last: &str) -> Result<Items<Text>, AllocError> {
    let mut parts = Items::new(alloc);
    parts.push(Text::from_str(alloc, first)?)?;
    parts.push(Text::from_str(alloc, last)?)?;
    Ok(parts)
}

fn import_of(alloc: Global, first: &str, last: &str) -> Result<Import, AllocError> {
    Ok(Import {
        parts: two_parts(alloc, first, last)?,
        star: false,
    })
}

/// `import a.B; import z.B; import c.*; import c.O.*;`
pub fn imports(alloc: Global) -> Result<Items<Import>, AllocError> {
    let mut parts = Items::new(alloc);
    parts.push(Text::from_str(alloc, "c")?)?;
    let mut imports = Items::new(alloc);
    imports.push(import_of(alloc, "a", "B")?)?;
    imports.push(import_of(alloc, "z", "B")?)?;
    imports.push(Import { parts, star: true })?;
    imports.push(Import {
        parts: two_parts(alloc, "c", "O")?,
        star: true,
    })?;
    Ok(imports)
}

/// A text of package `p` with these imports and this one class.
fn unit_in_package(alloc: Global, class: SourceClass) -> Result<Unit, AllocError>
    requires outer { class.outer ≡ None }
    requires bounds { class_dims class ≡ 0 }
    ensures nested { IfOk result (λ u. IsNested u.classes) }
    ensures count { IfOk result (λ u. length u.classes ≡ 1) }
    ensures bounds { IfOk result (λ u. dims_of_bounds u.classes ≡ 0) }
{
    let mut package = Items::new(alloc);
    package.push(Text::from_str(alloc, "p")?)?;
    let imports = imports(alloc)?;
    let mut classes = Items::new(alloc);
    classes.push(class)?;
    Ok(Unit {
        package,
        imports,
        classes,
    })
}

/// A class of this name alone.
fn known_class(alloc: Global, name: &str) -> Result<ClassSummary, AllocError> {
    Ok(ClassSummary {
        name: Text::from_str(alloc, name)?,
        flags: 1,
        nesting: None,
        supers: Items::new(alloc),
        fields: Items::new(alloc),
        methods: Items::new(alloc),
    })
}

const KNOWN: [&str; 7] = ["a/B", "c/K", "c/O", "c/S", "java/lang/Math", "p/K", "z/B"];

/// Simple names of known classes nested in `c/O`.
const WITHIN: [&str; 2] = ["I", "S"];

/// A class `c/O$NAME`, nested in `c/O`.
fn class_within(alloc: Global, name: &str) -> Result<ClassSummary, AllocError> {
    let mut class = known_class(alloc, "c/O$")?;
    class.name.push_str(name)?;
    class.nesting = Some(Nesting {
        outer: Some(Text::from_str(alloc, "c/O")?),
        simple: Some(Text::from_str(alloc, name)?),
        flags: 9,
    });
    Ok(class)
}

/// The index of these classes.
pub fn library(alloc: Global) -> Result<Index, ChangeFault> {
    let mut puts = Items::new(alloc);
    for name in KNOWN {
        puts.push(known_class(alloc, name)?)?;
    }
    for name in WITHIN {
        puts.push(class_within(alloc, name)?)?;
    }
    let change = Change::Publish {
        puts,
        removes: Items::new(alloc),
        counts: Items::new(alloc),
    };
    let index = Index::empty(alloc)?;
    if index.number() == u32::MAX {
        return Err(ChangeFault::OutOfMemory);
    }
    index.apply(alloc, &change)
}

/// Names at the class `A` of package `p`, and the classes that they denote.
const NAMES: [(&str, &str); 9] = [
    ("A", "p/A"),
    ("B", "a/B"),
    ("I", "c/O$I"),
    ("O", "c/O"),
    ("K", "p/K"),
    ("S", "c/S"),
    ("Math", "java/lang/Math"),
    ("String", "java/lang/String"),
    ("X", "p/X"),
];

#[test]
fn a_name_denotes_a_class_rule_by_rule(rt: HostRuntime) -> Result<(), Fail> {
    let known = library(rt.alloc()).ok().ok_or("an index")?;
    let class = class_of_kind(rt.alloc(), ClassKind::ClassDecl)?;
    let unit = unit_in_package(rt.alloc(), class)?;
    for (name, class) in NAMES {
        let array = array_of(rt.alloc(), name)?;
        let kind = resolve_name(rt.alloc(), &unit, 0, None, &array, &known)?;
        assert!(rt; is_class(&kind, 1, class), "{name}");
    }
    Ok(())
}

/// Dotted names there, and the classes that they denote.
const DOTTED: [(&str, &str, &str); 3] = [("c", "S", "c/S"), ("A", "N", "p/A$N"), ("q", "Y", "q/Y")];

#[test]
fn a_dotted_name_goes_on_from_its_first_part(rt: HostRuntime) -> Result<(), Fail> {
    let known = library(rt.alloc()).ok().ok_or("an index")?;
    let class = class_of_kind(rt.alloc(), ClassKind::ClassDecl)?;
    let unit = unit_in_package(rt.alloc(), class)?;
    for (first, last, class) in DOTTED {
        let parts = two_parts(rt.alloc(), first, last)?;
        let name = TypeText { parts, dims: 0 };
        let kind = resolve_name(rt.alloc(), &unit, 0, None, &name, &known)?;
        assert!(rt; is_class(&kind, 0, class), "{first} {last}");
    }
    Ok(())
}
