ghost use Rattle.std.specs.Prelude.{◌≡◌, IfOk};

use crate::sources::unit_of;
use class_summary::resolve_name;
use decl_index::Index;
use java_units::TypeText;
use lists::{Items, Text};
use std::alloc::{AllocError, Global};
use std::test::Fail;
use type_names::descriptor;

/// A type of this one name, without dimensions.
fn named(alloc: Global, name: &str) -> Result<TypeText, AllocError>
    ensures dims { IfOk result (λ t. t.dims ≡ 0) }
{
    let mut parts = Items::new(alloc);
    parts.push(Text::from_str(alloc, name)?)?;
    Ok(TypeText { parts, dims: 0 })
}

/// The descriptor of what `String` denotes at the first class of a text, with no class known besides.
fn string_in(alloc: Global, text: &str) -> Result<Text, Fail> {
    let unit = unit_of(alloc, text)?;
    if unit.classes.len() == 0 {
        return Err("a class".into());
    }
    let name = named(alloc, "String")?;
    let none = Index::empty(alloc)?;
    let kind = resolve_name(alloc, &unit, 0, None, &name, &none)?;
    Ok(descriptor(alloc, &kind)?)
}

/// A text, and what `String` denotes at its first class.
const STRINGS: [(&str, &str); 6] = [
    ("package p; class A{}", "Ljava/lang/String;"),
    ("package p; class A{} class String{}", "Lp/String;"),
    ("package p; import q.String; class A{}", "Lq/String;"),
    ("package p; import q.*; class A{}", "Ljava/lang/String;"),
    ("package p; class A{ class String{} }", "Lp/A$String;"),
    ("package p; class A<String>{}", "Ljava/lang/Object;"),
];

#[test]
fn string_denotes_what_the_text_makes_of_it(rt: HostRuntime) -> Result<(), Fail> {
    for (text, wanted) in STRINGS {
        let found = string_in(rt.alloc(), text)?;
        assert_eq!(rt; found.as_str(), wanted, "{text}");
    }
    Ok(())
}
