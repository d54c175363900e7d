// Small texts and the classes that they see: what is offered at a hole in the first method of the first class.
ghost use Rattle.std.specs.Prelude.{◌+◌, ◌<◌, ◌^◌, IfOk};
ghost use Rattle.java_units.specs.UnitLaws.{IsNested};
ghost use Rattle.java_units.specs.Dimensions.{dims_of_bounds, greatest, type_dims};
ghost use Rattle.offers.specs.Sites.{IsSiteOf};

use class_summary::Resolver;
use decl_index::{Change, Index};
use java_bodies::HoleSite;
use java_tokens::tokens;
use java_units::{TypeText, Unit, read_unit};
use lists::{Items, Text};
use offers::{Offer, offered_members};
use std::alloc::{AllocError, Global};
use std::test::Fail;
use type_names::descriptor;

/// The unit of a text.
fn unit_of(alloc: Global, text: &str) -> Result<Unit, AllocError>
    ensures nested { IfOk result (λ u. IsNested u.classes) }
    ensures dims { IfOk result (λ u. greatest type_dims u.classes + dims_of_bounds u.classes < 2 ^ 64) }
{
    if text.len() > 16_777_216 {
        return Err(AllocError);
    }
    let all = tokens(alloc, text)?;
    read_unit(alloc, text, all.as_slice())
}

/// A hole in the first method of the first class, at which an `int` is asked for.
fn site_of(alloc: Global, unit: &Unit) -> Result<HoleSite, AllocError>
    requires nested { IsNested unit.now.classes }
    requires dims { greatest type_dims unit.now.classes + dims_of_bounds unit.now.classes < 2 ^ 64 }
    ensures { IfOk result (IsSiteOf unit.now) }
{
    let Some(class) = unit.classes.get(0) else {
        return Err(AllocError);
    };
    if class.methods.len() == 0 {
        return Err(AllocError);
    }
    let mut parts = Items::new(alloc);
    parts.push(Text::from_str(alloc, "int")?)?;
    Ok(HoleSite {
        wanted: TypeText { parts, dims: 0 },
        class: 0,
        method: 0,
        is_static: false,
        locals: Items::new(alloc),
        hidden: Items::new(alloc),
        prefix: (0, 0),
    })
}

/// The index of the classes of these texts, each of which sees those of the texts before it.
fn published(alloc: Global, texts: &[&str]) -> Result<Index, Fail> {
    let mut index = Index::empty(alloc)?;
    for text in texts {
        let unit = unit_of(alloc, text)?;
        let change = Change::Publish {
            puts: Resolver::new(alloc, &unit, &index)?.summaries(alloc)?,
            removes: Items::new(alloc),
            counts: Items::new(alloc),
        };
        if index.number() == u32::MAX {
            return Err(Fail::from("too many texts"));
        }
        index = index.apply(alloc, &change).ok().ok_or("an index")?;
    }
    Ok(index)
}

/// What is offered in a text among the classes of other texts.
fn offer_in(alloc: Global, texts: &[&str], text: &str) -> Result<Offer, Fail> {
    let index = published(alloc, texts)?;
    let unit = unit_of(alloc, text)?;
    let site = site_of(alloc, &unit)?;
    Ok(offered_members(alloc, &index, &unit, &site)?)
}

/// The members as `OWNER.NAME`, each with a space behind it.
fn members_of(alloc: Global, offer: &Offer) -> Result<Text, AllocError> {
    let mut out = Text::new(alloc);
    for member in offer.members.as_slice() {
        out.push_str(member.owner.as_str())?;
        out.push_str(".")?;
        out.push_str(member.name.as_str())?;
        out.push_str(" ")?;
    }
    Ok(out)
}

/// The descriptors of the types, and then the functional interfaces, each with a space behind it.
fn types_of(alloc: Global, offer: &Offer) -> Result<Text, AllocError> {
    let mut out = Text::new(alloc);
    for kind in offer.types.as_slice() {
        out.push_str(descriptor(alloc, kind)?.as_str())?;
        out.push_str(" ")?;
    }
    for face in offer.faces.as_slice() {
        out.push_str(face.name.as_str())?;
        out.push_str(" ")?;
    }
    Ok(out)
}

/// Classes that no constructor is offered of, but of `r.C`.
const LIBRARY: [&str; 4] = [
    "package q; public class A { public int open; int near; private int closed; public static int s; public int m() {} private A() {} }",
    "package q; public class B extends A { public int m() {} private B() {} }",
    "package r; public class C { public C() {} }",
    "package r; public abstract class D extends q.B { public D() {} int near() {} }",
];

/// Imports, and the members that they add to those of the class itself.
const IMPORTS: [(&str, &str); 7] = [
    ("", ""),
    ("import q.A;", "q/A.open q/A.s q/A.m "),
    ("import q.B;", "q/B.m "),
    ("import q.*;", "q/A.open q/A.s q/A.m "),
    (
        "import q.A; import r.C;",
        "q/A.open q/A.s q/A.m r/C.<init> ",
    ),
    ("import r.*;", "r/C.<init> "),
    ("import q.A.*;", ""),
];

/// A text of package `p` with these imports, and one field of this name.
fn text_with(alloc: Global, imports: &str, field: &str) -> Result<Text, AllocError> {
    let mut text = Text::from_str(alloc, "package p; ")?;
    text.push_str(imports)?;
    text.push_str(" class Use { private int ")?;
    text.push_str(field)?;
    text.push_str("; private int go() { return ")?;
    Ok(text)
}

#[test]
fn imports_bring_members(rt: HostRuntime) -> Result<(), Fail> {
    for (imports, added) in IMPORTS {
        let text = text_with(rt.alloc(), imports, "f")?;
        let offer = offer_in(rt.alloc(), &LIBRARY, text.as_str())?;
        let members = members_of(rt.alloc(), &offer)?;
        let mut all = Text::from_str(rt.alloc(), "p/Use.f p/Use.go p/Use.<init> ")?;
        all.push_str(added)?;
        assert_eq!(rt; members.as_str(), all.as_str());
    }
    Ok(())
}

/// A name of the class's field, and the static members of `q.A` that are offered with it.
const HIDDEN: [(&str, &str); 3] = [("f", "q/A.s "), ("A", ""), ("s", "q/A.s ")];

#[test]
fn a_field_hides_a_class_of_its_name(rt: HostRuntime) -> Result<(), Fail> {
    let library = ["package q; public class A { public static int s; private A() {} }"];
    for (field, added) in HIDDEN {
        let text = text_with(rt.alloc(), "import q.A;", field)?;
        let offer = offer_in(rt.alloc(), &library, text.as_str())?;
        let members = members_of(rt.alloc(), &offer)?;
        let mut all = Text::from_str(rt.alloc(), "p/Use.")?;
        all.push_str(field)?;
        all.push_str(" p/Use.go p/Use.<init> ")?;
        all.push_str(added)?;
        assert_eq!(rt; members.as_str(), all.as_str());
    }
    Ok(())
}

/// The body of an interface `p.I`, and the types of values that are mentioned with the functional interfaces.
const INTERFACES: [(&str, &str); 10] = [
    ("", "I Ljava/lang/String; Lp/Use; Z "),
    ("int m();", "I Ljava/lang/String; Lp/I; Lp/Use; Z p/I "),
    ("void m();", "I Ljava/lang/String; Lp/I; Lp/Use; Z p/I "),
    (
        "void m(); int n();",
        "I Ljava/lang/String; Lp/I; Lp/Use; Z ",
    ),
    (
        "void m(); int m(long l);",
        "I J Ljava/lang/String; Lp/I; Lp/Use; Z ",
    ),
    (
        "void m(); default void n() {} void wait();",
        "I Ljava/lang/String; Lp/I; Lp/Use; Z p/I ",
    ),
    ("int m(); int n();", "I Ljava/lang/String; Lp/I; Lp/Use; Z "),
    (
        "int m(); default int n() {}",
        "I Ljava/lang/String; Lp/I; Lp/Use; Z p/I ",
    ),
    (
        "long m(short[] s);",
        "I J Ljava/lang/String; Lp/I; Lp/Use; Z [S p/I ",
    ),
    (
        "int m(); int hashCode();",
        "I Ljava/lang/String; Lp/I; Lp/Use; Z p/I ",
    ),
];

/// A text of package `p` with one interface.
fn interface_with(alloc: Global, body: &str) -> Result<Text, AllocError> {
    let mut text = Text::from_str(alloc, "package p; public interface I { ")?;
    text.push_str(body)?;
    text.push_str(" }")?;
    Ok(text)
}

#[test]
fn an_interface_of_one_promise_is_functional(rt: HostRuntime) -> Result<(), Fail> {
    let text = text_with(rt.alloc(), "", "f")?;
    for (body, all) in INTERFACES {
        let interface = interface_with(rt.alloc(), body)?;
        let offer = offer_in(rt.alloc(), &[interface.as_str()], text.as_str())?;
        let types = types_of(rt.alloc(), &offer)?;
        assert_eq!(rt; types.as_str(), all);
    }
    Ok(())
}

/// The interface that annotations are below, and an annotation.
const ANNOTATION: [&str; 2] = [
    "package java.lang.annotation; public interface Annotation { int annotationType(); int hashCode(); String toString(); }",
    "package p; public @interface Mark {}",
];

#[test]
fn an_annotation_is_functional_where_its_super_is_known(rt: HostRuntime) -> Result<(), Fail> {
    let text = text_with(rt.alloc(), "", "f")?;
    let offer = offer_in(rt.alloc(), &ANNOTATION, text.as_str())?;
    let types = types_of(rt.alloc(), &offer)?;
    assert_eq!(rt;
        types.as_str(),
        "I Ljava/lang/String; Lp/Mark; Lp/Use; Z p/Mark "
    );
    let alone = offer_in(
        rt.alloc(),
        &["package p; public @interface Mark {}"],
        text.as_str(),
    )?;
    let types = types_of(rt.alloc(), &alone)?;
    assert_eq!(rt; types.as_str(), "I Ljava/lang/String; Lp/Use; Z ");
    Ok(())
}

/// Whether these are the pairs.
fn are_pairs(offer: &Offer, pairs: &[(u32, u32)]) -> bool {
    if offer.pairs.len() != pairs.len() {
        return false;
    }
    for i in 0..pairs.len() {
        match offer.pairs.get(i) {
            Some(pair) if pair.0 == pairs[i].0 && pair.1 == pairs[i].1 => {}
            _ => return false,
        }
    }
    true
}

/// A class with three classes above it, each of which gives a value of itself.
const TOWER: [&str; 4] = [
    "package p; public interface J { J j(); int k(); }",
    "package p; public interface K extends J { K h(); }",
    "package p; public class L implements K { public L l; private L() {} }",
    "package p; public class M extends L { public M[] m; private M() {} }",
];

#[test]
fn pairs_are_of_types_below_others(rt: HostRuntime) -> Result<(), Fail> {
    let text = text_with(rt.alloc(), "", "f")?;
    let offer = offer_in(rt.alloc(), &TOWER, text.as_str())?;
    let types = types_of(rt.alloc(), &offer)?;
    assert_eq!(rt;
        types.as_str(),
        "I Ljava/lang/String; Lp/J; Lp/K; Lp/L; Lp/M; Lp/Use; Z [Lp/M; "
    );
    assert!(rt; are_pairs(&offer, &[(3, 2), (4, 2), (4, 3), (5, 2), (5, 3), (5, 4)]));
    Ok(())
}
