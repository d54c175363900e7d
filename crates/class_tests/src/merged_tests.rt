use decl_index::{Change, Index};
use known_classes::{ClassSummary, Classes, Merged, Nesting};
use lists::{Items, Text};
use std::alloc::Global;
use std::process::Abort;

/// A class: its name, its flags, the class around it where that isn't empty, and its simple name there.
type Row<'a> = (&'a str, u16, &'a str, &'a str);

fn text(rt: &impl Abort, alloc: Global, word: &str) -> Text {
    Text::from_str(alloc, word).expect(rt, "memory")
}

fn nesting(rt: &impl Abort, alloc: Global, outer: &str, simple: &str) -> Option<Nesting> {
    if outer.is_empty() {
        return None;
    }
    Some(Nesting {
        outer: Some(text(rt, alloc, outer)),
        simple: Some(text(rt, alloc, simple)),
        flags: 9,
    })
}

fn classes(rt: &impl Abort, alloc: Global, rows: &[Row<'_>]) -> Items<ClassSummary> {
    let mut classes = Items::new(alloc);
    for row in rows {
        let class = ClassSummary {
            name: text(rt, alloc, row.0),
            flags: row.1,
            nesting: nesting(rt, alloc, row.2, row.3),
            supers: Items::new(alloc),
            fields: Items::new(alloc),
            methods: Items::new(alloc),
        };
        classes.push(class).expect(rt, "memory");
    }
    classes
}

/// The index of the classes of `BASE`.
fn base(rt: &impl Abort, alloc: Global) -> Index {
    let change = Change::Publish {
        puts: classes(rt, alloc, &BASE),
        removes: Items::new(alloc),
        counts: Items::new(alloc),
    };
    let index = Index::empty(alloc).expect(rt, "memory");
    assert!(rt; index.number() < u32::MAX);
    index.apply(alloc, &change).expect(rt, "an index")
}

/// These classes over those of an index.
fn merged<'a>(
    rt: &impl Abort,
    alloc: Global,
    index: &'a Index,
    rows: &[Row<'_>],
) -> Merged<'a, Index> {
    Merged::new(alloc, index, classes(rt, alloc, rows)).expect(rt, "memory")
}

/// The flags of the class at this place, 0 where there is none.
fn flags_at<C: Classes>(known: &C, place: Option<usize>) -> u16 {
    match place {
        Some(place) if place < known.count() => known.at(place).flags,
        _ => 0,
    }
}

/// Whether the classes of these canonical names have these flags.
fn are_called<C: Classes>(known: &C, rows: &[(&str, u16)]) -> bool {
    for (name, flags) in rows {
        if flags_at(known, known.by_canonical(name)) != *flags {
            return false;
        }
    }
    true
}

/// Whether the classes of these outer classes and simple names have these flags.
fn are_nested<C: Classes>(known: &C, rows: &[(&str, &str, u16)]) -> bool {
    for (outer, name, flags) in rows {
        if flags_at(known, known.nested(outer, name)) != *flags {
            return false;
        }
    }
    true
}

const BASE: [Row<'static>; 4] = [
    ("p/A", 1, "", ""),
    ("p/A$B", 2, "p/A", "B"),
    ("p/C", 3, "", ""),
    ("p/C$D", 4, "p/C", "D"),
];

/// `p/A` is replaced twice, `p/E` is added twice, and `p/C` is now within `p/E`.
const EXTRA: [Row<'static>; 7] = [
    ("p/A", 11, "", ""),
    ("p/E", 12, "", ""),
    ("p/C", 13, "p/E", "X"),
    ("p/A", 14, "", ""),
    ("p/E", 15, "", ""),
    ("p/R", 16, "p/S", "R"),
    ("p/S", 17, "p/R", "S"),
];

/// The flags by places.
const PLACES: [u16; 7] = [14, 2, 13, 4, 15, 16, 17];

/// Internal names, and the flags of their classes.
const NAMES: [(&str, u16); 8] = [
    ("p/A", 14),
    ("p/A$B", 2),
    ("p/C", 13),
    ("p/C$D", 4),
    ("p/E", 15),
    ("p/R", 16),
    ("p/F", 0),
    ("", 0),
];

/// Canonical names, and the flags of their classes.
const CALLED: [(&str, u16); 11] = [
    ("p.A", 14),
    ("p.A.B", 2),
    ("p.C", 0),
    ("p.C.D", 0),
    ("p.E.X", 13),
    ("p.E.X.D", 4),
    ("p.E", 15),
    ("p.R", 16),
    ("p.S.R", 0),
    ("p.S", 17),
    ("D", 0),
];

#[test]
fn merged_classes_stand_in_their_places(rt: HostRuntime) {
    let index = base(&rt, rt.alloc());
    let known = merged(&rt, rt.alloc(), &index, &EXTRA);
    assert!(rt; known.count() == PLACES.len());
    for place in 0..PLACES.len() {
        assert!(rt; flags_at(&known, Some(place)) == PLACES[place]);
    }
}

#[test]
fn merged_classes_are_found_by_name(rt: HostRuntime) {
    let index = base(&rt, rt.alloc());
    let known = merged(&rt, rt.alloc(), &index, &EXTRA);
    for (name, flags) in &NAMES {
        assert!(rt; flags_at(&known, known.find(name)) == *flags);
    }
}

#[test]
fn merged_classes_are_found_by_canonical_name(rt: HostRuntime) {
    let index = base(&rt, rt.alloc());
    let known = merged(&rt, rt.alloc(), &index, &EXTRA);
    assert!(rt; are_called(&known, &CALLED));
}

/// Classes that stand before the ones around them: three in another, one in a class that isn't known, two in each other, and one in
/// one of these.
const OUT_OF_ORDER: [Row<'static>; 8] = [
    ("a/A$B$C", 21, "a/A$B", "C"),
    ("a/A$B", 22, "a/A", "B"),
    ("a/A$B$D", 23, "a/A$B", "D"),
    ("a/A", 24, "", ""),
    ("x/Y$Z", 25, "x/Y", "Z"),
    ("q/P$Q$I", 26, "q/P$Q", "I"),
    ("q/P$Q", 27, "q/P$R", "Q"),
    ("q/P$R", 28, "q/P$Q", "R"),
];

/// Canonical names, and the flags of their classes.
const OUT_OF_ORDER_CALLED: [(&str, u16); 10] = [
    ("a.A.B.C", 21),
    ("a.A.B", 22),
    ("a.A.B.D", 23),
    ("a.A", 24),
    ("x.Y.Z", 25),
    ("q.P$Q.I", 26),
    ("q.P$Q", 27),
    ("q.P$R", 28),
    ("p.A.B", 2),
    ("p.C.D", 4),
];

#[test]
fn names_are_made_in_whatever_order_classes_stand(rt: HostRuntime) {
    let index = base(&rt, rt.alloc());
    let known = merged(&rt, rt.alloc(), &index, &OUT_OF_ORDER);
    assert!(rt; are_called(&known, &OUT_OF_ORDER_CALLED));
}

/// Classes that leave the names of the others as they are: `p/A` keeps its nesting, the others are new.
const BESIDE: [Row<'static>; 4] = [
    ("p/A", 11, "", ""),
    ("p/A$N", 12, "p/A", "N"),
    ("p/A$N$M", 13, "p/A$N", "M"),
    ("p/E", 14, "", ""),
];

/// Canonical names, and the flags of their classes.
const BESIDE_CALLED: [(&str, u16); 7] = [
    ("p.A", 11),
    ("p.A.B", 2),
    ("p.A.N", 12),
    ("p.A.N.M", 13),
    ("p.C.D", 4),
    ("p.E", 14),
    ("p.A$N", 0),
];

/// Outer classes and simple names, and the flags of their classes.
const BESIDE_NESTED: [(&str, &str, u16); 6] = [
    ("p/A", "B", 2),
    ("p/A", "N", 12),
    ("p/A$N", "M", 13),
    ("p/C", "D", 4),
    ("p/A", "D", 0),
    ("", "B", 0),
];

/// The same where classes of the base have other names in the merge.
const NESTED: [(&str, &str, u16); 4] = [
    ("p/E", "X", 13),
    ("p/C", "D", 4),
    ("p/S", "R", 16),
    ("p/A", "X", 0),
];

/// The canonical name of the class of this name, empty where there is none.
fn canonical_of<'a, C: Classes>(known: &'a C, name: &str) -> &'a str {
    match known.find(name) {
        Some(place) if place < known.count() => known.canonical_name(place),
        _ => "",
    }
}

#[test]
fn a_merge_beside_its_base_is_found_by_canonical_name(rt: HostRuntime) {
    let index = base(&rt, rt.alloc());
    let known = merged(&rt, rt.alloc(), &index, &BESIDE);
    assert!(rt; are_called(&known, &BESIDE_CALLED));
    assert_eq!(rt; canonical_of(&known, "p/A$N$M"), "p.A.N.M");
    assert_eq!(rt; canonical_of(&known, "p/C$D"), "p.C.D");
}

#[test]
fn a_merge_beside_its_base_knows_nested_classes(rt: HostRuntime) {
    let index = base(&rt, rt.alloc());
    let known = merged(&rt, rt.alloc(), &index, &BESIDE);
    assert!(rt; are_nested(&known, &BESIDE_NESTED));
    assert!(rt; known.surrounds("p/C") && known.surrounds("p/A$N"));
    assert!(rt; !known.surrounds("p/E"));
}

#[test]
fn a_merge_that_moves_classes_knows_nested_classes(rt: HostRuntime) {
    let index = base(&rt, rt.alloc());
    let known = merged(&rt, rt.alloc(), &index, &EXTRA);
    assert!(rt; are_nested(&known, &NESTED));
    assert_eq!(rt; canonical_of(&known, "p/C$D"), "p.E.X.D");
    assert!(rt; known.surrounds("p/S"));
}
