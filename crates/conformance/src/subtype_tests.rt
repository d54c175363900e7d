use class_summary::{ClassSummary, Merged};
use decl_index::Index;
use lists::{Items, Text};
use std::alloc::{AllocError, Global};
use std::test::Fail;
use subtyping::Subtypes;
use type_names::read_field;

/// The primitive types, and for each those to which it widens (JLS 5.1.2).
const WIDENINGS: [(&str, &str); 8] = [
    ("B", "SIJFD"),
    ("S", "IJFD"),
    ("C", "IJFD"),
    ("I", "JFD"),
    ("J", "FD"),
    ("F", "D"),
    ("D", ""),
    ("Z", ""),
];

/// Two descriptors, and whether the first type is a strict subtype of the second where no class is known.
const WITHOUT_CLASSES: [(&str, &str, bool); 20] = [
    ("I", "Ljava/lang/Object;", false),
    ("Ljava/lang/Object;", "I", false),
    ("LA;", "Ljava/lang/Object;", true),
    ("LA;", "LA;", false),
    ("LA;", "LB;", false),
    ("Ljava/lang/Object;", "LA;", false),
    ("Ljava/lang/Object;", "Ljava/lang/Object;", false),
    ("[LA;", "Ljava/lang/Cloneable;", true),
    ("[LA;", "Ljava/io/Serializable;", true),
    ("[I", "Ljava/lang/Object;", true),
    ("[I", "Ljava/lang/Cloneable;", true),
    ("[I", "LA;", false),
    ("[LA;", "[Ljava/lang/Object;", true),
    ("[LA;", "[LA;", false),
    ("[I", "[J", false),
    ("[I", "[Ljava/lang/Object;", false),
    ("[[I", "[Ljava/lang/Object;", true),
    ("[[I", "[[Ljava/lang/Object;", false),
    ("[[LA;", "[Ljava/io/Serializable;", true),
    ("LA;", "[LA;", false),
];

/// Whether the first descriptor's type is a strict subtype of the second's.
fn holds(alloc: Global, subtypes: &Subtypes, a: &str, b: &str) -> Result<bool, Fail> {
    let low = read_field(alloc, a)?.ok_or("a type")?;
    let high = read_field(alloc, b)?.ok_or("a type")?;
    Ok(subtypes.is_sub(&low, &high))
}

#[test]
fn primitives_widen_by_the_table(rt: HostRuntime) -> Result<(), Fail> {
    let none = Index::empty(rt.alloc())?;
    let subtypes = Subtypes::new(rt.alloc(), &none)?;
    for (from, wider) in WIDENINGS {
        for (to, _) in WIDENINGS {
            let widens = holds(rt.alloc(), &subtypes, from, to)?;
            assert_eq!(rt; widens, wider.contains(to), "{from} {to}");
        }
    }
    Ok(())
}

#[test]
fn unknown_classes_and_arrays_have_their_steps(rt: HostRuntime) -> Result<(), Fail> {
    let none = Index::empty(rt.alloc())?;
    let subtypes = Subtypes::new(rt.alloc(), &none)?;
    for (a, b, is_sub) in WITHOUT_CLASSES {
        assert_eq!(rt; holds(rt.alloc(), &subtypes, a, b)?, is_sub, "{a} {b}");
    }
    Ok(())
}

/// A class of this name with one super.
fn class(alloc: Global, name: &str, parent: &str) -> Result<ClassSummary, AllocError> {
    let mut supers = Items::new(alloc);
    supers.push(Text::from_str(alloc, parent)?)?;
    Ok(ClassSummary {
        name: Text::from_str(alloc, name)?,
        flags: 1,
        nesting: None,
        supers,
        fields: Items::new(alloc),
        methods: Items::new(alloc),
    })
}

/// `A` below `p/B`, `p/B` below `q/C`, which isn't known, and `Cloneable` below `p/B`.
fn three(alloc: Global) -> Result<Items<ClassSummary>, AllocError> {
    let mut classes = Items::new(alloc);
    classes.push(class(alloc, "A", "p/B")?)?;
    classes.push(class(alloc, "p/B", "q/C")?)?;
    classes.push(class(alloc, "java/lang/Cloneable", "p/B")?)?;
    Ok(classes)
}

/// Two descriptors, and whether the first type is a strict subtype of the second among these three classes.
const WITH_CLASSES: [(&str, &str, bool); 12] = [
    ("LA;", "Ljava/lang/Object;", true),
    ("LA;", "Lp/B;", true),
    ("LA;", "Lq/C;", true),
    ("LA;", "LA;", false),
    ("Lp/B;", "LA;", false),
    ("Lp/B;", "Lq/C;", true),
    ("Lq/C;", "Lp/B;", false),
    ("Lq/C;", "Ljava/lang/Object;", true),
    ("[LA;", "[Lq/C;", true),
    ("[LA;", "Lq/C;", true),
    ("[I", "Lp/B;", true),
    ("Ljava/io/Serializable;", "Lp/B;", false),
];

#[test]
fn known_classes_are_below_what_stands_above_them(rt: HostRuntime) -> Result<(), Fail> {
    let none = Index::empty(rt.alloc())?;
    let known = Merged::new(rt.alloc(), &none, three(rt.alloc())?)?;
    let subtypes = Subtypes::new(rt.alloc(), &known)?;
    for (a, b, is_sub) in WITH_CLASSES {
        assert_eq!(rt; holds(rt.alloc(), &subtypes, a, b)?, is_sub, "{a} {b}");
    }
    Ok(())
}

/// `q/C` and `D`, each below `A`; with the three classes above, `A`, `p/B` and `q/C` stand on a cycle.
fn below_a(alloc: Global) -> Result<Items<ClassSummary>, AllocError> {
    let mut extra = Items::new(alloc);
    extra.push(class(alloc, "q/C", "A")?)?;
    extra.push(class(alloc, "D", "A")?)?;
    Ok(extra)
}

/// Two descriptors, and whether the first type is a strict subtype of the second among these five classes. A step
/// from a class to a super that reaches the class again is left out.
const WITH_A_CYCLE: [(&str, &str, bool); 11] = [
    ("LA;", "Ljava/lang/Object;", true),
    ("LA;", "LA;", false),
    ("LA;", "Lp/B;", false),
    ("LA;", "Lq/C;", false),
    ("Lp/B;", "Lq/C;", false),
    ("Lq/C;", "LA;", false),
    ("LD;", "LA;", true),
    ("LD;", "Lp/B;", false),
    ("Ljava/lang/Cloneable;", "Lp/B;", true),
    ("Ljava/lang/Cloneable;", "Lq/C;", false),
    ("[LA;", "Lp/B;", true),
];

#[test]
fn a_step_that_leads_back_to_the_class_is_left_out(rt: HostRuntime) -> Result<(), Fail> {
    let none = Index::empty(rt.alloc())?;
    let three = Merged::new(rt.alloc(), &none, three(rt.alloc())?)?;
    let known = Merged::new(rt.alloc(), &three, below_a(rt.alloc())?)?;
    let subtypes = Subtypes::new(rt.alloc(), &known)?;
    for (a, b, is_sub) in WITH_A_CYCLE {
        assert_eq!(rt; holds(rt.alloc(), &subtypes, a, b)?, is_sub, "{a} {b}");
    }
    Ok(())
}

/// Whether the second class is listed above the first.
fn is_listed(subtypes: &Subtypes, low: &str, high: &str) -> bool {
    let Some(place) = subtypes.place(low) else {
        return false;
    };
    subtypes.above(place).iter().any(|above| {
        subtypes
            .name(*above)
            .is_some_and(|name| name.as_str() == high)
    })
}

/// Two classes, and whether the second is listed above the first among the three.
const LISTED: [(&str, &str, bool); 6] = [
    ("A", "p/B", true),
    ("A", "q/C", true),
    ("A", "A", false),
    ("p/B", "A", false),
    ("q/C", "p/B", false),
    ("D", "A", false),
];

#[test]
fn what_stands_above_a_class_is_listed(rt: HostRuntime) -> Result<(), Fail> {
    let none = Index::empty(rt.alloc())?;
    let known = Merged::new(rt.alloc(), &none, three(rt.alloc())?)?;
    let subtypes = Subtypes::new(rt.alloc(), &known)?;
    for (low, high, listed) in LISTED {
        assert!(rt; is_listed(&subtypes, low, high) == listed, "{low} {high}");
    }
    Ok(())
}
