ghost use Rattle.std.specs.Prelude.{[], ◌∷◌};

use crate::canonical_text::canonical;
use crate::classes::ClassList;
use crate::summary::{ClassSummary, Nesting};
use crate::tables::put;
use lists::{Copies, Items, Text};
use std::alloc::{AllocError, Global};
use std::collections::BTreeMap;

/// The interface `java.util.Map.Entry`, without its members.
fn entry(alloc: Global) -> Result<ClassSummary, AllocError> {
    let mut supers = Items::new(alloc);
    supers.push(Text::from_str(alloc, "java/lang/Object")?)?;
    let nesting = Nesting {
        outer: Some(Text::from_str(alloc, "java/util/Map")?),
        simple: Some(Text::from_str(alloc, "Entry")?),
        flags: 0x0609,
    };
    Ok(ClassSummary {
        name: Text::from_str(alloc, "java/util/Map$Entry")?,
        flags: 0x0601,
        nesting: Some(nesting),
        supers,
        fields: Items::new(alloc),
        methods: Items::new(alloc),
    })
}

/// A list of one class.
#[derive(Drop)]
struct Alone {
    class: ClassSummary,
}

impl ClassList for Alone {
    ghost listed = { λ alone. alone.class ∷ [] };

    fn count(&self) -> usize {
        1
    }

    fn at(&self, place: usize) -> &ClassSummary {
        &self.class
    }

    #[tactic(auto, unfolding(crate::specs::Known::class_named))]
    fn find(&self, name: &str) -> Option<usize> {
        if self.class.name.as_str() == name {
            return Some(0);
        }
        None
    }
}

#[test]
fn a_nested_class_has_a_canonical_name(rt: HostRuntime) -> Result<(), AllocError> {
    let alone = Alone {
        class: entry(rt.alloc())?,
    };
    let name = canonical(rt.alloc(), &alone, &alone.class.name)?;
    assert_eq!(rt; name.as_str(), "java.util.Map.Entry");
    Ok(())
}

#[test]
fn a_copy_of_a_class_says_the_same(rt: HostRuntime) -> Result<(), AllocError> {
    let class = entry(rt.alloc())?;
    let copy = class.copy(rt.alloc())?;
    assert_eq!(rt; copy.name.as_str(), "java/util/Map$Entry");
    assert_eq!(rt; copy.flags, 0x0601);
    assert_eq!(rt; copy.supers.len(), 1);
    assert_eq!(rt; copy.methods.len(), 0);
    assert!(rt; copy.nesting.is_some());
    Ok(())
}

#[test]
fn the_last_number_of_a_name_counts(rt: HostRuntime) -> Result<(), AllocError> {
    let mut numbers = BTreeMap::new(rt.alloc());
    put(rt.alloc(), &mut numbers, "p.A", 3)?;
    put(rt.alloc(), &mut numbers, "p.B", 2)?;
    put(rt.alloc(), &mut numbers, "p.A", 1)?;
    assert!(rt; numbers.get("p.A").copied() == Some(1));
    assert!(rt; numbers.get("p.B").copied() == Some(2));
    assert!(rt; numbers.get("p").is_none());
    Ok(())
}
