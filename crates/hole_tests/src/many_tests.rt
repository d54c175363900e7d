// A published class with very many members of one name.
use crate::holes::{made, with_change};
use crate::scope_tests::shown;
use class_summary::{ClassSummary, FieldSummary, MethodSummary};
use decl_index::{Change, Index};
use lists::{Items, Text};
use std::alloc::{AllocError, Global};
use std::test::Fail;
use type_names::{Base, Erased};

const PUBLIC: u16 = 0x0001;

fn int() -> Erased {
    Erased {
        dims: 0,
        base: Base::Int,
    }
}

/// The class `q.A` with so many fields `f` and methods `m()`.
fn repeating(alloc: Global, count: usize) -> Result<ClassSummary, AllocError> {
    let mut fields = Items::new(alloc);
    let mut methods = Items::new(alloc);
    for _ in 0..count {
        fields.push(FieldSummary {
            name: Text::from_str(alloc, "f")?,
            flags: PUBLIC,
            kind: int(),
        })?;
        methods.push(MethodSummary {
            name: Text::from_str(alloc, "m")?,
            flags: PUBLIC,
            params: Items::new(alloc),
            result: Some(int()),
        })?;
    }
    Ok(ClassSummary {
        name: Text::from_str(alloc, "q/A")?,
        flags: PUBLIC,
        nesting: None,
        supers: Items::new(alloc),
        fields,
        methods,
    })
}

/// The index of a class.
fn index_of(alloc: Global, class: ClassSummary) -> Result<Index, Fail> {
    let mut puts = Items::new(alloc);
    puts.push(class)?;
    let change = Change::Publish {
        puts,
        removes: Items::new(alloc),
        counts: Items::new(alloc),
    };
    with_change(alloc, &Index::empty(alloc)?, &change)
}

const TEXT: &str = "package q; class Use { static void go() { int r = ";

const SHOWN: &str =
    "int String A Use void boolean \n\n200 name 0 -> int \n200 name true -> boolean \n200 name false -> boolean \n200 name \"\" -> String \n25 field f A -> int \n25 method m A -> int \n20 call Use.go -> void \n20 new Use -> Use \nint p";

/// The first of each kind counts.
#[test]
fn sixty_thousand_members_have_one_name(rt: HostRuntime) -> Result<(), Fail> {
    let index = index_of(rt.alloc(), repeating(rt.alloc(), 60_000)?)?;
    let place = u32::try_from(TEXT.len()).map_err(|_| Fail::from("a short text"))?;
    let env = made(rt.alloc(), &index, TEXT, place, 45)?;
    let all = shown(rt.alloc(), &env)?;
    assert_eq!(rt; all.as_str(), SHOWN);
    Ok(())
}
