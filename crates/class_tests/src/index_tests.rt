use crate::weight_tests::keeps_ranges;
use decl_index::{Change, ChangeFault, Index, history_laws};
use known_classes::{ClassSummary, Classes, Nesting};
use lists::{Copies, Items, Text};
use std::alloc::Global;
use std::process::Abort;
use type_names::OBJECT;

/// A class: its name, its super, the class around it where that isn't empty, and its simple name there.
type Row<'a> = (&'a str, &'a str, &'a str, &'a str);

fn text(rt: &impl Abort, alloc: Global, word: &str) -> Text {
    Text::from_str(alloc, word).expect(rt, "memory")
}

fn one_text(rt: &impl Abort, alloc: Global, word: &str) -> Items<Text> {
    let mut texts = Items::new(alloc);
    texts.push(text(rt, alloc, word)).expect(rt, "memory");
    texts
}

fn nesting(rt: &impl Abort, alloc: Global, outer: &str, simple: &str) -> Option<Nesting> {
    if outer.is_empty() {
        return None;
    }
    Some(Nesting {
        outer: Some(text(rt, alloc, outer)),
        simple: Some(text(rt, alloc, simple)),
        flags: 0x0009,
    })
}

/// A public class without members.
fn class(rt: &impl Abort, alloc: Global, row: &Row<'_>) -> ClassSummary {
    ClassSummary {
        name: text(rt, alloc, row.0),
        flags: 0x0021,
        nesting: nesting(rt, alloc, row.2, row.3),
        supers: one_text(rt, alloc, row.1),
        fields: Items::new(alloc),
        methods: Items::new(alloc),
    }
}

fn classes(rt: &impl Abort, alloc: Global, rows: &[Row<'_>]) -> Items<ClassSummary> {
    let mut classes = Items::new(alloc);
    for row in rows {
        classes.push(class(rt, alloc, row)).expect(rt, "memory");
    }
    classes
}

/// A publication of these classes alone.
fn publish(rt: &impl Abort, alloc: Global, puts: Items<ClassSummary>) -> Change {
    Change::Publish {
        puts,
        removes: Items::new(alloc),
        counts: Items::new(alloc),
    }
}

fn publication(rt: &impl Abort, alloc: Global, rows: &[Row<'_>]) -> Change {
    publish(rt, alloc, classes(rt, alloc, rows))
}

fn numbered(rt: &impl Abort, alloc: Global, number: usize) -> String {
    format!(in alloc; "p/C{number}").expect(rt, "memory")
}

/// The class `p/CN` for this number, below the class of the next.
fn link(rt: &impl Abort, alloc: Global, number: usize, next: usize) -> ClassSummary {
    let name = numbered(rt, alloc, number);
    let parent = numbered(rt, alloc, next);
    class(rt, alloc, &(name.as_str(), parent.as_str(), "", ""))
}

/// The publication of `p/C0` to the class before this one, each with the next as its super class.
fn chain(rt: &impl Abort, alloc: Global, classes: usize) -> Change {
    let mut puts = Items::new(alloc);
    for number in 0..classes {
        puts.push(link(rt, alloc, number, number + 1))
            .expect(rt, "memory");
    }
    publish(rt, alloc, puts)
}

/// The publication that takes `p/C0` to the class before this one out.
fn removal(rt: &impl Abort, alloc: Global, classes: usize) -> Change {
    let mut removes = Items::new(alloc);
    for number in 0..classes {
        removes
            .push(Text::from_string(numbered(rt, alloc, number)))
            .expect(rt, "memory");
    }
    Change::Publish {
        puts: Items::new(alloc),
        removes,
        counts: Items::new(alloc),
    }
}

fn applied(
    rt: &impl Abort,
    alloc: Global,
    index: &Index,
    change: &Change,
) -> Result<Index, ChangeFault> {
    assert!(rt; index.number() < u32::MAX);
    assert!(rt; keeps_ranges(change));
    index.apply(alloc, change)
}

/// The index after a change that is accepted.
fn after(rt: &impl Abort, alloc: Global, index: &Index, change: &Change) -> Index {
    applied(rt, alloc, index, change).expect(rt, "an index")
}

fn empty(rt: &impl Abort, alloc: Global) -> Index {
    Index::empty(alloc).expect(rt, "memory")
}

/// The index of these classes.
fn index_of(rt: &impl Abort, alloc: Global, rows: &[Row<'_>]) -> Index {
    after(rt, alloc, &empty(rt, alloc), &publication(rt, alloc, rows))
}

/// What is answered to a publication: the name in a fault is the first class on a cycle.
#[derive(Clone, Copy)]
enum Answer {
    Accepted,
    Supers(&'static str),
    Outers(&'static str),
}

fn is_answer(found: &Result<Index, ChangeFault>, wanted: &Answer) -> bool {
    match found {
        Ok(_) => matches!(wanted, Answer::Accepted),
        Err(ChangeFault::Cyclic(name)) => {
            matches!(wanted, Answer::Supers(own) if name.as_str() == *own)
        }
        Err(ChangeFault::NestCycle(name)) => {
            matches!(wanted, Answer::Outers(own) if name.as_str() == *own)
        }
        Err(_) => false,
    }
}

/// Whether a publication of these classes on the index is answered so.
fn answers(
    rt: &impl Abort,
    alloc: Global,
    index: &Index,
    rows: &[Row<'_>],
    wanted: &Answer,
) -> bool {
    is_answer(
        &applied(rt, alloc, index, &publication(rt, alloc, rows)),
        wanted,
    )
}

/// Publications on the empty index: classes with their parents, outer classes and simple names.
const ROWS: [([Row<'static>; 2], Answer); 6] = [
    (
        [("A", "B", "", ""), ("B", "A", "", "")],
        Answer::Supers("A"),
    ),
    (
        [("D", "C", "", ""), ("C", "D", "", "")],
        Answer::Supers("C"),
    ),
    (
        [("p/X", OBJECT, "p/X", "X"), ("p/Y", OBJECT, "", "")],
        Answer::Outers("p/X"),
    ),
    (
        [("p/X", "p/X", "p/X", "X"), ("p/Y", OBJECT, "", "")],
        Answer::Supers("p/X"),
    ),
    (
        [(OBJECT, OBJECT, "", ""), ("A", OBJECT, "", "")],
        Answer::Accepted,
    ),
    (
        [("A", OBJECT, "", ""), ("A", "A", "", "")],
        Answer::Supers("A"),
    ),
];

#[test]
fn cycles_are_refused(rt: HostRuntime) {
    let empty = empty(&rt, rt.alloc());
    for (rows, wanted) in &ROWS {
        assert!(rt; answers(&rt, rt.alloc(), &empty, rows, wanted));
    }
}

#[test]
fn a_withdrawal_counts_as_a_change(rt: HostRuntime) {
    let empty = empty(&rt, rt.alloc());
    let high = applied(&rt, rt.alloc(), &empty, &Change::Withdraw(1));
    assert!(rt; matches!(high, Err(ChangeFault::TooHigh(1))));
    assert!(rt; empty.number() == 0);
    let next = after(&rt, rt.alloc(), &empty, &Change::Withdraw(0));
    assert!(rt; next.number() == 1 && next.count() == 0);
}

#[test]
fn a_class_that_is_removed_and_put_is_there(rt: HostRuntime) {
    let change = Change::Publish {
        puts: classes(&rt, rt.alloc(), &[("A", OBJECT, "", "")]),
        removes: one_text(&rt, rt.alloc(), "A"),
        counts: Items::new(rt.alloc()),
    };
    let copy = change.copy(rt.alloc()).expect(&rt, "memory");
    let next = after(&rt, rt.alloc(), &empty(&rt, rt.alloc()), &copy);
    assert!(rt; next.number() == 1);
    assert!(rt; next.find("A") == Some(0) && next.find("B").is_none());
}

#[test]
fn classes_are_found_by_canonical_names(rt: HostRuntime) {
    let index = index_of(
        &rt,
        rt.alloc(),
        &[("p/A$B", OBJECT, "p/A", "B"), ("p/A", OBJECT, "", "")],
    );
    assert!(rt; index.by_canonical("p.A.B") == Some(1));
    assert!(rt; index.by_canonical("p.A") == Some(0));
    assert!(rt; index.by_canonical("p.A$B").is_none());
    assert!(rt; index.count() == 2);
    assert!(rt; index.at(1).name.as_str() == "p/A$B");
}

fn counts(rt: &impl Abort, alloc: Global, rows: &[(&str, u32)]) -> Items<(Text, u32)> {
    let mut counts = Items::new(alloc);
    for (key, count) in rows {
        counts
            .push((text(rt, alloc, key), *count))
            .expect(rt, "memory");
    }
    counts
}

#[test]
fn the_last_count_of_a_key_counts(rt: HostRuntime) {
    let change = Change::Publish {
        puts: Items::new(rt.alloc()),
        removes: Items::new(rt.alloc()),
        counts: counts(&rt, rt.alloc(), &[("A.m:()V", 7), ("A.m:()V", 9)]),
    };
    let index = after(&rt, rt.alloc(), &empty(&rt, rt.alloc()), &change);
    assert!(rt; index.usage("A.m:()V") == 9 && index.usage("A.n:()V") == 0);
    let later = after(&rt, rt.alloc(), &index, &Change::Withdraw(1));
    assert!(rt; later.usage("A.m:()V") == 9);
}

/// The first super of the class of a name, and `none` where there is none.
fn parent_of<'a>(index: &'a Index, name: &str) -> &'a str {
    match index.find(name) {
        Some(place) => match index.at(place).supers.as_slice().first() {
            Some(parent) => parent.as_str(),
            None => "none",
        },
        None => "none",
    }
}

const FIRST: [Row<'static>; 3] = [
    ("p/A", OBJECT, "", ""),
    ("p/A$B", "p/A", "p/A", "B"),
    ("p/C", OBJECT, "", ""),
];

#[test]
fn a_class_is_replaced(rt: HostRuntime) {
    let old = index_of(&rt, rt.alloc(), &FIRST);
    let next = after(
        &rt,
        rt.alloc(),
        &old,
        &publication(&rt, rt.alloc(), &[("p/A$B", "p/C", "p/A", "B")]),
    );
    assert!(rt; parent_of(&next, "p/A$B") == "p/C");
    assert!(rt; next.count() == 3);
    assert!(rt; next.by_canonical("p.A.B") == Some(1));
    assert!(rt; parent_of(&old, "p/A$B") == "p/A");
    assert!(rt; old.number() == 1);
}

#[test]
fn a_class_is_nested_elsewhere(rt: HostRuntime) {
    let old = index_of(&rt, rt.alloc(), &FIRST);
    let next = after(
        &rt,
        rt.alloc(),
        &old,
        &publication(&rt, rt.alloc(), &[("p/A$B", "p/A", "p/C", "D")]),
    );
    assert!(rt; next.by_canonical("p.A.B").is_none());
    assert!(rt; next.by_canonical("p.C.D") == Some(1));
    assert!(rt; old.by_canonical("p.A.B") == Some(1));
}

#[test]
fn a_change_removes_then_puts_then_counts(rt: HostRuntime) {
    let first = Change::Publish {
        puts: classes(&rt, rt.alloc(), &FIRST),
        removes: Items::new(rt.alloc()),
        counts: counts(&rt, rt.alloc(), &[("p/A.m:()V", 3)]),
    };
    let old = after(&rt, rt.alloc(), &empty(&rt, rt.alloc()), &first);
    let more = Change::Publish {
        puts: classes(
            &rt,
            rt.alloc(),
            &[("p/0", "p/A", "", ""), ("p/0", "p/C", "", "")],
        ),
        removes: one_text(&rt, rt.alloc(), "p/A$B"),
        counts: counts(&rt, rt.alloc(), &[("p/A.m:()V", 5)]),
    };
    let next = after(&rt, rt.alloc(), &old, &more);
    assert!(rt; next.find("p/A$B").is_none());
    assert!(rt; parent_of(&next, "p/0") == "p/C");
    assert!(rt; next.by_canonical("p.C") == Some(2));
    assert!(rt; next.usage("p/A.m:()V") == 5);
    assert!(rt; old.usage("p/A.m:()V") == 3 && old.find("p/A$B") == Some(1));
}

/// Publications on an index of `FIRST`, and what is answered.
const LATER: [([Row<'static>; 2], Answer); 6] = [
    (
        [("p/A", "p/A$B", "", ""), ("p/Z", OBJECT, "", "")],
        Answer::Supers("p/A"),
    ),
    (
        [("p/C", OBJECT, "p/D", "C"), ("p/D", OBJECT, "p/C", "D")],
        Answer::Outers("p/C"),
    ),
    (
        [("p/A", OBJECT, "p/A$B", "A"), ("p/C", "p/C", "", "")],
        Answer::Supers("p/C"),
    ),
    (
        [("p/A", OBJECT, "p/A$B", "A"), ("p/Z", OBJECT, "", "")],
        Answer::Outers("p/A"),
    ),
    (
        [(OBJECT, OBJECT, "", ""), ("p/Z", OBJECT, "", "")],
        Answer::Accepted,
    ),
    (
        [(OBJECT, "p/C", "", ""), ("p/Z", OBJECT, "", "")],
        Answer::Supers("p/C"),
    ),
];

#[test]
fn later_cycles_are_refused(rt: HostRuntime) {
    let old = index_of(&rt, rt.alloc(), &FIRST);
    for (rows, wanted) in &LATER {
        assert!(rt; answers(&rt, rt.alloc(), &old, rows, wanted));
    }
}

#[test]
fn forty_classes_are_put_and_removed(rt: HostRuntime) {
    let forty = after(
        &rt,
        rt.alloc(),
        &empty(&rt, rt.alloc()),
        &chain(&rt, rt.alloc(), 40),
    );
    assert!(rt; forty.count() == 40);
    assert!(rt; parent_of(&forty, "p/C17") == "p/C18");
    assert!(rt; forty.find("p/C10") == Some(2));
    let ten = after(&rt, rt.alloc(), &forty, &removal(&rt, rt.alloc(), 30));
    assert!(rt; ten.count() == 10 && ten.find("p/C29").is_none());
    assert!(rt; parent_of(&ten, "p/C30") == "p/C31");
}

#[test]
fn a_long_chain_is_taken_and_may_not_be_closed(rt: HostRuntime) {
    let long = after(
        &rt,
        rt.alloc(),
        &empty(&rt, rt.alloc()),
        &chain(&rt, rt.alloc(), 300),
    );
    let next = after(
        &rt,
        rt.alloc(),
        &long,
        &publication(&rt, rt.alloc(), &[("A", "p/C0", "", "")]),
    );
    assert!(rt; next.count() == 301);
    assert!(rt; parent_of(&next, "A") == "p/C0");
    let back = [("p/C299", "p/C0", "", "")];
    assert!(rt; answers(&rt, rt.alloc(), &next, &back, &Answer::Supers("p/C0")));
}

#[test]
fn faults_have_numbers(rt: HostRuntime) {
    assert!(rt; ChangeFault::Cyclic(Text::new(rt.alloc())).number() == Some(1));
    assert!(rt; ChangeFault::Full(0).number() == Some(2));
    assert!(rt; ChangeFault::TooHigh(0).number() == Some(3));
    assert!(rt; ChangeFault::JournalFull.number() == Some(4));
    assert!(rt; ChangeFault::NestCycle(Text::new(rt.alloc())).number() == Some(5));
    assert!(rt; ChangeFault::OutOfMemory.number().is_none());
}

/// Several threads may read one index.
fn shared<T: Send + Sync>(_index: &T) -> bool {
    true
}

#[test]
fn an_index_may_be_shared(rt: HostRuntime) {
    history_laws();
    assert!(rt; shared(&empty(&rt, rt.alloc())));
}
