// The tables of a class path beside a look at each class. The stored class path is small; where a file `classes.txt`
// stands in the folder in which the tests run, the class files that it names, one on each line, are compared too.
use class_shape::read_class;
use class_summary::from_shape;
use decl_index::{Change, Index};
use known_classes::{ClassSummary, Classes, Merged, Nesting};
use lists::{Items, Text};
use outside::{FileShelf, Loaded, Shelf};
use std::alloc::{AllocError, Global};
use std::rt::Files;
use std::test::Fail;
use subtyping::Subtypes;
use type_names::{Base, Erased, OBJECT};

/// A class: its name, its supers, the class around it where that isn't empty, and its simple name there, where it has one.
type Row = (
    &'static str,
    &'static [&'static str],
    &'static str,
    &'static str,
);

/// A class path: nested classes, one in a class that isn't known, one without a simple name, `$` in plain names, two of
/// one canonical name, supers that aren't known, interfaces above interfaces.
const STORED: [Row; 17] = [
    ("java/lang/Object", &[], "", ""),
    ("java/lang/String", &["java/lang/Object"], "", ""),
    ("java/util/Map", &["java/lang/Object"], "", ""),
    (
        "java/util/Map$Entry",
        &["java/lang/Object"],
        "java/util/Map",
        "Entry",
    ),
    (
        "java/util/AbstractMap",
        &["java/lang/Object", "java/util/Map"],
        "",
        "",
    ),
    (
        "java/util/HashMap",
        &["java/util/AbstractMap", "java/util/Map", "x/Unknown"],
        "",
        "",
    ),
    (
        "java/util/HashMap$Node",
        &["java/lang/Object", "java/util/Map$Entry"],
        "java/util/HashMap",
        "Node",
    ),
    (
        "java/util/HashMap$Node$Leaf",
        &["java/util/HashMap$Node"],
        "java/util/HashMap$Node",
        "Leaf",
    ),
    (
        "java/util/HashMap$1",
        &["java/lang/Object"],
        "java/util/HashMap",
        "",
    ),
    ("p/A", &["p/B"], "", ""),
    ("p/B", &["p/C", "p/I"], "", ""),
    ("p/C", &["java/lang/Object"], "", ""),
    ("p/I", &["java/lang/Object", "p/J"], "", ""),
    ("p/J", &["java/lang/Object"], "", ""),
    ("p/Money$", &["p/J"], "", ""),
    ("p/Gone$In", &["p/Money$"], "p/Gone", "In"),
    ("p/Gone/In", &["p/I"], "", ""),
];

/// Classes of a text over them: one replaced that has nested classes, one that is nested now, and new ones.
const OVER: [Row; 4] = [
    ("java/util/HashMap", &["java/util/AbstractMap"], "", ""),
    ("p/C", &["p/Made"], "p/Made", "C"),
    ("p/Made", &["java/util/HashMap"], "", ""),
    ("a/In", &["p/A"], "p/Gone", "In"),
];

fn nesting(alloc: Global, row: &Row) -> Result<Option<Nesting>, AllocError> {
    if row.2.is_empty() {
        return Ok(None);
    }
    let simple = if row.3.is_empty() {
        None
    } else {
        Some(Text::from_str(alloc, row.3)?)
    };
    Ok(Some(Nesting {
        outer: Some(Text::from_str(alloc, row.2)?),
        simple,
        flags: 9,
    }))
}

fn class(alloc: Global, row: &Row) -> Result<ClassSummary, AllocError> {
    let mut supers = Items::new(alloc);
    for name in row.1 {
        supers.push(Text::from_str(alloc, name)?)?;
    }
    Ok(ClassSummary {
        name: Text::from_str(alloc, row.0)?,
        flags: 1,
        nesting: nesting(alloc, row)?,
        supers,
        fields: Items::new(alloc),
        methods: Items::new(alloc),
    })
}

fn classes(alloc: Global, rows: &[Row]) -> Result<Items<ClassSummary>, AllocError> {
    let mut classes = Items::new(alloc);
    for row in rows {
        classes.push(class(alloc, row)?)?;
    }
    Ok(classes)
}

/// The index of these classes.
fn index_of(alloc: Global, puts: Items<ClassSummary>) -> Result<Index, Fail> {
    let change = Change::Publish {
        puts,
        removes: Items::new(alloc),
        counts: Items::new(alloc),
    };
    let index = Index::empty(alloc)?;
    if index.number() != 0 {
        return Err("a first version".into());
    }
    Ok(index.apply(alloc, &change).ok().ok_or("no cycle")?)
}

/// The place of the class of this name, by a look at each class.
fn named<C: Classes>(known: &C, name: &str) -> Option<usize> {
    for place in 0..known.count() {
        if known.at(place).name.as_str() == name {
            return Some(place);
        }
    }
    None
}

/// The name with `.` for each `/`.
fn dotted(alloc: Global, name: &str) -> Result<String, AllocError> {
    let mut text = String::new(alloc);
    for letter in name.chars() {
        text.push(if letter == '/' { '.' } else { letter })?;
    }
    Ok(text)
}

/// The names of the class around the class of this name and its simple name there, by a look at each class.
fn around<'a, C: Classes>(known: &'a C, name: &str) -> Option<(&'a str, &'a str)> {
    let place = named(known, name)?;
    if place >= known.count() {
        return None;
    }
    let nesting = known.at(place).nesting.as_ref()?;
    match (&nesting.outer, &nesting.simple) {
        (Some(outer), Some(simple)) => Some((outer.as_str(), simple.as_str())),
        _ => None,
    }
}

/// The canonical name of the class of this name, by a look at each class for each class around it: on a class path
/// without a circle these are fewer than the classes.
fn spelled<C: Classes>(alloc: Global, known: &C, name: &str) -> Result<String, AllocError> {
    let mut outermost = name;
    let mut simples = Vec::new(alloc);
    for _ in 0..known.count() {
        if let Some((outer, simple)) = around(known, outermost) {
            simples.push(simple)?;
            outermost = outer;
        }
    }
    let mut text = dotted(alloc, outermost)?;
    for simple in simples.iter().rev() {
        text.push('.')?;
        text.push_str(simple)?;
    }
    Ok(text)
}

/// The canonical names of all classes, by looks at each class.
fn all_spelled<C: Classes>(alloc: Global, known: &C) -> Result<Items<String>, AllocError> {
    let mut names = Items::new(alloc);
    for place in 0..known.count() {
        let name = known.at(place).name.as_str();
        names.push(spelled(alloc, known, name)?)?;
    }
    Ok(names)
}

/// The place of the lesser name of both.
fn lesser<C: Classes>(known: &C, best: Option<usize>, place: usize) -> Option<usize> {
    match best {
        Some(other) if other < known.count() && place < known.count() => {
            if known.at(other).name.as_str() < known.at(place).name.as_str() {
                best
            } else {
                Some(place)
            }
        }
        _ => Some(place),
    }
}

/// The place of the class with this canonical name, the one of the least name, by a look at each.
fn spelled_so<C: Classes>(known: &C, names: &[String], dotted: &str) -> Option<usize> {
    let mut best = None;
    for (place, name) in names.iter().enumerate() {
        if name.as_str() == dotted {
            best = lesser(known, best, place);
        }
    }
    best
}

/// The place of the class that stands directly in this class under this simple name, by a look at each.
fn standing_in<C: Classes>(known: &C, outer: &str, simple: &str) -> Option<usize> {
    let mut best = None;
    for place in 0..known.count() {
        if let Some(nesting) = &known.at(place).nesting {
            if let (Some(around), Some(own)) = (&nesting.outer, &nesting.simple) {
                if around.as_str() == outer && own.as_str() == simple {
                    best = lesser(known, best, place);
                }
            }
        }
    }
    best
}

/// Whether the tables of names answer as looks at each class do, for each name of a class, one that is none, and
/// each canonical name.
fn names_agree<C: Classes>(alloc: Global, known: &C) -> Result<bool, AllocError> {
    let names = all_spelled(alloc, known)?;
    for (place, dotted) in names.as_slice().iter().enumerate() {
        if place >= known.count() || known.canonical_name(place) != dotted.as_str() {
            return Ok(false);
        }
        let name = known.at(place).name.as_str();
        if known.find(name) != named(known, name)
            || known.find(dotted.as_str()) != named(known, dotted.as_str())
        {
            return Ok(false);
        }
        if known.by_canonical(dotted.as_str())
            != spelled_so(known, names.as_slice(), dotted.as_str())
        {
            return Ok(false);
        }
        if known.by_canonical(name) != spelled_so(known, names.as_slice(), name) {
            return Ok(false);
        }
    }
    Ok(true)
}

/// Whether the classes that stand in others are found there.
fn nestings_agree<C: Classes>(known: &C) -> bool {
    for place in 0..known.count() {
        let class = known.at(place);
        if let Some(nesting) = &class.nesting {
            if let (Some(outer), Some(simple)) = (&nesting.outer, &nesting.simple) {
                let (outer, simple) = (outer.as_str(), simple.as_str());
                if known.nested(outer, simple) != standing_in(known, outer, simple) {
                    return false;
                }
            }
        }
        let name = class.name.as_str();
        if known.nested(name, name) != standing_in(known, name, name) {
            return false;
        }
    }
    true
}

/// Marks the known supers of a class, and answers whether one wasn't marked before.
fn mark_supers<C: Classes>(known: &C, place: usize, marks: &mut [bool]) -> bool {
    let mut is_new = false;
    if place >= known.count() {
        return false;
    }
    for parent in known.at(place).supers.as_slice() {
        if let Some(above) = named(known, parent.as_str()) {
            if let Some(mark) = marks.get_mut(above) {
                if !*mark {
                    *mark = true;
                    is_new = true;
                }
            }
        }
    }
    is_new
}

/// Which known classes stand above the class at a place, by rounds over all classes until nothing is new.
fn marked_above<C: Classes>(
    alloc: Global,
    known: &C,
    place: usize,
) -> Result<Vec<bool>, AllocError> {
    let mut marks = Vec::new(alloc);
    for _ in 0..known.count() {
        marks.push(false)?;
    }
    let mut is_new = mark_supers(known, place, marks.as_mut_slice());
    for _ in 0..known.count() {
        if !is_new {
            return Ok(marks);
        }
        is_new = false;
        for other in 0..known.count() {
            if marks.get(other) == Some(&true) && mark_supers(known, other, marks.as_mut_slice()) {
                is_new = true;
            }
        }
    }
    Ok(marks)
}

/// The type of a class.
fn type_of(alloc: Global, name: &str) -> Result<Erased, AllocError> {
    Ok(Erased {
        dims: 0,
        base: Base::Class(Text::from_str(alloc, name)?),
    })
}

/// Whether the class at a place is below the other classes that its supers lead to, and Object, and no others.
fn row_agrees<C: Classes>(
    alloc: Global,
    known: &C,
    subtypes: &Subtypes,
    place: usize,
) -> Result<bool, AllocError> {
    let marks = marked_above(alloc, known, place)?;
    if place >= known.count() {
        return Ok(false);
    }
    let own = known.at(place).name.as_str();
    let low = type_of(alloc, own)?;
    for other in 0..known.count() {
        let name = known.at(other).name.as_str();
        let is_above = name != own && (name == OBJECT || marks.get(other) == Some(&true));
        if subtypes.is_sub(&low, &type_of(alloc, name)?) != is_above {
            return Ok(false);
        }
    }
    Ok(true)
}

fn subtypes_agree<C: Classes>(alloc: Global, known: &C) -> Result<bool, AllocError> {
    let subtypes = Subtypes::new(alloc, known)?;
    for place in 0..known.count() {
        if !row_agrees(alloc, known, &subtypes, place)? {
            return Ok(false);
        }
    }
    Ok(true)
}

/// Whether names, nestings and subtypes of these classes are those that looks at each class give.
fn agree<C: Classes>(alloc: Global, known: &C) -> Result<bool, AllocError> {
    Ok(names_agree(alloc, known)? && nestings_agree(known) && subtypes_agree(alloc, known)?)
}

/// Whether they agree for these classes, and for these with the classes of a text over them.
fn all_agree(alloc: Global, puts: Items<ClassSummary>) -> Result<bool, Fail> {
    let index = index_of(alloc, puts)?;
    let merged = Merged::new(alloc, &index, classes(alloc, &OVER)?)?;
    Ok(agree(alloc, &index)? && agree(alloc, &merged)?)
}

/// The class of a file, where it is one.
fn class_of_file<'r, R: Files>(
    alloc: Global,
    shelf: &mut FileShelf<'r, R>,
    name: &str,
) -> Result<ClassSummary, Fail> {
    let mut bytes = Vec::new(alloc);
    match shelf.load(name, &mut bytes) {
        Ok(Loaded::Bytes) => {
            let shape = read_class(alloc, bytes.as_slice())
                .ok()
                .ok_or("a class file")?;
            Ok(from_shape(alloc, &shape)?)
        }
        _ => Err("a file".into()),
    }
}

#[test]
fn tables_of_a_stored_class_path_agree_with_looks_at_each_class(
    rt: HostRuntime,
) -> Result<(), Fail> {
    assert!(rt; all_agree(rt.alloc(), classes(rt.alloc(), &STORED)?)?);
    Ok(())
}

#[test]
fn tables_of_a_given_class_path_agree_with_looks_at_each_class(
    rt: HostRuntime,
) -> Result<(), Fail> {
    let alloc = rt.alloc();
    let mut shelf = FileShelf::new(&rt, alloc);
    let mut bytes = Vec::new(alloc);
    if !matches!(shelf.load("classes.txt", &mut bytes), Ok(Loaded::Bytes)) {
        return Ok(());
    }
    let names = str::from_utf8(bytes.as_slice())
        .ok()
        .ok_or("a list in UTF-8")?;
    let mut puts = Items::new(alloc);
    for name in names.split('\n').filter(|name| !name.is_empty()) {
        puts.push(class_of_file(alloc, &mut shelf, name)?)?;
    }
    assert!(rt; all_agree(alloc, puts)?);
    Ok(())
}
