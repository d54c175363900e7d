// Source texts, and their classes as lines of text.
ghost use Rattle.std.specs.Prelude.{◌≤◌, All, length, IfOk};

use class_summary::{ClassSummary, FieldSummary, MethodSummary};
use lists::{Items, Text};
use source_classes::with_source_classes;
use std::alloc::{AllocError, Global};
use std::thread::Threads;
use type_names::descriptor;

/// These texts, each of at most 16 MiB.
fn texts_of(alloc: Global, words: &[&str]) -> Result<Items<Text>, AllocError>
    ensures { IfOk result (λ texts. All (λ text. length text ≤ 16777216) texts) }
{
    let mut texts = Items::new(alloc);
    for i in 0..words.len() {
        let text = Text::from_str(alloc, words[i])?;
        if text.len() > 16_777_216 {
            return Err(AllocError);
        }
        texts.push(text)?;
    }
    Ok(texts)
}

/// Names, as a list.
fn names_of(alloc: Global, words: &[&str]) -> Result<Items<Text>, AllocError> {
    let mut names = Items::new(alloc);
    for word in words {
        names.push(Text::from_str(alloc, *word)?)?;
    }
    Ok(names)
}

/// The classes of these texts, behind those that are put, where classes of these names are known.
pub fn classes_behind<R: Threads + Sync>(
    rt: &R,
    alloc: Global,
    puts: Items<ClassSummary>,
    texts: &[&str],
    known: &[&str],
) -> Result<Items<ClassSummary>, AllocError> {
    let names = names_of(alloc, known)?;
    let all = texts_of(alloc, texts)?;
    with_source_classes(rt, alloc, puts, names.as_slice(), all.as_slice())
}

/// The classes of these texts, where classes of these names are known.
pub fn classes_of<R: Threads + Sync>(
    rt: &R,
    alloc: Global,
    texts: &[&str],
    known: &[&str],
) -> Result<Items<ClassSummary>, AllocError> {
    classes_behind(rt, alloc, Items::new(alloc), texts, known)
}

fn add_field(alloc: Global, line: &mut Text, field: &FieldSummary) -> Result<(), AllocError> {
    let kind = descriptor(alloc, &field.kind)?;
    let word = format!(in alloc;
        " {} {}:{}",
        field.flags,
        field.name.as_str(),
        kind.as_str()
    )?;
    line.push_str(word.as_str())
}

fn add_method(alloc: Global, line: &mut Text, method: &MethodSummary) -> Result<(), AllocError> {
    let word = format!(in alloc; " {} {}(", method.flags, method.name.as_str())?;
    line.push_str(word.as_str())?;
    for param in method.params.as_slice() {
        line.push_str(descriptor(alloc, param)?.as_str())?;
    }
    line.push_str(")")?;
    match &method.result {
        Some(kind) => line.push_str(descriptor(alloc, kind)?.as_str()),
        None => line.push_str("V"),
    }
}

fn text_of(text: &Option<Text>) -> &str {
    match text {
        Some(text) => text.as_str(),
        None => "-",
    }
}

/// A class in one line: its flags and name, where it is nested, its supers, its fields and its methods.
fn line_of(alloc: Global, class: &ClassSummary) -> Result<Text, AllocError> {
    let head = format!(in alloc; "{} {}", class.flags, class.name.as_str())?;
    let mut line = Text::from_string(head);
    if let Some(nesting) = &class.nesting {
        let outer = text_of(&nesting.outer);
        let simple = text_of(&nesting.simple);
        let word = format!(in alloc; " in {} {} {}", nesting.flags, outer, simple)?;
        line.push_str(word.as_str())?;
    }
    line.push_str(":")?;
    for name in class.supers.as_slice() {
        line.push_str(" ")?;
        line.push_str(name.as_str())?;
    }
    line.push_str(";")?;
    for field in class.fields.as_slice() {
        add_field(alloc, &mut line, field)?;
    }
    line.push_str(";")?;
    for method in class.methods.as_slice() {
        add_method(alloc, &mut line, method)?;
    }
    Ok(line)
}

/// A line for each of these classes.
pub fn lines_of(alloc: Global, classes: &[ClassSummary]) -> Result<Items<Text>, AllocError> {
    let mut lines = Items::new(alloc);
    for class in classes {
        lines.push(line_of(alloc, class)?)?;
    }
    Ok(lines)
}

/// The lines of the classes of these texts, where classes of these names are known.
pub fn told<R: Threads + Sync>(
    rt: &R,
    alloc: Global,
    texts: &[&str],
    known: &[&str],
) -> Result<Items<Text>, AllocError> {
    let classes = classes_of(rt, alloc, texts, known)?;
    lines_of(alloc, classes.as_slice())
}

/// The type of the first field of a class; empty where there is none.
pub fn kind_in(alloc: Global, class: Option<&ClassSummary>) -> Result<Text, AllocError> {
    let Some(class) = class else {
        return Ok(Text::new(alloc));
    };
    match class.fields.get(0) {
        Some(field) => descriptor(alloc, &field.kind),
        None => Ok(Text::new(alloc)),
    }
}

/// The type of the first field of the first class of these texts; empty where there is none.
pub fn first_kind<R: Threads + Sync>(
    rt: &R,
    alloc: Global,
    texts: &[&str],
    known: &[&str],
) -> Result<Text, AllocError> {
    let classes = classes_of(rt, alloc, texts, known)?;
    kind_in(alloc, classes.get(0))
}
