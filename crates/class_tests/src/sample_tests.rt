// The classes of samples. The expected names and descriptors come from a script of the same generator.
use class_shape::{ClassShape, read_class};
use lists::Text;
use std::alloc::Global;
use std::test::*;
use workload::{is_whole, make_sample, write_class};

/// A number, a class of its sample, that class's super class, the descriptors of its constructor and its methods, and the
/// class that is wanted at the hole.
const ROWS: [(u32, usize, [&str; 4], &str); 6] = [
    (
        0,
        0,
        [
            "java/lang/Object",
            "(Lsample/C24;Lsample/C137;)V",
            "()Lsample/C125;",
            "(Lsample/C184;)Lsample/C175;",
        ],
        "C173",
    ),
    (
        0,
        199,
        [
            "sample/C8",
            "(Lsample/C197;Lsample/C8;)V",
            "(Lsample/C149;)Lsample/C94;",
            "()Lsample/C98;",
        ],
        "C173",
    ),
    (
        1,
        1,
        [
            "sample/C0",
            "(Lsample/C123;)V",
            "()Lsample/C52;",
            "()Lsample/C34;",
        ],
        "C31",
    ),
    (
        1,
        199,
        [
            "sample/C79",
            "()V",
            "()Lsample/C172;",
            "(Lsample/C7;)Lsample/C112;",
        ],
        "C31",
    ),
    (
        1_000_000,
        1,
        [
            "sample/C0",
            "(Lsample/C49;)V",
            "(Lsample/C41;)Lsample/C197;",
            "(Lsample/C24;)Lsample/C28;",
        ],
        "C152",
    ),
    (
        1_000_000,
        199,
        [
            "sample/C44",
            "(Lsample/C112;)V",
            "()Lsample/C133;",
            "()Lsample/C178;",
        ],
        "C152",
    ),
];

fn is_text(text: &Option<Text>, wanted: &str) -> bool {
    match text {
        Some(text) => text.as_str() == wanted,
        None => false,
    }
}

/// Whether a class has this super class and members with these descriptors.
fn is_class(class: &ClassShape, wanted: &[&str; 4]) -> bool {
    let methods = class.methods.as_slice();
    if methods.len() != 3 || !is_text(&class.parent, wanted[0]) {
        return false;
    }
    is_text(&methods[0].descriptor, wanted[1])
        && is_text(&methods[1].descriptor, wanted[2])
        && is_text(&methods[2].descriptor, wanted[3])
}

#[test]
fn a_sample_is_that_of_its_number(rt: HostRuntime) -> Result<(), Fail> {
    for (n, class, wanted, goal) in ROWS {
        let sample = make_sample(rt.alloc(), n)?;
        let classes = sample.classes.as_slice();
        assert_eq!(rt; classes.len(), 200);
        assert!(rt; is_class(classes.get(class).ok_or("a class")?, &wanted));
        let (before, after) = sample
            .source
            .as_str()
            .split_at_checked(sample.place as usize)
            .ok_or("a place")?;
        assert_eq!(rt; after, "} }");
        assert!(rt; before.ends_with(" r = ") && before.contains(goal));
    }
    Ok(())
}

/// Whether a class can be written and is read as one of its name.
fn is_written(alloc: Global, class: &ClassShape) -> Result<bool, Fail> {
    if class.major < 45 || !is_whole(alloc, class)? {
        return Ok(false);
    }
    let bytes = write_class(alloc, class).ok().ok_or("a small class")?;
    if bytes.len() > 16_777_216 {
        return Ok(false);
    }
    let read = read_class(alloc, bytes.as_slice())
        .ok()
        .ok_or("a class file")?;
    Ok(read.name.same(&class.name) && read.methods.len() == 3)
}

#[test]
fn the_classes_of_a_sample_are_written_and_read_again(rt: HostRuntime) -> Result<(), Fail> {
    let sample = make_sample(rt.alloc(), 1)?;
    for class in sample.classes.as_slice() {
        assert!(rt; is_written(rt.alloc(), class)?);
    }
    Ok(())
}
