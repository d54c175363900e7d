ghost use Rattle.std.specs.Prelude.{◌≡◌, ◌++◌, ◌<◌, decimal, OnOk, IfOk};
ghost use Rattle.workload.specs.Samples.{drawn, picked, class_name, class_type, types_drawn, parameters, public_member, constructor, method, all_members, parent, public_class, class_of, classes_drawn, text_before, sample_of};

use class_shape::{ClassShape, MemberShape};
use lists::{Items, Text};
use std::alloc::{AllocError, Global};

/// The classes of a sample, a source text in which a value of one of them is wanted, and the place in bytes of the
/// hole in it.
#[derive(Debug, Drop)]
pub struct Sample {
    pub classes: Items<ClassShape>,
    pub source: Text,
    pub place: u32,
}

/// How many classes a sample has.
const CLASSES: u64 = 200;

/// Draws one of so many numbers.
fn draw(state: &mut u64, count: u64) -> u64
    requires { 0 < count }
    ensures drawn { state.new ≡ drawn state.old }
    ensures picked { result ≡ picked state.new count }
    ensures below { result < count }
{
    *state = state
        .wrapping_mul(6_364_136_223_846_793_005)
        .wrapping_add(1_442_695_040_888_963_407);
    (*state >> 33) % count
}

fn push_number(alloc: Global, text: &mut Text, number: u64) -> Result<(), AllocError>
    ensures { OnOk result (text.new ≡ text.old ++ decimal number) }
{
    let digits = number.to_string(alloc)?;
    text.push_str(digits.as_str())
}

fn class_name(alloc: Global, number: u64) -> Result<Text, AllocError>
    ensures { IfOk result (λ name. name ≡ class_name number) }
{
    let mut name = Text::from_str(alloc, "sample/C")?;
    push_number(alloc, &mut name, number)?;
    Ok(name)
}

fn push_type(alloc: Global, text: &mut Text, number: u64) -> Result<(), AllocError>
    ensures { OnOk result (text.new ≡ text.old ++ class_type number) }
{
    let name = class_name(alloc, number)?;
    text.push_str("L")?;
    text.push_str(name.as_str())?;
    text.push_str(";")
}

/// Draws so many types and writes them one behind the other.
fn push_types(alloc: Global, text: &mut Text, state: &mut u64, count: u64) -> Result<(), AllocError>
    ensures text { OnOk result (text.new ≡ text.old ++ (types_drawn count state.old).0) }
    ensures state { OnOk result (state.new ≡ (types_drawn count state.old).1) }
{
    for _type in 0..count {
        let number = draw(state, CLASSES);
        push_type(alloc, text, number)?;
    }
    Ok(())
}

/// Draws how many parameters a descriptor has, fewer than so many, and then each.
fn parameters(alloc: Global, state: &mut u64, most: u64) -> Result<Text, AllocError>
    requires { 0 < most }
    ensures text { IfOk result (λ text. text ≡ (parameters most state.old).0) }
    ensures state { OnOk result (state.new ≡ (parameters most state.old).1) }
{
    let count = draw(state, most);
    let mut text = Text::from_str(alloc, "(")?;
    push_types(alloc, &mut text, state, count)?;
    text.push_str(")")?;
    Ok(text)
}

fn public_member(name: Text, descriptor: Text) -> MemberShape
    ensures { result ≡ public_member name descriptor }
{
    MemberShape {
        flags: 1,
        name: Some(name),
        descriptor: Some(descriptor),
    }
}

/// The constructor, of up to two parameters.
fn constructor(alloc: Global, state: &mut u64) -> Result<MemberShape, AllocError>
    ensures member { IfOk result (λ m. m ≡ (constructor (parameters 3 state.old)).0) }
    ensures state { OnOk result (state.new ≡ (constructor (parameters 3 state.old)).1) }
{
    let mut descriptor = parameters(alloc, state, 3)?;
    descriptor.push_str("V")?;
    let name = Text::from_str(alloc, "<init>")?;
    Ok(public_member(name, descriptor))
}

/// A method of this name, of up to one parameter.
fn method(alloc: Global, state: &mut u64, name: &str) -> Result<MemberShape, AllocError>
    ensures member { IfOk result (λ m. m ≡ (method name.now (parameters 2 state.old)).0) }
    ensures state { OnOk result (state.new ≡ (method name.now (parameters 2 state.old)).1) }
{
    let mut descriptor = parameters(alloc, state, 2)?;
    let number = draw(state, CLASSES);
    push_type(alloc, &mut descriptor, number)?;
    let name = Text::from_str(alloc, name)?;
    Ok(public_member(name, descriptor))
}

/// The members of a class.
fn members(alloc: Global, state: &mut u64) -> Result<Items<MemberShape>, AllocError>
    ensures members { IfOk result (λ all. all ≡ (all_members (constructor (parameters 3 state.old))).0) }
    ensures state { OnOk result (state.new ≡ (all_members (constructor (parameters 3 state.old))).1) }
{
    let mut all = Items::new(alloc);
    all.push(constructor(alloc, state)?)?;
    all.push(method(alloc, state, "m0")?)?;
    all.push(method(alloc, state, "m1")?)?;
    Ok(all)
}

/// The super class of a class.
fn parent(alloc: Global, state: &mut u64, number: u64) -> Result<Text, AllocError>
    ensures name { IfOk result (λ name. name ≡ (parent number state.old).0) }
    ensures state { OnOk result (state.new ≡ (parent number state.old).1) }
{
    if number == 0 {
        return Text::from_str(alloc, "java/lang/Object");
    }
    let above = draw(state, number);
    class_name(alloc, above)
}

fn class_with(
    alloc: Global,
    number: u64,
    parent: Text,
    methods: Items<MemberShape>,
) -> Result<ClassShape, AllocError>
    ensures { IfOk result (λ c. c ≡ public_class (class_name number) parent methods) }
{
    Ok(ClassShape {
        minor: 0,
        major: 52,
        flags: 0x21,
        name: class_name(alloc, number)?,
        parent: Some(parent),
        interfaces: Items::new(alloc),
        fields: Items::new(alloc),
        methods,
        inner: Items::new(alloc),
    })
}

fn class_of(alloc: Global, state: &mut u64, number: u64) -> Result<ClassShape, AllocError>
    ensures class { IfOk result (λ c. c ≡ (class_of number (parent number state.old)).0) }
    ensures state { OnOk result (state.new ≡ (class_of number (parent number state.old)).1) }
{
    let parent = parent(alloc, state, number)?;
    let methods = members(alloc, state)?;
    class_with(alloc, number, parent, methods)
}

/// All classes, in the order of their numbers.
fn all_classes(alloc: Global, state: &mut u64) -> Result<Items<ClassShape>, AllocError>
    ensures classes { IfOk result (λ all. all ≡ (classes_drawn 200 0 state.old).0) }
    ensures state { OnOk result (state.new ≡ (classes_drawn 200 0 state.old).1) }
{
    let mut all = Items::new(alloc);
    for number in 0..CLASSES {
        let class = class_of(alloc, state, number)?;
        all.push(class)?;
    }
    Ok(all)
}

/// The source text up to the hole, at which a value of the class of this number is wanted.
fn text_before(alloc: Global, goal: u64) -> Result<Text, AllocError>
    ensures { IfOk result (λ text. text ≡ text_before goal) }
{
    let mut text = Text::from_str(
        alloc,
        "package app; import sample.*; class Use { static void go(C0 a, C1 b) { C",
    )?;
    push_number(alloc, &mut text, goal)?;
    text.push_str(" r = ")?;
    Ok(text)
}

/// The sample of a number: 200 classes `sample/C0` to `sample/C199`, each with a constructor and two methods over these
/// classes, and a text with a hole of one of them. One number has one sample, on every machine. It is some 100 KB large.
pub fn make_sample(alloc: Global, n: u32) -> Result<Sample, AllocError>
    ensures sample { IfOk result (λ sample. sample ≡ sample_of n) }
{
    let mut state = n as u64;
    let classes = all_classes(alloc, &mut state)?;
    let goal = draw(&mut state, CLASSES);
    let mut source = text_before(alloc, goal)?;
    let place = source.len() as u32;
    source.push_str("} }")?;
    Ok(Sample {
        classes,
        source,
        place,
    })
}
