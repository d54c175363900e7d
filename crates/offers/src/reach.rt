ghost use Rattle.std.specs.Prelude.{◌≡◌, ◌++◌, ◌≤◌, length, bytes_eq, unwrap_or, IfOk, OnOk};
ghost use Rattle.std.specs.Option.{option_copied, option_map};
ghost use Rattle.std.specs.List.{list_any, list_all};
ghost use Rattle.std.specs.Path.{rfind_below};
ghost use Rattle.class_summary.specs.Flags.{has_flag};
ghost use Rattle.known_classes.specs.Known.{class_named, outer_of};
ghost use Rattle.class_summary.specs.Names.{own_by_canonical, class_with, spelled, internal_of};
ghost use Rattle.offers.specs.Scenes.{package_of, is_among, is_open, is_of_unit};
ghost use Rattle.offers.specs.Reach.{access_of, is_local, is_accessible, named_by, named_classes, package_by, starred_packages, class_by, starred_classes, is_in_reach_by, is_in_reach, chain, is_offered};
ghost use Rattle.offers.specs.Views.{scene};
ghost use Rattle.offers.specs.Reached.{IsReachOf};

use crate::texts::is_among;
use crate::view::View;
use class_summary::{canonical_name, joined};
use java_units::{Import, Unit};
use known_classes::{ClassSummary, Nesting};
use lists::{Copies, Items, Text};
use std::alloc::{AllocError, Global};

/// Access flags (JVMS 4.1, 4.5 and 4.6).
pub(crate) const PUBLIC: u16 = 0x0001;

pub(crate) const PRIVATE: u16 = 0x0002;

pub(crate) const STATIC: u16 = 0x0008;

pub(crate) const INTERFACE: u16 = 0x0200;

pub(crate) const ABSTRACT: u16 = 0x0400;

/// Whether the flag is among the flags.
#[tactic(auto, unfolding(class_summary::specs::Flags::has_flag))]
pub(crate) fn has_flag(flags: u16, flag: u16) -> bool
    ensures { result ≡ has_flag flags flag }
{
    flags & flag != 0
}

/// Where the last `/` stands, 0 where there is none.
fn package_end(name: &[u8]) -> usize
    ensures value { result ≡ unwrap_or (rfind_below 47 name.now (length name.now)) 0 }
    ensures within { result ≤ length name.now }
{
    let mut n = name.len();
    while n > 0 {
        n -= 1;
        if name[n] == b'/' {
            return n;
        }
    }
    0
}

/// The package of an internal name, as bytes.
pub(crate) fn package_of(name: &str) -> &[u8]
    ensures { result.now ≡ package_of name.now }
{
    let bytes = name.as_bytes();
    let end = package_end(bytes);
    &bytes[..end]
}

/// Whether an internal name is of a package.
pub fn is_in_package(name: &str, home: &str) -> bool
    ensures { result ≡ bytes_eq (package_of name.now) home.now }
{
    package_of(name) == home.as_bytes()
}

/// Whether the unit may name what a class of this name has with these flags.
pub(crate) fn is_open(view: &View<'_>, name: &str, flags: u16) -> bool
    ensures { result ≡ is_open (scene view.now) name.now flags }
{
    if has_flag(flags, PUBLIC) {
        return true;
    }
    is_in_package(name, view.home().as_str()) && !has_flag(flags, PRIVATE)
}

/// The flags of a class but INTERFACE and ABSTRACT, none where it isn't known.
pub(crate) fn access_of(view: &View<'_>, name: &str) -> u16
    ensures { result ≡ access_of (class_named view.now.known name.now) }
{
    let Some(class) = view.class(name) else {
        return 0;
    };
    match &class.nesting {
        Some(nesting) => nesting.flags,
        None => class.flags,
    }
}

/// The number of the unit's class of this canonical name.
fn own_by_canonical(alloc: Global, unit: &Unit, name: &Text) -> Result<Option<usize>, AllocError>
    ensures { IfOk result (λ found. found ≡ own_by_canonical unit.now name.now) }
{
    for i in 0..unit.classes.len() {
        let own = canonical_name(alloc, unit, i)?;
        if name.as_str() == own.as_str() {
            return Ok(Some(i));
        }
    }
    Ok(None)
}

/// The internal name of the class of this canonical name, among those of the unit and then the known ones.
fn class_with(alloc: Global, view: &View<'_>, name: &Text) -> Result<Option<Text>, AllocError>
    ensures { IfOk result (λ found. found ≡ option_map (internal_of view.now.unit) (class_with view.now.unit view.now.known name.now)) }
{
    if let Some(i) = own_by_canonical(alloc, view.unit(), name)? {
        return Ok(Some(view.internal(alloc, i)?));
    }
    let found = view.called(alloc, name)?;
    Ok(found)
}

/// The class that an import without star names.
fn spelled(alloc: Global, view: &View<'_>, parts: &[Text]) -> Result<Text, AllocError>
    ensures { IfOk result (λ name. name ≡ internal_of view.now.unit (spelled view.now.unit view.now.known parts.now)) }
{
    let dotted = joined(alloc, ".", parts)?;
    match class_with(alloc, view, &dotted)? {
        Some(class) => Ok(class),
        None => {
            let name = joined(alloc, "/", parts)?;
            Ok(name)
        }
    }
}

/// Adds the class of an import without star.
fn add_named(
    alloc: Global,
    view: &View<'_>,
    import: &Import,
    names: &mut Items<Text>,
) -> Result<(), AllocError>
    ensures { OnOk result (names.new ≡ names.old ++ named_by (scene view.now) import.now) }
{
    if !import.star {
        names.push(spelled(alloc, view, import.parts.as_slice())?)?;
    }
    Ok(())
}

/// Adds the package of an import with star.
fn add_package(alloc: Global, import: &Import, names: &mut Items<Text>) -> Result<(), AllocError>
    ensures { OnOk result (names.new ≡ names.old ++ package_by import.now) }
{
    if import.star {
        names.push(joined(alloc, "/", import.parts.as_slice())?)?;
    }
    Ok(())
}

/// Adds the class of an import with star.
fn add_class(
    alloc: Global,
    view: &View<'_>,
    import: &Import,
    names: &mut Items<Text>,
) -> Result<(), AllocError>
    ensures { OnOk result (names.new ≡ names.old ++ class_by (scene view.now) import.now) }
{
    if !import.star {
        return Ok(());
    }
    let dotted = joined(alloc, ".", import.parts.as_slice())?;
    if let Some(class) = class_with(alloc, view, &dotted)? {
        names.push(class)?;
    }
    Ok(())
}

fn named_classes(alloc: Global, view: &View<'_>) -> Result<Items<Text>, AllocError>
    ensures { IfOk result (λ names. names ≡ named_classes (scene view.now)) }
{
    let mut names = Items::new(alloc);
    for import in view.unit().imports.as_slice() {
        add_named(alloc, view, import, &mut names)?;
    }
    Ok(names)
}

fn starred_packages(alloc: Global, view: &View<'_>) -> Result<Items<Text>, AllocError>
    ensures { IfOk result (λ names. names ≡ starred_packages (scene view.now)) }
{
    let mut names = Items::new(alloc);
    for import in view.unit().imports.as_slice() {
        add_package(alloc, import, &mut names)?;
    }
    Ok(names)
}

fn starred_classes(alloc: Global, view: &View<'_>) -> Result<Items<Text>, AllocError>
    ensures { IfOk result (λ names. names ≡ starred_classes (scene view.now)) }
{
    let mut names = Items::new(alloc);
    for import in view.unit().imports.as_slice() {
        add_class(alloc, view, import, &mut names)?;
    }
    Ok(names)
}

/// What the imports of a unit bring in reach.
#[derive(Drop)]
pub(crate) struct Reach {
    /// The classes that imports without star name.
    named: Items<Text>,
    /// The packages of imports with star.
    packages: Items<Text>,
    /// The classes of imports with star.
    classes: Items<Text>,
}

impl Reach {
    /// What the imports of a unit bring in reach.
    pub fn new(alloc: Global, view: &View<'_>) -> Result<Reach, AllocError>
        ensures { IfOk result (IsReachOf (scene view.now)) }
    {
        Ok(Reach {
            named: named_classes(alloc, view)?,
            packages: starred_packages(alloc, view)?,
            classes: starred_classes(alloc, view)?,
        })
    }

    /// Whether one of the packages is that of the class.
    fn has_package(&self, name: &str) -> bool
        ensures { result ≡ is_among self.now.packages (package_of name.now) }
    {
        let package = package_of(name);
        self.packages
            .as_slice()
            .iter()
            .any(|t| t.as_bytes() == package)
    }

    /// Whether the package of a class without an outer class, or the outer class of another, is in reach.
    fn is_beside(&self, view: &View<'_>, name: &str) -> bool
        requires { IsReachOf (scene view.now) self.now }
        ensures { result ≡ is_in_reach_by (scene view.now) (package_of name.now) (outer_of view.now.known name.now) }
    {
        if let Some(outer) = view.outer_of(name) {
            return is_among(self.classes.as_slice(), outer.as_str());
        }
        is_in_package(name, view.home().as_str())
            || is_in_package(name, "java/lang")
            || self.has_package(name)
    }

    /// Whether a class is in reach.
    #[tactic(auto, unfolding(crate::specs::Reach::is_in_reach))]
    pub fn has(&self, view: &View<'_>, name: &str) -> bool
        requires { IsReachOf (scene view.now) self.now }
        ensures { result ≡ is_in_reach (scene view.now) name.now }
    {
        is_among(view.own(), name)
            || is_among(self.named.as_slice(), name)
            || self.is_beside(view, name)
    }
}
