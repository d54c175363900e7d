ghost use Rattle.std.specs.Prelude.{◌≡◌, ◌++◌, map, IfOk, OnOk};
ghost use Rattle.std.specs.List.{flat_map};
ghost use Rattle.class_summary.specs.Sources.{around};
ghost use Rattle.offers.specs.Scenes.{of_class, edited};
ghost use Rattle.offers.specs.Omissions.{scope_names, field_names, names_around, names_above, taken_names};
ghost use Rattle.offers.specs.Views.{scene};

use crate::view::{View, of_class};
use class_summary::around;
use java_bodies::Local;
use known_classes::{ClassSummary, FieldSummary};
use lists::{Copies, Items, Text, copy_all};
use std::alloc::{AllocError, Global};

/// The names of variables.
fn local_names(alloc: Global, locals: &[Local]) -> Result<Items<Text>, AllocError>
    ensures { IfOk result (λ names. names ≡ map (λ l. l.name) locals.now) }
{
    let mut names = Items::new(alloc);
    for local in locals {
        names.push(local.name.copy(alloc)?)?;
    }
    Ok(names)
}

/// The names in scope, hidden or not.
pub fn scope_names(alloc: Global, view: &View<'_>) -> Result<Items<Text>, AllocError>
    ensures { IfOk result (λ names. names ≡ scope_names (scene view.now)) }
{
    let mut names = local_names(alloc, view.site().locals.as_slice())?;
    names.append(copy_all(alloc, &view.site().hidden)?)?;
    Ok(names)
}

/// Adds the names of fields.
fn add_fields(
    alloc: Global,
    fields: &[FieldSummary],
    names: &mut Items<Text>,
) -> Result<(), AllocError>
    ensures { OnOk result (names.new ≡ names.old ++ map (λ f. f.name) fields.now) }
{
    for field in fields {
        names.push(field.name.copy(alloc)?)?;
    }
    Ok(())
}

/// Adds the names of the fields of a class of the unit.
fn add_around(
    alloc: Global,
    view: &View<'_>,
    number: usize,
    names: &mut Items<Text>,
) -> Result<(), AllocError>
    ensures { OnOk result (names.new ≡ names.old ++ names_around (scene view.now) number) }
{
    let internal = view.internal(alloc, number)?;
    let Some(class) = view.class(internal.as_str()) else {
        return Ok(());
    };
    add_fields(alloc, class.fields.as_slice(), names)?;
    Ok(())
}

/// Adds the names of the fields of a class, if it is above the edited class.
fn add_above(
    alloc: Global,
    view: &View<'_>,
    class: &ClassSummary,
    names: &mut Items<Text>,
) -> Result<(), AllocError>
    ensures { OnOk result (names.new ≡ names.old ++ names_above (scene view.now) class.now) }
{
    let own = of_class(alloc, view.edited())?;
    let other = of_class(alloc, &class.name)?;
    if !view.is_below(&own, &other) {
        return Ok(());
    }
    add_fields(alloc, class.fields.as_slice(), names)?;
    Ok(())
}

/// The names of the fields of the edited class and of the classes around it.
fn all_around(alloc: Global, view: &View<'_>) -> Result<Items<Text>, AllocError>
    ensures { IfOk result (λ names. names ≡ flat_map (names_around (scene view.now)) (around view.now.unit.classes view.now.site.class)) }
{
    let mut names = Items::new(alloc);
    let class = view.site().class as usize;
    let numbers = around(alloc, view.unit().classes.as_slice(), class)?;
    for number in &numbers {
        add_around(alloc, view, *number, &mut names)?;
    }
    Ok(names)
}

/// The names of the fields of the classes above the edited class.
fn all_above(alloc: Global, view: &View<'_>) -> Result<Items<Text>, AllocError>
    ensures { IfOk result (λ names. names ≡ flat_map (names_above (scene view.now)) view.now.known) }
{
    let mut names = Items::new(alloc);
    for place in 0..view.count() {
        add_above(alloc, view, view.at(place), &mut names)?;
    }
    Ok(names)
}

/// The names that variables and fields take at the hole.
#[tactic(auto, unfolding(crate::specs::Omissions::taken_names))]
pub fn taken_names(alloc: Global, view: &View<'_>) -> Result<Items<Text>, AllocError>
    ensures { IfOk result (λ names. names ≡ taken_names (scene view.now)) }
{
    let mut names = scope_names(alloc, view)?;
    names.append(all_around(alloc, view)?)?;
    names.append(all_above(alloc, view)?)?;
    Ok(names)
}
