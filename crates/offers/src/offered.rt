ghost use Rattle.std.specs.Prelude.{◌≡◌, ◌++◌, ◌∷◌, [], if◌then◌else◌, IfOk, OnOk};
ghost use Rattle.std.specs.List.{list_any, list_all, filter};
ghost use Rattle.known_classes.specs.Known.{class_named};
ghost use Rattle.offers.specs.Scenes.{is_open};
ghost use Rattle.offers.specs.Reach.{access_of, is_local, is_accessible, is_in_reach, chain, is_offered, offered};
ghost use Rattle.offers.specs.Reached.{IsReachOf};
ghost use Rattle.offers.specs.Views.{scene};

use crate::key_order::in_order;
use crate::reach::{Reach, access_of, is_open};
use crate::texts::is_among;
use crate::view::View;
use known_classes::{ClassSummary, Nesting};
use lists::{Copies, Items, Text};
use std::alloc::{AllocError, Global};

/// Whether a class is local or anonymous.
fn is_local(nesting: &Option<Nesting>) -> bool
    ensures { result ≡ is_local nesting.now }
{
    match nesting {
        Some(nesting) => !(nesting.outer.is_some() && nesting.simple.is_some()),
        None => false,
    }
}

/// Whether the unit may name a class, but for the classes around it.
fn is_shown(view: &View<'_>, name: &str) -> bool
    ensures { result ≡ is_open (scene view.now) name.now (access_of (class_named view.now.known name.now)) }
{
    is_open(view, name, access_of(view, name))
}

/// Whether the unit may name a class and each class around it.
fn are_shown<'a>(view: &'a View<'_>, name: &'a Text) -> bool
    ensures { result ≡ list_all (λ c. is_open (scene view.now) c (access_of (class_named view.now.known c))) (chain (scene view.now) name.now) }
{
    let mut here = name;
    for _met in 0..view.count() {
        if !is_shown(view, here.as_str()) {
            return false;
        }
        let Some(outer) = view.outer_of(here.as_str()) else {
            return true;
        };
        here = outer;
    }
    is_shown(view, here.as_str())
}

/// Whether a class or one around it is in reach.
fn is_reached<'a>(view: &'a View<'_>, reach: &Reach, name: &'a Text) -> bool
    requires { IsReachOf (scene view.now) reach.now }
    ensures { result ≡ list_any (is_in_reach (scene view.now)) (chain (scene view.now) name.now) }
{
    let mut here = name;
    for _met in 0..view.count() {
        if reach.has(view, here.as_str()) {
            return true;
        }
        let Some(outer) = view.outer_of(here.as_str()) else {
            return false;
        };
        here = outer;
    }
    reach.has(view, here.as_str())
}

/// Whether a class is of the unit, or accessible from it.
#[tactic(auto, unfolding(crate::specs::Reach::is_accessible))]
fn is_accessible(view: &View<'_>, name: &Text) -> bool
    ensures { result ≡ is_accessible (scene view.now) name.now }
{
    is_among(view.own(), name.as_str()) || are_shown(view, name)
}

/// Whether a class is offered.
#[tactic(auto, unfolding(crate::specs::Reach::is_offered))]
fn is_offered(view: &View<'_>, reach: &Reach, class: &ClassSummary) -> bool
    requires { IsReachOf (scene view.now) reach.now }
    ensures { result ≡ is_offered (scene view.now) class.now }
{
    if class.name.as_str() == view.edited().as_str() {
        return true;
    }
    !is_local(&class.nesting)
        && is_accessible(view, &class.name)
        && is_reached(view, reach, &class.name)
}

/// Adds a copy of a class that is offered.
fn add_offered(
    alloc: Global,
    view: &View<'_>,
    reach: &Reach,
    class: &ClassSummary,
    all: &mut Items<ClassSummary>,
) -> Result<(), AllocError>
    requires { IsReachOf (scene view.now) reach.now }
    ensures { OnOk result (all.new ≡ all.old ++ (if is_offered (scene view.now) class.now then class.now ∷ [] else [])) }
{
    if is_offered(view, reach, class) {
        all.push(class.copy(alloc)?)?;
    }
    Ok(())
}

/// Copies of the known classes that are offered, in their places.
fn kept(alloc: Global, view: &View<'_>, reach: &Reach) -> Result<Items<ClassSummary>, AllocError>
    requires { IsReachOf (scene view.now) reach.now }
    ensures { IfOk result (λ all. all ≡ filter (is_offered (scene view.now)) view.now.known) }
{
    let mut all = Items::new(alloc);
    for place in 0..view.count() {
        add_offered(alloc, view, reach, view.at(place), &mut all)?;
    }
    Ok(all)
}

/// Copies of the offered classes, in rising byte order of their names.
#[tactic(auto, unfolding(crate::specs::Reach::offered))]
pub fn offered(alloc: Global, view: &View<'_>) -> Result<Items<ClassSummary>, AllocError>
    ensures { IfOk result (λ all. all ≡ offered (scene view.now)) }
{
    let reach = Reach::new(alloc, view)?;
    let all = kept(alloc, view, &reach)?;
    let all = in_order(alloc, all)?;
    Ok(Items::from_vec(all))
}
