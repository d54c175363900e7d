ghost use Rattle.std.specs.Prelude.{◌≡◌, ◌<◌, ◌≤◌, ◌++◌, map, IfOk};
ghost use Rattle.offers.specs.Omissions.{after_three, taken_names};
ghost use Rattle.offers.specs.Scenes.{denoted};
ghost use Rattle.offers.specs.Sites.{IsSiteOf};
ghost use Rattle.offers.specs.Views.{scene};
ghost use Rattle.scopes.specs.Kinds.{type_number};
ghost use Rattle.scopes.specs.Declarations.{decls_of};
ghost use Rattle.scopes.specs.Environments.{IsSeen, IsEnvironmentAt, steps_of, parts_by, environment_of};
ghost use Rattle.terms.specs.Faults.{greatest_depth};

use crate::binder::binder;
use crate::declarations::{add_faces, add_members, site_decls};
use crate::kind_pairs::kind_pairs;
use crate::numbers::Numbers;
use crate::type_texts::kind_texts;
use decl_index::Index;
use java_bodies::HoleSite;
use java_units::Unit;
use known_classes::Merged;
use lists::{Items, Text};
use offers::{
    Face, Member, Spellings, View, after_five, after_three, faces, mentions_void, offered_classes,
    own_summaries, scope_names, taken_names, types_of,
};
use std::alloc::{AllocError, Global};
use subtyping::Subtypes;
use terms::{Decl, Env, Parts, Steps};
use type_names::Erased;

/// What is seen from a hole before its declarations are made.
#[derive(Drop)]
struct Seen {
    members: Items<Member>,
    faces: Items<Face>,
    types: Vec<Erased>,
    void: bool,
}

/// What a view sees.
fn seen_of(alloc: Global, view: &View<'_>) -> Result<Seen, AllocError>
    ensures { IfOk result (λ s. IsSeen (scene view.now) s.members s.faces (record { types = s.types.items; void = s.void })) }
{
    let classes = offered_classes(alloc, view)?;
    let members = after_three(alloc, view, classes.as_slice())?;
    let faces = faces(alloc, view, classes.as_slice())?;
    let types = types_of(alloc, view, members.as_slice(), faces.as_slice())?;
    let void = mentions_void(members.as_slice(), faces.as_slice());
    Ok(Seen {
        members,
        faces,
        types,
        void,
    })
}

/// The declarations.
#[tactic(auto, unfolding(crate::specs::Declarations::decls_of))]
fn decls_of(
    alloc: Global,
    spellings: &Spellings<'_>,
    seen: &Seen,
    numbers: &Numbers<'_>,
    names: &[Text],
) -> Result<Items<Decl>, AllocError>
    requires names { names.now ≡ taken_names (scene spellings.now) }
    ensures { IfOk result (λ all. all ≡ decls_of (scene spellings.now) numbers.now seen.now.members seen.now.faces) }
{
    let view = spellings.view();
    let members = seen.members.as_slice();
    let left = after_five(alloc, spellings, numbers.types(), names, members)?;
    let scope = scope_names(alloc, view)?;
    let mut all = site_decls(alloc, view, numbers)?;
    add_members(
        alloc,
        spellings,
        numbers,
        scope.as_slice(),
        members,
        left.as_slice(),
        &mut all,
    )?;
    add_faces(alloc, spellings, numbers, seen.faces.as_slice(), &mut all)?;
    Ok(all)
}

/// The number of the goal's type.
fn goal_of(alloc: Global, view: &View<'_>, numbers: &Numbers<'_>) -> Result<u32, AllocError>
    ensures { IfOk result (λ n. n ≡ type_number numbers.now (denoted (scene view.now) view.now.site.wanted)) }
{
    let kind = view.wanted(alloc)?;
    Ok(numbers.of(&kind))
}

/// The weights that belong to no declaration.
fn steps_of(view: &View<'_>) -> Steps
    ensures { result ≡ steps_of view.now.weights }
{
    let weights = view.weights();
    Steps {
        bound: weights.bound,
        binder: weights.binder,
        step: weights.step,
    }
}

/// The parts of an environment with these declarations.
fn parts_of(
    alloc: Global,
    spellings: &Spellings<'_>,
    numbers: &Numbers<'_>,
    names: &[Text],
    decls: Items<Decl>,
    limit: u32,
    depth: u32,
) -> Result<Parts, AllocError>
    requires names { names.now ≡ taken_names (scene spellings.now) }
    ensures { IfOk result (λ parts. parts ≡ parts_by (scene spellings.now) numbers.now decls limit depth) }
{
    let view = spellings.view();
    let goal = goal_of(alloc, view, numbers)?;
    let types = kind_texts(alloc, spellings, numbers)?;
    let binder = binder(alloc, decls.as_slice(), types.as_slice(), names)?;
    let pairs = kind_pairs(alloc, view, numbers)?;
    Ok(Parts {
        types,
        pairs,
        decls,
        goal,
        limit,
        depth,
        binder,
        steps: steps_of(view),
    })
}

/// The parts of the environment of a view.
fn parts(alloc: Global, view: &View<'_>, limit: u32, depth: u32) -> Result<Parts, AllocError>
    ensures { IfOk result (λ parts. parts ≡ environment_of (scene view.now) limit depth) }
{
    let seen = seen_of(alloc, view)?;
    let numbers = Numbers::new(&seen.types, seen.void)?;
    let names = taken_names(alloc, view)?;
    let spellings = Spellings::new(alloc, view, numbers.types())?;
    let decls = decls_of(alloc, &spellings, &seen, &numbers, names.as_slice())?;
    let parts = parts_of(
        alloc,
        &spellings,
        &numbers,
        names.as_slice(),
        decls,
        limit,
        depth,
    )?;
    Ok(parts)
}

/// The environment of a hole, where `index` has the classes that are published; those of the unit replace them. Its
/// only refusal is want of memory, also where its lists are longer than an environment's may be.
pub fn environment(
    alloc: Global,
    index: &Index,
    unit: &Unit,
    site: &HoleSite,
    limit: u32,
    depth: u32,
) -> Result<Env, AllocError>
    requires site { IsSiteOf unit.now site.now }
    requires limit { (1 ≤ limit) × (limit ≤ 10000) }
    requires depth { depth ≤ greatest_depth }
    ensures exact { IfOk result (IsEnvironmentAt index.now unit.now site.now limit depth) }
{
    let own = own_summaries(alloc, index, unit)?;
    let known = Merged::new(alloc, index, own)?;
    let subtypes = Subtypes::new(alloc, &known)?;
    let view = View::new(alloc, index, unit, site, &known, &subtypes)?;
    let parts = parts(alloc, &view, limit, depth)?;
    if !parts.has_lengths() {
        return Err(AllocError);
    }
    let env = Env::of_valid(alloc, parts)?;
    Ok(env)
}
