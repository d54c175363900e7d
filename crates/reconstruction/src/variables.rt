// The partial terms that grow from one by a variable, and all that grow from it.

ghost use Rattle.std.specs.Prelude.{◌≡◌, ◌+◌, ◌*◌, ◌<◌, ◌≤◌, [], ◌∷◌, All, OnOk, slice_get, Some};
ghost use Rattle.terms.specs.Faults.{IsValid};
ghost use Rattle.terms.specs.Typing.{joined, most_rows, rows};
ghost use Rattle.terms.specs.Weights.{variable_weight, step_in};
ghost use Rattle.reconstruction.specs.NumberedPlaces.{row_of_args, rows_at, types_of};
ghost use Rattle.reconstruction.specs.Tabled.{place_by_numbers, front_of, IsParent, AreHeld, AreGrown, Grew};
ghost use Rattle.reconstruction.specs.Totals.{AreTotals};
ghost use Rattle.reconstruction.specs.Usable.{AreFloors, AreUsable};
ghost use Rattle.reconstruction.specs.Ways.{AreWaysAt};
ghost use Rattle.reconstruction.specs.Variables.{variables, bound_at, numbers_at};

use crate::heads::grow_edges;
use crate::item::{Arena, Head, Item, Parent};
use crate::longer_fronts::grow_by;
use crate::numbered_place::{Lambdas, NO_LAMBDAS, NumberedPlace};
use crate::tables::Tables;
use std::alloc::AllocError;
use terms::{Arg, Ctx, Env};

/// The parameters of the lambda that is the only argument.
fn only_row(args: &[Arg]) -> &[u32]
    ensures value { result.now ≡ row_of_args args.now }
{
    if args.len() != 1 {
        return &[];
    }
    match &args[0] {
        Arg::Fun(params, _) => params.as_slice(),
        Arg::Plain(_) => &[],
    }
}

/// The types that the lambda binds which declaration n - 1 wants.
fn types_of(tables: &Tables, number: u32) -> &[u32]
    ensures value { result.now ≡ types_of tables.now.env number }
{
    let decls = tables.env.parts().decls.as_slice();
    if number == 0 {
        return &[];
    }
    match decls.get(number as usize - 1) {
        Some(decl) => only_row(decl.args.as_slice()),
        None => &[],
    }
}

/// The context under some lambdas.
fn context(tables: &Tables, lambdas: Lambdas) -> Ctx<'_>
    ensures rows { rows result ≡ rows_at tables.now.env lambdas }
    ensures used { result.used ≤ most_rows }
{
    let none = Ctx::empty();
    if lambdas.first == 0 {
        return none;
    }
    let one = none.with(types_of(tables, lambdas.first));
    if lambdas.second == 0 {
        return one;
    }
    let two = one.with(types_of(tables, lambdas.second));
    if lambdas.third == 0 {
        return two;
    }
    two.with(types_of(tables, lambdas.third))
}

/// The type that is wanted at a numbered place.
fn goal_at(tables: &Tables, place: NumberedPlace) -> u32
    ensures value { result ≡ (place_by_numbers tables.now place).wanted }
{
    match tables.patterns.states().get(place.state as usize) {
        Some(state) => state.goal,
        None => 0,
    }
}

/// What a variable weighs with the coercion above it.
fn with_step(env: &Env, from: u32, to: u32) -> u32
    requires valid { IsValid env.now }
    ensures value { result ≡ variable_weight env.now + step_in env.now (Some from) to }
{
    env.variable_weight() + env.step(from, to)
}

/// Adds what grows by a variable of this type.
fn grow_variable(
    tables: &Tables,
    arena: &mut Arena,
    children: &mut Vec<(u32, Item)>,
    parent: Parent,
    number: u32,
    bound: u32,
) -> Result<(), AllocError>
    requires parent { IsParent tables.now arena.old parent }
    requires children { AreHeld tables.now arena.old children.old.items }
    requires valid { IsValid tables.now.env }
    requires small { number < 2147483648 }
    requires bound { slice_get (joined (rows_at tables.now.env parent.place.lambdas)) number ≡ Some bound }
    ensures grew { OnOk result (Grew tables.now arena.old arena.new (front_of arena.old parent.front) ((2 * number) ∷ []) children.old.items children.new.items) }
    ensures grown { AreGrown arena.old arena.new }
{
    let goal = goal_at(tables, parent.place);
    if !tables.env.is_below(bound, goal) {
        return Ok(());
    }
    let total = with_step(&tables.env, bound, goal);
    let head = Head {
        number: 2 * number,
        total,
        lambdas: NO_LAMBDAS,
    };
    grow_by(tables, arena, children, parent, head, &[])
}

/// Adds what grows by the variables.
fn grow_variables(
    tables: &Tables,
    arena: &mut Arena,
    children: &mut Vec<(u32, Item)>,
    parent: Parent,
) -> Result<(), AllocError>
    requires parent { IsParent tables.now arena.old parent }
    requires children { AreHeld tables.now arena.old children.old.items }
    requires valid { IsValid tables.now.env }
    ensures grew { OnOk result (Grew tables.now arena.old arena.new (front_of arena.old parent.front) (variables (bound_at tables.now parent.place)) children.old.items children.new.items) }
    ensures grown { AreGrown arena.old arena.new }
{
    let context = context(tables, parent.place.lambdas);
    for number in 0..2_147_483_648u32 {
        let Some(bound) = context.variable(number) else {
            return Ok(());
        };
        grow_variable(tables, arena, children, parent, number, bound)?;
    }
    Err(AllocError)
}

/// Adds all partial terms that grow from one by a number more.
pub fn grow(
    tables: &Tables,
    arena: &mut Arena,
    children: &mut Vec<(u32, Item)>,
    parent: Parent,
) -> Result<(), AllocError>
    requires parent { IsParent tables.now arena.old parent }
    requires children { AreHeld tables.now arena.old children.old.items }
    requires totals { AreTotals tables.now.env.limit tables.now.least tables.now.edges tables.now.totals }
    requires valid { IsValid tables.now.env }
    requires floors { AreFloors tables.now.env tables.now.edges tables.now.totals tables.now.floors }
    requires usable { AreUsable tables.now.env.limit tables.now.floors tables.now.edges tables.now.usable }
    requires ways { AreWaysAt tables.now parent.place parent.place.state }
    ensures grew { OnOk result (Grew tables.now arena.old arena.new (front_of arena.old parent.front) (numbers_at tables.now parent.place) children.old.items children.new.items) }
    ensures grown { AreGrown arena.old arena.new }
{
    grow_variables(tables, arena, children, parent)?;
    grow_edges(tables, arena, children, parent)
}
