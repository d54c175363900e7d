// The rows of an item, in one walk.

ghost use Rattle.std.specs.Prelude.{◌≡◌, ◌≤◌, ◌++◌, ◌∷◌, [], IfOk, OnOk};
ghost use Rattle.terms.specs.Expr.{var, head, no_args, plain, lam};
ghost use Rattle.terms.specs.View.{expr, args_view};
ghost use Rattle.terms.specs.Typing.{rows};
ghost use Rattle.terms.specs.Weights.{args_weight};
ghost use Rattle.terms.specs.Place.{IsInhabitant, total_of};
ghost use Rattle.terms.specs.Faults.{IsValid};
ghost use Rattle.checker.specs.Rows.{IsItem, rows_of, args_rows};
ghost use Rattle.certificates.specs.Readable.{IsReadable, AreReadable, IsRated};

use checker::Row;
use lists::Items;
use std::alloc::{AllocError, Global};
use terms::{Arg, Ctx, Env, Term, TermArg};

/// The rows of an item: its parts in the order of the prefix code, each with its head's number, its type, and its
/// weight without the coercion above it. Calls go as deep as the term nests.
pub fn item_rows(alloc: Global, env: &Env, term: &Term) -> Result<Items<Row>, AllocError>
    requires inhabitant { IsInhabitant env.now (expr term.now) }
    ensures rows { IfOk result (λ list. list ≡ rows_of env.now [] (expr term.now)) }
    ensures accepted { IfOk result (λ list. IsItem env.now list (total_of env.now (expr term.now))) }
{
    let _parts = env.parts();
    let mut list = Items::new(alloc);
    let _first = push_rows(env, &Ctx::empty(), term, &mut list)?;
    Ok(list)
}

/// Adds the row of a variable.
fn push_variable(
    env: &Env,
    ctx: &Ctx<'_>,
    number: u32,
    list: &mut Items<Row>,
) -> Result<Row, AllocError>
    requires few_rows { ctx.now.used ≤ 3 }
    requires part { IsReadable env.now (rows ctx.now) (var number) }
    ensures rated { IfOk result (λ row. IsRated env.now (rows ctx.now) (var number) row) }
    ensures rows { OnOk result (list.new ≡ list.old ++ rows_of env.now (rows ctx.now) (var number)) }
{
    match ctx.variable(number) {
        Some(result) => {
            let row = Row {
                code: 2 * number,
                result,
                weight: env.variable_weight(),
            };
            list.push(row)?;
            Ok(row)
        }
        None => unreachable!(),
    }
}

/// Adds the rows of a term, and answers the first of them.
#[cycle(rows)]
fn push_rows(
    env: &Env,
    ctx: &Ctx<'_>,
    term: &Term,
    list: &mut Items<Row>,
) -> Result<Row, AllocError>
    requires valid { IsValid env.now }
    requires few_rows { ctx.now.used ≤ 3 }
    requires part { IsReadable env.now (rows ctx.now) (expr term.now) }
    ensures rated { IfOk result (λ row. IsRated env.now (rows ctx.now) (expr term.now) row) }
    ensures rows { OnOk result (list.new ≡ list.old ++ rows_of env.now (rows ctx.now) (expr term.now)) }
{
    match term {
        Term::Var(number) => push_variable(env, ctx, *number, list),
        Term::Head(number, args) => push_head(env, ctx, *number, args.as_slice(), list),
    }
}

/// Adds the rows of a declaration over its arguments. The weight of its row is told when theirs are known.
#[cycle(rows)]
fn push_head(
    env: &Env,
    ctx: &Ctx<'_>,
    number: u32,
    args: &[TermArg],
    list: &mut Items<Row>,
) -> Result<Row, AllocError>
    requires valid { IsValid env.now }
    requires few_rows { ctx.now.used ≤ 3 }
    requires part { IsReadable env.now (rows ctx.now) (head number (args_view args.now)) }
    ensures rated { IfOk result (λ row. IsRated env.now (rows ctx.now) (head number (args_view args.now)) row) }
    ensures rows { OnOk result (list.new ≡ list.old ++ rows_of env.now (rows ctx.now) (head number (args_view args.now))) }
{
    match env.parts().decls.get(number as usize) {
        Some(decl) => {
            let mut row = Row {
                code: 2 * number + 1,
                result: decl.result,
                weight: decl.weight,
            };
            let place = list.len();
            list.push(row)?;
            let more = push_args(env, ctx, args, decl.args.as_slice(), list)?;
            row.weight += more;
            list.set(place, row);
            Ok(row)
        }
        None => unreachable!(),
    }
}

/// Adds the rows of arguments, one after the other, and answers what they weigh at their places.
#[cycle(rows)]
fn push_args(
    env: &Env,
    ctx: &Ctx<'_>,
    args: &[TermArg],
    wanted: &[Arg],
    list: &mut Items<Row>,
) -> Result<u32, AllocError>
    requires valid { IsValid env.now }
    requires few_rows { ctx.now.used ≤ 3 }
    requires parts { AreReadable env.now (rows ctx.now) (args_view args.now) wanted.now }
    ensures weight { IfOk result (λ w. w ≡ args_weight env.now (rows ctx.now) (args_view args.now) wanted.now) }
    ensures rows { OnOk result (list.new ≡ list.old ++ args_rows env.now (rows ctx.now) (args_view args.now) wanted.now) }
{
    let mut weight = 0;
    for i in 0..args.len() {
        let more = push_arg(env, ctx, &args[i], &wanted[i], list)?;
        weight += more;
    }
    Ok(weight)
}

/// Adds the rows of one argument, and answers what it weighs at its place.
#[cycle(rows)]
fn push_arg(
    env: &Env,
    ctx: &Ctx<'_>,
    arg: &TermArg,
    wanted: &Arg,
    list: &mut Items<Row>,
) -> Result<u32, AllocError>
    requires valid { IsValid env.now }
    requires few_rows { ctx.now.used ≤ 3 }
    requires parts { AreReadable env.now (rows ctx.now) (args_view (arg.now ∷ [])) (wanted.now ∷ []) }
    ensures weight { IfOk result (λ w. w ≡ args_weight env.now (rows ctx.now) (args_view (arg.now ∷ [])) (wanted.now ∷ [])) }
    ensures rows { OnOk result (list.new ≡ list.old ++ args_rows env.now (rows ctx.now) (args_view (arg.now ∷ [])) (wanted.now ∷ [])) }
{
    match arg {
        TermArg::Plain(term) => push_plain(env, ctx, term, wanted, list),
        TermArg::Lam(body) => push_lambda(env, ctx, body, wanted, list),
    }
}

/// Adds the rows of a plain argument, and answers what it weighs at its place.
#[cycle(rows)]
fn push_plain(
    env: &Env,
    ctx: &Ctx<'_>,
    term: &Term,
    wanted: &Arg,
    list: &mut Items<Row>,
) -> Result<u32, AllocError>
    requires valid { IsValid env.now }
    requires few_rows { ctx.now.used ≤ 3 }
    requires parts { AreReadable env.now (rows ctx.now) (plain (expr term.now) no_args) (wanted.now ∷ []) }
    ensures weight { IfOk result (λ w. w ≡ args_weight env.now (rows ctx.now) (plain (expr term.now) no_args) (wanted.now ∷ [])) }
    ensures rows { OnOk result (list.new ≡ list.old ++ args_rows env.now (rows ctx.now) (plain (expr term.now) no_args) (wanted.now ∷ [])) }
{
    match wanted {
        Arg::Plain(to) => {
            let row = push_rows(env, ctx, term, list)?;
            Ok(row.weight + env.step(row.result, *to))
        }
        Arg::Fun(_, _) => unreachable!(),
    }
}

/// Adds the rows of a lambda's body, and answers what it weighs at its place, with its binders.
#[cycle(rows)]
fn push_lambda(
    env: &Env,
    ctx: &Ctx<'_>,
    body: &Term,
    wanted: &Arg,
    list: &mut Items<Row>,
) -> Result<u32, AllocError>
    requires valid { IsValid env.now }
    requires few_rows { ctx.now.used ≤ 3 }
    requires parts { AreReadable env.now (rows ctx.now) (lam (expr body.now) no_args) (wanted.now ∷ []) }
    ensures weight { IfOk result (λ w. w ≡ args_weight env.now (rows ctx.now) (lam (expr body.now) no_args) (wanted.now ∷ [])) }
    ensures rows { OnOk result (list.new ≡ list.old ++ args_rows env.now (rows ctx.now) (lam (expr body.now) no_args) (wanted.now ∷ [])) }
{
    match wanted {
        Arg::Plain(_) => unreachable!(),
        Arg::Fun(params, to) => {
            let row = push_rows(env, &ctx.with(params.as_slice()), body, list)?;
            let binders = env.binders_weight(params.len()) as u32;
            Ok(row.weight + binders + env.step(row.result, *to))
        }
    }
}
