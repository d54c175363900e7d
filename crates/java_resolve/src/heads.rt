ghost use Rattle.std.specs.Prelude.{◌≡◌, ◌++◌, [], map, IfOk, OnOk, slice_get, Some};
ghost use Rattle.terms.specs.Expr.{head};
ghost use Rattle.java_resolve.specs.Found.{accepts, accepts_field, is_none, one, each, next, all_in, found_at, head_in, headed_in, entry_in};
ghost use Rattle.java_resolve.specs.Trees.{tree_args_view, found_view, args_found_view, entry_view, row_view, place_view};

use crate::found::{Entry, Found, Place, Row, pick};
use crate::tree::{Tree, TreeArg};
use lists::Items;
use std::alloc::{AllocError, Global};
use std::rc::Rc;
use terms::{Arg, Decl, Env, Form};

/// How deep terms nest at most that are read back.
const GREATEST_NESTING: u32 = 4000;

/// Which declarations may head an expression.
#[derive(Clone, Copy)]
pub enum Kind {
    /// Names and `this`.
    Alone,
    Call,
    New,
    Method,
    /// Fields that no local name hides.
    ShownField,
    HiddenField,
    Field,
    Lambda,
    Never,
}

impl Kind {
    /// Whether a declaration of this form is one of them.
    pub fn accepts(self, form: &Form) -> bool
        ensures value { result ≡ accepts self form.now }
    {
        match form {
            Form::Name(_) => matches!(self, Kind::Alone),
            Form::This => matches!(self, Kind::Alone),
            Form::Call(_) => matches!(self, Kind::Call),
            Form::New(_) => matches!(self, Kind::New),
            Form::Method(_) => matches!(self, Kind::Method),
            Form::Field(_, hidden) => self.accepts_field(*hidden),
            Form::Lambda(_) => matches!(self, Kind::Lambda),
        }
    }

    /// Whether fields are among them, as a local name hides them or not.
    fn accepts_field(self, hidden: bool) -> bool
        ensures value { result ≡ accepts_field self hidden }
    {
        match self {
            Kind::Field => true,
            Kind::HiddenField => hidden,
            Kind::ShownField => !hidden,
            _ => false,
        }
    }
}

/// Which arguments there are: none, these alone, or two lists and more.
#[derive(Drop)]
pub enum FoundArgs {
    Nothing,
    One(Items<TreeArg>),
    Two,
}

impl FoundArgs {
    /// Whether there are none.
    fn is_nothing(&self) -> bool
        ensures { result ≡ is_none (args_found_view self.now) }
    {
        matches!(self, FoundArgs::Nothing)
    }

    /// The arguments with one more at the end.
    fn next(self, found: Found) -> Result<FoundArgs, AllocError>
        ensures value { IfOk result (λ xs. args_found_view xs ≡ next (args_found_view self) (found_view found)) }
    {
        match self {
            FoundArgs::Nothing => Ok(FoundArgs::Nothing),
            FoundArgs::One(mut trees) => match found {
                Found::Nothing => Ok(FoundArgs::Nothing),
                Found::One(tree) => {
                    trees.push(TreeArg::Plain(tree))?;
                    Ok(FoundArgs::One(trees))
                }
                Found::Two => Ok(FoundArgs::Two),
            },
            FoundArgs::Two => match found {
                Found::Nothing => Ok(FoundArgs::Nothing),
                Found::One(_) => Ok(FoundArgs::Two),
                Found::Two => Ok(FoundArgs::Two),
            },
        }
    }
}

/// The terms at a place.
fn found_at(env: &Env, crowded: bool, place: &Place, arg: &Arg) -> Result<Found, AllocError>
    ensures value { IfOk result (λ f. found_view f ≡ found_at env.now crowded (place_view place.now) arg.now) }
{
    match arg {
        Arg::Plain(wanted) => pick(
            env,
            crowded,
            &place.cast,
            *wanted,
            place.row.entries.as_slice(),
        ),
        Arg::Fun(_, _) => Ok(Found::Nothing),
    }
}

/// The arguments that a declaration may have at these places.
fn all_found(
    alloc: Global,
    env: &Env,
    crowded: bool,
    places: &[Place],
    args: &[Arg],
) -> Result<FoundArgs, AllocError>
    ensures value { IfOk result (λ xs. args_found_view xs ≡ all_in env.now crowded (map place_view places.now) args.now) }
{
    if places.len() != args.len() {
        return Ok(FoundArgs::Nothing);
    }
    let mut all = FoundArgs::One(Items::new(alloc));
    for i in 0..places.len() {
        let found = found_at(env, crowded, &places[i], &args[i])?;
        all = all.next(found)?;
        if all.is_nothing() {
            return Ok(all);
        }
    }
    Ok(all)
}

/// Adds the terms of a declaration with these arguments, where there are any.
fn add_found(
    alloc: Global,
    number: u32,
    kind: u32,
    args: FoundArgs,
    entries: &mut Items<Entry>,
) -> Result<(), AllocError>
    ensures added { OnOk result (map entry_view entries.new ≡ map entry_view entries.old ++ entry_in kind (each (head number) (args_found_view args))) }
{
    let found = match args {
        FoundArgs::Nothing => return Ok(()),
        FoundArgs::One(trees) => one_head(alloc, number, trees)?,
        FoundArgs::Two => Found::Two,
    };
    entries.push(Entry { kind, found })
}

/// The one term with this head.
pub fn one_head(alloc: Global, number: u32, trees: Items<TreeArg>) -> Result<Found, AllocError>
    ensures value { IfOk result (λ f. found_view f ≡ one (head number (tree_args_view trees))) }
{
    match Rc::new(alloc, Tree::Head(number, trees)) {
        Ok(tree) => Ok(Found::One(tree)),
        Err(_) => Err(AllocError),
    }
}

/// Adds the terms that a declaration heads, where it is of the kind.
fn add_head(
    alloc: Global,
    env: &Env,
    kind: Kind,
    number: u32,
    places: &[Place],
    entries: &mut Items<Entry>,
) -> Result<(), AllocError>
    ensures added { OnOk result (map entry_view entries.new ≡ map entry_view entries.old ++ head_in env.now kind (slice_get env.now.decls number) number (map place_view places.now)) }
{
    match env.parts().decls.get(number as usize) {
        None => Ok(()),
        Some(decl) => add_decl(alloc, env, kind, number, decl, places, entries),
    }
}

/// Adds the terms that this declaration heads, where it is of the kind.
fn add_decl(
    alloc: Global,
    env: &Env,
    kind: Kind,
    number: u32,
    decl: &Decl,
    places: &[Place],
    entries: &mut Items<Entry>,
) -> Result<(), AllocError>
    ensures added { OnOk result (map entry_view entries.new ≡ map entry_view entries.old ++ head_in env.now kind (Some decl.now) number (map place_view places.now)) }
{
    if !kind.accepts(&decl.form) {
        return Ok(());
    }
    let args = all_found(alloc, env, decl.crowded, places, decl.args.as_slice())?;
    add_found(alloc, number, decl.result, args, entries)
}

/// How deep a term nests over these places.
pub fn depth_over(places: &[Place]) -> Result<u32, AllocError> {
    let mut depth = 0;
    for place in places {
        if place.row.depth > depth {
            depth = place.row.depth;
        }
    }
    deeper(depth)
}

/// One more, up to the greatest nesting.
pub fn deeper(depth: u32) -> Result<u32, AllocError> {
    if depth >= GREATEST_NESTING {
        return Err(AllocError);
    }
    Ok(depth + 1)
}

/// The terms that these declarations head, where they are of the kind, with arguments at these places.
pub fn headed(
    alloc: Global,
    env: &Env,
    kind: Kind,
    numbers: &[u32],
    places: &[Place],
) -> Result<Row, AllocError>
    ensures value { IfOk result (λ row. row_view row ≡ headed_in env.now kind numbers.now (map place_view places.now)) }
{
    let mut entries = Items::new(alloc);
    for number in numbers {
        add_head(alloc, env, kind, *number, places, &mut entries)?;
    }
    let depth = depth_over(places)?;
    Ok(Row { entries, depth })
}

impl Row {
    /// The row with the entries of another one at the end.
    pub fn with(self, more: Row) -> Result<Row, AllocError>
        ensures value { IfOk result (λ row. row_view row ≡ row_view self ++ row_view more) }
    {
        let Row { mut entries, depth } = self;
        let depth = if depth < more.depth {
            more.depth
        } else {
            depth
        };
        entries.append(more.entries)?;
        Ok(Row { entries, depth })
    }

    /// The row without entries.
    pub fn none(alloc: Global) -> Row
        ensures value { row_view result ≡ [] }
    {
        Row {
            entries: Items::new(alloc),
            depth: 0,
        }
    }
}
