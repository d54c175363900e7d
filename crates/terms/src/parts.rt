ghost use Rattle.std.specs.Prelude.{◌≡◌, IsTrue};
ghost use Rattle.terms.specs.Weights.{usual_steps};
ghost use Rattle.terms.specs.Faults.{HasLengths};

use lists::{Copies, Items, Text, copy_all};
use std::alloc::{AllocError, Global};

/// How deep lambdas of an environment nest at most.
pub const GREATEST_DEPTH: u32 = 3;

/// What a declaration wants at a place.
#[derive(Debug, Drop)]
pub enum Arg {
    /// A value of a type, by the type's number.
    Plain(u32),
    /// A lambda with parameters of these types, in order, whose body fits the last type.
    Fun(Items<u32>, u32),
}

/// How a declaration is written in Java. Texts are names as written, in UTF-8.
#[derive(Debug, Drop)]
pub enum Form {
    /// A name or a literal, without arguments.
    Name(Text),
    /// `this`.
    This,
    /// A call by its name, perhaps with dots: `f(a, b)`.
    Call(Text),
    /// A constructor's call: `new C(a, b)`.
    New(Text),
    /// A method of its first argument: `a.m(b)`.
    Method(Text),
    /// A field of its one argument: `a.k`; the flag says that a local name hides it.
    Field(Text, bool),
    /// A lambda as a value of the functional interface with this name.
    Lambda(Text),
}

/// A declaration: what it wants, what it gives, and what a use of it weighs.
#[derive(Debug, Drop)]
pub struct Decl {
    pub args: Items<Arg>,
    pub result: u32,
    pub weight: u32,
    /// Whether a coercion at one of its places has to be written as a cast.
    pub crowded: bool,
    pub form: Form,
}

/// The weights that belong to no declaration.
#[derive(Clone, Copy, Debug, PartialEq, Eq)]
pub struct Steps {
    /// What a use of a lambda's variable weighs, from 1 to 100.
    pub bound: u32,
    /// What a binder of a lambda weighs, from 1 to 100.
    pub binder: u32,
    /// What a coercion weighs, from 1 to 10,000.
    pub step: u32,
}

impl Steps {
    /// Those of an environment for which nobody sets them: 1, 1 and 10.
    pub fn usual() -> Steps
        ensures value { result ≡ usual_steps }
    {
        Steps {
            bound: 1,
            binder: 1,
            step: 10,
        }
    }
}

/// The parts of an environment, as they were given. Types and declarations are named by their places
/// in the lists, from 0.
#[derive(Debug, Drop)]
pub struct Parts {
    /// The texts of the types.
    pub types: Items<Text>,
    /// The strict subtype pairs: the first stands where the second is wanted.
    pub pairs: Items<(u32, u32)>,
    pub decls: Items<Decl>,
    /// The type that is asked for.
    pub goal: u32,
    /// The greatest total: the weight of a term with its coercion to the goal.
    pub limit: u32,
    /// How deep lambdas may nest.
    pub depth: u32,
    /// What a lambda's variables are called, before their numbers.
    pub binder: Text,
    /// What variables, binders and coercions weigh.
    pub steps: Steps,
}

impl Parts {
    /// Whether the lists are short enough for an environment: types and pairs fewer than 2^32, declarations
    /// fewer than 2^31, and declarations and pairs together fewer than 2^32.
    pub fn has_lengths(&self) -> bool
        ensures yes { IsTrue result → HasLengths self.now }
        ensures no { HasLengths self.now → IsTrue result }
    {
        let types = self.types.as_slice().len();
        let pairs = self.pairs.as_slice().len();
        let decls = self.decls.as_slice().len();
        if types >= 4_294_967_296 {
            return false;
        }
        if pairs >= 4_294_967_296 {
            return false;
        }
        if decls >= 2_147_483_648 {
            return false;
        }
        decls + pairs < 4_294_967_296
    }
}

impl Copies for Arg {
    fn copy(&self, alloc: Global) -> Result<Arg, AllocError> {
        match self {
            Arg::Plain(wanted) => Ok(Arg::Plain(*wanted)),
            Arg::Fun(params, result) => Ok(Arg::Fun(copy_all(alloc, params)?, *result)),
        }
    }
}

impl Copies for Form {
    fn copy(&self, alloc: Global) -> Result<Form, AllocError> {
        match self {
            Form::Name(text) => Ok(Form::Name(text.copy(alloc)?)),
            Form::This => Ok(Form::This),
            Form::Call(text) => Ok(Form::Call(text.copy(alloc)?)),
            Form::New(text) => Ok(Form::New(text.copy(alloc)?)),
            Form::Method(text) => Ok(Form::Method(text.copy(alloc)?)),
            Form::Field(text, hidden) => Ok(Form::Field(text.copy(alloc)?, *hidden)),
            Form::Lambda(text) => Ok(Form::Lambda(text.copy(alloc)?)),
        }
    }
}

impl Copies for Decl {
    fn copy(&self, alloc: Global) -> Result<Decl, AllocError> {
        Ok(Decl {
            args: copy_all(alloc, &self.args)?,
            result: self.result,
            weight: self.weight,
            crowded: self.crowded,
            form: self.form.copy(alloc)?,
        })
    }
}

impl Copies for Parts {
    fn copy(&self, alloc: Global) -> Result<Parts, AllocError> {
        Ok(Parts {
            types: copy_all(alloc, &self.types)?,
            pairs: Items::from_slice(alloc, self.pairs.as_slice())?,
            decls: copy_all(alloc, &self.decls)?,
            goal: self.goal,
            limit: self.limit,
            depth: self.depth,
            binder: self.binder.copy(alloc)?,
            steps: self.steps,
        })
    }
}
