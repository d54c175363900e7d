ghost use Rattle.std.specs.Prelude.{◌≡◌, IfOk};

use lists::{Copies, Items};
use std::alloc::{AllocError, Global};

/// A term in long normal form. Calls go as deep as the term nests.
#[cycle(term)]
#[derive(Debug, Drop)]
pub enum Term {
    /// A variable, counted over all binders of the lambdas around it from the outermost, from 0.
    Var(u32),
    /// A declaration, by its number, and its arguments.
    Head(u32, Items<TermArg>),
}

/// An argument of a term.
#[cycle(term)]
#[derive(Debug, Drop)]
pub enum TermArg {
    /// A term.
    Plain(Term),
    /// The body of a lambda, whose binders the declaration gives.
    Lam(Term),
}

impl Term {
    /// An equal term in memory of its own.
    #[cycle(copy)]
    pub fn copy(&self, alloc: Global) -> Result<Term, AllocError>
        ensures equal { IfOk result (λ copy. copy ≡ self.now) }
    {
        match self {
            Term::Var(number) => Ok(Term::Var(*number)),
            Term::Head(decl, args) => Ok(Term::Head(*decl, copy_args(alloc, args)?)),
        }
    }
}

#[cycle(copy)]
fn copy_args(alloc: Global, args: &Items<TermArg>) -> Result<Items<TermArg>, AllocError>
    ensures equal { IfOk result (λ copies. copies ≡ args.now) }
{
    let mut copies = Items::new(alloc);
    for arg in args.as_slice() {
        let copied = match arg {
            TermArg::Plain(term) => TermArg::Plain(term.copy(alloc)?),
            TermArg::Lam(body) => TermArg::Lam(body.copy(alloc)?),
        };
        copies.push(copied)?;
    }
    Ok(copies)
}

impl Copies for Term {
    fn copy(&self, alloc: Global) -> Result<Term, AllocError> {
        Term::copy(self, alloc)
    }
}
