ghost use Rattle.std.specs.Prelude.{◌≡◌, IfOk};
ghost use Rattle.terms.specs.View.{expr, arg, args_view};
ghost use Rattle.java_resolve.specs.Trees.{tree_view, tree_arg_view, tree_args_view};

use lists::Items;
use std::alloc::{AllocError, Global};
use std::rc::Rc;
use terms::{Term, TermArg};

/// A term whose parts may be parts of several terms.
#[cycle(tree)]
#[derive(Drop)]
pub enum Tree {
    Var(u32),
    Head(u32, Items<TreeArg>),
}

/// An argument of such a term: a term, or the body of a lambda.
#[cycle(tree)]
#[derive(Drop)]
pub enum TreeArg {
    Plain(Rc<Tree>),
    Lam(Rc<Tree>),
}

/// The term, in memory of its own.
#[cycle(building)]
pub fn term_of(alloc: Global, tree: &Tree) -> Result<Term, AllocError>
    ensures same { IfOk result (λ t. expr t ≡ tree_view tree.now) }
{
    match tree {
        Tree::Var(number) => Ok(Term::Var(*number)),
        Tree::Head(decl, args) => Ok(Term::Head(*decl, args_of(alloc, args.as_slice())?)),
    }
}

/// Arguments in memory of their own.
#[cycle(building)]
fn args_of(alloc: Global, args: &[TreeArg]) -> Result<Items<TermArg>, AllocError>
    ensures same { IfOk result (λ xs. args_view xs ≡ tree_args_view args.now) }
{
    let mut copies = Items::new(alloc);
    for arg in args {
        copies.push(arg_of(alloc, arg)?)?;
    }
    Ok(copies)
}

/// An argument in memory of its own.
#[cycle(building)]
fn arg_of(alloc: Global, shared: &TreeArg) -> Result<TermArg, AllocError>
    ensures same { IfOk result (λ x. arg x ≡ tree_arg_view shared.now) }
{
    match shared {
        TreeArg::Plain(tree) => Ok(TermArg::Plain(term_of(alloc, tree)?)),
        TreeArg::Lam(tree) => Ok(TermArg::Lam(term_of(alloc, tree)?)),
    }
}
