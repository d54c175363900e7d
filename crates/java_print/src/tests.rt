ghost use Rattle.std.specs.Prelude.{◌≡◌, IfSome};
ghost use Rattle.terms.specs.View.{expr};

use crate::text;
use lists::{Items, Text};
use std::alloc::{AllocError, Global};
use terms::{Arg, Ctx, Decl, Env, EnvFault, Form, Parts, Steps, Term, TermArg};

/// How a declaration is written.
#[derive(Clone, Copy)]
enum Word {
    Name,
    This,
    Call,
    New,
    Method,
    Field,
    Hidden,
}

/// A declaration that wants values, or one lambda with these parameters.
#[derive(Clone, Copy)]
struct Declared<'a> {
    word: Word,
    text: &'a str,
    crowded: bool,
    gives: u32,
    wants: &'a [u32],
    params: Option<&'a [u32]>,
}

/// One step of building a term: a variable, or a declaration over the last terms built.
#[derive(Clone, Copy)]
enum Step {
    Var(u32),
    Leaf(u32),
    Over(u32),
    Both(u32),
    Under(u32),
}

/// An environment, and terms with their texts.
#[derive(Clone, Copy)]
struct Case<'a> {
    types: &'a [&'a str],
    pairs: &'a [(u32, u32)],
    lines: &'a [Declared<'a>],
    texts: &'a [(&'a [Step], &'a str)],
}

fn line<'a>(word: Word, text: &'a str, gives: u32, wants: &'a [u32]) -> Declared<'a> {
    Declared {
        word,
        text,
        crowded: false,
        gives,
        wants,
        params: None,
    }
}

fn crowded<'a>(word: Word, text: &'a str, gives: u32, wants: &'a [u32]) -> Declared<'a> {
    Declared {
        word,
        text,
        crowded: true,
        gives,
        wants,
        params: None,
    }
}

fn lambda<'a>(text: &'a str, gives: u32, body: &'a [u32], params: &'a [u32]) -> Declared<'a> {
    Declared {
        word: Word::Name,
        text,
        crowded: false,
        gives,
        wants: body,
        params: Some(params),
    }
}

fn wanted(alloc: Global, line: &Declared<'_>) -> Result<Items<Arg>, AllocError> {
    let mut args = Items::new(alloc);
    for place in line.wants {
        args.push(match line.params {
            Some(params) => Arg::Fun(Items::from_slice(alloc, params)?, *place),
            None => Arg::Plain(*place),
        })?;
    }
    Ok(args)
}

fn form(alloc: Global, line: &Declared<'_>) -> Result<Form, AllocError> {
    let text = Text::from_str(alloc, line.text)?;
    if line.params.is_some() {
        return Ok(Form::Lambda(text));
    }
    Ok(match line.word {
        Word::Name => Form::Name(text),
        Word::This => Form::This,
        Word::Call => Form::Call(text),
        Word::New => Form::New(text),
        Word::Method => Form::Method(text),
        Word::Field => Form::Field(text, false),
        Word::Hidden => Form::Field(text, true),
    })
}

fn decls(alloc: Global, lines: &[Declared<'_>]) -> Result<Items<Decl>, AllocError> {
    let mut decls = Items::new(alloc);
    for line in lines {
        decls.push(Decl {
            args: wanted(alloc, line)?,
            result: line.gives,
            weight: 5,
            crowded: line.crowded,
            form: form(alloc, line)?,
        })?;
    }
    Ok(decls)
}

fn types(alloc: Global, words: &[&str]) -> Result<Items<Text>, AllocError> {
    let mut types = Items::new(alloc);
    for word in words {
        types.push(Text::from_str(alloc, word)?)?;
    }
    Ok(types)
}

fn env(alloc: Global, case: &Case<'_>) -> Result<Env, EnvFault> {
    let types = types(alloc, case.types)?;
    let pairs = Items::from_slice(alloc, case.pairs)?;
    let decls = decls(alloc, case.lines)?;
    if types.len() > 10 || pairs.len() > 10 || decls.len() > 10 {
        return Err(EnvFault::OutOfMemory);
    }
    let parts = Parts {
        types,
        pairs,
        decls,
        goal: 0,
        limit: 100,
        depth: 1,
        binder: Text::from_str(alloc, "p")?,
        steps: Steps::usual(),
    };
    Env::checked(alloc, parts)
}

fn over(alloc: Global, decl: u32, args: [Option<TermArg>; 2]) -> Result<Term, AllocError> {
    let mut list = Items::new(alloc);
    for arg in args {
        if let Some(arg) = arg {
            list.push(arg)?;
        }
    }
    Ok(Term::Head(decl, list))
}

fn value(term: Option<Term>) -> Option<TermArg> {
    term.map(TermArg::Plain)
}

fn next(alloc: Global, stack: &mut Vec<Term>, step: Step) -> Result<Term, AllocError> {
    match step {
        Step::Var(n) => Ok(Term::Var(n)),
        Step::Leaf(decl) => over(alloc, decl, [None, None]),
        Step::Over(decl) => over(alloc, decl, [value(stack.pop()), None]),
        Step::Under(decl) => over(alloc, decl, [stack.pop().map(TermArg::Lam), None]),
        Step::Both(decl) => {
            let second = value(stack.pop());
            over(alloc, decl, [value(stack.pop()), second])
        }
    }
}

fn built(alloc: Global, steps: &[Step]) -> Result<Option<Term>, AllocError> {
    let mut stack = Vec::new(alloc);
    for step in steps {
        let term = next(alloc, &mut stack, *step)?;
        stack.push(term)?;
    }
    Ok(stack.pop())
}

/// Whether a term that has a type has this text.
fn is_shown(alloc: Global, env: &Env, term: &Term, wanted: &str) -> Result<bool, AllocError> {
    match env.type_of(&Ctx::empty(), term) {
        Some(_) => Ok(text(alloc, env, term)?.as_str() == wanted),
        None => Ok(false),
    }
}

fn prints(alloc: Global, case: &Case<'_>) -> Result<bool, EnvFault> {
    let env = env(alloc, case)?;
    for (steps, wanted) in case.texts {
        let shown = match built(alloc, steps)? {
            Some(term) => is_shown(alloc, &env, &term, wanted)?,
            None => false,
        };
        if !shown {
            return Ok(false);
        }
    }
    Ok(true)
}

#[test]
fn receivers_are_cast_in_brackets(rt: HostRuntime) -> Result<(), EnvFault> {
    let case = Case {
        types: &["A", "B"],
        pairs: &[(1, 0)],
        lines: &[
            line(Word::Name, "b", 1, &[]),
            crowded(Word::Method, "m", 0, &[0]),
            crowded(Word::Call, "T.m", 0, &[0]),
        ],
        texts: &[
            (&[Step::Leaf(0)], "b"),
            (&[Step::Leaf(0), Step::Over(1)], "((A) b).m()"),
            (
                &[Step::Leaf(0), Step::Over(1), Step::Over(1)],
                "((A) b).m().m()",
            ),
            (&[Step::Leaf(0), Step::Over(2)], "T.m((A) b)"),
        ],
    };
    assert!(rt; prints(rt.alloc(), &case)?);
    Ok(())
}

#[test]
fn this_is_printed_for_hidden_fields_alone(rt: HostRuntime) -> Result<(), EnvFault> {
    let case = Case {
        types: &["int", "P"],
        pairs: &[],
        lines: &[
            line(Word::This, "", 1, &[]),
            line(Word::Field, "k", 0, &[1]),
            line(Word::Hidden, "j", 0, &[1]),
            line(Word::Method, "m", 0, &[1, 0]),
        ],
        texts: &[
            (&[Step::Leaf(0)], "this"),
            (&[Step::Leaf(0), Step::Over(1)], "k"),
            (&[Step::Leaf(0), Step::Over(2)], "this.j"),
            (
                &[Step::Leaf(0), Step::Leaf(0), Step::Over(1), Step::Both(3)],
                "m(k)",
            ),
        ],
    };
    assert!(rt; prints(rt.alloc(), &case)?);
    Ok(())
}

#[test]
fn calls_creations_and_lambdas(rt: HostRuntime) -> Result<(), EnvFault> {
    let case = Case {
        types: &["int", "long", "I"],
        pairs: &[(0, 1)],
        lines: &[
            line(Word::Name, "x", 0, &[]),
            line(Word::Call, "f", 0, &[1]),
            lambda("I", 2, &[0], &[0]),
            lambda("J", 2, &[0], &[1, 0]),
            line(Word::New, "C", 0, &[0, 2]),
        ],
        texts: &[
            (&[Step::Leaf(0), Step::Over(1), Step::Over(1)], "f(f(x))"),
            (&[Step::Var(0), Step::Under(2)], "(I) (p0) -> p0"),
            (&[Step::Leaf(0), Step::Under(2)], "(I) (p0) -> x"),
            (&[Step::Var(1), Step::Under(3)], "(J) (p0, p1) -> p1"),
            (
                &[Step::Leaf(0), Step::Var(0), Step::Under(2), Step::Both(4)],
                "new C(x, (I) (p0) -> p0)",
            ),
        ],
    };
    assert!(rt; prints(rt.alloc(), &case)?);
    Ok(())
}
