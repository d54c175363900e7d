use fingerprint::{Fingerprinted, print_of};
use lists::{Items, Text};
use std::alloc::{AllocError, Global};
use terms::{Arg, Decl, Env, EnvFault, Form, Parts, Steps};

/// A small environment: two types of which one is below the other, a value of the second, and a call that wants one.
#[derive(Clone, Copy)]
struct Small {
    second: &'static str,
    pair: (u32, u32),
    value: &'static str,
    wanted: u32,
    weight: u32,
    is_crowded: bool,
    goal: u32,
    limit: u32,
    depth: u32,
    binder: &'static str,
    steps: Steps,
}

const STEPS: Steps = Steps {
    bound: 1,
    binder: 1,
    step: 10,
};

const SMALL: Small = Small {
    second: "long",
    pair: (0, 1),
    value: "x",
    wanted: 1,
    weight: 20,
    is_crowded: false,
    goal: 1,
    limit: 75,
    depth: 1,
    binder: "p",
    steps: STEPS,
};

/// The same with one part changed.
const OTHERS: [Small; 13] = [
    Small {
        second: "lon",
        ..SMALL
    },
    Small {
        pair: (1, 0),
        ..SMALL
    },
    Small {
        value: "y",
        ..SMALL
    },
    Small { wanted: 0, ..SMALL },
    Small {
        weight: 21,
        ..SMALL
    },
    Small {
        is_crowded: true,
        ..SMALL
    },
    Small { goal: 0, ..SMALL },
    Small { limit: 74, ..SMALL },
    Small { depth: 0, ..SMALL },
    Small {
        binder: "q",
        ..SMALL
    },
    Small {
        steps: Steps { bound: 2, ..STEPS },
        ..SMALL
    },
    Small {
        steps: Steps { binder: 2, ..STEPS },
        ..SMALL
    },
    Small {
        steps: Steps { step: 11, ..STEPS },
        ..SMALL
    },
];

fn declarations(alloc: Global, small: &Small) -> Result<Items<Decl>, AllocError> {
    let mut args = Items::new(alloc);
    args.push(Arg::Plain(small.wanted))?;
    let mut decls = Items::new(alloc);
    decls.push(Decl {
        args: Items::new(alloc),
        result: 1,
        weight: 5,
        crowded: false,
        form: Form::Name(Text::from_str(alloc, small.value)?),
    })?;
    decls.push(Decl {
        args,
        result: 0,
        weight: small.weight,
        crowded: small.is_crowded,
        form: Form::Call(Text::from_str(alloc, "f")?),
    })?;
    Ok(decls)
}

fn environment(alloc: Global, small: &Small) -> Result<Env, EnvFault> {
    let mut types = Items::new(alloc);
    types.push(Text::from_str(alloc, "int")?)?;
    types.push(Text::from_str(alloc, small.second)?)?;
    let parts = Parts {
        types,
        pairs: Items::from_slice(alloc, &[small.pair])?,
        decls: declarations(alloc, small)?,
        goal: small.goal,
        limit: small.limit,
        depth: small.depth,
        binder: Text::from_str(alloc, small.binder)?,
        steps: small.steps,
    };
    if !parts.has_lengths() {
        return Err(EnvFault::OutOfMemory);
    }
    Env::checked(alloc, parts)
}

fn print(alloc: Global, small: &Small) -> Result<u64, EnvFault> {
    Ok(print_of(&environment(alloc, small)?))
}

/// Fingerprints decide only who shares, and no clause speaks of them.
#[test]
fn each_part_counts_in_the_fingerprint(rt: HostRuntime) -> Result<(), EnvFault> {
    let usual = print(rt.alloc(), &SMALL)?;
    assert_eq!(rt; print(rt.alloc(), &SMALL)?, usual);
    for other in &OTHERS {
        assert_ne!(rt; print(rt.alloc(), other)?, usual);
    }
    Ok(())
}

#[test]
fn an_environment_has_its_own_fingerprint(rt: HostRuntime) -> Result<(), EnvFault> {
    for small in &OTHERS {
        let env = environment(rt.alloc(), small)?;
        let wanted = print_of(&env);
        assert_eq!(rt; Fingerprinted::new(env).print(), wanted);
    }
    Ok(())
}
