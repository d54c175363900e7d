use lists::Items;
use outside::{FaultPlan, MemShelf};
use sessions::{MemWorld, Outcome, Session, World};
use std::alloc::{AllocError, Global};
use std::sync::Wait;
use std::test::Fail;
use std::thread::Threads;

const INITIALIZE: &str = r#"{"jsonrpc":"2.0","id":1,"method":"initialize","params":{}}"#;

const SHUTDOWN: &str = r#"{"jsonrpc":"2.0","id":2,"method":"shutdown"}"#;

const EXIT: &str = r#"{"jsonrpc":"2.0","method":"exit"}"#;

const EARLY: &str = r#"{"jsonrpc":"2.0","id":1,"method":"textDocument/completion","params":{}}"#;

const STOPPED: &str = r#"{"id":2,"jsonrpc":"2.0","result":null}"#;

const NO_JSON: &str =
    r#"{"error":{"code":-32700,"message":"parse error"},"id":null,"jsonrpc":"2.0"}"#;

const TOO_EARLY: &str =
    r#"{"error":{"code":-32002,"message":"not initialized"},"id":1,"jsonrpc":"2.0"}"#;

/// The outcome of the last of these bodies.
fn step_each<W: World>(
    rt: &(impl Threads + Sync),
    alloc: Global,
    session: &mut Session,
    world: &mut W,
    bodies: &[&str],
) -> Result<Outcome, AllocError> {
    let mut outcome = Outcome::Silent;
    for body in bodies {
        outcome = session.step(rt, alloc, body.as_bytes(), world)?;
    }
    Ok(outcome)
}

/// The same in a new session over the version 0.
fn last<R: Threads + Wait + Sync>(
    rt: &R,
    alloc: Global,
    bodies: &[&str],
) -> Result<Outcome, AllocError> {
    let shelf = MemShelf::new(Items::new(alloc), FaultPlan::none(alloc));
    let mut world = MemWorld::new(rt, alloc, shelf)?;
    let mut session = Session::new(alloc);
    step_each(rt, alloc, &mut session, &mut world, bodies)
}

/// Whether the last of these bodies is replied so.
fn replies<R: Threads + Wait + Sync>(
    rt: &R,
    alloc: Global,
    bodies: &[&str],
    reply: &str,
) -> Result<bool, AllocError> {
    match last(rt, alloc, bodies)? {
        Outcome::Reply(bytes) => Ok(bytes.as_slice() == reply.as_bytes()),
        _ => Ok(false),
    }
}

/// Whether the last of these bodies ends the session, after `shutdown` or not.
fn exits<R: Threads + Wait + Sync>(
    rt: &R,
    alloc: Global,
    bodies: &[&str],
    is_stopped: bool,
) -> Result<bool, AllocError> {
    match last(rt, alloc, bodies)? {
        Outcome::Exit(stopped) => Ok(stopped == is_stopped),
        _ => Ok(false),
    }
}

#[test]
fn a_completion_before_initialize_is_refused(rt: HostRuntime) -> Result<(), Fail> {
    assert!(rt; replies(&rt, rt.alloc(), &[EARLY], TOO_EARLY)?);
    Ok(())
}

#[test]
fn a_body_that_is_no_json_does_not_end_the_session(rt: HostRuntime) -> Result<(), Fail> {
    assert!(rt; replies(&rt, rt.alloc(), &["{"], NO_JSON)?);
    assert!(rt; replies(&rt, rt.alloc(), &["{", EARLY], TOO_EARLY)?);
    Ok(())
}

#[test]
fn an_exit_tells_whether_shutdown_came_before(rt: HostRuntime) -> Result<(), Fail> {
    assert!(rt; replies(&rt, rt.alloc(), &[INITIALIZE, SHUTDOWN], STOPPED)?);
    assert!(rt; exits(&rt, rt.alloc(), &[INITIALIZE, SHUTDOWN, EXIT], true)?);
    assert!(rt; exits(&rt, rt.alloc(), &[EXIT], false)?);
    Ok(())
}
