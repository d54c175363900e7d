ghost use Rattle.std.specs.Prelude.{◌≡◌, ◌≤◌, ◌<◌, All, vec_len, IfOk};
ghost use Rattle.version_board.specs.Versions.{IsVersion};
ghost use Rattle.version_board.specs.Views.{newcomer};

use crate::log::{Naming, Opened};
use crate::pass::Pass;
use crate::publisher::Publisher;
use crate::shown::Shown;
use crate::snapshot::Snapshot;
use crate::view::BoardFactory;
use crate::writing::make_writer;
use std::alloc::{AllocError, Global};
use std::sync::{Arc, Wait};

/// A publisher, and so many passes that have seen the first version and have read nothing. The log gives the board
/// its name: `J` is picked by `Brand`.
pub fn start_board<J: Naming, R: Wait + Drop>(
    rt: R,
    alloc: Global,
    opened: Opened,
    first: Snapshot,
    places: usize,
) -> Result<(Publisher<J, R>, Vec<Pass<J>>), AllocError>
    requires book { opened.seen.book ≡ J.book }
    requires first { IsVersion J.first first }
    requires places { (0 < places) × (places ≤ 64) }
    ensures publisher { IfOk result (λ r. r.0 ≡ J.first) }
    ensures count { IfOk result (λ r. vec_len r.1 ≡ places) }
    ensures passes { IfOk result (λ r. All (λ p. p ≡ newcomer J.first) r.1.items) }
{
    let (log, prefix) = opened.named::<J>();
    let shown = Shown::new(Arc::new(alloc, first).map_err(|_| AllocError)?, prefix);
    let writer = make_writer(&rt, alloc, shown, places)?;
    match seats(writer.factory(), alloc, writer.published(), places) {
        Ok(passes) => Ok((Publisher::new(writer, log, rt), passes)),
        Err(error) => {
            let _last = writer.take(&rt);
            Err(error)
        }
    }
}

/// So many passes that have seen what is shown.
fn seats<J: Naming>(
    factory: &BoardFactory<J>,
    alloc: Global,
    shown: &Shown<J>,
    places: usize,
) -> Result<Vec<Pass<J>>, AllocError>
    requires { shown.now ≡ J.first }
    ensures count { IfOk result (λ v. vec_len v ≡ places) }
    ensures passes { IfOk result (λ v. All (λ p. p ≡ newcomer J.first) v.items) }
{
    let mut passes = Vec::new(alloc);
    for _ in 0..places {
        passes.push(Pass::seat(factory, shown.prefix().again(), shown.len())?)?;
    }
    Ok(passes)
}
