ghost use Rattle.std.specs.Prelude.{◌≡◌, ◌≤◌, ◌<◌, ◌∷◌, ◌++◌, [], drop, fold, IfOk};
ghost use mathlib.Core.List.{IsPrefix};

use crate::log::Naming;
use crate::shown::Shown;
use crate::view::{BoardWriter, Publishes};
use std::alloc::{AllocError, Global};
use std::sync::Wait;

/// Puts the version behind those that aren't shown yet.
fn append<J: Naming, R: Wait>(rt: &R, writer: &mut BoardWriter<J>, next: Shown<J>)
    ensures desk { writer.new.desk ≡ writer.old.desk }
    ensures pending { drop writer.new.behind writer.new.log.items ≡ drop writer.old.behind writer.old.log.items ++ next ∷ [] }
{
    let mut next = next;
    for _ in rt.forever() {
        match writer.append(next) {
            Ok(()) => return,
            Err(back) => next = back,
        }
    }
    unreachable!()
}

/// Shows the last version that was appended.
fn show<J: Naming, R: Wait>(rt: &R, writer: BoardWriter<J>) -> BoardWriter<J>
    requires { IsPrefix writer.desk.shown.value (fold (λ _ next. next) writer.desk.shown.value (drop writer.behind writer.log.items)) }
    ensures last { result.desk.shown.value ≡ fold (λ _ next. next) writer.desk.shown.value (drop writer.behind writer.log.items) }
{
    let mut writer = writer;
    for _ in rt.forever() {
        let (next, done) = writer.publish_as::<Publishes, R>(rt);
        match done {
            Ok(()) => return next,
            Err(_) => writer = next,
        }
    }
    unreachable!()
}

/// Shows the version, whose history goes on from that of the version shown before. It is repeated until it is
/// done.
pub(crate) fn put<J: Naming, R: Wait>(
    rt: &R,
    mut writer: BoardWriter<J>,
    next: Shown<J>,
) -> BoardWriter<J>
    requires { IsPrefix writer.desk.shown.value next }
    ensures shown { result.desk.shown.value ≡ next }
{
    append(rt, &mut writer, next);
    show(rt, writer)
}

/// Shows the version once more, so that the writer has room for one version from here on.
fn make_room<J: Naming, R: Wait>(
    rt: &R,
    mut writer: BoardWriter<J>,
    again: Shown<J>,
) -> Result<BoardWriter<J>, AllocError>
    requires again { again ≡ writer.desk.shown.value }
    requires none { drop writer.behind writer.log.items ≡ [] }
    ensures shown { IfOk result (λ w. w.desk.shown.value ≡ writer.desk.shown.value) }
{
    match writer.append(again) {
        Ok(()) => Ok(show(rt, writer)),
        Err(_) => {
            let _last = writer.take(rt);
            Err(AllocError)
        }
    }
}

/// A writer that shows the first version to at most so many readers.
pub(crate) fn make_writer<J: Naming, R: Wait>(
    rt: &R,
    alloc: Global,
    shown: Shown<J>,
    places: usize,
) -> Result<BoardWriter<J>, AllocError>
    requires first { shown ≡ J.first }
    requires places { (0 < places) × (places ≤ 64) }
    ensures shown { IfOk result (λ w. w.desk.shown.value ≡ J.first) }
{
    let second = shown.again()?;
    let third = shown.again()?;
    let writer: BoardWriter<J> = BoardWriter::new(alloc, shown, second, places)?;
    make_room(rt, writer, third)
}
