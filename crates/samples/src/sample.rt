ghost use Rattle.std.specs.Prelude.{◌≡◌, ◌≤◌, ◌++◌, codes, decimal, IfOk, OnOk, IsErrOf};
ghost use Rattle.outside.specs.Causes.{Rose};
ghost use Rattle.samples.specs.Lines.{AreLinesOf, HasWritten, HasBegun};

use crate::classes::version_of;
use crate::goal::goal_in;
use crate::hole::environment_at;
use crate::page::page_told;
use lists::Text;
use outside::{Sink, WriteFault, write_all};
use std::alloc::{AllocError, Global};
use workload::make_sample;

/// The lines of how many classes there are and which is wanted, and those of the page.
fn lines_of(alloc: Global, classes: usize, goal: &str, page: &Text) -> Result<Text, AllocError>
    ensures { IfOk result (λ lines. lines ≡ codes "classes " ++ (decimal classes ++ (codes "\ngoal C" ++ (goal.now ++ (codes "\n" ++ page.now))))) }
{
    let page = page.as_str();
    let lines = format!(in alloc; "classes {classes}\ngoal C{goal}\n{page}")?;
    Ok(Text::from_string(lines))
}

/// The six lines of the sample of a number. Its classes are written as class files, read again and put in by one change. Then the
/// first page is asked for at the hole of its text, with the limit 4,000 and the depth 1: `classes` and their count; `goal` and the
/// class that is wanted; `items` and how many the page has, 100 at most; `last`, `yes` where the list ends with them and else `no`;
/// `weights`, those of the first and the last item, 0 where there is none; `bytes` and the length of the texts together. One number
/// has the same lines on every machine.
#[tactic(auto, using(crate::proofs::Texts::texts))]
pub fn sample_lines(alloc: Global, n: u32) -> Result<Text, AllocError>
    ensures exact { IfOk result (λ lines. AreLinesOf n lines) }
{
    let sample = make_sample(alloc, n)?;
    let Some(goal) = goal_in(sample.source.as_str()) else {
        return Err(AllocError);
    };
    let version = version_of(alloc, sample.classes.as_slice())?;
    let env = environment_at(alloc, &version, sample.source.as_str(), sample.place)?;
    let page = page_told(alloc, env)?;
    lines_of(alloc, sample.classes.len(), goal, &page)
}

/// Writes the six lines of the sample of a number.
pub fn write_sample<K: Sink>(alloc: Global, n: u32, sink: &mut K) -> Result<(), WriteFault>
    // What was written are the six lines, and nothing else.
    ensures whole { OnOk result (HasWritten n (K.written sink.old) (K.written sink.new)) }
    // Where the sink fails a prefix of them was written.
    ensures begun { IsErrOf result WriteFault.Failed → HasBegun n (K.written sink.old) (K.written sink.new) }
    // Where memory is wanting nothing was written.
    ensures no_memory { IsErrOf result WriteFault.OutOfMemory → sink.new ≡ sink.old }
    ensures later { K.faults sink.old ≤ K.faults sink.new }
    ensures cause { IsErrOf result WriteFault.Failed → Rose (K.faults sink.old) (K.faults sink.new) }
{
    let lines = sample_lines(alloc, n)?;
    write_all(sink, lines.as_bytes())?;
    Ok(())
}
