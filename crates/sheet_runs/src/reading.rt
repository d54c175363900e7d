ghost use Rattle.std.specs.Prelude.{◌≤◌, IfOk, IfErr};
ghost use Rattle.sheet_runs.specs.Runs.{IsRead, EndsUnread};
ghost use Rattle.sheets.specs.Writing.{IsWritable};
ghost use Rattle.terms.specs.Faults.{IsValid};

use crate::ending::Ending;
use outside::{ReadFault, Source, read_up_to};
use sheets::{SheetFault, read_sheet};
use std::alloc::Global;
use terms::Env;

/// The most bytes that are read: one more than a sheet may have.
const LONGEST_INPUT: usize = 16_777_217;

/// The environment of the sheet that a source holds, which is read to its end; or how the run ends without one.
pub fn read_env<S: Source>(alloc: Global, source: &mut S) -> Result<Env, Ending>
    ensures sheet { IfOk result (λ env. IsRead (S.left source.old) (S.left source.new) env) }
    ensures valid { IfOk result IsValid }
    ensures writable { IfOk result IsWritable }
    ensures unread { IfErr result (λ ending. EndsUnread ending (S.left source.old) (S.left source.new) (S.faults source.old) (S.faults source.new)) }
    ensures later { S.faults source.old ≤ S.faults source.new }
{
    let bytes = match read_up_to(alloc, source, LONGEST_INPUT) {
        Ok(bytes) => bytes,
        Err(ReadFault::Failed) => return Err(Ending::ReadFault),
        Err(ReadFault::OutOfMemory) => return Err(Ending::OutOfMemory),
    };
    match read_sheet(alloc, bytes.as_slice()) {
        Ok(env) => Ok(env),
        Err(SheetFault::At(line, cause)) => Err(Ending::NotSheet(line, cause)),
        Err(SheetFault::OutOfMemory) => Err(Ending::OutOfMemory),
    }
}
