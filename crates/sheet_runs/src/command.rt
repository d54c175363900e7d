ghost use Rattle.std.specs.Prelude.{◌≡◌, ◌≤◌, length, OnOk, OnErr, IsErrOf};
ghost use Rattle.std.specs.Io.KnownBytes.{Appends};
ghost use Rattle.outside.specs.Causes.{Rose};
ghost use Rattle.outside.specs.Gathered.{WrotePrefix};
ghost use Rattle.sheet_runs.specs.Runs.{UpgradesBy};
ghost use Rattle.sheets.specs.Sheets.{IsSheet};
ghost use Rattle.sheets.specs.Writing.{IsWritable, sheet_text as text_of_sheet};

use crate::ending::Ending;
use crate::reading::read_env;
use outside::{End, Shelf, Sink, Source, WriteFault, write_all};
use sheets::sheet_text;
use std::alloc::Global;
use terms::Env;

/// Writes the text of an environment's sheet.
fn write_sheet<K: Sink>(alloc: Global, env: &Env, sink: &mut K) -> Result<(), WriteFault>
    ensures whole { OnOk result (Appends (K.written sink.old) (K.written sink.new) (text_of_sheet env.now)) }
    ensures again { OnOk result (IsWritable env.now → length (text_of_sheet env.now) ≤ 16777216 → IsSheet (text_of_sheet env.now) env.now) }
    ensures prefix { OnErr result (WrotePrefix (K.written sink.old) (K.written sink.new) (text_of_sheet env.now)) }
    ensures later { K.faults sink.old ≤ K.faults sink.new }
    ensures cause { IsErrOf result WriteFault.Failed → Rose (K.faults sink.old) (K.faults sink.new) }
{
    let text = sheet_text(alloc, env)?;
    write_all(sink, text.as_bytes())?;
    Ok(())
}

/// Runs `upgrade` over one end: reads a sheet from its source to the end, and writes it to its sink anew, as a sheet 2 with
/// each of its lines. Comments and empty lines are dropped, and what is upgraded twice gets the same bytes.
pub fn upgrade<S: Source, K: Sink, H: Shelf>(alloc: Global, end: &mut End<S, K, H>) -> Ending
    ensures ending { UpgradesBy result (S.left end.old.source) (S.left end.new.source) (K.written end.old.sink) (K.written end.new.sink)
        (S.faults end.old.source) (S.faults end.new.source) (K.faults end.old.sink) (K.faults end.new.sink) }
    ensures shelf { end.new.shelf ≡ end.old.shelf }
    ensures later { (S.faults end.old.source ≤ S.faults end.new.source) × (K.faults end.old.sink ≤ K.faults end.new.sink) }
{
    let env = match read_env(alloc, &mut end.source) {
        Ok(env) => env,
        Err(ending) => return ending,
    };
    match write_sheet(alloc, &env, &mut end.sink) {
        Ok(()) => Ending::Whole,
        Err(WriteFault::Failed) => Ending::WriteFault,
        Err(WriteFault::OutOfMemory) => Ending::OutOfMemory,
    }
}
