ghost use Rattle.std.specs.Prelude.{◌≡◌, ◌≤◌, ◌++◌, ℕ, List, Option, IfOk, OnOk, OnErr, IsErrOf, string_bytes};
ghost use Rattle.std.specs.Io.KnownBytes.{Appends};
ghost use Rattle.outside.specs.Causes.{Rose};
ghost use Rattle.outside.specs.Gathered.{Gathered, WrotePrefix};
ghost use Rattle.usage_counts.specs.Counts.{KeysRise};
ghost use Rattle.counting.specs.Lines.{line_text, lines_text};

use outside::{Gathering, Sink, WriteFault};
use std::alloc::{AllocError, Global};
use usage_counts::Counts;

/// The line of a key.
fn line_of(alloc: Global, key: &str, number: u32) -> Result<String, AllocError>
    ensures { IfOk result (λ line. string_bytes line ≡ line_text (key.now, number)) }
{
    let mut line = number.to_string(alloc)?;
    line.push_str(" ")?;
    line.push_str(key)?;
    line.push_str("\n")?;
    Ok(line)
}

/// Puts the line of a key to the others.
fn put_line<K: Sink>(
    alloc: Global,
    gathering: &mut Gathering,
    sink: &mut K,
    key: &str,
    number: u32,
) -> Result<(), WriteFault>
    ensures added { OnOk result ((start : Option (List ℕ)) → (all : List ℕ) →
        Gathered start (K.written sink.old) gathering.old all
        → Gathered start (K.written sink.new) gathering.new (all ++ line_text (key.now, number))) }
    ensures prefix { OnErr result ((start : Option (List ℕ)) → (all : List ℕ) →
        Gathered start (K.written sink.old) gathering.old all
        → WrotePrefix start (K.written sink.new) (all ++ line_text (key.now, number))) }
    ensures later { K.faults sink.old ≤ K.faults sink.new }
    ensures cause { IsErrOf result WriteFault.Failed → Rose (K.faults sink.old) (K.faults sink.new) }
{
    let line = line_of(alloc, key, number)?;
    gathering.put(sink, line.as_bytes())?;
    Ok(())
}

/// Puts the lines of all keys to the others, in rising byte order of keys.
fn put_lines<K: Sink>(
    alloc: Global,
    gathering: &mut Gathering,
    sink: &mut K,
    counts: &Counts,
) -> Result<(), WriteFault>
    ensures added { OnOk result ((start : Option (List ℕ)) → (all : List ℕ) →
        Gathered start (K.written sink.old) gathering.old all
        → Gathered start (K.written sink.new) gathering.new (all ++ lines_text counts.now)) }
    ensures prefix { OnErr result ((start : Option (List ℕ)) → (all : List ℕ) →
        Gathered start (K.written sink.old) gathering.old all
        → WrotePrefix start (K.written sink.new) (all ++ lines_text counts.now)) }
    ensures rise { KeysRise counts.now }
    ensures later { K.faults sink.old ≤ K.faults sink.new }
    ensures cause { IsErrOf result WriteFault.Failed → Rose (K.faults sink.old) (K.faults sink.new) }
{
    for (key, number) in counts.iter() {
        put_line(alloc, gathering, sink, key.as_str(), *number)?;
    }
    Ok(())
}

/// Writes a line `N KEY` for each key, in rising byte order of keys.
pub fn write_lines<K: Sink>(alloc: Global, counts: &Counts, sink: &mut K) -> Result<(), WriteFault>
    ensures whole { OnOk result (Appends (K.written sink.old) (K.written sink.new) (lines_text counts.now)) }
    ensures prefix { OnErr result (WrotePrefix (K.written sink.old) (K.written sink.new) (lines_text counts.now)) }
    ensures rise { KeysRise counts.now }
    ensures later { K.faults sink.old ≤ K.faults sink.new }
    ensures cause { IsErrOf result WriteFault.Failed → Rose (K.faults sink.old) (K.faults sink.new) }
{
    let mut gathering = Gathering::new(alloc);
    put_lines(alloc, &mut gathering, sink, counts)?;
    gathering.flush(sink)?;
    Ok(())
}
