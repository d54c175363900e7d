ghost use Rattle.std.specs.Prelude.{◌≡◌, ◌≤◌, ◌++◌, ℕ, List, Option, IfOk, OnOk, OnErr, IsErrOf, string_bytes};
ghost use Rattle.outside.specs.Causes.{Rose};
ghost use Rattle.outside.specs.Gathered.{Gathered, WrotePrefix};
ghost use Rattle.serving.specs.Runs.{item_text, items_text, list_text, HasWritten};
ghost use Rattle.terms.specs.Expr.{Expr};
ghost use Rattle.terms.specs.Listing.{IsWhole};

use listing::{Item, Listing};
use outside::{Gathering, Sink, WriteFault};
use reconstruction::Rebuild;
use std::alloc::{AllocError, Global};
use terms::{Env, Levels};

/// How many items are asked for at a time.
const PAGE: u64 = 1000;

/// No list is asked for items from this one on: no memory holds so many.
const LAST: u64 = 1 << 62;

/// The line of an item.
#[tactic(auto, using(crate::proofs::Listed::joins))]
fn line_of(alloc: Global, item: &Item) -> Result<String, AllocError>
    ensures { IfOk result (λ line. string_bytes line ≡ item_text item.now) }
{
    let mut line = item.weight.to_string(alloc)?;
    line.push_str(" ")?;
    line.push_str(item.text.as_str())?;
    line.push_str("\n")?;
    Ok(line)
}

/// Writes the lines of items.
fn put_items<K: Sink>(
    alloc: Global,
    gathering: &mut Gathering,
    sink: &mut K,
    items: &[Item],
) -> Result<(), WriteFault>
    ensures added { OnOk result ((start : Option (List ℕ)) → (all : List ℕ) →
        Gathered start (K.written sink.old) gathering.old all
        → Gathered start (K.written sink.new) gathering.new (all ++ items_text items.now)) }
    ensures prefix { OnErr result ((start : Option (List ℕ)) → (all : List ℕ) →
        Gathered start (K.written sink.old) gathering.old all
        → WrotePrefix start (K.written sink.new) (all ++ items_text items.now)) }
    ensures later { K.faults sink.old ≤ K.faults sink.new }
    ensures cause { IsErrOf result WriteFault.Failed → Rose (K.faults sink.old) (K.faults sink.new) }
{
    for item in items {
        let line = line_of(alloc, item)?;
        gathering.put(sink, line.as_bytes())?;
    }
    Ok(())
}

/// Writes the lines of a whole list, page by page.
fn put_pages<E: Levels, K: Sink>(
    alloc: Global,
    listing: &mut Listing<E>,
    gathering: &mut Gathering,
    sink: &mut K,
) -> Result<(), WriteFault>
    ensures whole { OnOk result ((list : List Expr) × IsWhole listing.old.parts list
        × ((start : Option (List ℕ)) → (all : List ℕ) → Gathered start (K.written sink.old) gathering.old all
        → Gathered start (K.written sink.new) gathering.new (all ++ list_text listing.old.parts list))) }
    ensures prefix { OnErr result ((list : List Expr) → IsWhole listing.old.parts list
        → (start : Option (List ℕ)) → (all : List ℕ) → Gathered start (K.written sink.old) gathering.old all
        → WrotePrefix start (K.written sink.new) (all ++ list_text listing.old.parts list)) }
    ensures later { K.faults sink.old ≤ K.faults sink.new }
    ensures cause { IsErrOf result WriteFault.Failed → Rose (K.faults sink.old) (K.faults sink.new) }
{
    let mut from: u64 = 0;
    while from < LAST {
        let page = listing.page(alloc, from, PAGE)?;
        put_items(alloc, gathering, sink, listing.items(&page))?;
        if page.last {
            return Ok(());
        }
        if page.len == 0 {
            return Err(WriteFault::OutOfMemory);
        }
        from += page.len;
    }
    Err(WriteFault::OutOfMemory)
}

/// Writes the list of an environment, one line for each term.
pub fn write_list<K: Sink>(alloc: Global, env: Env, sink: &mut K) -> Result<(), WriteFault>
    ensures whole { OnOk result (HasWritten env (K.written sink.old) (K.written sink.new)) }
    ensures prefix { OnErr result ((list : List Expr) → IsWhole env list
        → WrotePrefix (K.written sink.old) (K.written sink.new) (list_text env list)) }
    ensures later { K.faults sink.old ≤ K.faults sink.new }
    ensures cause { IsErrOf result WriteFault.Failed → Rose (K.faults sink.old) (K.faults sink.new) }
{
    let mut listing: Listing<Rebuild> = Listing::new(alloc, env)?;
    let mut gathering = Gathering::new(alloc);
    put_pages(alloc, &mut listing, &mut gathering, sink)?;
    gathering.flush(sink)?;
    Ok(())
}
