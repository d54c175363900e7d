ghost use Rattle.std.specs.Prelude.{◌≡◌, ◌≢◌, ◌⊎◌, ◌≤◌, ℕ, suc, List, [], ◌∷◌, Option, length, map, slice_get, Some, string_bytes, codes};
ghost use Rattle.outside.specs.Causes.{Rose};
ghost use Rattle.outside.specs.declared.end.End.{End};
ghost use Rattle.serving.specs.Runs.{AskForSheet, EndsBy, status_of};
ghost use Rattle.serving.specs.Services.{view_of, ServesBy, HasNotBegun, AreUntouched, serving_status};
ghost use Rattle.serving.specs.Usages.{IsUsage};
ghost use Rattle.serving.specs.Counts.{counting_status};
ghost use Rattle.serving.specs.Samplings.{sampling_status};
ghost use Rattle.command_line.specs.Words.{Pair, AskFor, AskForPlain, list as listed, upgrade as upgraded, serve as served, count as counted, sample as sampled};
ghost use Rattle.counting.specs.Counted.{IsFaultOf};
ghost use Rattle.counting.specs.Runs.{CountsBy, IsSilent};
ghost use Rattle.counting.specs.declared.counting.Counting.{Counting};
ghost use Rattle.counting.specs.declared.fault.CountFault.{CountFault};
ghost use Rattle.samples.specs.Runs.{SamplesBy, IsSilent as IsMute};
ghost use Rattle.samples.specs.declared.sampling.Sampling.{Sampling};
ghost use Rattle.outside.specs.declared.shelf.HeldFile.{HeldFile};
ghost use Rattle.sheets.specs.Sheets.{Fault, IsSheet, sheet_fault};
ghost use Rattle.sheet_runs.specs.Runs.{UpgradesBy};
ghost use Rattle.sheet_runs.specs.declared.ending.Ending.{Ending};
ghost use Rattle.sheet_runs.specs.declared.ending.Ending.TheVariants.{NotSheet};
ghost use Rattle.serving.specs.declared.status.Serving.{Serving};
ghost use Rattle.statuses.specs.declared.status.Status.{Status};
ghost use Rattle.terms.specs.declared.parts.Parts.{Parts};

use crate::list::write_list;
use crate::service::serve;
use crate::status::{of_counting, of_sampling, of_serving, of_sheet_run};
use command_line::{Command, Plain, plain_command, read_command};
use counting::count;
use outside::{End, Shelf, Sink, Source, WriteFault};
use samples::tell_sample;
use sheet_runs::{Ending, read_env, upgrade};
use statuses::Status;
use std::alloc::Global;
use std::sync::Wait;
use std::thread::Threads;

/// Runs `list` over one end: reads a sheet from its source to the end, and writes its list to its sink.
fn list<S: Source, K: Sink, H: Shelf>(alloc: Global, end: &mut End<S, K, H>) -> Ending
    ensures ending { EndsBy result (S.left end.old.source) (S.left end.new.source) (K.written end.old.sink) (K.written end.new.sink)
        (S.faults end.old.source) (S.faults end.new.source) (K.faults end.old.sink) (K.faults end.new.sink) }
    ensures shelf { end.new.shelf ≡ end.old.shelf }
    ensures later { (S.faults end.old.source ≤ S.faults end.new.source) × (K.faults end.old.sink ≤ K.faults end.new.sink) }
{
    let env = match read_env(alloc, &mut end.source) {
        Ok(env) => env,
        Err(ending) => return ending,
    };
    match write_list(alloc, env, &mut end.sink) {
        Ok(()) => Ending::Whole,
        Err(WriteFault::Failed) => Ending::WriteFault,
        Err(WriteFault::OutOfMemory) => Ending::OutOfMemory,
    }
}

/// Runs a command other than `serve` over one end: `list` reads a sheet from its source and writes its list to its sink;
/// `upgrade` reads one and writes it anew, as a sheet 2 with each of its lines; `count` loads a start text and the class files that it names from its shelf, and writes the lines of their counts to
/// its sink; `sample` writes the six lines of a sample to its sink. It waits for nobody. The codes are those of `run`.
pub fn run_plain<S: Source, K: Sink, H: Shelf>(
    alloc: Global,
    words: &[String],
    end: &mut End<S, K, H>,
) -> Status
    requires plain { AskForPlain (map string_bytes words.now) }
    ensures ending { AskFor listed (map string_bytes words.now)
        → ((ending : Ending) × (result ≡ status_of ending) × EndsBy ending (S.left end.old.source) (S.left end.new.source) (K.written end.old.sink) (K.written end.new.sink)
        (S.faults end.old.source) (S.faults end.new.source) (K.faults end.old.sink) (K.faults end.new.sink)) }
    ensures upgrading { AskFor upgraded (map string_bytes words.now)
        → ((ending : Ending) × (result ≡ status_of ending) × UpgradesBy ending (S.left end.old.source) (S.left end.new.source) (K.written end.old.sink) (K.written end.new.sink)
        (S.faults end.old.source) (S.faults end.new.source) (K.faults end.old.sink) (K.faults end.new.sink)) }
    ensures counting { (start : List ℕ) → AskFor (counted start) (map string_bytes words.now)
        → ((way : Counting) × (result ≡ counting_status way) × CountsBy way (H.holds end.old.shelf) start (K.written end.old.sink) (K.written end.new.sink)
        (H.faults end.old.shelf) (H.faults end.new.shelf) (K.faults end.old.sink) (K.faults end.new.sink)
        × (IsSilent way → end.new.sink ≡ end.old.sink)) }
    ensures sampling { (n : ℕ) → AskFor (sampled n) (map string_bytes words.now)
        → ((way : Sampling) × (result ≡ sampling_status way) × SamplesBy way n (K.written end.old.sink) (K.written end.new.sink)
        (K.faults end.old.sink) (K.faults end.new.sink) × (IsMute way → end.new.sink ≡ end.old.sink)) }
    ensures fits { result.code ≢ 2 }
    ensures complete { (bytes : List ℕ) (parts : Parts) → AskForSheet (map string_bytes words.now) → S.left end.old.source ≡ Some bytes → IsSheet bytes parts
        → ¬ (Rose (S.faults end.old.source) (S.faults end.new.source)) → ¬ (Rose (K.faults end.old.sink) (K.faults end.new.sink))
        → (result.code ≡ 0) ⊎ (result.code ≡ 6) }
    ensures refuses { (bytes : List ℕ) (fault : Fault) → AskForSheet (map string_bytes words.now) → S.left end.old.source ≡ Some bytes → sheet_fault bytes ≡ Some fault
        → ¬ (Rose (S.faults end.old.source) (S.faults end.new.source))
        → (result ≡ status_of (NotSheet fault.line fault.cause)) ⊎ (result.code ≡ 6) }
    ensures complete_count { (files : List HeldFile) (start : List ℕ) → AskFor (counted start) (map string_bytes words.now) → H.holds end.old.shelf ≡ Some files
        → ((fault : CountFault) → IsFaultOf files start fault → ⊥)
        → ¬ (Rose (H.faults end.old.shelf) (H.faults end.new.shelf)) → ¬ (Rose (K.faults end.old.sink) (K.faults end.new.sink))
        → (result.code ≡ 0) ⊎ (result.code ≡ 6) }
    ensures complete_sample { (n : ℕ) → AskFor (sampled n) (map string_bytes words.now) → ¬ (Rose (K.faults end.old.sink) (K.faults end.new.sink))
        → (result.code ≡ 0) ⊎ (result.code ≡ 6) }
    ensures source { (start : List ℕ) → AskFor (counted start) (map string_bytes words.now) → end.new.source ≡ end.old.source }
    ensures unread { (n : ℕ) → AskFor (sampled n) (map string_bytes words.now) → (end.new.source ≡ end.old.source) × (end.new.shelf ≡ end.old.shelf) }
    ensures shelf { AskForSheet (map string_bytes words.now) → end.new.shelf ≡ end.old.shelf }
    ensures shelf_holds { H.holds end.new.shelf ≡ H.holds end.old.shelf }
    ensures later { (S.faults end.old.source ≤ S.faults end.new.source) × (K.faults end.old.sink ≤ K.faults end.new.sink) × (H.faults end.old.shelf ≤ H.faults end.new.shelf) }
{
    match plain_command(words) {
        Plain::List => of_sheet_run(list(alloc, end)),
        Plain::Upgrade => of_sheet_run(upgrade(alloc, end)),
        Plain::Count { start } => of_counting(count(alloc, start, end)),
        Plain::Sample { number } => of_sampling(tell_sample(alloc, number, end)),
    }
}

/// Does all that the program does: looks at the words and then at the number of ends, and serves what the words ask for
/// over the ends. `list` needs one end, reads a sheet from its source and writes its list to its sink; `upgrade` does the
/// same with the sheet itself, written anew. `count` needs one end, loads the class files that a start text names from its shelf, reads nothing, and writes a line for each key that
/// they use to its sink. `sample` needs one end, reads and loads nothing, and writes six lines. `serve` needs one end
/// more than it has pairs. It answers an editor at each end, each in a thread, all over one list of published changes,
/// from the class files of a start text on, which it loads from the shelf of the first end before anything is read; where
/// workers are asked for, these lengthen the listings of its pages meanwhile, each in a thread as well; it may wait. The ends stay as many, in their order. The code is 0 where all was read and written, and a session was shut
/// down before its exit; 1 where it wasn't; 2 where the words or the ends don't fit; 3 where the input is no sheet (its
/// line and cause) or its frames are wrong (the place and the number of the fault); 4 or 5 where the source, or the
/// shelf of `count` or of the first end before the sessions, or the sink failed; 6 where memory was wanting; 7 where a
/// session needs a byte past the first 2^40; 8 where the start text is wrong (its line and the number of the cause). Of
/// several sessions the greatest code is answered, with the first end that has it; else the end is 0.
pub fn run<
    S: Source + Drop + Send,
    K: Sink + Drop + Send,
    H: Shelf + Drop + Send,
    R: Threads + Wait + Sync,
>(rt: &R, alloc: Global, words: &[String], ends: &mut Vec<End<S, K, H>>) -> Status
    ensures usage { (status : Status) → IsUsage (map string_bytes words.now) (length ends.old.items) status
        → (result ≡ status) × (ends.new.items ≡ ends.old.items) }
    ensures usage_alone { result.code ≡ 2 → IsUsage (map string_bytes words.now) (length ends.old.items) result }
    ensures ending { map string_bytes words.now ≡ codes "list" ∷ [] → length ends.old.items ≡ 1
        → ((ending : Ending) × (result ≡ status_of ending) × ((e f : End S K H) → ends.old.items ≡ e ∷ [] → ends.new.items ≡ f ∷ []
        → EndsBy ending (S.left e.source) (S.left f.source) (K.written e.sink) (K.written f.sink)
        (S.faults e.source) (S.faults f.source) (K.faults e.sink) (K.faults f.sink))) }
    ensures upgrading { AskFor upgraded (map string_bytes words.now) → length ends.old.items ≡ 1
        → ((ending : Ending) × (result ≡ status_of ending) × ((e f : End S K H) → ends.old.items ≡ e ∷ [] → ends.new.items ≡ f ∷ []
        → UpgradesBy ending (S.left e.source) (S.left f.source) (K.written e.sink) (K.written f.sink)
        (S.faults e.source) (S.faults f.source) (K.faults e.sink) (K.faults f.sink))) }
    ensures serving { let seen = view_of S.left K.written H.holds S.faults K.faults H.faults in
        (start : Option (List ℕ)) (pairs : List Pair) (workers : Option ℕ) → AskFor (served start pairs workers) (map string_bytes words.now) → length ends.old.items ≡ suc (length pairs)
        → ((way : Serving) × (result ≡ serving_status way) × ServesBy way start (map seen ends.old.items) (map seen ends.new.items)
        × (HasNotBegun way → AreUntouched ends.old.items ends.new.items)) }
    ensures counting { (start : List ℕ) → AskFor (counted start) (map string_bytes words.now) → length ends.old.items ≡ 1
        → ((way : Counting) × (result ≡ counting_status way) × ((e f : End S K H) → ends.old.items ≡ e ∷ [] → ends.new.items ≡ f ∷ []
        → CountsBy way (H.holds e.shelf) start (K.written e.sink) (K.written f.sink) (H.faults e.shelf) (H.faults f.shelf) (K.faults e.sink) (K.faults f.sink)
        × (IsSilent way → f.sink ≡ e.sink) × (f.source ≡ e.source))) }
    ensures sampling { (n : ℕ) → AskFor (sampled n) (map string_bytes words.now) → length ends.old.items ≡ 1
        → ((way : Sampling) × (result ≡ sampling_status way) × ((e f : End S K H) → ends.old.items ≡ e ∷ [] → ends.new.items ≡ f ∷ []
        → SamplesBy way n (K.written e.sink) (K.written f.sink) (K.faults e.sink) (K.faults f.sink)
        × (IsMute way → f.sink ≡ e.sink) × (f.source ≡ e.source) × (f.shelf ≡ e.shelf))) }
    ensures kept { length ends.new.items ≡ length ends.old.items }
    ensures faults_rise { (i : ℕ) (e f : End S K H) → slice_get ends.old.items i ≡ Some e → slice_get ends.new.items i ≡ Some f
        → (S.faults e.source ≤ S.faults f.source) × (K.faults e.sink ≤ K.faults f.sink) × (H.faults e.shelf ≤ H.faults f.shelf) }
    ensures shelf_holds { (i : ℕ) (e f : End S K H) → slice_get ends.old.items i ≡ Some e → slice_get ends.new.items i ≡ Some f
        → H.holds f.shelf ≡ H.holds e.shelf }
    ensures shelf_stays { (i : ℕ) (e f : End S K H) → AskForSheet (map string_bytes words.now) → slice_get ends.old.items i ≡ Some e → slice_get ends.new.items i ≡ Some f
        → f.shelf ≡ e.shelf }
    ensures complete { (e f : End S K H) (bytes : List ℕ) (parts : Parts) → ends.old.items ≡ e ∷ [] → ends.new.items ≡ f ∷ []
        → AskForSheet (map string_bytes words.now) → S.left e.source ≡ Some bytes → IsSheet bytes parts
        → ¬ (Rose (S.faults e.source) (S.faults f.source)) → ¬ (Rose (K.faults e.sink) (K.faults f.sink))
        → (result.code ≡ 0) ⊎ (result.code ≡ 6) }
    ensures refuses { (e f : End S K H) (bytes : List ℕ) (fault : Fault) → ends.old.items ≡ e ∷ [] → ends.new.items ≡ f ∷ []
        → AskForSheet (map string_bytes words.now) → S.left e.source ≡ Some bytes → sheet_fault bytes ≡ Some fault
        → ¬ (Rose (S.faults e.source) (S.faults f.source))
        → (result ≡ status_of (NotSheet fault.line fault.cause)) ⊎ (result.code ≡ 6) }
    ensures complete_count { (e f : End S K H) (files : List HeldFile) (start : List ℕ) → ends.old.items ≡ e ∷ [] → ends.new.items ≡ f ∷ []
        → AskFor (counted start) (map string_bytes words.now) → H.holds e.shelf ≡ Some files → ((fault : CountFault) → IsFaultOf files start fault → ⊥)
        → ¬ (Rose (H.faults e.shelf) (H.faults f.shelf)) → ¬ (Rose (K.faults e.sink) (K.faults f.sink))
        → (result.code ≡ 0) ⊎ (result.code ≡ 6) }
    ensures complete_sample { (e f : End S K H) (n : ℕ) → ends.old.items ≡ e ∷ [] → ends.new.items ≡ f ∷ []
        → AskFor (sampled n) (map string_bytes words.now) → ¬ (Rose (K.faults e.sink) (K.faults f.sink))
        → (result.code ≡ 0) ⊎ (result.code ≡ 6) }
{
    let command = match read_command(words) {
        Ok(command) => command,
        Err(fault) => return Status::usage(fault.word as u64, 1),
    };
    if ends.len() != command.ends() {
        return Status::usage(ends.len() as u64, 2);
    }
    match command {
        Command::List => run_plain(alloc, words, &mut ends[0]),
        Command::Upgrade => run_plain(alloc, words, &mut ends[0]),
        Command::Serve {
            start,
            pairs: _,
            ahead,
        } => of_serving(serve(rt, alloc, start, ahead, ends)),
        Command::Count { start: _ } => run_plain(alloc, words, &mut ends[0]),
        Command::Sample { number: _ } => run_plain(alloc, words, &mut ends[0]),
    }
}
