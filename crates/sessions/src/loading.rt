ghost use Rattle.std.specs.Prelude.{◌≡◌, ◌≤◌, ◌⊎◌, ◌++◌, ◌∷◌, ℕ, [], List, length, Option, Some, None, IfOk, IsErrOf, MatchResult};
ghost use Rattle.outside.specs.Held.{longest_load};
ghost use Rattle.start_text.specs.Faults.{IsOutside};
ghost use Rattle.start_text.specs.Starts.{file_fault};
ghost use Rattle.start_text.specs.Taken.{wrong_among, AreTaken, Takes};
ghost use Rattle.start_text.specs.declared.fault.StartFault.TheVariants as fault;
ghost use Rattle.sessions.specs.Loads.{MayHold, Give, GiveAll, loads_of};
ghost use Rattle.sessions.specs.Loading.{IsOfFile, Tells, IsUnreadable};
ghost use Rattle.sessions.specs.Publications.{LeavesFiles};

use crate::sources::add_sources;
use crate::world::World;
use answers::NamedFiles;
use class_summary::ClassSummary;
use lists::{Items, Text};
use outside::Loaded;
use start_text::{Batches, StartFault};
use std::alloc::{AllocError, Global};
use std::thread::Threads;

/// What the files of a publication gave: the classes that it puts in order, or the number of the first file that gave
/// nothing and why. Files are numbered from 0, the source files behind the class files; `class` and `place` are the
/// number and the place of the fault of a class file's bytes, and `NoText` is a source file that isn't UTF-8.
#[derive(Debug, Drop)]
pub enum Files {
    Classes(Items<ClassSummary>),
    Missing(u32),
    TooLong(u32),
    NoClass { index: u32, class: u32, place: u32 },
    NoText(u32),
    Unreadable(u32),
}

/// The bytes of the file of this number.
fn load_file<W: World>(
    alloc: Global,
    world: &mut W,
    name: &str,
    index: u32,
) -> Result<Vec<u8>, StartFault>
    ensures found { (content : Option (List ℕ)) × MayHold (W.state world.old).holds name.now content × MatchResult result
        (λ bytes. content ≡ Some bytes.items)
        (λ wrong. IsOutside wrong ⊎ (file_fault index content ≡ Some wrong)) }
    ensures short { IfOk result (λ bytes. length bytes.items ≤ longest_load) }
    ensures files { LeavesFiles (IsErrOf result fault.Failed) (W.state world.old) (W.state world.new) }
{
    let mut bytes = Vec::new(alloc);
    match world.load(name, &mut bytes)? {
        Loaded::Bytes => Ok(bytes),
        Loaded::Missing => Err(StartFault::NoFile(index)),
        Loaded::TooLong(_) => Err(StartFault::LongFile(index)),
    }
}

/// Loads the file of this number, and takes its bytes. Where they can't be had, the files that were taken are parsed,
/// since what is wrong with one of them comes first.
fn read_file<W: World>(
    rt: &(impl Threads + Sync),
    alloc: Global,
    world: &mut W,
    name: &str,
    index: u32,
    reading: &mut Batches,
) -> Result<(), StartFault>
    ensures taken { (content : Option (List ℕ)) × MayHold (W.state world.old).holds name.now content
        × ((before : List (ℕ × Option (List ℕ))) → AreTaken before reading.old → Takes (before ++ (index, content) ∷ []) reading.new result) }
    ensures sound { (before : List (ℕ × Option (List ℕ))) → AreTaken before reading.old → IsErrOf result fault.Failed → wrong_among before ≡ None }
    ensures files { LeavesFiles (IsErrOf result fault.Failed) (W.state world.old) (W.state world.new) }
{
    match load_file(alloc, world, name, index) {
        Ok(bytes) => reading.take(rt, alloc, index, bytes),
        Err(wrong) => Err(reading.stop(rt, alloc, wrong)),
    }
}

/// What is told of the first file that gave no class; one whose load failed has this number. An Err is want of memory.
fn told(wrong: StartFault, index: u32) -> Result<Files, AllocError>
    requires kind { IsOfFile wrong }
    ensures told { IfOk result (λ files. Tells index wrong (loads_of files)) }
{
    match wrong {
        StartFault::NoFile(index) => Ok(Files::Missing(index)),
        StartFault::LongFile(index) => Ok(Files::TooLong(index)),
        StartFault::NotClass(index, fault) => match fault.cause.number() {
            Some(class) => Ok(Files::NoClass {
                index,
                class,
                place: fault.at,
            }),
            None => Err(AllocError),
        },
        StartFault::Failed => Ok(Files::Unreadable(index)),
        StartFault::OutOfMemory => Err(AllocError),
        StartFault::NoText | StartFault::LongText | StartFault::NotUtf8 | StartFault::Refused(_) =>
            unreachable!(),
    }
}

/// What the class files of these names give. They are loaded one by one in their order and parsed in batches, as the files of
/// a start text are: the bytes of a batch are let go before the next one is loaded, no batch follows one with a
/// fault, and of each file only the summary of its class is kept. An Err is want of memory, also for more than
/// 4,294,967,295 files.
fn load_classes<W: World>(
    rt: &(impl Threads + Sync),
    alloc: Global,
    world: &mut W,
    names: &[Text],
) -> Result<Files, AllocError>
    ensures gives { IfOk result (λ files. Give (W.state world.old).holds names.now (loads_of files)) }
    ensures files { LeavesFiles (IsUnreadable result) (W.state world.old) (W.state world.new) }
    ensures none { names.now ≡ [] → W.state world.new ≡ W.state world.old }
{
    let mut reading = Batches::new(alloc);
    let mut index: u32 = 0;
    let mut rest = names;
    while let Some((name, more)) = rest.split_first() {
        if index == u32::MAX {
            return Err(AllocError);
        }
        match read_file(rt, alloc, world, name.as_str(), index, &mut reading) {
            Ok(()) => {}
            Err(wrong) => return told(wrong, index),
        }
        index += 1;
        rest = more;
    }
    match reading.finish(rt, alloc) {
        Ok(classes) => Ok(Files::Classes(classes)),
        Err(wrong) => told(wrong, index),
    }
}

/// What the files of a publication give: the class files come first, and the source files where these give classes. A
/// source file is a text once it is loaded, and no text is read as Java before all files are loaded. No source file is
/// loaded after the first file that gives nothing.
pub fn load_files<W: World>(
    rt: &(impl Threads + Sync),
    alloc: Global,
    world: &mut W,
    files: &NamedFiles,
) -> Result<Files, AllocError>
    ensures gives { IfOk result (λ given. GiveAll (W.state world.old).holds files.now (loads_of given)) }
    ensures files { LeavesFiles (IsUnreadable result) (W.state world.old) (W.state world.new) }
    ensures none { files.now.puts ≡ [] → files.now.sources ≡ [] → W.state world.new ≡ W.state world.old }
{
    match load_classes(rt, alloc, world, files.puts.as_slice())? {
        Files::Classes(puts) => add_sources(rt, alloc, world, files, puts),
        wrong => Ok(wrong),
    }
}
