ghost use Rattle.std.specs.Prelude.{◌≡◌, ◌≤◌, ◌<◌, ◌^◌, ◌+◌, ℕ, [], List, All, length, Option, Some, None, IfOk, MatchResult};
ghost use Rattle.outside.specs.Held.{longest_load};
ghost use Rattle.known_classes.specs.declared.summary.ClassSummary.{ClassSummary};
ghost use Rattle.sessions.specs.Loads.{MayHold, source_fault, SourcesGive, loads_of};
ghost use Rattle.sessions.specs.Loading.{IsUnreadable};
ghost use Rattle.sessions.specs.Sources.{FailsAs, AreTexts, AreUnread, HasFailed};
ghost use Rattle.sessions.specs.Publications.{LeavesFiles};
ghost use Rattle.sessions.specs.declared.sources.Unread.TheVariants.{OutOfMemory};

use crate::loading::Files;
use crate::world::World;
use answers::NamedFiles;
use class_summary::ClassSummary;
use lists::{Items, Text};
use outside::{LoadFault, Loaded};
use source_classes::with_source_classes;
use std::alloc::{AllocError, Global};
use std::thread::Threads;

/// Why source files gave no texts: what is told of the first that gave none, or want of memory.
#[derive(Debug, Drop)]
pub enum Unread {
    Told(Files),
    OutOfMemory,
}

impl From<AllocError> for Unread {
    ghost from_gives = { λ _ unread. unread ≡ OutOfMemory };

    fn from(_error: AllocError) -> Unread {
        Unread::OutOfMemory
    }
}

/// The text that a source file of this number holds.
fn text_of(bytes: Vec<u8>, index: u32) -> Result<Text, Unread>
    requires { length bytes.items ≤ longest_load }
    ensures text { MatchResult result
        (λ text. (text ≡ bytes.items) × (source_fault index (Some bytes.items) ≡ None))
        (λ unread. FailsAs index (Some bytes.items) unread) }
    ensures inside { HasFailed result → ⊥ }
{
    match String::from_utf8(bytes) {
        Ok(text) => Ok(Text::from_string(text)),
        Err(_) => Err(Unread::Told(Files::NoText(index))),
    }
}

/// The text of the source file of this number.
fn load_text<W: World>(alloc: Global, world: &mut W, name: &str, index: u32) -> Result<Text, Unread>
    ensures found { (content : Option (List ℕ)) × MayHold (W.state world.old).holds name.now content × MatchResult result
        (λ text. (content ≡ Some text) × (source_fault index content ≡ None))
        (λ unread. FailsAs index content unread) }
    ensures short { IfOk result (λ text. length text ≤ longest_load) }
    ensures files { LeavesFiles (HasFailed result) (W.state world.old) (W.state world.new) }
{
    let mut bytes = Vec::new(alloc);
    match world.load(name, &mut bytes) {
        Ok(Loaded::Bytes) => text_of(bytes, index),
        Ok(Loaded::Missing) => Err(Unread::Told(Files::Missing(index))),
        Ok(Loaded::TooLong(_)) => Err(Unread::Told(Files::TooLong(index))),
        Err(LoadFault::Failed) => Err(Unread::Told(Files::Unreadable(index))),
        Err(LoadFault::OutOfMemory) => Err(Unread::OutOfMemory),
    }
}

/// The texts of the source files of these names, the first of which has the number `from`. They are loaded one by one
/// in their order, up to the first that gives no text. Want of memory also for a number above 4,294,967,294.
fn load_texts<W: World>(
    alloc: Global,
    world: &mut W,
    from: u32,
    names: &[Text],
) -> Result<Items<Text>, Unread>
    ensures texts { MatchResult result (λ texts. AreTexts (W.state world.old).holds from names.now texts) (λ unread. AreUnread (W.state world.old).holds from names.now unread) }
    ensures short { IfOk result (All (λ text. length text ≤ longest_load)) }
    ensures files { LeavesFiles (HasFailed result) (W.state world.old) (W.state world.new) }
    ensures none { names.now ≡ [] → W.state world.new ≡ W.state world.old }
{
    let mut texts = Items::new(alloc);
    let mut index = from;
    let mut rest = names;
    while let Some((name, more)) = rest.split_first() {
        if index == u32::MAX {
            return Err(Unread::OutOfMemory);
        }
        let text = match load_text(alloc, world, name.as_str(), index) {
            Ok(text) => text,
            Err(unread) => return Err(unread),
        };
        texts.push(text)?;
        index += 1;
        rest = more;
    }
    Ok(texts)
}

/// What a publication gives whose class files gave these classes: those, and then the classes of its source files. All
/// of these are loaded before the first is read as Java text.
pub fn add_sources<W: World>(
    rt: &(impl Threads + Sync),
    alloc: Global,
    world: &mut W,
    files: &NamedFiles,
    puts: Items<ClassSummary>,
) -> Result<Files, AllocError>
    ensures gives { IfOk result (λ given. SourcesGive (W.state world.old).holds (length files.now.puts) files.now.sources files.now.known puts (loads_of given)) }
    ensures files { LeavesFiles (IsUnreadable result) (W.state world.old) (W.state world.new) }
    ensures none { files.now.sources ≡ [] → W.state world.new ≡ W.state world.old }
{
    let before = files.puts.len();
    if before > u32::MAX as usize {
        return Err(AllocError);
    }
    match load_texts(alloc, world, before as u32, files.sources.as_slice()) {
        Ok(texts) => {
            let known = files.known.as_slice();
            let all = with_source_classes(rt, alloc, puts, known, texts.as_slice())?;
            Ok(Files::Classes(all))
        }
        Err(Unread::Told(told)) => Ok(told),
        Err(Unread::OutOfMemory) => Err(AllocError),
    }
}
