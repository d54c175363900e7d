ghost use Rattle.std.specs.Prelude.{◌≡◌, ◌∷◌, [], None};
ghost use Rattle.version_board.specs.Versions.{IsVersion};

use crate::frame_tests::{CAPABILITIES, INITIALIZE, framed};
use crate::publication_tests::shelf;
use crate::version_tests::{AFTER_READER, DEMO, readers, version_after};
use decl_index::Change;
use json_rpc::Frames;
use lists::Items;
use outside::{End, FaultPlan, MemShelf, MemSink, MemSource};
use sessions::{Client, Hub, Session, serve_client};
use std::alloc::{AllocError, Global};
use std::marker::Brand;
use std::sync::Wait;
use std::test::Fail;
use std::thread::Threads;
use version_board::{Naming, Opened, Pass, Snapshot, start_board};

pub(crate) const PUT_A: (usize, &str) = (
    141,
    r#"{"jsonrpc":"2.0","id":3,"method":"workspace/executeCommand","params":{"command":"insynth.publish","arguments":[{"put":["file:///A.class"]}]}}"#,
);

pub(crate) const VERSION_2: (usize, &str) = (
    47,
    r#"{"id":3,"jsonrpc":"2.0","result":{"version":2}}"#,
);

/// The list over the three readers, in the version 2.
pub(crate) const SIX_IN_VERSION_2: (usize, &str) = (
    1542,
    r#"{"id":2,"jsonrpc":"2.0","result":{"insynth":{"cursor":1,"from":0,"grown":6,"last":true,"version":2},"isIncomplete":false,"items":[{"detail":"1015","label":"new FileReader(name)","sortText":"0000000000","textEdit":{"newText":"new FileReader(name)","range":{"end":{"character":15,"line":3},"start":{"character":15,"line":3}}}},{"detail":"1210","label":"new FileReader(\"\")","sortText":"0000000001","textEdit":{"newText":"new FileReader(\"\")","range":{"end":{"character":15,"line":3},"start":{"character":15,"line":3}}}},{"detail":"2025","label":"new BufferedReader(new FileReader(name))","sortText":"0000000002","textEdit":{"newText":"new BufferedReader(new FileReader(name))","range":{"end":{"character":15,"line":3},"start":{"character":15,"line":3}}}},{"detail":"2220","label":"new BufferedReader(new FileReader(\"\"))","sortText":"0000000003","textEdit":{"newText":"new BufferedReader(new FileReader(\"\"))","range":{"end":{"character":15,"line":3},"start":{"character":15,"line":3}}}},{"detail":"3035","label":"new BufferedReader(new BufferedReader(new FileReader(name)))","sortText":"0000000004","textEdit":{"newText":"new BufferedReader(new BufferedReader(new FileReader(name)))","range":{"end":{"character":15,"line":3},"start":{"character":15,"line":3}}}},{"detail":"3230","label":"new BufferedReader(new BufferedReader(new FileReader(\"\")))","sortText":"0000000005","textEdit":{"newText":"new BufferedReader(new BufferedReader(new FileReader(\"\")))","range":{"end":{"character":15,"line":3},"start":{"character":15,"line":3}}}}]}}"#,
);

/// What a client sends, the files that it can load, and what it is to be written.
#[derive(Drop)]
struct Script<'a> {
    sent: &'a [u8],
    files: MemShelf,
    told: &'a [u8],
}

/// Whether a client of a hub that sends what the script says is written what it says.
fn is_told<J: Naming, R: Threads + Wait + Drop + Sync>(
    rt: R,
    alloc: Global,
    hub: &Hub<J, R>,
    pass: Pass<J>,
    script: Script<'_>,
) -> bool {
    let Script { sent, files, told } = script;
    let client = Client {
        end: End {
            source: MemSource::new(sent, FaultPlan::none(alloc)),
            sink: MemSink::new(alloc, FaultPlan::none(alloc)),
            shelf: files,
        },
        session: Session::new(alloc),
        frames: Frames::new(alloc),
        pass,
        ahead: None,
    };
    let (client, _) = serve_client(&rt, alloc, hub, client);
    client.end.sink.bytes.as_slice() == told
}

/// Whether two clients of one board are told what their scripts say, the second after the first one's session.
fn are_told<J: Naming, R: Threads + Wait + Drop + Copy + Sync>(
    rt: R,
    alloc: Global,
    opened: Opened,
    first: Snapshot,
    one: Script<'_>,
    other: Script<'_>,
) -> Result<bool, AllocError>
    requires book { opened.seen.book ≡ J.book }
    requires first { IsVersion J.first first }
{
    let (publisher, mut passes) = start_board::<J, R>(rt, alloc, opened, first, 2)?;
    let hub = Hub::new(alloc, publisher);
    let last = passes.pop().unwrap();
    let pass = passes.pop().unwrap();
    Ok(is_told(rt, alloc, &hub, pass, one) && is_told(rt, alloc, &hub, last, other))
}

/// The same over the version after a change.
fn are_told_after<J: Naming, R: Threads + Wait + Sync>(
    rt: &R,
    alloc: Global,
    opened: Opened,
    change: &Change,
    first: Snapshot,
    one: Script<'_>,
    other: Script<'_>,
) -> Result<bool, AllocError>
    requires book { opened.seen.book ≡ J.book }
    requires history { J.first ≡ change.now ∷ [] }
    requires first { IsVersion (change.now ∷ []) first }
{
    are_told::<J, &R>(rt, alloc, opened, first, one, other)
}

/// Whether they are told so over the version of the three readers.
fn follow<R: Threads + Wait + Sync>(
    rt: &R,
    alloc: Global,
    one: Script<'_>,
    other: Script<'_>,
) -> Result<bool, AllocError> {
    let change = readers(alloc)?;
    let first = version_after(alloc, &change)?;
    are_told_after::<Brand, R>(rt, alloc, Opened::new(), &change, first, one, other)
}

#[test]
fn a_client_lists_in_the_version_that_another_published(rt: HostRuntime) -> Result<(), Fail> {
    let alloc = rt.alloc();
    let sent = framed(alloc, &[INITIALIZE, PUT_A])?;
    let told = framed(alloc, &[CAPABILITIES, VERSION_2])?;
    let asked = framed(alloc, &[INITIALIZE, DEMO, AFTER_READER])?;
    let listed = framed(alloc, &[CAPABILITIES, SIX_IN_VERSION_2])?;
    let one = Script {
        sent: sent.as_bytes(),
        files: shelf(alloc, FaultPlan::none(alloc))?,
        told: told.as_bytes(),
    };
    let other = Script {
        sent: asked.as_bytes(),
        files: MemShelf::new(Items::new(alloc), FaultPlan::none(alloc)),
        told: listed.as_bytes(),
    };
    assert!(rt; follow(&rt, alloc, one, other)?);
    Ok(())
}
