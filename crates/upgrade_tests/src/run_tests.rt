// Runs over one end in memory, and ends that fail.
use lists::Items;
use outside::{End, FaultPlan, MemSink, MemSource, SteadyShelf};
use serving::{Status, run};
use std::alloc::{AllocError, Global};
use std::sync::Wait;
use std::thread::Threads;

/// What an end does: how many bytes its reads and writes move at most, and which of them fail; 0 for none.
#[derive(Clone, Copy)]
pub struct Conduct {
    pub most: usize,
    pub read: u64,
    pub write: u64,
}

/// An end that moves many bytes at a time and never fails.
pub const STEADY: Conduct = Conduct {
    most: 100_000,
    read: 0,
    write: 0,
};

/// What a run answered, and what it wrote.
#[derive(Drop)]
pub struct Ran {
    pub status: Status,
    pub written: Vec<u8>,
}

/// Runs a command of one word over one end whose source holds these bytes.
pub fn run_word<R: Threads + Wait + Sync>(
    rt: &R,
    alloc: Global,
    word: &str,
    input: &[u8],
    conduct: Conduct,
) -> Result<Ran, AllocError> {
    let mut source = MemSource::new(
        input,
        FaultPlan::new(Items::from_slice(alloc, &[conduct.read])?),
    );
    source.most = conduct.most;
    let mut sink = MemSink::new(
        alloc,
        FaultPlan::new(Items::from_slice(alloc, &[conduct.write])?),
    );
    sink.most = conduct.most;
    let shelf = SteadyShelf {
        files: Items::new(alloc),
    };
    let mut ends = vec![in alloc;
        End {
            source,
            sink,
            shelf
        },
    ]?;
    let words = vec![in alloc; String::from_str(alloc, word)?]?;
    let status = run(rt, alloc, words.as_slice(), &mut ends);
    match ends.pop() {
        Some(end) => Ok(Ran {
            status,
            written: written(end),
        }),
        None => Err(AllocError),
    }
}

/// What the sink of an end holds.
fn written(end: End<MemSource<'_>, MemSink, SteadyShelf>) -> Vec<u8> {
    let End {
        source: _,
        sink,
        shelf: _,
    } = end;
    let MemSink {
        bytes,
        most: _,
        plan: _,
    } = sink;
    bytes
}

/// A status by its code, place and cause, of end 0.
pub fn status(code: u8, place: u64, cause: u32) -> Status {
    Status {
        code,
        end: 0,
        place,
        cause,
    }
}

const SHEET: &[u8] =
    b"insynth sheet 1\ntype int\ndecl 5 int name x\ndecl 20 int call f int\ngoal int\nlimit 50";

const NEW: &[u8] =
    b"insynth sheet 2\ntype int\ndecl 5 int name x\ndecl 20 int call f int\ngoal int\nlimit 50\ndepth 1\nbinder p\nbound 1\nbinding 1\nstep 10\n";

// With pieces of 50 bytes the sheet takes two reads and the end a third.
#[test]
fn a_failed_read_writes_nothing(rt: HostRuntime) -> Result<(), AllocError> {
    for read in [1u64, 2, 3] {
        let conduct = Conduct {
            most: 50,
            read,
            write: 0,
        };
        let found = run_word(&rt, rt.alloc(), "upgrade", SHEET, conduct)?;
        assert_eq!(rt; found.status, status(4, 0, 0));
        assert!(rt; found.written.is_empty());
    }
    Ok(())
}

#[test]
fn a_failed_write_leaves_a_prefix(rt: HostRuntime) -> Result<(), AllocError> {
    let writes = (NEW.len() as u64).div_ceil(10);
    for write in 1..=writes {
        let conduct = Conduct {
            most: 10,
            read: 0,
            write,
        };
        let found = run_word(&rt, rt.alloc(), "upgrade", SHEET, conduct)?;
        assert_eq!(rt; found.status, status(5, 0, 0));
        let before = (write as usize - 1) * 10;
        assert_eq!(rt; found.written.as_slice(), &NEW[..before]);
    }
    Ok(())
}
