use crate::{
    End, Failed, FaultPlan, FileShelf, Gathering, HeldFile, LONGEST_LOAD, LoadFault, Loaded,
    MemShelf, MemSink, MemSource, ReadFault, ReaderSource, Shelf, Sink, Source, SteadyShelf,
    SteadySink, SteadySource, WriteFault, WriterSink, read_up_to, write_all,
};
use lists::{Items, Text};
use std::alloc::{AllocError, Global};
use std::fs;

fn plan(alloc: Global, failing: &[u64]) -> Result<FaultPlan, AllocError> {
    Ok(FaultPlan::new(Items::from_slice(alloc, failing)?))
}

fn shelf_files(alloc: Global) -> Result<Items<HeldFile>, AllocError> {
    let mut files = Items::new(alloc);
    files.push(HeldFile {
        name: Text::from_str(alloc, "A.class")?,
        bytes: Items::from_slice(alloc, &[1u8, 2])?,
    })?;
    files.push(HeldFile {
        name: Text::from_str(alloc, "long")?,
        bytes: Items::from_vec(vec![in alloc; 7u8; LONGEST_LOAD + 1]?),
    })?;
    files.push(HeldFile {
        name: Text::from_str(alloc, "A.class")?,
        bytes: Items::from_slice(alloc, &[3u8])?,
    })?;
    Ok(files)
}

// What comes of the bytes "abcdefg" by limit, longest read and failing call.
#[test]
fn sources_are_read_to_the_end_or_the_limit(rt: HostRuntime) -> Result<(), AllocError> {
    let table: [(usize, usize, u64, &str, bool); 7] = [
        (100, 100, 0, "abcdefg", false),
        (100, 3, 0, "abcdefg", false),
        (100, 0, 0, "abcdefg", false),
        (4, 3, 0, "abcd", false),
        (7, 7, 0, "abcdefg", false),
        (100, 3, 2, "", true),
        (100, 3, 4, "", true),
    ];
    for (limit, most, failing, wanted, fails) in table {
        let mut source = MemSource::new(b"abcdefg", plan(rt.alloc(), &[failing])?);
        source.most = most;
        match read_up_to(rt.alloc(), &mut source, limit) {
            Ok(bytes) => assert!(rt; !fails && bytes.as_slice() == wanted.as_bytes()),
            Err(fault) => assert!(rt; fails && matches!(fault, ReadFault::Failed)),
        }
        assert_eq!(rt; source.faults(), if fails { 1 } else { 0 });
    }
    let long = vec![in rt.alloc(); 9u8; 200_000]?;
    let mut steady = SteadySource {
        rest: long.as_slice(),
    };
    let read = read_up_to(rt.alloc(), &mut steady, 150_000);
    assert!(rt; matches!(&read, Ok(bytes) if bytes.len() == 150_000));
    assert!(rt; steady.rest.len() == 50_000 && steady.faults() == 0);
    let mut reader = ReaderSource::new(&b"xyz"[..]);
    let read = read_up_to(rt.alloc(), &mut reader, 100);
    assert!(rt; matches!(&read, Ok(bytes) if bytes.as_slice() == b"xyz".as_slice()));
    assert_eq!(rt; reader.faults(), 0);
    Ok(())
}

// What a sink holds of "abcdefg" by longest write and failing call.
#[test]
fn pieces_are_written_whole_or_up_to_the_fault(rt: HostRuntime) -> Result<(), AllocError> {
    let table: [(usize, u64, &str, bool); 6] = [
        (100, 0, "abcdefg", false),
        (2, 0, "abcdefg", false),
        (0, 0, "abcdefg", false),
        (2, 1, "", true),
        (2, 3, "abcd", true),
        (2, 4, "abcdef", true),
    ];
    for (most, failing, wanted, fails) in table {
        let mut sink = MemSink::new(rt.alloc(), plan(rt.alloc(), &[failing])?);
        sink.most = most;
        let written = write_all(&mut sink, b"abcdefg");
        assert_eq!(rt; matches!(written, Err(Failed)), fails);
        assert_eq!(rt; sink.bytes.as_slice(), wanted.as_bytes());
        assert_eq!(rt; sink.faults(), if fails { 1 } else { 0 });
    }
    let mut steady = SteadySink { taken: 0 };
    assert!(rt; write_all(&mut steady, b"abc").is_ok());
    assert!(rt; steady.taken == 3 && steady.faults() == 0);
    let mut writer = WriterSink::new(Vec::new(rt.alloc()));
    assert!(rt; write_all(&mut writer, b"abc").is_ok());
    assert_eq!(rt; writer.faults(), 0);
    let mut room = [0u8; 4];
    let mut full = WriterSink::new(&mut room[..]);
    assert!(rt; write_all(&mut full, b"abcdefg").is_err());
    assert_eq!(rt; full.faults(), 1);
    Ok(())
}

// 30,000 lines of 10 bytes make four full pieces and a rest; the third write fails in the second run.
#[test]
fn output_is_gathered(rt: HostRuntime) -> Result<(), AllocError> {
    for failing in [0u64, 3] {
        let mut sink = MemSink::new(rt.alloc(), plan(rt.alloc(), &[failing])?);
        let mut gathering = Gathering::new(rt.alloc());
        let mut fault = false;
        for _ in 0..30_000 {
            match gathering.put(&mut sink, b"123456789\n") {
                Ok(()) => {}
                Err(WriteFault::Failed) => {
                    fault = true;
                    break;
                }
                Err(WriteFault::OutOfMemory) => return Err(AllocError),
            }
        }
        if failing == 0 {
            assert!(rt; !fault && gathering.flush(&mut sink).is_ok());
            assert!(rt; sink.bytes.len() == 300_000 && sink.plan.calls == 5);
        } else {
            assert!(rt; fault && sink.plan.calls == 3 && sink.faults() == 1);
            assert!(rt; sink.bytes.len() >= 2 * 65_536 && sink.bytes.len() % 10 == 0);
        }
    }
    Ok(())
}

#[test]
fn shelves_load_by_name(rt: HostRuntime) -> Result<(), AllocError> {
    let alloc = rt.alloc();
    let mut out = vec![in alloc; 5u8; 3]?;
    let mut shelf = MemShelf::new(shelf_files(alloc)?, plan(alloc, &[3])?);
    assert!(rt; matches!(shelf.load("A.class", &mut out), Ok(Loaded::Bytes)));
    assert_eq!(rt; out.as_slice(), &[1u8, 2][..]);
    assert!(rt; matches!(shelf.load("B.class", &mut out), Ok(Loaded::Missing)));
    assert!(rt; out.is_empty());
    assert!(rt; matches!(shelf.load("A.class", &mut out), Err(LoadFault::Failed)));
    assert!(rt; out.is_empty() && shelf.faults() == 1);
    assert!(rt;
        matches!(
            shelf.load("long", &mut out),
            Ok(Loaded::TooLong(16_777_217))
        )
    );
    assert!(rt; out.is_empty());
    let mut end = End {
        source: SteadySource { rest: b"" },
        sink: SteadySink { taken: 0 },
        shelf: SteadyShelf {
            files: shelf_files(alloc)?,
        },
    };
    assert!(rt; matches!(end.shelf.load("A.class", &mut out), Ok(Loaded::Bytes)));
    assert!(rt; out.len() == 2 && end.shelf.faults() == 0);
    assert!(rt; matches!(end.source.read(&mut [0u8; 4]), Ok(0)));
    assert!(rt; matches!(end.sink.write(b""), Ok(0)));
    Ok(())
}

#[test]
fn real_files_are_loaded(rt: HostRuntime) -> Result<(), AllocError> {
    let mut out = Vec::new(rt.alloc());
    let mut shelf = FileShelf::new(&rt, rt.alloc());
    assert!(rt; matches!(shelf.load("held.bin", &mut out), Ok(Loaded::Missing)));
    assert!(rt; fs::write(&rt, "held.bin", "né").is_ok());
    assert!(rt; matches!(shelf.load("held.bin", &mut out), Ok(Loaded::Bytes)));
    assert_eq!(rt; out.as_slice(), "né".as_bytes());
    let long = vec![in rt.alloc(); 1u8; LONGEST_LOAD + 9]?;
    assert!(rt; fs::write(&rt, "long.bin", long).is_ok());
    assert!(rt; matches!(shelf.load("long.bin", &mut out), Ok(Loaded::TooLong(_))));
    assert!(rt; out.is_empty() && shelf.faults() == 0);
    assert!(rt; matches!(shelf.load(".", &mut out), Err(LoadFault::Failed)));
    assert_eq!(rt; shelf.faults(), 1);
    Ok(())
}
