use lists::Items;
use outside::{End, FaultPlan, MemSink, MemSource, SteadyShelf, SteadySink, SteadySource};
use serving::{Command, Status, read_command, run, run_plain};
use std::alloc::{AllocError, Global};
use std::sync::Wait;
use std::thread::Threads;

/// Runs `list` over one end, with reads and writes of at most `most` bytes and these failing calls.
fn listed<R: Threads + Wait + Sync>(
    rt: &R,
    alloc: Global,
    sheet: &str,
    most: usize,
    read: u64,
    write: u64,
) -> Result<(Status, Vec<u8>), AllocError> {
    let text = format!(in alloc; "insynth sheet 1\n{sheet}")?;
    let mut source = MemSource::new(
        text.as_bytes(),
        FaultPlan::new(Items::from_slice(alloc, &[read])?),
    );
    source.most = most;
    let mut sink = MemSink::new(alloc, FaultPlan::new(Items::from_slice(alloc, &[write])?));
    sink.most = most;
    let shelf = SteadyShelf {
        files: Items::new(alloc),
    };
    let mut ends = vec![in alloc;
        End {
            source,
            sink,
            shelf
        },
    ]?;
    let words = vec![in alloc; String::from_str(alloc, "list")?]?;
    let status = run(rt, alloc, words.as_slice(), &mut ends);
    match ends.pop() {
        Some(end) => Ok((status, written(end))),
        None => Err(AllocError),
    }
}

/// What the sink of an end holds.
fn written(end: End<MemSource<'_>, MemSink, SteadyShelf>) -> Vec<u8> {
    let End {
        source: _,
        sink,
        shelf: _,
    } = end;
    let MemSink {
        bytes,
        most: _,
        plan: _,
    } = sink;
    bytes
}

/// A status by its code, place and cause, of end 0.
fn status(code: u8, place: u64, cause: u32) -> Status {
    Status {
        code,
        end: 0,
        place,
        cause,
    }
}

const CALLS: &str = "type int\ndecl 5 int name x\ndecl 20 int call f int\ngoal int\nlimit 50";

// Sheets without their first line, and what is written for them.
#[test]
fn sheets_are_listed(rt: HostRuntime) -> Result<(), AllocError> {
    let table: [(&str, &str); 10] = [
        ("type int\ntype A\ndecl 5 int name x\ngoal A", ""),
        (
            "type int\ndecl 5 int name b\ndecl 5 int name a\ngoal int",
            "5 a\n5 b\n",
        ),
        (CALLS, "5 x\n25 f(x)\n45 f(f(x))\n"),
        (
            "type int\ntype long\nsub int long\ndecl 5 int name x\ndecl 20 int call f long\ngoal long\nlimit 75",
            "15 x\n45 f(x)\n75 f(f(x))\n",
        ),
        (
            "type int\ntype I\ndecl 5 int name x\ndecl 10 I lambda I int -> int\ngoal I\nlimit 20\ndepth 1",
            "12 (I) (p0) -> p0\n16 (I) (p0) -> x\n",
        ),
        (
            "type int\ntype I\ntype J\ndecl 10 I lambda I int -> int\ndecl 10 J lambda J int -> I\ngoal J\nlimit 30\ndepth 2",
            "23 (J) (p0) -> (I) (p1) -> p0\n23 (J) (p0) -> (I) (p1) -> p1\n",
        ),
        (
            "type A\ntype B\nsub B A\ndecl 5 B name b\ncrowded 25 A method m A\ngoal A\nlimit 70",
            "15 b\n40 ((A) b).m()\n65 ((A) b).m().m()\n",
        ),
        (
            "type int\ntype P\ndecl 5 P this\ndecl 20 int field k P\ndecl 20 int hidden-field j P\ngoal int",
            "25 k\n25 this.j\n",
        ),
        (
            "type int\ndecl 5 int name x\ndecl 20 int call f int\ndecl 20 int call g int int\ngoal int\nlimit 50",
            "5 x\n25 f(x)\n30 g(x, x)\n45 f(f(x))\n50 f(g(x, x))\n50 g(f(x), x)\n50 g(x, f(x))\n",
        ),
        (
            "type int\ntype A\ntype D\ndecl 5 int name x\ndecl 5 A name a\ndecl 5 A call p A A\ndecl 5 int call f int A D\ngoal int\nlimit 1000",
            "5 x\n",
        ),
    ];
    for (sheet, wanted) in table {
        for most in [1usize, 100_000] {
            let (found, written) = listed(&rt, rt.alloc(), sheet, most, 0, 0)?;
            assert_eq!(rt; found, status(0, 0, 0));
            assert_eq!(rt; written.as_slice(), wanted.as_bytes());
        }
    }
    Ok(())
}

// The calls of one run: with pieces of 50 bytes the sheet takes two reads and the end a third.
#[test]
fn faults_have_their_codes(rt: HostRuntime) -> Result<(), AllocError> {
    for read in [1u64, 2, 3] {
        let (found, written) = listed(&rt, rt.alloc(), CALLS, 50, read, 0)?;
        assert_eq!(rt; found, status(4, 0, 0));
        assert!(rt; written.is_empty());
    }
    for (write, wanted) in [
        (1u64, ""),
        (2, "5 x\n25 f(x"),
        (3, "5 x\n25 f(x)\n45 f(f(x"),
    ] {
        let (found, written) = listed(&rt, rt.alloc(), CALLS, 10, 0, write)?;
        assert_eq!(rt; found, status(5, 0, 0));
        assert_eq!(rt; written.as_slice(), wanted.as_bytes());
    }
    let (found, written) = listed(&rt, rt.alloc(), "type int\nsub int short", 7, 0, 0)?;
    assert_eq!(rt; found, status(3, 3, 5));
    assert!(rt; written.is_empty());
    Ok(())
}

// Words, the number of ends, and the place and cause of the status.
#[test]
fn words_and_ends_are_looked_at(rt: HostRuntime) -> Result<(), AllocError> {
    let alloc = rt.alloc();
    let table: [(&[&str], usize, u64, u32); 14] = [
        (&[], 1, 0, 1),
        (&["lists"], 1, 0, 1),
        (&["list", "list"], 1, 1, 1),
        (&["serve", "list"], 2, 1, 1),
        (&["list"], 0, 0, 2),
        (&["list"], 2, 2, 2),
        (&["upgrades"], 1, 0, 1),
        (&["upgrade", "upgrade"], 1, 1, 1),
        (&["upgrade", "a=b"], 2, 1, 1),
        (&["list", "upgrade"], 1, 1, 1),
        (&["upgrade"], 0, 0, 2),
        (&["upgrade"], 2, 2, 2),
        (&["serve"], 0, 0, 2),
        (&["serve", "--start", "F"], 2, 2, 2),
    ];
    for (texts, count, place, cause) in table {
        let mut words = Vec::new(alloc);
        for text in texts {
            words.push(String::from_str(alloc, text)?)?;
        }
        let mut ends = Vec::new(alloc);
        for _ in 0..count {
            ends.push(End {
                source: SteadySource { rest: b"insynth" },
                sink: SteadySink { taken: 0 },
                shelf: SteadyShelf {
                    files: Items::new(alloc),
                },
            })?;
        }
        assert_eq!(rt;
            run(&rt, alloc, words.as_slice(), &mut ends),
            status(2, place, cause)
        );
        assert_eq!(rt; ends.len(), count);
        for end in &ends {
            assert!(rt; end.source.rest.len() == 7 && end.sink.taken == 0);
        }
    }
    Ok(())
}

/// The status of a command other than `serve`, which is run without a handle.
fn plain_status(
    alloc: Global,
    words: &[String],
    end: &mut End<MemSource<'_>, MemSink, SteadyShelf>,
) -> Option<Status> {
    match read_command(words) {
        Ok(Command::List) => Some(run_plain(alloc, words, end)),
        _ => None,
    }
}

#[test]
fn a_sheet_is_listed_without_a_handle(rt: HostRuntime) -> Result<(), AllocError> {
    let alloc = rt.alloc();
    let sheet =
        "insynth sheet 1\ntype int\ntype long\nsub int long\ndecl 5 int name x\ndecl 20 int call f long\ngoal long\nlimit 75";
    let mut end = End {
        source: MemSource::new(sheet.as_bytes(), FaultPlan::none(alloc)),
        sink: MemSink::new(alloc, FaultPlan::none(alloc)),
        shelf: SteadyShelf {
            files: Items::new(alloc),
        },
    };
    let words = vec![in alloc; String::from_str(alloc, "list")?]?;
    assert_eq!(rt;
        plain_status(alloc, words.as_slice(), &mut end),
        Some(status(0, 0, 0))
    );
    assert_eq!(rt;
        written(end).as_slice(),
        b"15 x\n45 f(x)\n75 f(f(x))\n".as_slice()
    );
    Ok(())
}
