use json_rpc::{
    FrameFault, Frames, Id, Message, RpcFault, RpcRefusal, read_frames, read_message, write_frame,
    write_no_memory,
};
use lists::{Items, Text};
use outside::{FaultPlan, MemSink, MemSource};
use std::alloc::{AllocError, Global};

const SHUTDOWN: &[u8] = b"{\"jsonrpc\":\"2.0\",\"id\":2,\"method\":\"shutdown\"}";

const EXIT: &[u8] = b"{\"jsonrpc\":\"2.0\",\"method\":\"exit\"}";

const BOTH: &[u8] =
    b"Content-Length: 44\r\n\r\n{\"jsonrpc\":\"2.0\",\"id\":2,\"method\":\"shutdown\"}Content-Length: 33\r\n\r\n{\"jsonrpc\":\"2.0\",\"method\":\"exit\"}";

/// How an input that is cut at this byte ends, and how many bodies it has: the frames end at 66 and 121.
fn end_of(cut: usize) -> (usize, Option<FrameFault>) {
    match cut {
        0 => (0, None),
        66 => (1, None),
        121 => (2, None),
        _ => ((cut > 66) as usize, Some(FrameFault::Cut(cut as u64))),
    }
}

#[test]
fn an_input_is_cut_at_every_byte(rt: HostRuntime) -> Result<(), AllocError> {
    for cut in 0..122usize {
        for most in [1usize, 121] {
            let mut source = MemSource::new(&BOTH[..cut], FaultPlan::none(rt.alloc()));
            source.most = most;
            let mut bodies = Vec::new(rt.alloc());
            let end = read_frames(rt.alloc(), &mut source, &mut bodies);
            let (count, wanted) = end_of(cut);
            assert!(rt; end == wanted, "cut at {cut}, {most} at a time");
            assert_eq!(rt; bodies.len(), count, "cut at {cut}, {most} at a time");
            for (body, wanted) in bodies.iter().zip([SHUTDOWN, EXIT]) {
                assert!(rt; body.as_slice() == wanted, "cut at {cut}, {most} at a time");
            }
        }
    }
    Ok(())
}

/// Header parts, and the fault that each meets.
const FAULTS: [(&[u8], FrameFault); 13] = [
    (
        b"Content-Length: 16777217\r\n\r\n",
        FrameFault::TooLong(16_777_217),
    ),
    (b"A: b\r\n\r\n", FrameFault::NoLength(8)),
    (b"\r\n", FrameFault::NoLength(2)),
    (b" A: b", FrameFault::Header(0)),
    (b"A b:", FrameFault::Header(1)),
    (b"Content-Length: x", FrameFault::Header(16)),
    (b"Content-Length:\r\n", FrameFault::Header(15)),
    (
        b"Content-Length: 1\r\nContent-length: 2\r\n\r\n",
        FrameFault::Header(19),
    ),
    (
        b"Content-Length: 1234567890123456789\r\n",
        FrameFault::Header(34),
    ),
    (b"Content-Length: 1\t\r\n", FrameFault::Header(17)),
    (b"Content-Length: 1\nx", FrameFault::Header(17)),
    (b"A: \x7f", FrameFault::Header(3)),
    (b"A: b\rc", FrameFault::Header(5)),
];

#[test]
fn broken_headers_are_refused_at_their_byte(rt: HostRuntime) -> Result<(), AllocError> {
    for (input, fault) in FAULTS {
        let mut source = MemSource::new(input, FaultPlan::none(rt.alloc()));
        let mut frames = Frames::new(rt.alloc());
        assert!(rt;
            frames.next(rt.alloc(), &mut source).err() == Some(fault),
            "{}",
            String::from_utf8_lossy(rt.alloc(), input)?
        );
        assert!(rt;
            frames.next(rt.alloc(), &mut source).err() == Some(fault),
            "{}",
            String::from_utf8_lossy(rt.alloc(), input)?
        );
    }
    let mut long = Vec::from_slice(rt.alloc(), b"A:")?;
    for _ in 0..8191 {
        long.push(b'x')?;
    }
    let mut source = MemSource::new(long.as_slice(), FaultPlan::none(rt.alloc()));
    assert!(rt;
        Frames::new(rt.alloc()).next(rt.alloc(), &mut source).err()
            == Some(FrameFault::Header(8192))
    );
    Ok(())
}

#[test]
fn a_read_fault_keeps_the_bytes(rt: HostRuntime) -> Result<(), AllocError> {
    let failing = Items::from_slice(rt.alloc(), &[3u64])?;
    let mut source = MemSource::new(b"content-LENGTH:\t 2 \r\n\r\nab", FaultPlan::new(failing));
    source.most = 9;
    let mut frames = Frames::new(rt.alloc());
    assert!(rt; frames.next(rt.alloc(), &mut source).err() == Some(FrameFault::ReadFault));
    match frames.next(rt.alloc(), &mut source) {
        Ok(Some(body)) => assert!(rt; body.as_slice() == b"ab".as_slice()),
        _ => assert!(rt; false, "no body after the fault"),
    }
    assert!(rt; matches!(frames.next(rt.alloc(), &mut source), Ok(None)));
    Ok(())
}

/// What a body is: 1 a request, 2 a notification, 3 a response, else the code of its fault.
struct Row {
    body: &'static [u8],
    outcome: i32,
    number: Option<i64>,
    text: Option<&'static str>,
}

const ROWS: [Row; 24] = [
    Row {
        body: SHUTDOWN,
        outcome: 1,
        number: Some(2),
        text: None,
    },
    Row {
        body: EXIT,
        outcome: 2,
        number: None,
        text: None,
    },
    Row {
        body: b"{",
        outcome: -32700,
        number: None,
        text: None,
    },
    Row {
        body: b"",
        outcome: -32700,
        number: None,
        text: None,
    },
    Row {
        body: b"\"\xff\"",
        outcome: -32700,
        number: None,
        text: None,
    },
    Row {
        body: b"{\"jsonrpc\":\"2.0\",\"id\":1,\"method\":\"a\",}",
        outcome: -32700,
        number: None,
        text: None,
    },
    Row {
        body: b"[]",
        outcome: -32600,
        number: None,
        text: None,
    },
    Row {
        body: b"7",
        outcome: -32600,
        number: None,
        text: None,
    },
    Row {
        body: b"{\"id\":1,\"result\":null}",
        outcome: 3,
        number: None,
        text: None,
    },
    Row {
        body: b"{\"id\":null,\"error\":{}}",
        outcome: 3,
        number: None,
        text: None,
    },
    Row {
        body: b"{\"result\":1}",
        outcome: -32600,
        number: None,
        text: None,
    },
    Row {
        body: b"{\"id\":1}",
        outcome: -32600,
        number: Some(1),
        text: None,
    },
    Row {
        body: b"{\"id\":1,\"method\":\"a\"}",
        outcome: -32600,
        number: Some(1),
        text: None,
    },
    Row {
        body: b"{\"jsonrpc\":\"1.0\",\"id\":1,\"method\":\"a\"}",
        outcome: -32600,
        number: Some(1),
        text: None,
    },
    Row {
        body: b"{\"jsonrpc\":\"2.0\",\"id\":1.0,\"method\":\"a\"}",
        outcome: -32600,
        number: None,
        text: None,
    },
    Row {
        body: b"{\"jsonrpc\":\"2.0\",\"id\":-0,\"method\":\"a\"}",
        outcome: -32600,
        number: None,
        text: None,
    },
    Row {
        body: b"{\"jsonrpc\":\"2.0\",\"id\":null,\"method\":\"a\"}",
        outcome: -32600,
        number: None,
        text: None,
    },
    Row {
        body: b"{\"jsonrpc\":\"2.0\",\"id\":9223372036854775808,\"method\":\"a\"}",
        outcome: -32600,
        number: None,
        text: None,
    },
    Row {
        body: b"{\"jsonrpc\":\"2.0\",\"id\":-9223372036854775808,\"method\":\"a\"}",
        outcome: 1,
        number: Some(i64::MIN),
        text: None,
    },
    Row {
        body: b"{\"jsonrpc\":\"2.0\",\"id\":\"x\",\"method\":5}",
        outcome: -32600,
        number: None,
        text: Some("x"),
    },
    Row {
        body: b"{\"jsonrpc\":\"2.0\",\"id\":\"x\",\"method\":\"a\",\"params\":null}",
        outcome: 1,
        number: None,
        text: Some("x"),
    },
    Row {
        body: b"{\"jsonrpc\":\"2.0\",\"id\":1,\"method\":\"a\",\"params\":5}",
        outcome: -32600,
        number: Some(1),
        text: None,
    },
    Row {
        body: b"{\"jsonrpc\":\"2.0\",\"method\":\"a\",\"params\":[1]}",
        outcome: 2,
        number: None,
        text: None,
    },
    Row {
        body: b"{\"jsonrpc\":\"2.0\",\"method\":null,\"id\":1,\"result\":1}",
        outcome: -32600,
        number: Some(1),
        text: None,
    },
];

/// Whether the id is the one of the row.
fn is_id_of(id: &Id, row: &Row) -> bool {
    match id {
        Id::Number(number) => row.number == Some(*number) && row.text.is_none(),
        Id::Text(text) => match row.text {
            Some(wanted) => text.as_str() == wanted,
            None => false,
        },
    }
}

/// Whether the fault is the one of the row.
fn is_fault_of(fault: &RpcFault, row: &Row) -> bool {
    match &fault.id {
        Some(id) => row.outcome == fault.code && is_id_of(id, row),
        None => row.outcome == fault.code && row.number.is_none() && row.text.is_none(),
    }
}

/// Whether the row says what was found.
fn is_as_said(found: &Result<Message, RpcRefusal>, row: &Row) -> bool {
    match found {
        Ok(Message::Request { id, .. }) => row.outcome == 1 && is_id_of(id, row),
        Ok(Message::Notice { .. }) => row.outcome == 2,
        Ok(Message::Response) => row.outcome == 3,
        Err(RpcRefusal::Fault(fault)) => is_fault_of(fault, row),
        Err(RpcRefusal::OutOfMemory) => false,
    }
}

#[test]
fn bodies_are_heard(rt: HostRuntime) -> Result<(), AllocError> {
    for row in &ROWS {
        let found = read_message(rt.alloc(), row.body);
        assert!(rt;
            is_as_said(&found, row),
            "{}",
            String::from_utf8_lossy(rt.alloc(), row.body)?
        );
    }
    Ok(())
}

/// What a notification is heard as whose parameters are arrays, one in another.
fn heard_of_nested(
    alloc: Global,
    arrays: usize,
) -> Result<Result<Message, RpcRefusal>, AllocError> {
    let mut body = String::from_str(alloc, "{\"jsonrpc\":\"2.0\",\"method\":\"a\",\"params\":")?;
    for _ in 0..arrays {
        body.push_str("[")?;
    }
    for _ in 0..arrays {
        body.push_str("]")?;
    }
    body.push_str("}")?;
    Ok(read_message(alloc, body.as_bytes()))
}

// An object around 126 arrays is nested 127 deep.
#[test]
fn a_body_that_nests_too_deep_is_no_json(rt: HostRuntime) -> Result<(), AllocError> {
    for arrays in [1usize, 100, 126] {
        let found = heard_of_nested(rt.alloc(), arrays)?;
        assert!(rt; matches!(&found, Ok(Message::Notice { .. })));
    }
    for arrays in [127usize, 199, 200, 100_000] {
        let found = heard_of_nested(rt.alloc(), arrays)?;
        assert!(rt;
            matches!(&found, Err(RpcRefusal::Fault(fault)) if fault.code == -32700 && fault.id.is_none())
        );
    }
    Ok(())
}

#[test]
fn frames_are_written(rt: HostRuntime) -> Result<(), AllocError> {
    let mut sink = MemSink::new(rt.alloc(), FaultPlan::none(rt.alloc()));
    assert!(rt; write_frame(&mut sink, b"{\"id\":2,\"jsonrpc\":\"2.0\",\"result\":null}").is_ok());
    assert!(rt;
        sink.bytes.as_slice()
            == b"Content-Length: 38\r\n\r\n{\"id\":2,\"jsonrpc\":\"2.0\",\"result\":null}".as_slice()
    );
    assert_eq!(rt; sink.plan.calls, 2);
    let mut sink = MemSink::new(rt.alloc(), FaultPlan::none(rt.alloc()));
    assert!(rt; write_no_memory(&mut sink, &Id::Number(-7)).is_ok());
    assert!(rt;
        sink.bytes.as_slice()
            == b"Content-Length: 71\r\n\r\n{\"error\":{\"code\":-32803,\"message\":\"no memory\"},\"id\":-7,\"jsonrpc\":\"2.0\"}".as_slice()
    );
    let mut sink = MemSink::new(rt.alloc(), FaultPlan::none(rt.alloc()));
    sink.most = 3;
    assert!(rt;
        write_no_memory(
            &mut sink,
            &Id::Text(Text::from_str(rt.alloc(), "a\"\u{1}\n\u{E9}")?)
        )
        .is_ok()
    );
    assert!(rt;
        sink.bytes.as_slice()
            == b"Content-Length: 84\r\n\r\n{\"error\":{\"code\":-32803,\"message\":\"no memory\"},\"id\":\"a\\\"\\u0001\\n\xc3\xa9\",\"jsonrpc\":\"2.0\"}".as_slice()
    );
    Ok(())
}
