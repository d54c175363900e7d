ghost use Rattle.std.specs.Prelude.{◌≡◌, ◌∷◌, [], IfOk};
ghost use Rattle.decl_index.specs.History.{KeepsRanges};
ghost use Rattle.version_board.specs.Versions.{IsVersion};

use crate::client_tests::{Left, serve_from};
use crate::frame_tests::{CAPABILITIES, INITIALIZE, framed};
use decl_index::Change;
use known_classes::{ClassSummary, MethodSummary};
use lists::{Items, Text};
use outside::{FaultPlan, MemSink, MemSource};
use std::alloc::{AllocError, Global};
use std::marker::Brand;
use std::sync::Wait;
use std::test::Fail;
use std::thread::Threads;
use type_names::{Base, Erased};
use version_board::{Naming, Opened, Snapshot};

pub(crate) const BY_THREE: (usize, &str) = (
    93,
    r#"{"jsonrpc":"2.0","id":1,"method":"initialize","params":{"initializationOptions":{"count":3}}}"#,
);

pub(crate) const DEMO: (usize, &str) = (
    236,
    r#"{"jsonrpc":"2.0","method":"textDocument/didOpen","params":{"textDocument":{"uri":"file:///Demo.java","languageId":"java","version":1,"text":"import java.io.*;\nclass Demo {\n  static void go(String name) {\n    Reader r = \n  }\n}\n"}}}"#,
);

pub(crate) const AFTER_READER: (usize, &str) = (
    150,
    r#"{"jsonrpc":"2.0","id":2,"method":"textDocument/completion","params":{"textDocument":{"uri":"file:///Demo.java"},"position":{"line":3,"character":15}}}"#,
);

pub(crate) const NEXT_THREE: (usize, &str) = (
    133,
    r#"{"jsonrpc":"2.0","id":3,"method":"workspace/executeCommand","params":{"command":"insynth.page","arguments":[{"cursor":1,"count":3}]}}"#,
);

pub(crate) const SIX: (usize, &str) = (
    1542,
    r#"{"id":2,"jsonrpc":"2.0","result":{"insynth":{"cursor":1,"from":0,"grown":6,"last":true,"version":1},"isIncomplete":false,"items":[{"detail":"1015","label":"new FileReader(name)","sortText":"0000000000","textEdit":{"newText":"new FileReader(name)","range":{"end":{"character":15,"line":3},"start":{"character":15,"line":3}}}},{"detail":"1210","label":"new FileReader(\"\")","sortText":"0000000001","textEdit":{"newText":"new FileReader(\"\")","range":{"end":{"character":15,"line":3},"start":{"character":15,"line":3}}}},{"detail":"2025","label":"new BufferedReader(new FileReader(name))","sortText":"0000000002","textEdit":{"newText":"new BufferedReader(new FileReader(name))","range":{"end":{"character":15,"line":3},"start":{"character":15,"line":3}}}},{"detail":"2220","label":"new BufferedReader(new FileReader(\"\"))","sortText":"0000000003","textEdit":{"newText":"new BufferedReader(new FileReader(\"\"))","range":{"end":{"character":15,"line":3},"start":{"character":15,"line":3}}}},{"detail":"3035","label":"new BufferedReader(new BufferedReader(new FileReader(name)))","sortText":"0000000004","textEdit":{"newText":"new BufferedReader(new BufferedReader(new FileReader(name)))","range":{"end":{"character":15,"line":3},"start":{"character":15,"line":3}}}},{"detail":"3230","label":"new BufferedReader(new BufferedReader(new FileReader(\"\")))","sortText":"0000000005","textEdit":{"newText":"new BufferedReader(new BufferedReader(new FileReader(\"\")))","range":{"end":{"character":15,"line":3},"start":{"character":15,"line":3}}}}]}}"#,
);

pub(crate) const THREE: (usize, &str) = (
    757,
    r#"{"id":2,"jsonrpc":"2.0","result":{"insynth":{"cursor":1,"from":0,"grown":4,"last":false,"version":1},"isIncomplete":true,"items":[{"detail":"1015","label":"new FileReader(name)","sortText":"0000000000","textEdit":{"newText":"new FileReader(name)","range":{"end":{"character":15,"line":3},"start":{"character":15,"line":3}}}},{"detail":"1210","label":"new FileReader(\"\")","sortText":"0000000001","textEdit":{"newText":"new FileReader(\"\")","range":{"end":{"character":15,"line":3},"start":{"character":15,"line":3}}}},{"detail":"2025","label":"new BufferedReader(new FileReader(name))","sortText":"0000000002","textEdit":{"newText":"new BufferedReader(new FileReader(name))","range":{"end":{"character":15,"line":3},"start":{"character":15,"line":3}}}}]}}"#,
);

pub(crate) const OTHER_THREE: (usize, &str) = (
    917,
    r#"{"id":3,"jsonrpc":"2.0","result":{"insynth":{"cursor":1,"from":3,"grown":2,"last":true,"version":1},"isIncomplete":false,"items":[{"detail":"2220","label":"new BufferedReader(new FileReader(\"\"))","sortText":"0000000003","textEdit":{"newText":"new BufferedReader(new FileReader(\"\"))","range":{"end":{"character":15,"line":3},"start":{"character":15,"line":3}}}},{"detail":"3035","label":"new BufferedReader(new BufferedReader(new FileReader(name)))","sortText":"0000000004","textEdit":{"newText":"new BufferedReader(new BufferedReader(new FileReader(name)))","range":{"end":{"character":15,"line":3},"start":{"character":15,"line":3}}}},{"detail":"3230","label":"new BufferedReader(new BufferedReader(new FileReader(\"\")))","sortText":"0000000005","textEdit":{"newText":"new BufferedReader(new BufferedReader(new FileReader(\"\")))","range":{"end":{"character":15,"line":3},"start":{"character":15,"line":3}}}}]}}"#,
);

/// The methods of a class that has a constructor with one parameter, of a class.
fn constructor(alloc: Global, of: &str) -> Result<Items<MethodSummary>, AllocError> {
    let mut params = Items::new(alloc);
    params.push(Erased {
        dims: 0,
        base: Base::Class(Text::from_str(alloc, of)?),
    })?;
    let mut methods = Items::new(alloc);
    methods.push(MethodSummary {
        name: Text::from_str(alloc, "<init>")?,
        flags: 1,
        params,
        result: None,
    })?;
    Ok(methods)
}

/// A class with one super class.
fn class(
    alloc: Global,
    name: &str,
    flags: u16,
    above: &str,
    methods: Items<MethodSummary>,
) -> Result<ClassSummary, AllocError> {
    let mut supers = Items::new(alloc);
    supers.push(Text::from_str(alloc, above)?)?;
    Ok(ClassSummary {
        name: Text::from_str(alloc, name)?,
        flags,
        nesting: None,
        supers,
        fields: Items::new(alloc),
        methods,
    })
}

/// A reader of the package `java.io`, which is made of one value of a class.
fn reader(alloc: Global, name: &str, of: &str) -> Result<ClassSummary, AllocError> {
    let methods = constructor(alloc, of)?;
    class(alloc, name, 0x21, "java/io/Reader", methods)
}

/// The publication of three readers; the one above the others is abstract.
pub(crate) fn readers(alloc: Global) -> Result<Change, AllocError>
    ensures { IfOk result (λ change. KeepsRanges change) }
{
    let above = class(
        alloc,
        "java/io/Reader",
        0x421,
        "java/lang/Object",
        Items::new(alloc),
    )?;
    let of_file = reader(alloc, "java/io/FileReader", "java/lang/String")?;
    let of_reader = reader(alloc, "java/io/BufferedReader", "java/io/Reader")?;
    let mut puts = Items::new(alloc);
    puts.push(above)?;
    puts.push(of_file)?;
    puts.push(of_reader)?;
    Ok(Change::Publish {
        puts,
        removes: Items::new(alloc),
        counts: Items::new(alloc),
    })
}

/// The version after one change.
pub(crate) fn version_after(alloc: Global, change: &Change) -> Result<Snapshot, AllocError>
    requires { KeepsRanges change.now }
    ensures { IfOk result (λ version. IsVersion (change.now ∷ []) version) }
{
    let empty = Snapshot::empty(alloc)?;
    match empty.after(alloc, change) {
        Ok(version) => Ok(version),
        Err(_) => Err(AllocError),
    }
}

/// A session from the version after one change on.
fn serve_after<J: Naming, R: Threads + Wait + Sync>(
    rt: &R,
    alloc: Global,
    opened: Opened,
    change: &Change,
    first: Snapshot,
    input: &[u8],
) -> Result<Left, AllocError>
    requires book { opened.seen.book ≡ J.book }
    requires history { J.first ≡ change.now ∷ [] }
    requires first { IsVersion (change.now ∷ []) first }
{
    let source = MemSource::new(input, FaultPlan::none(alloc));
    let sink = MemSink::new(alloc, FaultPlan::none(alloc));
    serve_from::<J, &R>(rt, alloc, opened, first, source, sink)
}

/// Whether a client that sends these frames over the version after a change is replied those.
pub(crate) fn gives<R: Threads + Wait + Sync>(
    rt: &R,
    alloc: Global,
    change: &Change,
    sent: &[(usize, &str)],
    replied: &[(usize, &str)],
) -> Result<bool, AllocError>
    requires { KeepsRanges change.now }
{
    let input = framed(alloc, sent)?;
    let output = framed(alloc, replied)?;
    let first = version_after(alloc, change)?;
    let bytes = input.as_bytes();
    let left = serve_after::<Brand, R>(rt, alloc, Opened::new(), change, first, bytes)?;
    Ok(left.output.as_slice() == output.as_bytes())
}

#[test]
fn readers_are_listed_by_their_weights(rt: HostRuntime) -> Result<(), Fail> {
    let change = readers(rt.alloc())?;
    let sent = [INITIALIZE, DEMO, AFTER_READER];
    assert!(rt; gives(&rt, rt.alloc(), &change, &sent, &[CAPABILITIES, SIX])?);
    Ok(())
}

#[test]
fn readers_are_listed_by_pages(rt: HostRuntime) -> Result<(), Fail> {
    let change = readers(rt.alloc())?;
    let sent = [BY_THREE, DEMO, AFTER_READER, NEXT_THREE];
    let replied = [CAPABILITIES, THREE, OTHER_THREE];
    assert!(rt; gives(&rt, rt.alloc(), &change, &sent, &replied)?);
    Ok(())
}
