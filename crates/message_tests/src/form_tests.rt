use json_rpc::Refused;
use lists::Text;
use lsp_forms::{
    Command, ItemForm, ParamFault, make_capabilities, make_list, make_version, read_command,
    read_completion, read_did_change, read_did_close, read_did_open, read_initialize,
};
use serde_json::Value;
use std::alloc::Global;
use std::test::Fail;

/// The methods whose parameters are read.
#[derive(Clone, Copy)]
enum Method {
    Initialize,
    Open,
    Change,
    Close,
    Complete,
    Execute,
}

/// What a reader answered: the cause and the index, 0 for a form and 99 for want of memory.
fn told<T: Drop>(answer: Result<T, Refused<ParamFault>>) -> (u32, u32) {
    match answer {
        Ok(_) => (0, 0),
        Err(Refused::Fault(fault)) => (fault.cause, fault.index),
        Err(Refused::OutOfMemory) => (99, 0),
    }
}

fn outcome(alloc: Global, method: Method, params: &Value) -> (u32, u32) {
    match method {
        Method::Initialize => told(read_initialize(params)),
        Method::Open => told(read_did_open(alloc, params)),
        Method::Change => told(read_did_change(alloc, params)),
        Method::Close => told(read_did_close(alloc, params)),
        Method::Complete => told(read_completion(alloc, params)),
        Method::Execute => told(read_command(alloc, params)),
    }
}

/// Parameters of a method, and the cause and the index with which they are refused, or 0.
const ROWS: [(Method, &str, u32, u32); 86] = [
    (Method::Initialize, "{}", 0, 0),
    (Method::Initialize, "null", 0, 0),
    (Method::Initialize, "[1]", 0, 0),
    (Method::Initialize, "{\"initializationOptions\":null}", 0, 0),
    (
        Method::Initialize,
        "{\"initializationOptions\":{\"limit\":10000,\"depth\":0,\"count\":1000,\"other\":[]}}",
        0,
        0,
    ),
    (
        Method::Initialize,
        "{\"initializationOptions\":{\"limit\":null}}",
        0,
        0,
    ),
    (Method::Initialize, "{\"initializationOptions\":[]}", 0, 0),
    (Method::Initialize, "{\"initializationOptions\":[{}]}", 1, 0),
    (
        Method::Initialize,
        "{\"initializationOptions\":{\"limit\":0,\"depth\":\"1\"}}",
        1,
        0,
    ),
    (
        Method::Initialize,
        "{\"initializationOptions\":{\"limit\":0}}",
        2,
        0,
    ),
    (
        Method::Initialize,
        "{\"initializationOptions\":{\"limit\":10001}}",
        2,
        0,
    ),
    (
        Method::Initialize,
        "{\"initializationOptions\":{\"depth\":4}}",
        2,
        0,
    ),
    (
        Method::Initialize,
        "{\"initializationOptions\":{\"count\":1001}}",
        2,
        0,
    ),
    (
        Method::Initialize,
        "{\"initializationOptions\":{\"count\":1.0}}",
        2,
        0,
    ),
    (
        Method::Open,
        "{\"textDocument\":{\"uri\":\"\",\"text\":\"\"}}",
        0,
        0,
    ),
    (Method::Open, "{\"textDocument\":{\"uri\":\"a\"}}", 1, 0),
    (
        Method::Open,
        "{\"textDocument\":{\"uri\":null,\"text\":\"b\"}}",
        1,
        0,
    ),
    (Method::Change, "{\"textDocument\":{\"uri\":\"a\"}}", 0, 0),
    (Method::Change, "{\"contentChanges\":[]}", 1, 0),
    (Method::Close, "{\"textDocument\":{\"uri\":\"a\"}}", 0, 0),
    (Method::Close, "{\"textDocument\":\"a\"}", 1, 0),
    (Method::Complete, "{}", 1, 0),
    (
        Method::Complete,
        "{\"textDocument\":{\"uri\":\"a\"},\"position\":{\"line\":0,\"character\":2147483647}}",
        0,
        0,
    ),
    (
        Method::Complete,
        "{\"textDocument\":{\"uri\":\"a\"},\"position\":{\"line\":-1,\"character\":\"b\"}}",
        1,
        0,
    ),
    (
        Method::Complete,
        "{\"textDocument\":{\"uri\":\"a\"},\"position\":{\"line\":2147483648,\"character\":0}}",
        2,
        0,
    ),
    (
        Method::Complete,
        "{\"textDocument\":{\"uri\":\"a\"},\"position\":{\"line\":0,\"character\":-0}}",
        2,
        0,
    ),
    (
        Method::Complete,
        "{\"textDocument\":{\"uri\":\"a\"},\"position\":{\"line\":1e2,\"character\":0}}",
        2,
        0,
    ),
    (Method::Execute, "{\"arguments\":[{}]}", 1, 0),
    (Method::Execute, "{\"command\":\"insynth.list\"}", 7, 0),
    (Method::Execute, "{\"command\":\"insynth.page\"}", 1, 0),
    (
        Method::Execute,
        "{\"command\":\"insynth.page\",\"arguments\":[{\"cursor\":1,\"count\":1},{}]}",
        1,
        0,
    ),
    (
        Method::Execute,
        "{\"command\":\"insynth.page\",\"arguments\":{\"cursor\":1,\"count\":1}}",
        1,
        0,
    ),
    (
        Method::Execute,
        "{\"command\":\"insynth.page\",\"arguments\":[{\"cursor\":4294967296}]}",
        1,
        0,
    ),
    (
        Method::Execute,
        "{\"command\":\"insynth.page\",\"arguments\":[{\"cursor\":4294967296,\"count\":1}]}",
        2,
        0,
    ),
    (
        Method::Execute,
        "{\"command\":\"insynth.page\",\"arguments\":[{\"cursor\":1,\"count\":0}]}",
        2,
        0,
    ),
    (
        Method::Execute,
        "{\"command\":\"insynth.page\",\"arguments\":[{\"cursor\":1,\"count\":1000}]}",
        0,
        0,
    ),
    (
        Method::Execute,
        "{\"command\":\"insynth.close\",\"arguments\":[{\"cursor\":4294967295}]}",
        0,
        0,
    ),
    (
        Method::Execute,
        "{\"command\":\"insynth.withdraw\",\"arguments\":[{\"through\":\"1\"}]}",
        1,
        0,
    ),
    (
        Method::Execute,
        "{\"command\":\"insynth.publish\",\"arguments\":[{\"sources\":[7]}]}",
        1,
        0,
    ),
    (
        Method::Execute,
        "{\"command\":\"insynth.publish\",\"arguments\":[{\"known\":\"a/B\"}]}",
        1,
        0,
    ),
    (
        Method::Execute,
        "{\"command\":\"insynth.publish\",\"arguments\":[{\"sources\":null,\"known\":null}]}",
        0,
        0,
    ),
    (
        Method::Execute,
        "{\"command\":\"insynth.publish\",\"arguments\":[{\"put\":[\"file:///a\"],\"sources\":[\"file:///b\",\"x\"],\"remove\":[\"a.b\"]}]}",
        8,
        2,
    ),
    (
        Method::Execute,
        "{\"command\":\"insynth.publish\",\"arguments\":[{\"put\":[\"x\"],\"sources\":[\"x\"]}]}",
        8,
        0,
    ),
    (
        Method::Execute,
        "{\"command\":\"insynth.publish\",\"arguments\":[{\"known\":[\"a.b\"],\"counts\":[[\"\",1]]}]}",
        13,
        0,
    ),
    (
        Method::Execute,
        "{\"command\":\"insynth.publish\",\"arguments\":[{\"known\":[\"a/B$C\",\"$\",\"a/B$\",\"a//B\"]}]}",
        22,
        3,
    ),
    (
        Method::Execute,
        "{\"command\":\"insynth.publish\",\"arguments\":[{\"put\":[\"file:///a\"],\"known\":[\"\"]}]}",
        22,
        0,
    ),
    (
        Method::Execute,
        "{\"command\":\"insynth.publish\",\"arguments\":[{\"put\":[7]}]}",
        1,
        0,
    ),
    (
        Method::Execute,
        "{\"command\":\"insynth.publish\",\"arguments\":[{\"counts\":[[\"A.f:I\",-1]],\"put\":[\"x\"]}]}",
        2,
        0,
    ),
    (
        Method::Execute,
        "{\"command\":\"insynth.publish\",\"arguments\":[{\"counts\":[[\"A.f:I\",1,2]]}]}",
        1,
        0,
    ),
    (
        Method::Execute,
        "{\"command\":\"insynth.publish\",\"arguments\":[{\"put\":[\"file:///a\",\"file://host/a\"],\"remove\":[\"a.b\"]}]}",
        8,
        1,
    ),
    (
        Method::Execute,
        "{\"command\":\"insynth.publish\",\"arguments\":[{\"put\":[\"file:///%ff\"]}]}",
        8,
        0,
    ),
    (
        Method::Execute,
        "{\"command\":\"insynth.publish\",\"arguments\":[{\"put\":[\"http:///a\"]}]}",
        8,
        0,
    ),
    (
        Method::Execute,
        "{\"command\":\"insynth.publish\",\"arguments\":[{\"remove\":[\"a/b\",\"A\",\"a.b\"],\"counts\":[[\"\",1]]}]}",
        12,
        2,
    ),
    (
        Method::Execute,
        "{\"command\":\"insynth.publish\",\"arguments\":[{\"counts\":[[\"a/A.f:I\",1],[\"A.m:(I)V\",0],[\"A.f\",1]]}]}",
        13,
        2,
    ),
    (
        Method::Execute,
        "{\"command\":\"insynth.publish\",\"arguments\":[{\"counts\":[[\"A.:I\",1]]}]}",
        13,
        0,
    ),
    (
        Method::Execute,
        "{\"command\":\"insynth.publish\",\"arguments\":[{\"counts\":[[\"a.A.f:I\",1]]}]}",
        13,
        0,
    ),
    (
        Method::Execute,
        "{\"command\":\"insynth.publish\",\"arguments\":[{\"counts\":[[\"A.f:J:I\",1]]}]}",
        13,
        0,
    ),
    (
        Method::Execute,
        "{\"command\":\"insynth.withdraw\",\"arguments\":[{\"through\":4294967295}]}",
        0,
        0,
    ),
    (
        Method::Execute,
        "{\"command\":\"insynth.withdraw\",\"arguments\":[{\"through\":4294967296}]}",
        2,
        0,
    ),
    (
        Method::Execute,
        "{\"command\":\"insynth.close\",\"arguments\":[{}]}",
        1,
        0,
    ),
    (
        Method::Execute,
        "{\"command\":\"insynth.close\",\"arguments\":[{\"cursor\":1.0}]}",
        2,
        0,
    ),
    (
        Method::Execute,
        "{\"command\":\"insynth.page\",\"arguments\":[]}",
        1,
        0,
    ),
    (
        Method::Execute,
        "{\"command\":\"insynth.page\",\"arguments\":[7]}",
        1,
        0,
    ),
    (
        Method::Execute,
        "{\"command\":\"insynth.list\",\"arguments\":7}",
        7,
        0,
    ),
    (
        Method::Execute,
        "{\"command\":\"insynth.publish\",\"arguments\":[{\"put\":7}]}",
        1,
        0,
    ),
    (
        Method::Execute,
        "{\"command\":\"insynth.publish\",\"arguments\":[{\"put\":null,\"remove\":null,\"counts\":null}]}",
        0,
        0,
    ),
    (
        Method::Execute,
        "{\"command\":\"insynth.publish\",\"arguments\":[{\"put\":[\"x\"]}]}",
        8,
        0,
    ),
    (
        Method::Execute,
        "{\"command\":\"insynth.publish\",\"arguments\":[{\"put\":[\"file:///a\",7]}]}",
        1,
        0,
    ),
    (
        Method::Execute,
        "{\"command\":\"insynth.publish\",\"arguments\":[{\"counts\":[[\"A.f:I\",1],[\"A.f:I\",-1]]}]}",
        2,
        0,
    ),
    (
        Method::Execute,
        "{\"command\":\"insynth.publish\",\"arguments\":[{\"counts\":[[\"A.f:I\"]]}]}",
        1,
        0,
    ),
    (
        Method::Execute,
        "{\"command\":\"insynth.publish\",\"arguments\":[{\"counts\":[[\"A.f:I\",\"1\"]]}]}",
        1,
        0,
    ),
    (
        Method::Execute,
        "{\"command\":\"insynth.publish\",\"arguments\":[{\"counts\":[{}]}]}",
        1,
        0,
    ),
    (
        Method::Execute,
        "{\"command\":\"insynth.publish\",\"arguments\":[{\"counts\":[[\"java/io/FileReader.<init>:(Ljava/lang/String;)V\",3]]}]}",
        0,
        0,
    ),
    (
        Method::Initialize,
        "{\"initializationOptions\":{\"limit\":1,\"count\":1}}",
        0,
        0,
    ),
    (
        Method::Initialize,
        "{\"initializationOptions\":{\"count\":0}}",
        2,
        0,
    ),
    (
        Method::Initialize,
        "{\"initializationOptions\":{\"limit\":18446744073709551616}}",
        2,
        0,
    ),
    (
        Method::Execute,
        "{\"command\":\"insynth.explain\",\"arguments\":[{\"cursor\":1}]}",
        0,
        0,
    ),
    (
        Method::Execute,
        "{\"command\":\"insynth.explain\",\"arguments\":[{\"cursor\":4294967295,\"item\":null}]}",
        0,
        0,
    ),
    (
        Method::Execute,
        "{\"command\":\"insynth.explain\",\"arguments\":[{\"cursor\":1,\"item\":4294967295}]}",
        0,
        0,
    ),
    (
        Method::Execute,
        "{\"command\":\"insynth.explain\",\"arguments\":[{\"item\":0}]}",
        1,
        0,
    ),
    (
        Method::Execute,
        "{\"command\":\"insynth.explain\",\"arguments\":[{\"cursor\":1,\"item\":\"0\"}]}",
        1,
        0,
    ),
    (
        Method::Execute,
        "{\"command\":\"insynth.explain\",\"arguments\":[{\"cursor\":4294967296,\"item\":[]}]}",
        1,
        0,
    ),
    (
        Method::Execute,
        "{\"command\":\"insynth.explain\",\"arguments\":[{\"cursor\":1,\"item\":4294967296}]}",
        2,
        0,
    ),
    (
        Method::Execute,
        "{\"command\":\"insynth.explain\",\"arguments\":[{\"cursor\":1,\"item\":0.0}]}",
        2,
        0,
    ),
    (
        Method::Execute,
        "{\"command\":\"insynth.explain\",\"arguments\":[{\"cursor\":1,\"item\":-1}]}",
        2,
        0,
    ),
    (
        Method::Execute,
        "{\"command\":\"insynth.explain\",\"arguments\":[{\"cursor\":-1,\"item\":0}]}",
        2,
        0,
    ),
];

#[test]
fn parameters_are_refused_by_cause(rt: HostRuntime) -> Result<(), Fail> {
    for (method, text, cause, index) in ROWS {
        let params = Value::from_str(rt.alloc(), text)?;
        assert!(rt;
            outcome(rt.alloc(), method, &params) == (cause, index),
            "{text}"
        );
    }
    Ok(())
}

/// A list in a list, so many deep.
fn nested(alloc: Global, depth: usize) -> Result<String, Fail> {
    let mut text = String::new(alloc);
    for _ in 0..depth {
        text.push_str("[")?;
    }
    for _ in 0..depth {
        text.push_str("]")?;
    }
    Ok(text)
}

#[test]
fn deep_values_are_answered(rt: HostRuntime) -> Result<(), Fail> {
    let text = nested(rt.alloc(), 127)?;
    let params = Value::from_str(rt.alloc(), text.as_str())?;
    assert!(rt; outcome(rt.alloc(), Method::Complete, &params) == (1, 0));
    assert!(rt; outcome(rt.alloc(), Method::Execute, &params) == (1, 0));
    let text = nested(rt.alloc(), 200)?;
    assert!(rt; Value::from_str(rt.alloc(), text.as_str()).is_err());
    Ok(())
}

#[test]
fn what_is_left_out_has_its_default(rt: HostRuntime) -> Result<(), Fail> {
    let params = Value::from_str(rt.alloc(), "{\"initializationOptions\":{\"depth\":0}}")?;
    match read_initialize(&params) {
        Ok(options) => assert!(rt;
            options.limit == 4000 && options.depth == 0 && options.count == 20
        ),
        Err(_) => assert!(rt; false, "refused"),
    }
    match read_initialize(&Value::Null) {
        Ok(options) => assert!(rt;
            options.limit == 4000 && options.depth == 1 && options.count == 20
        ),
        Err(_) => assert!(rt; false, "refused"),
    }
    Ok(())
}

/// The first range, where all changes are well formed and there are so many.
fn first_range(
    alloc: Global,
    params: &Value,
    count: usize,
) -> Option<Option<((u32, u32), (u32, u32))>> {
    let form = read_did_change(alloc, params).ok()?;
    let changes = form.changes?;
    if changes.len() != count {
        return None;
    }
    match changes.as_slice() {
        [first, ..] => Some(first.range),
        [] => None,
    }
}

const GOOD_CHANGES: &str =
    "{\"textDocument\":{\"uri\":\"a\"},\"contentChanges\":[{\"range\":{\"start\":{\"line\":1,\"character\":2},\"end\":{\"line\":3,\"character\":4}},\"text\":\"x\"},{\"text\":\"\",\"range\":null}]}";

const BAD_CHANGES: [&str; 8] = [
    "{\"textDocument\":{\"uri\":\"a\"}}",
    "{\"textDocument\":{\"uri\":\"a\"},\"contentChanges\":{}}",
    "{\"textDocument\":{\"uri\":\"a\"},\"contentChanges\":[{\"text\":\"x\"},{}]}",
    "{\"textDocument\":{\"uri\":\"a\"},\"contentChanges\":[{\"text\":\"x\",\"range\":{}}]}",
    "{\"textDocument\":{\"uri\":\"a\"},\"contentChanges\":[{\"text\":\"x\",\"range\":{\"start\":{\"line\":1.0,\"character\":2},\"end\":{\"line\":3,\"character\":4}}}]}",
    "{\"textDocument\":{\"uri\":\"a\"},\"contentChanges\":[{\"text\":\"x\",\"range\":{\"start\":{\"line\":2147483648,\"character\":2},\"end\":{\"line\":3,\"character\":4}}}]}",
    "{\"textDocument\":{\"uri\":\"a\"},\"contentChanges\":[{\"text\":\"x\",\"range\":{\"start\":{\"line\":1,\"character\":-1},\"end\":{\"line\":3,\"character\":4}}}]}",
    "{\"textDocument\":{\"uri\":\"a\"},\"contentChanges\":[{\"text\":\"x\",\"range\":{\"start\":{\"line\":1,\"character\":2}}}]}",
];

#[test]
fn changes_are_read_all_or_none(rt: HostRuntime) -> Result<(), Fail> {
    let params = Value::from_str(rt.alloc(), GOOD_CHANGES)?;
    let range = first_range(rt.alloc(), &params, 2);
    assert!(rt; range == Some(Some(((1, 2), (3, 4)))));
    for text in BAD_CHANGES {
        let params = Value::from_str(rt.alloc(), text)?;
        match read_did_change(rt.alloc(), &params) {
            Ok(form) => assert!(rt;
                form.changes.is_none() && form.uri.as_str() == "a",
                "{text}"
            ),
            Err(_) => assert!(rt; false, "{text}"),
        }
    }
    Ok(())
}

/// URIs of files, and their paths.
const PATHS: [(&str, &str); 7] = [
    ("file:x", "/x"),
    ("file:///a%20b/C.class", "/a b/C.class"),
    ("file://localhost/a", "/a"),
    ("FILE:/A", "/A"),
    ("file:///a?x#y", "/a"),
    ("file:///a/../b", "/b"),
    ("file:///%C3%A9", "/\u{E9}"),
];

/// Whether the parameters put one file, of this path.
fn puts_one(alloc: Global, params: &Value, path: &str) -> bool {
    match read_command(alloc, params) {
        Ok(Command::Publish { puts, .. }) => match puts.as_slice() {
            [put] => put.as_str() == path,
            _ => false,
        },
        _ => false,
    }
}

#[test]
fn uris_are_decoded(rt: HostRuntime) -> Result<(), Fail> {
    for (uri, path) in PATHS {
        let text = format!(in rt.alloc();
            "{{\"command\":\"insynth.publish\",\"arguments\":[{{\"put\":[\"{uri}\"]}}]}}"
        )?;
        let params = Value::from_str(rt.alloc(), text.as_str())?;
        assert!(rt; puts_one(rt.alloc(), &params, path), "{uri}");
    }
    Ok(())
}

const PUBLICATION: &str =
    "{\"command\":\"insynth.publish\",\"arguments\":[{\"remove\":[\"a/B\"],\"counts\":[[\"A.f:[I\",4294967295]],\"sources\":[\"file:///A.java\"],\"known\":[\"b/C\"]}]}";

#[test]
fn a_publication_is_read(rt: HostRuntime) -> Result<(), Fail> {
    let params = Value::from_str(rt.alloc(), PUBLICATION)?;
    match read_command(rt.alloc(), &params) {
        Ok(
            Command::Publish {
                puts,
                removes,
                counts,
                sources,
                known,
            },
        ) => {
            assert!(rt; puts.is_empty());
            assert!(rt; matches!(removes.as_slice(), [name] if name.as_str() == "a/B"));
            assert!(rt; matches!(sources.as_slice(), [path] if path.as_str() == "/A.java"));
            assert!(rt; matches!(known.as_slice(), [name] if name.as_str() == "b/C"));
            match counts.as_slice() {
                [(key, count)] => assert!(rt; key.as_str() == "A.f:[I" && *count == u32::MAX),
                _ => assert!(rt; false, "not one count"),
            }
        }
        _ => assert!(rt; false, "refused"),
    }
    Ok(())
}

const CAPABILITIES: &str =
    "{\"capabilities\":{\"completionProvider\":{},\"executeCommandProvider\":{\"commands\":[\"insynth.close\",\"insynth.explain\",\"insynth.page\",\"insynth.publish\",\"insynth.weights\",\"insynth.withdraw\"]},\"positionEncoding\":\"utf-16\",\"textDocumentSync\":{\"change\":2,\"openClose\":true}},\"serverInfo\":{\"name\":\"insynthd\"}}";

const EMPTY_PAGE: &str =
    "{\"insynth\":{\"cursor\":1,\"from\":3,\"grown\":0,\"last\":true,\"version\":2},\"isIncomplete\":false,\"items\":[]}";

const ONE_ITEM: &str =
    "{\"insynth\":{\"cursor\":1,\"from\":20,\"grown\":5,\"last\":false,\"version\":0},\"isIncomplete\":true,\"items\":[{\"detail\":\"15\",\"label\":\"f(x)\",\"sortText\":\"0000000020\",\"textEdit\":{\"newText\":\"f(x)\",\"range\":{\"end\":{\"character\":4,\"line\":1},\"start\":{\"character\":3,\"line\":1}}}}]}";

#[test]
fn results_are_made(rt: HostRuntime) -> Result<(), Fail> {
    let text = make_capabilities(rt.alloc())?.to_string(rt.alloc())?;
    assert!(rt; text.as_str() == CAPABILITIES);
    let text = make_version(rt.alloc(), 2)?.to_string(rt.alloc())?;
    assert!(rt; text.as_str() == "{\"version\":2}");
    let page = make_list(rt.alloc(), 1, 3, 0, true, 2, &[], (0, 0), (0, 0))?;
    assert!(rt; page.to_string(rt.alloc())?.as_str() == EMPTY_PAGE);
    Ok(())
}

#[test]
fn a_list_is_made(rt: HostRuntime) -> Result<(), Fail> {
    let items = [ItemForm {
        weight: 15,
        text: Text::from_str(rt.alloc(), "f(x)")?,
    }];
    let page = make_list(rt.alloc(), 1, 20, 5, false, 0, &items, (1, 3), (1, 4))?;
    assert!(rt; page.to_string(rt.alloc())?.as_str() == ONE_ITEM);
    Ok(())
}

const TWO_ITEMS: &str =
    "{\"insynth\":{\"cursor\":1,\"from\":9999999999,\"grown\":5,\"last\":true,\"version\":0},\"isIncomplete\":false,\"items\":[{\"detail\":\"5\",\"label\":\"a\",\"sortText\":\"9999999999\",\"textEdit\":{\"newText\":\"a\",\"range\":{\"end\":{\"character\":3,\"line\":1},\"start\":{\"character\":3,\"line\":1}}}},{\"detail\":\"5\",\"label\":\"b\",\"sortText\":\"10000000000\",\"textEdit\":{\"newText\":\"b\",\"range\":{\"end\":{\"character\":3,\"line\":1},\"start\":{\"character\":3,\"line\":1}}}}]}";

#[test]
fn items_are_numbered_on(rt: HostRuntime) -> Result<(), Fail> {
    let items = [
        ItemForm {
            weight: 5,
            text: Text::from_str(rt.alloc(), "a")?,
        },
        ItemForm {
            weight: 5,
            text: Text::from_str(rt.alloc(), "b")?,
        },
    ];
    let page = make_list(
        rt.alloc(),
        1,
        9_999_999_999,
        5,
        true,
        0,
        &items,
        (1, 3),
        (1, 3),
    )?;
    assert!(rt; page.to_string(rt.alloc())?.as_str() == TWO_ITEMS);
    Ok(())
}
