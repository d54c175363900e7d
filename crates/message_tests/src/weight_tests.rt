use decl_index::Weights;
use json_rpc::Refused;
use lsp_forms::{Command, ParamFault, read_command};
use serde_json::Value;
use std::alloc::Global;
use std::test::Fail;

/// The members with the usual weights.
const USUAL: [(&str, &str); 10] = [
    ("bound", "1"),
    ("binder", "1"),
    ("local", "5"),
    ("step", "10"),
    ("lambda", "10"),
    ("own", "20"),
    ("package", "25"),
    ("literal", "200"),
    ("far", "215"),
    ("span", "785"),
];

/// The least value of each, its greatest where the others are the usual ones, and those beside them.
const RANGES: [(&str, &str, &str, &str, &str); 10] = [
    ("bound", "0", "1", "100", "101"),
    ("binder", "0", "1", "100", "101"),
    ("local", "4", "5", "10000", "10001"),
    ("step", "0", "1", "10000", "10001"),
    ("lambda", "4", "5", "10000", "10001"),
    ("own", "4", "5", "10000", "10001"),
    ("package", "4", "5", "10000", "10001"),
    ("literal", "4", "5", "10000", "10001"),
    ("far", "4", "5", "9215", "9216"),
    ("span", "-1", "0", "9785", "9786"),
];

/// What is no weight, and the cause.
const NONE: [(&str, u32); 8] = [
    ("", 1),
    ("null", 1),
    ("\"1\"", 1),
    ("[1]", 1),
    ("20.0", 2),
    ("-1", 2),
    ("4294967295", 2),
    ("4294967296", 2),
];

/// The command with these members, but for one whose value is this, or which is left out where that is empty.
fn command(
    alloc: Global,
    members: &[(&str, &str)],
    other: &str,
    instead: &str,
) -> Result<String, Fail> {
    let mut text = String::from_str(
        alloc,
        "{\"command\":\"insynth.weights\",\"arguments\":[{\"more\":null",
    )?;
    for (name, usual) in members {
        let value = if *name == other { instead } else { *usual };
        if !value.is_empty() {
            text.push_str(",\"")?;
            text.push_str(name)?;
            text.push_str("\":")?;
            text.push_str(value)?;
        }
    }
    text.push_str("}]}")?;
    Ok(text)
}

fn read(alloc: Global, text: &str) -> Result<Result<Command, Refused<ParamFault>>, Fail> {
    let params = Value::from_str(alloc, text)?;
    Ok(read_command(alloc, &params))
}

/// The weights that are set, None where the command is refused.
fn set(alloc: Global, text: &str) -> Result<Option<Weights>, Fail> {
    match read(alloc, text)? {
        Ok(Command::SetWeights(weights)) => Ok(Some(weights)),
        _ => Ok(None),
    }
}

/// Whether the command is refused with this cause.
fn has_cause(alloc: Global, text: &str, cause: u32) -> Result<bool, Fail> {
    match read(alloc, text)? {
        Err(Refused::Fault(fault)) => Ok(fault.cause == cause && fault.index == 0),
        _ => Ok(false),
    }
}

#[test]
fn each_number_is_the_weight_of_its_name(rt: HostRuntime) -> Result<(), Fail> {
    let text = command(rt.alloc(), &USUAL, "", "")?;
    assert!(rt; set(rt.alloc(), text.as_str())? == Some(Weights::usual()));
    let members = [
        ("span", "10"),
        ("far", "9"),
        ("literal", "8"),
        ("package", "7"),
        ("own", "6"),
        ("lambda", "5"),
        ("step", "4"),
        ("local", "13"),
        ("binder", "2"),
        ("bound", "1"),
    ];
    let text = command(rt.alloc(), &members, "", "")?;
    let weights = Weights {
        bound: 1,
        binder: 2,
        local: 13,
        step: 4,
        lambda: 5,
        own: 6,
        package: 7,
        literal: 8,
        far: 9,
        span: 10,
    };
    assert!(rt; set(rt.alloc(), text.as_str())? == Some(weights));
    Ok(())
}

#[test]
fn each_is_wanted_as_a_number(rt: HostRuntime) -> Result<(), Fail> {
    for (name, _) in USUAL {
        for (value, cause) in NONE {
            let text = command(rt.alloc(), &USUAL, name, value)?;
            assert!(rt;
                has_cause(rt.alloc(), text.as_str(), cause)?,
                "{name} {value}"
            );
        }
    }
    Ok(())
}

#[test]
fn each_has_its_range(rt: HostRuntime) -> Result<(), Fail> {
    for (name, below, least, greatest, above) in RANGES {
        let text = command(rt.alloc(), &USUAL, name, least)?;
        assert!(rt; set(rt.alloc(), text.as_str())?.is_some(), "{name} {least}");
        let text = command(rt.alloc(), &USUAL, name, greatest)?;
        assert!(rt;
            set(rt.alloc(), text.as_str())?.is_some(),
            "{name} {greatest}"
        );
        let text = command(rt.alloc(), &USUAL, name, below)?;
        assert!(rt; has_cause(rt.alloc(), text.as_str(), 2)?, "{name} {below}");
        let text = command(rt.alloc(), &USUAL, name, above)?;
        assert!(rt; has_cause(rt.alloc(), text.as_str(), 2)?, "{name} {above}");
    }
    Ok(())
}

/// Whether such weights are set where they may be, and else are out of their range.
fn is_right(alloc: Global, text: &str, may: bool) -> Result<bool, Fail> {
    if may {
        return Ok(set(alloc, text)?.is_some());
    }
    has_cause(alloc, text, 2)
}

/// Each weight, and whether it may be 0.
const ZEROES: [(&str, bool); 10] = [
    ("bound", false),
    ("binder", false),
    ("local", false),
    ("step", false),
    ("lambda", false),
    ("own", false),
    ("package", false),
    ("literal", false),
    ("far", false),
    ("span", true),
];

#[test]
fn none_but_the_span_may_be_0(rt: HostRuntime) -> Result<(), Fail> {
    for (name, may) in ZEROES {
        let text = command(rt.alloc(), &USUAL, name, "0")?;
        assert!(rt; is_right(rt.alloc(), text.as_str(), may)?, "{name}");
    }
    Ok(())
}

/// `far` and `span`, and whether both may be set.
const TOGETHER: [(&str, &str, bool); 8] = [
    ("9000", "1000", true),
    ("9000", "1001", false),
    ("10000", "0", true),
    ("10000", "1", false),
    ("5", "9995", true),
    ("5", "4294967291", false),
    ("9000", "4294959296", false),
    ("10000", "4294967296", false),
];

// The last three pass 10,000 by so much that a sum of 32 bits would be 0, 1,000 or 10,000.
#[test]
fn far_and_span_are_at_most_10_000_together(rt: HostRuntime) -> Result<(), Fail> {
    for (far, span, may) in TOGETHER {
        let members = [
            ("bound", "1"),
            ("binder", "1"),
            ("local", "5"),
            ("step", "10"),
            ("lambda", "10"),
            ("own", "20"),
            ("package", "25"),
            ("literal", "200"),
            ("far", far),
            ("span", span),
        ];
        let text = command(rt.alloc(), &members, "", "")?;
        assert!(rt; is_right(rt.alloc(), text.as_str(), may)?, "{far} {span}");
    }
    Ok(())
}

#[test]
fn what_is_missing_comes_first(rt: HostRuntime) -> Result<(), Fail> {
    let members = [("bound", "0"), ("binder", "1.5")];
    let text = command(rt.alloc(), &members, "", "")?;
    assert!(rt; has_cause(rt.alloc(), text.as_str(), 1)?);
    Ok(())
}
