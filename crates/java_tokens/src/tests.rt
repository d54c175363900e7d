use crate::{TokenKind, is_closed, is_word, tokens};
use std::alloc::AllocError;

/// A text, and its tokens: a letter for the kind of each, and where each ends.
struct Row {
    text: &'static str,
    kinds: &'static str,
    ends: &'static [u32],
}

/// Closed and unclosed tokens of every kind, escapes before an end of line and of the text, marks that
/// are no word starts, digits that are not ASCII, and characters of two to four bytes.
const ROWS: [Row; 29] = [
    Row {
        text: "a=1;//z",
        kinds: "wsnsc",
        ends: &[1, 2, 3, 4, 7],
    },
    Row {
        text: "",
        kinds: "",
        ends: &[],
    },
    Row {
        text: " \t\x0C\r\n",
        kinds: "_",
        ends: &[5],
    },
    Row {
        text: "//a\r\nb",
        kinds: "c_w",
        ends: &[3, 5, 6],
    },
    Row {
        text: "//\ra",
        kinds: "c_w",
        ends: &[2, 3, 4],
    },
    Row {
        text: "//a",
        kinds: "c",
        ends: &[3],
    },
    Row {
        text: "/* a */b",
        kinds: "cw",
        ends: &[7, 8],
    },
    Row {
        text: "/* a *",
        kinds: "c",
        ends: &[6],
    },
    Row {
        text: "/*/",
        kinds: "c",
        ends: &[3],
    },
    Row {
        text: "/**/x",
        kinds: "cw",
        ends: &[4, 5],
    },
    Row {
        text: "/a",
        kinds: "sw",
        ends: &[1, 2],
    },
    Row {
        text: "\"a\\\"b\"c",
        kinds: "tw",
        ends: &[6, 7],
    },
    Row {
        text: "\"a\nb",
        kinds: "t_w",
        ends: &[2, 3, 4],
    },
    Row {
        text: "\"a\\\nb",
        kinds: "t_w",
        ends: &[3, 4, 5],
    },
    Row {
        text: "\"a\\",
        kinds: "t",
        ends: &[3],
    },
    Row {
        text: "\"\" x",
        kinds: "t_w",
        ends: &[2, 3, 4],
    },
    Row {
        text: "\"\"\"a\"b\\\"\"\"c\"\"\"d",
        kinds: "tw",
        ends: &[14, 15],
    },
    Row {
        text: "\"\"\"a\n\\",
        kinds: "t",
        ends: &[6],
    },
    Row {
        text: "'a'",
        kinds: "q",
        ends: &[3],
    },
    Row {
        text: "'\\''b",
        kinds: "qw",
        ends: &[4, 5],
    },
    Row {
        text: "'a\nb'",
        kinds: "q_wq",
        ends: &[2, 3, 4, 5],
    },
    Row {
        text: "1.5e$_2-1",
        kinds: "nsn",
        ends: &[7, 8, 9],
    },
    Row {
        text: "$a _b9 \u{E9}",
        kinds: "w_w_w",
        ends: &[2, 3, 6, 7, 9],
    },
    Row {
        text: "a\u{1F600}b",
        kinds: "wsw",
        ends: &[1, 5, 6],
    },
    Row {
        text: "\u{301}a",
        kinds: "sw",
        ends: &[2, 3],
    },
    Row {
        text: "\u{663}",
        kinds: "s",
        ends: &[2],
    },
    Row {
        text: "1\u{663}",
        kinds: "n",
        ends: &[3],
    },
    Row {
        text: "\u{FEFF}a",
        kinds: "sw",
        ends: &[3, 4],
    },
    Row {
        text: "\u{0}\u{7}",
        kinds: "ss",
        ends: &[1, 2],
    },
];

fn letter(kind: TokenKind) -> char {
    match kind {
        TokenKind::White => '_',
        TokenKind::Comment => 'c',
        TokenKind::Text => 't',
        TokenKind::CharText => 'q',
        TokenKind::Number => 'n',
        TokenKind::Word => 'w',
        TokenKind::Symbol => 's',
    }
}

#[test]
fn texts_are_cut_by_the_rules(rt: HostRuntime) -> Result<(), AllocError> {
    for row in &ROWS {
        assert!(rt; row.text.len() <= 16_777_216);
        let found = tokens(rt.alloc(), row.text)?;
        assert_eq!(rt;
            found.len(),
            row.ends.len(),
            "number of tokens of {}",
            row.text
        );
        let mut start = 0;
        let wanted = row.kinds.chars().zip(row.ends.iter());
        for (token, (kind, end)) in found.as_slice().iter().zip(wanted) {
            assert_eq!(rt; letter(token.kind), kind, "{}", row.text);
            assert_eq!(rt; token.start, start, "{}", row.text);
            assert_eq!(rt; token.end, *end, "{}", row.text);
            start = *end;
        }
    }
    Ok(())
}

/// Texts of one token at their front, and whether it is closed.
const CLOSED: [(&str, bool); 22] = [
    ("/* a */", true),
    ("/**/ x", true),
    ("/* a *", false),
    ("/*/", false),
    ("/*/ \u{E9} */", true),
    ("\"a\\\"b\"c", true),
    ("\"\" x", true),
    ("\"a\nb\"", false),
    ("\"a\\\n\"", false),
    ("\"\\\"", false),
    ("\"\u{E9}\\\u{1F600}\"", true),
    ("\"", false),
    ("\"\"\"a\"b\\\"\"\"c\"\"\"d", true),
    ("\"\"\"a\"\"\\\"", false),
    ("\"\"\"", false),
    ("'a'", true),
    ("'\\''b", true),
    ("'\\'", false),
    ("'a\rb'", false),
    ("// a", true),
    ("a\"", true),
    (" \"", true),
];

#[test]
fn closing_marks_are_seen(rt: HostRuntime) -> Result<(), AllocError> {
    for (text, closed) in &CLOSED {
        assert!(rt; text.len() <= 16_777_216);
        let found = tokens(rt.alloc(), text)?;
        assert!(rt; !found.is_empty());
        assert_eq!(rt; is_closed(text, &found.as_slice()[0]), *closed, "{text}");
    }
    Ok(())
}

/// Texts, and whether each is one word.
const WORDS: [(&str, bool); 12] = [
    ("a", true),
    ("_", true),
    ("$1", true),
    ("class", true),
    ("\u{E9}t\u{E9}", true),
    ("a\u{661}", true),
    ("", false),
    ("1a", false),
    ("a b", false),
    ("a.b", false),
    ("a-", false),
    ("\u{661}", false),
];

#[test]
fn words_are_told(rt: HostRuntime) {
    for (text, one) in &WORDS {
        assert_eq!(rt; is_word(text), *one, "{text}");
    }
}
