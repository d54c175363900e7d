use crate::widening::widens;
use std::alloc::AllocError;
use type_names::Base;

/// The letters of the primitive types, and for each those to which it widens (JLS 5.1.2).
const WIDENINGS: [(&str, &str); 8] = [
    ("B", "SIJFD"),
    ("S", "IJFD"),
    ("C", "IJFD"),
    ("I", "JFD"),
    ("J", "FD"),
    ("F", "D"),
    ("D", ""),
    ("Z", ""),
];

/// The primitive type of a letter (JVMS 4.3.2).
fn primitive(letter: &str) -> Base {
    match letter {
        "B" => Base::Byte,
        "S" => Base::Short,
        "C" => Base::Char,
        "I" => Base::Int,
        "J" => Base::Long,
        "F" => Base::Float,
        "D" => Base::Double,
        _ => Base::Boolean,
    }
}

#[test]
fn primitives_widen_by_the_table(rt: HostRuntime) {
    for (from, wider) in WIDENINGS {
        for (to, _) in WIDENINGS {
            let found = widens(&primitive(from), &primitive(to));
            assert_eq!(rt; found, wider.contains(to), "{from} {to}");
        }
    }
}
