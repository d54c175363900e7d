use java_units::forms::is_identifier;

/// Texts, and whether each is an identifier.
const ROWS: [(&str, bool); 9] = [
    ("HashMap", true),
    ("$x_2", true),
    ("var", true),
    ("sealed", true),
    ("class", false),
    ("_", false),
    ("true", false),
    ("2x", false),
    ("a.b", false),
];

#[test]
fn identifiers_are_told(rt: HostRuntime) {
    for (text, told) in &ROWS {
        assert_eq!(rt; is_identifier(text), *told, "{text}");
    }
}
