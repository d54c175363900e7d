use crate::laws::{hole_texts, terms_apart};

#[test]
fn laws_cost_nothing() {
    hole_texts();
    terms_apart();
}
