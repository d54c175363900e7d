use crate::laws::{apart_laws, reader_laws, shape_laws};

#[test]
fn laws_cost_nothing() {
    shape_laws();
    apart_laws();
    reader_laws();
}
