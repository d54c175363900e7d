/// A part of a term as a row of a certificate: the head's number in the prefix code, 2n for variable n and 2d + 1 for
/// declaration d, with the type of the part and its weight, the coercion above it left out.
#[derive(Clone, Copy, Debug, PartialEq, Eq)]
pub struct Row {
    pub code: u32,
    pub result: u32,
    pub weight: u32,
}
