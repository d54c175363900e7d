/// A state of the search: the number of a set of bound types with its count of lambdas left, and the type
/// that is sought there.
#[derive(Clone, Copy, Debug, PartialEq, Eq, Hash)]
pub struct State {
    pub set: u32,
    pub goal: u32,
}
