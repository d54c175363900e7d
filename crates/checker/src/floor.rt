use lists::Items;

/// A state of a search, and a number below which no term weighs there: the types of the variables in scope, strictly
/// rising and each once; how many more lambdas may nest; and the type that is wanted.
#[derive(Debug, Drop)]
pub struct Floor {
    pub set: Items<u32>,
    pub left: u32,
    pub goal: u32,
    pub floor: u32,
}
