// What a table keeps of an edge beside its tails.

/// The head of a term at a state.
#[derive(Clone, Copy, Drop)]
pub struct Head {
    /// The state at which the term is built.
    pub state: u32,
    /// The declaration or pair, the pairs numbered after the declarations; none for the variables of the state.
    pub source: Option<u32>,
    /// What it weighs without the terms at the tails.
    pub weight: u32,
}
