use crate::numbered_place::{Lambdas, NumberedPlace};
use partial_terms::Chains;

/// A partial term: the list of its front, the last number first, and the list of its open places.
#[derive(Clone, Copy, Debug)]
pub struct Item {
    pub front: u32,
    pub stack: u32,
}

/// The lists of the partial terms: fronts and open places share their ends.
#[derive(Drop)]
pub struct Arena {
    pub fronts: Chains<u32>,
    pub stacks: Chains<NumberedPlace>,
}

/// A partial term whose first open place is to be filled: its key without that place's least weight, that
/// place, and the list of the others.
#[derive(Clone, Copy, Debug)]
pub struct Parent {
    pub front: u32,
    pub base: u32,
    pub place: NumberedPlace,
    pub rest: u32,
}

/// A head that may fill an open place: its number in a front, what it totals there with the least weights of the
/// places that it opens, and the lambdas around those.
#[derive(Clone, Copy, Debug)]
pub struct Head {
    pub number: u32,
    pub total: u32,
    pub lambdas: Lambdas,
}
