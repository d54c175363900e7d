ghost use Rattle.std.specs.Prelude.{IsTrue};
ghost use Rattle.decl_index.specs.History.{KeepsRanges};

use decl_index::{Change, Index, Weights};
use lists::Items;
use std::alloc::Global;
use std::process::Abort;

/// The usual weights but the one of this place, in the order of the fields.
fn with(place: usize, weight: u32) -> Weights {
    let mut weights = Weights::usual();
    match place {
        0 => weights.bound = weight,
        1 => weights.binder = weight,
        2 => weights.local = weight,
        3 => weights.step = weight,
        4 => weights.lambda = weight,
        5 => weights.own = weight,
        6 => weights.package = weight,
        7 => weights.literal = weight,
        8 => weights.far = weight,
        _ => weights.span = weight,
    }
    weights
}

fn may_be_set(weights: Weights) -> bool {
    Weights::checked(weights) == Some(weights)
}

/// For each weight the least and the greatest that may be set where the others are the usual ones, in the order of the
/// fields.
const RANGES: [(u32, u32); 10] = [
    (1, 100),
    (1, 100),
    (5, 10_000),
    (1, 10_000),
    (5, 10_000),
    (5, 10_000),
    (5, 10_000),
    (5, 10_000),
    (5, 9_215),
    (0, 9_785),
];

#[test]
fn each_weight_has_its_range(rt: HostRuntime) {
    for place in 0..RANGES.len() {
        let (least, most) = RANGES[place];
        assert!(rt; may_be_set(with(place, least)) && may_be_set(with(place, most)));
        assert!(rt; least == 0 || !may_be_set(with(place, least.saturating_sub(1))));
        assert!(rt; !may_be_set(with(place, most.saturating_add(1))));
        assert!(rt; !may_be_set(with(place, u32::MAX)));
    }
}

/// Whether these may be set as `far` and `span`.
fn may_be_far(far: u32, span: u32) -> bool {
    may_be_set(Weights {
        far,
        span,
        ..Weights::usual()
    })
}

#[test]
fn far_and_span_are_at_most_10_000_together(rt: HostRuntime) {
    assert!(rt; may_be_far(9_000, 1_000) && may_be_far(10_000, 0));
    assert!(rt; !may_be_far(9_000, 1_001) && !may_be_far(10_000, 1));
    assert!(rt; !may_be_far(10_000, u32::MAX) && !may_be_far(5, u32::MAX));
}

/// The index after a change that is accepted.
fn after(rt: &impl Abort, alloc: Global, index: &Index, change: &Change) -> Index {
    assert!(rt; index.number() < u32::MAX);
    assert!(rt; keeps_ranges(change));
    index.apply(alloc, change).expect(rt, "an index")
}

/// Whether what the change sets may be set.
pub(crate) fn keeps_ranges(change: &Change) -> bool
    ensures { IsTrue result → KeepsRanges change.now }
{
    match change {
        Change::Publish { .. } => true,
        Change::Withdraw(_) => true,
        Change::SetWeights(weights) => match Weights::checked(*weights) {
            Some(_) => true,
            None => false,
        },
    }
}

fn set(rt: &impl Abort, alloc: Global, index: &Index, weights: Weights) -> Index {
    after(rt, alloc, index, &Change::SetWeights(weights))
}

#[test]
fn the_last_of_two_settings_counts(rt: HostRuntime) {
    let alloc = rt.alloc();
    let empty = Index::empty(alloc).expect(&rt, "memory");
    assert!(rt; empty.weights() == Weights::usual());
    let first = set(&rt, alloc, &empty, with(3, 20));
    let second = set(&rt, alloc, &first, with(0, 30));
    assert!(rt; first.weights() == with(3, 20) && second.weights() == with(0, 30));
    let again = set(&rt, alloc, &second, with(0, 30));
    assert!(rt; again.weights() == with(0, 30) && again.number() == 3);
    let back = set(&rt, alloc, &again, Weights::usual());
    assert!(rt; back.weights() == Weights::usual() && back.number() == 4);
}

#[test]
fn other_changes_leave_the_weights(rt: HostRuntime) {
    let alloc = rt.alloc();
    let empty = Index::empty(alloc).expect(&rt, "memory");
    let weighed = set(&rt, alloc, &empty, with(9, 0));
    let withdrawn = after(&rt, alloc, &weighed, &Change::Withdraw(1));
    assert!(rt; withdrawn.weights() == with(9, 0));
    let published = after(
        &rt,
        alloc,
        &withdrawn,
        &Change::Publish {
            puts: Items::new(alloc),
            removes: Items::new(alloc),
            counts: Items::new(alloc),
        },
    );
    assert!(rt; published.weights() == with(9, 0) && published.number() == 3);
}
