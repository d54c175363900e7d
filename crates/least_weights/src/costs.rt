// What an edge gives its state by the numbers of its tails.

ghost use Rattle.std.specs.Prelude.{◌≡◌, ◌+◌, ◌≤◌, ◌<◌, MatchOption};
ghost use Rattle.terms.specs.Count.{total};
ghost use Rattle.least_weights.specs.Numbers.{number_at};

use crate::limit::Limit;

/// The number of a state, above the limit where there is no such state.
pub fn number_at(limit: Limit, numbers: &[u32], state: u32) -> u32
    ensures value { result ≡ number_at limit.value numbers.now state }
{
    match numbers.get(state as usize) {
        Some(number) => *number,
        None => limit.value + 1,
    }
}

/// What an edge of this weight and these tails gives its state, none where that is above the limit.
pub fn cost_of(limit: Limit, numbers: &[u32], weight: u32, tails: &[u32]) -> Option<u32>
    ensures value { MatchOption result (limit.value < weight + total (number_at limit.value numbers.now) tails.now) (λ w. (w ≡ weight + total (number_at limit.value numbers.now) tails.now) × (w ≤ limit.value)) }
{
    let most = limit.value;
    if weight > most {
        return None;
    }
    let mut sum = weight;
    for tail in tails {
        let more = number_at(limit, numbers, *tail);
        if more > most - sum {
            return None;
        }
        sum += more;
    }
    Some(sum)
}
