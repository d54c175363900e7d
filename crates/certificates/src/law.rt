// What least weights say of floors.

ghost use Rattle.certificates.specs.Floors.{LeastFloorsHold, FirstIsLeast};

/// Floors at the least weights of states hold, where all that they rest on is told; and the number of the goal's state is
/// the total of the list's first term.
pub fn least_floors_law()
    ensures hold { LeastFloorsHold }
    ensures first { FirstIsLeast }
{}
