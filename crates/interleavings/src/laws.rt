ghost use Rattle.interleavings.specs.Laws.{EveryInterleaving, EveryHistory, EveryWithdrawal};

/// What is known of several clients of one history, over all orders of their messages. It does nothing.
pub fn interleavings()
    ensures served { EveryInterleaving }
    ensures allowed { EveryHistory }
    ensures barred { EveryWithdrawal }
{}
