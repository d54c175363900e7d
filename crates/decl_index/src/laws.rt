ghost use Rattle.decl_index.specs.Laws.{HasState, OneState, OneList, OneRefusal, UsesOfState, WeightsInRange};

/// What is known of histories, their states and the changes that they refuse. It does nothing.
pub fn history_laws()
    ensures has_state { HasState }
    ensures one_state { OneState }
    ensures one_list { OneList }
    ensures one_refusal { OneRefusal }
    ensures uses { UsesOfState }
    ensures weights { WeightsInRange }
{}
