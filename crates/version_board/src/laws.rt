ghost use Rattle.version_board.specs.Laws.{HasVersion, OneVersion, WithdrawalsStay, NewestStands};

/// What is known of versions. It does nothing.
pub fn version_laws()
    ensures has_version { HasVersion }
    ensures one_version { OneVersion }
    ensures withdrawals_stay { WithdrawalsStay }
    ensures newest_stands { NewestStands }
{}
