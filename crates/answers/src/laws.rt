ghost use Rattle.answers.specs.Laws.{Headline, ListsFollow, RepliesTell, OneSite, OneEnvironment, WithdrawnStays};

/// What is known of answers, over all runs of a client. It does nothing.
pub fn answer_laws()
    ensures headline { Headline }
    ensures lists_follow { ListsFollow }
    ensures replies_tell { RepliesTell }
    ensures one_site { OneSite }
    ensures one_environment { OneEnvironment }
    ensures withdrawn_stays { WithdrawnStays }
{}
