ghost use Rattle.java_bodies.specs.SiteLaws.{NamesStandOnce, PrefixEndsAtPlace};

/// At each hole a name is either a variable that can be used or hidden, and once.
pub fn names_stand_once()
    ensures law { NamesStandOnce }
{}

/// At each hole the prefix lies in the text and ends at the place.
pub fn prefix_ends_at_place()
    ensures law { PrefixEndsAtPlace }
{}
