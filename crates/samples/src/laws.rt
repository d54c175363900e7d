ghost use Rattle.samples.specs.Runs.{OneText};

/// A number has one sample, whose six lines are the same wherever they are made. It does nothing.
pub fn one_text()
    ensures law { OneText }
{}
