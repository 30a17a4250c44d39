//! What a consumer's replies show of a partition.

ghost use Rattle.model.specs.history.Stretch.{StretchesAreWhole, StretchesOfRunsAreWhole};

/// In every legal history, however it is cut, the rows of a partition that a stretch of a
/// consumer's replies shows, in order, are those of the log from the position at its start up to
/// the position at its end.
pub fn stretches_are_whole()
    ensures { StretchesAreWhole }
{}

/// The same of every run, whatever world it begins from.
pub fn stretches_of_runs_are_whole()
    ensures { StretchesOfRunsAreWhole }
{}
