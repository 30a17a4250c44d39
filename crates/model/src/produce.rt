//! What becomes of a row that a produce stored.

ghost use Rattle.model.specs.history.Stored.{OthersRise, RowsAreThoseStored, StoredIsShown, StoredIsShownInRuns, StoredRowsAreNew};

/// A row that a produce answered as stored is the one that any later reply shows at its offset, in a
/// history and in a run from any moment.
pub fn stored_is_shown()
    ensures history { StoredIsShown }
    ensures runs { StoredIsShownInRuns }
{}

/// A row that a produce answers as stored is a new one: it stands in the log behind all that its
/// partition had before.
pub fn stored_rows_are_new()
    ensures { StoredRowsAreNew }
{}

/// The rows that a run adds to the log are as many as its replies tell as stored, and those of
/// others, where each produce in it was answered record by record or refused for what the topics lack.
pub fn rows_are_those_stored()
    ensures others { OthersRise }
    ensures rows { RowsAreThoseStored }
{}
