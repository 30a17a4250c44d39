//! What the entries of the code stand for, and which of them answer which requests.

ghost use Rattle.model.specs.history.Noted.{StandingBegins, StandingGoesOn};
ghost use Rattle.model.specs.history.Owed.{StepsAnswerTheLinksCodes, StepsPassOverNoOther, StepsShareWhatWasGiven, StepsShowByTheirTable, StepsTellTheirCodes};
ghost use Rattle.model.specs.history.Handled.{AnsweredRoundsCountUp, AnsweringGoesOn, EnteredCallsAreAnsweredOnce, HouseEntriesAreFew, NotedGrow, SeenEntriesAreOwn, StayingLeavesEntries};

/// No entries stand for the beginning: over any log nobody is live.
pub fn standing_begins()
    ensures { StandingBegins }
{}

/// Entries of the code that stand for a legal history go on to do so by what one step of a shard
/// owes: each count that the history owes to rose in the step, or an answer of an earlier step is left
/// to pay for it, and the reply is written as the model's says.
pub fn standing_goes_on()
    ensures { StandingGoesOn }
{}

/// A step's entry answers by the codes that the link's list grew by in it, or by the link's last one,
/// assigns what the lane's last sync was given, and shows rows by its own table of schemas.
pub fn steps_are_owed()
    ensures codes { StepsTellTheirCodes }
    ensures passed { StepsPassOverNoOther }
    ensures code { StepsAnswerTheLinksCodes }
    ensures given { StepsShareWhatWasGiven }
    ensures shown { StepsShowByTheirTable }
{}

/// Entries that answer requests, each call once and in order, go on to do so by the entries of one
/// call more, and by a request whose call made none. Those with a reply are of the calls that entered,
/// one each and in order, and the entries of one call are of rounds 0, 1 and so on.
pub fn answering_goes_on()
    ensures entered { AnsweringGoesOn }
    ensures stayed { StayingLeavesEntries }
    ensures rounds { AnsweredRoundsCountUp }
    ensures once { EnteredCallsAreAnsweredOnce }
{}

/// What a caller has in a history of the code's entries that goes on is what it had, and its own.
/// What its pass has seen has all of them, and housekeeping is one entry at most.
pub fn noted_grow()
    ensures grow { NotedGrow }
    ensures seen { SeenEntriesAreOwn }
    ensures house { HouseEntriesAreFew }
{}
