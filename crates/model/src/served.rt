//! Which entries serve which calls.

ghost use Rattle.model.specs.history.Served.{CallsAreAnsweredOnce, RoundsCountUp, ServingGoesOn};

/// Entries that serve calls and then one more call serve all of these calls, each once.
pub fn serving_goes_on()
    ensures { ServingGoesOn }
{}

/// Where entries serve calls, those with a reply are of these calls, one each and in order; the
/// entries of one call are of rounds 0, 1 and so on.
pub fn calls_are_answered_once()
    ensures once { CallsAreAnsweredOnce }
    ensures rounds { RoundsCountUp }
{}
