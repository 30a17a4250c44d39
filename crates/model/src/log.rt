//! What a later log keeps of an earlier one.

ghost use Rattle.model.specs.state.Log.{KeepingGoesOn};

/// What keeps a log that keeps a log keeps that log.
pub fn keeping_goes_on()
    ensures { KeepingGoesOn }
{}
