//! What a step does to the consumers that its call isn't of.

ghost use Rattle.model.specs.history.Legal.{MomentsRise};
ghost use Rattle.model.specs.state.Names.{KeysAreApart};
ghost use Rattle.model.specs.step.Step.{IdleAreGone, NeighboursStay};

/// A step leaves every other consumer as it was, but those that have been idle for long enough: they
/// are gone, unless memory was wanting.
pub fn neighbours_stay()
    ensures used { NeighboursStay }
    ensures unused { IdleAreGone }
{}

/// The bytes by which keys are ordered, and found in a shard, tell any two of them apart.
pub fn keys_are_apart()
    ensures { KeysAreApart }
{}

/// The last moment of a world doesn't fall over a run.
pub fn moments_rise()
    ensures { MomentsRise }
{}
