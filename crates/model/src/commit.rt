//! What a step may commit.

ghost use Rattle.model.specs.step.Committing.{LooksCommitPositions, OtherGroupsStay};

/// What a group has committed stays as it is over every step but those of its own consumers' calls.
/// A look commits no offset but the position that its consumer had before it, which is behind the rows
/// that its replies have shown, and not behind what was fetched.
pub fn commits_are_of_the_group()
    ensures others { OtherGroupsStay }
    ensures positions { LooksCommitPositions }
{}
