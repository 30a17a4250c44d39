//! Right answers that are easily refused.

ghost use Rattle.model.specs.examples.Rights.{
  DeleteCommitsInPart,
  EmptyCommit,
  LaterCodesMayBeTold,
  LateRebalancesAreLegal,
  LateRebalancesAreSteps,
  PartOfACommit,
  RebalanceAfterACommit,
  RefusedAutoCommitsMayPass,
  WantBehindACommit,
  WantMayFollowCodes,
  WornConnectionsAreFollowed,
};

/// Commits that are taken in part, a rebalance or want of memory after a commit, a rebalance that is
/// fixed by the look after the one that was given it, and a connection after one whose pass was worn
/// out are all allowed.
pub fn these_are_allowed()
    ensures part { PartOfACommit }
    ensures rebalance { RebalanceAfterACommit }
    ensures wants { WantBehindACommit }
    ensures deleted { DeleteCommitsInPart }
    ensures empty { EmptyCommit }
    ensures passed { RefusedAutoCommitsMayPass }
    ensures told { LaterCodesMayBeTold }
    ensures wanting { WantMayFollowCodes }
    ensures late { LateRebalancesAreLegal }
    ensures late_step { LateRebalancesAreSteps }
    ensures worn { WornConnectionsAreFollowed }
{}
