//! Single answers: wrong ones that no step gives, and right ones that a step gives.

ghost use Rattle.model.specs.examples.Answers.{
  DeletesHaveNoCode,
  DueCommitsCome,
  QuietLooksHaveNoFault,
  RebalancesAreListed,
  RebalancesReadCommits,
  RefusalsArePassedOver,
  RefusedLooksCommitNothing,
  RepeatsAreToldOnce,
  SeeksHaveNoFault,
  TopicsAreSorted,
};

/// A Records call in another format than the instance's commits nothing. A seek isn't answered by a
/// fault of the link, nor a Delete by a broker's code. A place of a rebalance begins at the offset
/// that the group has committed, and is of a topic subscribed. A commit that is due comes first. Where
/// nothing is subscribed or assigned the link can't have failed. A partition asked for twice is told
/// once.
pub fn wrong_answers_are_refused()
    ensures refused_look { RefusedLooksCommitNothing }
    ensures seek { SeeksHaveNoFault }
    ensures delete { DeletesHaveNoCode }
    ensures rebalance { RebalancesReadCommits }
    ensures listed { RebalancesAreListed }
    ensures due { DueCommitsCome }
    ensures quiet { QuietLooksHaveNoFault }
    ensures repeat { RepeatsAreToldOnce }
{}

/// Topics are told by the bytes of their names, whatever order the log has them in. An auto commit
/// that was taken and then refused by 27 as a whole is passed over, and the look shows its row.
pub fn right_answers_are_allowed()
    ensures sorted { TopicsAreSorted }
    ensures passed { RefusalsArePassedOver }
{}
