//! What single answers tell.

ghost use Rattle.model.specs.history.Single.{
  AssignsAreRefusedForCause,
  AssignsReadCommits,
  AssignsTheListed,
  CommittedIsRefusedForCause,
  DeletesCommitWhereDue,
  DoneCommitsAreWhole,
  EmptyRepliesAreTrue,
  ExpiredAreInOrder,
  ListedCommitsSaveNothing,
  LooksTellWhatTheyCommit,
  PassedCodesAreNoAnswer,
  RebalancesAreByTopics,
  RefusedCommitsAreShort,
  SubscribesAreRefusedWhereAssigned,
  SubscribesSetTheList,
  ThreeCodesArePassedOver,
};

/// Single answers tell what was done.
pub fn answers_tell()
    ensures done { DoneCommitsAreWhole }
    ensures short { RefusedCommitsAreShort }
    ensures listed { ListedCommitsSaveNothing }
    ensures excluded { SubscribesAreRefusedWhereAssigned }
    ensures subscribed { SubscribesSetTheList }
    ensures deleted { DeletesCommitWhereDue }
    ensures assigned { AssignsTheListed }
    ensures order { ExpiredAreInOrder }
    ensures codes { ThreeCodesArePassedOver }
    ensures told { LooksTellWhatTheyCommit }
    ensures by_topics { RebalancesAreByTopics }
    ensures passed { PassedCodesAreNoAnswer }
    ensures refused { AssignsAreRefusedForCause }
    ensures unknown { CommittedIsRefusedForCause }
    ensures reads { AssignsReadCommits }
    ensures empty { EmptyRepliesAreTrue }
{}
