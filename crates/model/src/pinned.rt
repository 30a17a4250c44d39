//! What the model's words fix, each by a law of its own.

ghost use Rattle.model.specs.examples.Pinned.{
  BreaksAreThese,
  BufferedRowsComeFirst,
  CommitsTellTheirCodes,
  EqualSubscribesKeep,
  EventsAreOwed,
  FetchedRowsStay,
  FetchesAreAsked,
  LateSharesAreFixed,
  LiveNamesAreTaken,
  LooksByTopicsOwe,
  LooksByTopicsPump,
  LostAssignmentsAreTold,
  MovesClear,
  NodesAreHeard,
  NodesAreThoseHeard,
  NodesRise,
  NothingElseBreaks,
  OtherCallsHaveNoCode,
  OtherCodesAreAnswered,
  OtherFormatsAreUses,
  PartialCommitsOwe,
  PositionsInsideStay,
  RebalancesArePaid,
  RefusedCommitsSaveNothing,
  RunsOfNobodyPay,
  SeeksClear,
  SharesAreThoseGiven,
};
ghost use Rattle.model.specs.history.Sessions.{QuietSessionsBlameNobody, RefusedBatchesAreLarge};

/// What single calls answer and leave.
pub fn calls_are_pinned()
    ensures nodes { NodesRise }
    ensures heard { NodesAreHeard }
    ensures all { NodesAreThoseHeard }
    ensures names { LiveNamesAreTaken }
    ensures formats { OtherFormatsAreUses }
    ensures unsaved { RefusedCommitsSaveNothing }
    ensures inside { PositionsInsideStay }
    ensures codes { CommitsTellTheirCodes }
    ensures passed { OtherCodesAreAnswered }
    ensures breaks { BreaksAreThese }
    ensures stays { NothingElseBreaks }
{}

/// What a look by topics takes from its group, and what pays for it.
pub fn rebalances_are_pinned()
    ensures pumps { LooksByTopicsPump }
    ensures lost { LostAssignmentsAreTold }
    ensures given { SharesAreThoseGiven }
    ensures late { LateSharesAreFixed }
    ensures paid { RebalancesArePaid }
    ensures runs { RunsOfNobodyPay }
{}

/// What the events of a look owe.
pub fn events_are_pinned()
    ensures looks { LooksByTopicsOwe }
    ensures commits { PartialCommitsOwe }
    ensures owed { EventsAreOwed }
{}

/// What becomes of rows that were fetched and not shown yet.
pub fn buffers_are_pinned()
    ensures stay { FetchedRowsStay }
    ensures order { BufferedRowsComeFirst }
    ensures seek { SeeksClear }
    ensures equal { EqualSubscribesKeep }
    ensures moves { MovesClear }
    ensures asked { FetchesAreAsked }
{}

/// What a session over a link of its own never answers.
pub fn sessions_are_quiet()
    ensures link { QuietSessionsBlameNobody }
    ensures large { RefusedBatchesAreLarge }
    ensures codes { OtherCallsHaveNoCode }
{}
