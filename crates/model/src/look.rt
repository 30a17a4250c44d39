//! How a look ends.

ghost use Rattle.model.specs.step.Bounds.{RepliesAreBounded};
ghost use Rattle.model.specs.step.Look.{LooksEndOneWay, WalksHaveAnEnd};

/// A look has one answer: over what was walked, the events, the reply and the consumer are those of
/// one of its ends, and no two of them differ. Each walk has an end.
pub fn looks_end_one_way()
    ensures one { LooksEndOneWay }
    ensures some { WalksHaveAnEnd }
{}

/// The reply of a Records call has at most 10,000 rows, and no more key and value bytes than the
/// query and 4 MiB allow, but that one row may have more; each of its rows reads in its format.
pub fn replies_are_bounded()
    ensures { RepliesAreBounded }
{}
