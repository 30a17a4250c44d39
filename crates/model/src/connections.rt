//! What the connections of one caller leave in the histories of the shards.

ghost use Rattle.model.specs.history.Connections.{ConnectionsFollow, ConnectionsGoOn, ConnectionsWear, StayingAddsNothing};

/// A connection's entries in the shards go on by those of a call that is answered, which stand in the
/// shard of its key alone; by none for a request that is answered without a turn; and by the looks of
/// a call at which the pass is worn out.
pub fn connections_go_on()
    ensures answered { ConnectionsGoOn }
    ensures stayed { StayingAddsNothing }
    ensures worn { ConnectionsWear }
{}

/// Connections are followed by one more, whether or not the pass was worn out in one of them.
pub fn connections_follow()
    ensures { ConnectionsFollow }
{}
