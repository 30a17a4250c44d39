//! The consumers of a gateway and its calls, one step after another, over a link.
#![tactic(auto)]

mod alone_desk;
mod consumers;
mod entry;
mod groups;
mod naming;
mod shard;
mod shelf;

pub use alone_desk::AloneDesk;
pub use consumers::Consumers;
pub use entry::Entry;
pub use shard::Shard;
