use gate_io::{Items, Text};
use instance::Event;
use rest_calls::Call;
use rest_codes::Reply;
use std::snapshot::Snapshot;

/// What one step did, for which caller and at which moment, in milliseconds. A look that found too
/// little has no reply. The call, and the canonical texts of the schemas by which rows were shown,
/// are as contracts see them and have no bytes: the records of a produce are moved to the link.
#[derive(Drop)]
pub struct Entry {
    /// The number of the worker whose call it was, 0 in a session.
    pub caller: u32,
    /// The clock's reading for this step, or the shard's last moment where that is greater.
    pub moment: u64,
    /// What the step did beside its reply, in order.
    pub events: Items<Event>,
    /// None in an entry of housekeeping, which has no round either.
    pub call: Option<Snapshot<Call>>,
    /// How many looks the call had before.
    pub round: Option<u32>,
    /// The schemas' texts. Empty while no form has schemas.
    pub table: Snapshot<Items<Text>>,
    /// None after a look that found too little: the call is looked at again.
    pub reply: Option<Reply>,
}
