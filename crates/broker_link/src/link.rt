ghost use Rattle.std.specs.Prelude.{◌≡◌, ◌≤◌, ◌<◌, ◌<ℤ◌, ◌^◌, ◌≢◌, ℕ, pos, nat_abs, length, Option, option_map, All, AllPairs, IfOk, IfErr, OnErr};
ghost use Rattle.std.specs.List.{AllZip};
ghost use Rattle.model.specs.step.Fixed.{HasPart};
ghost use Rattle.broker_link.specs.Metadata.{IsMetadata};
ghost use Rattle.broker_link.specs.Produced.{AreParts, IsAsked, IsPlaced, MayBePlaced, IsBased, IsPlainly, first_code};
ghost use Rattle.broker_link.specs.Causes.{CodeComes};
ghost use Rattle.broker_link.specs.Stands.{Stand, Calls, IsOneMore, Reads};
ghost use Rattle.broker_link.specs.Fetching.{AreAsks, AreGot, AreInTurn, ArePartsOf, HaveAsked, IsCommittedAt, IsEdge, IsFetched, IsToldOffset, edge_view, named_at};

use crate::fetch::{Edge, FetchFrom, Fetched, TopicPart};
use gate_io::{Items, Text};
use std::alloc::{AllocError, Global};

/// A record to be stored.
#[derive(Debug, Drop)]
pub struct NewRecord {
    pub key: Option<Items<u8>>,
    pub value: Option<Items<u8>>,
}

/// A record as it stands in a partition. The offset is from 0 to 2^63 - 2.
#[derive(Debug, Drop)]
pub struct Stored {
    pub offset: i64,
    pub key: Option<Items<u8>>,
    pub value: Option<Items<u8>>,
}

/// A partition as the metadata has it: its number, and the ids of the nodes that lead it, have it and
/// are in sync.
#[derive(Debug, Drop)]
pub struct PartInfo {
    pub number: i32,
    pub leader: i32,
    pub replicas: Items<i32>,
    pub in_sync: Items<i32>,
}

/// A topic as the metadata has it, its partitions by number.
#[derive(Debug, Drop)]
pub struct TopicInfo {
    pub name: Text,
    pub parts: Items<PartInfo>,
}

/// The records for one partition.
#[derive(Debug, Drop)]
pub struct PartRecords {
    pub partition: i32,
    pub rows: Items<NewRecord>,
}

/// Where the records of a partition stand, or why they don't. With `code` 0 they stand at `base`,
/// `base` + 1 and so on. With another code none was stored, and `base` says nothing.
#[derive(Clone, Copy, Debug)]
pub struct PartPlaced {
    pub partition: i32,
    pub code: i16,
    pub base: i64,
}

/// Why a call of a link has no answer.
#[derive(Clone, Copy, Debug, PartialEq, Eq)]
pub enum LinkNo {
    /// The call got no answer that reads. Whether it had its effect isn't known.
    Fault,
    /// The broker refused the call by this code, never 0 (Apache Kafka protocol guide, error codes).
    Refused(i16),
    /// Out of memory, on this side.
    Want,
}

impl From<AllocError> for LinkNo {
    ghost use Rattle.broker_link.specs.declared.link.LinkNo.TheVariants.{Want};

    ghost from_gives = { λ _ e. e ≡ Want };

    fn from(_: AllocError) -> Self {
        LinkNo::Want
    }
}

/// A broker as the gateway sees it. A call that fails says so by a count that rose; where the log is told,
/// each call says what it did to it.
pub trait Link {
    ghost use Rattle.broker_link.specs.declared.link.LinkNo.TheVariants.{Want};

    /// How the link stands.
    ghost stand: { Self → Stand };

    /// The ids of the brokers, in rising order.
    fn brokers(&mut self, alloc: Global) -> Result<Items<i32>, LinkNo>
        ensures goes { Reads (stand self.old) (stand self.new) result }
        ensures rise { IfOk result (AllPairs (λ x y. x <ℤ y)) }
        ensures told { IfOk result (stand self.old).brokers }
        ensures plainly { (stand self.old).plain → IfErr result (λ e. e ≡ Want) }
        ensures quietly { (stand self.old).quiet → IfErr result (λ e. e ≡ Want) };

    /// The topics of that name, or all.
    fn metadata(&mut self, alloc: Global, topic: Option<&str>) -> Result<Items<TopicInfo>, LinkNo>
        ensures goes { Reads (stand self.old) (stand self.new) result }
        ensures known { (stand self.old).tells → IfOk result (λ infos. IsMetadata (option_map (λ t. t.now) topic.entry) (stand self.new).log infos) }
        ensures nodes { IfOk result (All (λ info. All (stand self.old).nodes info.parts)) }
        ensures plainly { (stand self.old).plain → IfErr result (λ e. e ≡ Want) }
        ensures quietly { (stand self.old).quiet → IfErr result (λ e. e ≡ Want) };

    /// Stores the records of these partitions. Each partition takes all of its records, in order, or
    /// none. Ok answers each in the order asked, by its base or a code; after an Err any of them may
    /// have been stored. `now` is their timestamp, in milliseconds since 1970.
    fn produce(
        &mut self,
        alloc: Global,
        now: u64,
        topic: &str,
        parts: &[PartRecords],
    ) -> Result<Items<PartPlaced>, LinkNo>
        requires { AreParts parts.now }
        ensures goes { Calls (stand self.old) (stand self.new) result }
        ensures asked { IsOneMore now (stand self.old).produces (stand self.new).produces }
        ensures placed { (stand self.old).tells → IfOk result (λ placed. IsPlaced (stand self.old).log (stand self.new).log topic.now parts.now placed) }
        ensures order { IfOk result (λ placed. AllZip IsAsked parts.now placed) }
        ensures based { IfOk result (λ placed. AllZip IsBased parts.now placed) }
        ensures failed { (stand self.old).tells → OnErr result (MayBePlaced (stand self.old).log (stand self.new).log topic.now parts.now) }
        ensures codes { IfOk result (λ placed. CodeComes (stand self.old).counts (stand self.new).counts (first_code placed)) }
        ensures plainly { (stand self.old).plain → IfErr result (λ e. e ≡ Want) }
        ensures quietly { (stand self.old).quiet → IfErr result (λ e. e ≡ Want) }
        ensures lacked { (stand self.old).plain → (stand self.old).tells → IfOk result (λ placed. AllZip (IsPlainly (stand self.old).log topic.now) parts.now placed) };

    /// First rows of these partitions, each from its offset on, in the order asked. `max_bytes` says how
    /// many key and value bytes are wanted at most; a link that gives rows in turn gives those of the asks
    /// until one would bring them above it, and the first row always.
    fn fetch(
        &mut self,
        alloc: Global,
        asks: &[FetchFrom],
        max_bytes: u32,
    ) -> Result<Items<Fetched>, LinkNo>
        requires asks { AreAsks asks.now }
        requires few { max_bytes < 2 ^ 31 }
        ensures goes { Reads (stand self.old) (stand self.new) result }
        ensures fetched { IfOk result (λ fetched. AllZip IsFetched asks.now fetched) }
        ensures got { (stand self.old).tells → IfOk result (AreGot (stand self.new).log asks.now) }
        ensures turn { (stand self.old).in_turn → (stand self.old).tells → IfOk result (AreInTurn max_bytes (stand self.new).log asks.now) }
        ensures plainly { (stand self.old).plain → (stand self.old).tells → HaveAsked (stand self.old).log asks.now → IfErr result (λ e. e ≡ Want) }
        ensures quietly { (stand self.old).quiet → (stand self.old).tells → HaveAsked (stand self.old).log asks.now → IfErr result (λ e. e ≡ Want) };

    /// The offset of a partition's first row, or the one behind its last.
    fn list_offset(
        &mut self,
        alloc: Global,
        topic: &str,
        partition: i32,
        edge: Edge,
    ) -> Result<i64, LinkNo>
        requires { partition ≡ pos (nat_abs partition) }
        ensures goes { Reads (stand self.old) (stand self.new) result }
        ensures low { IfOk result (λ offset. offset ≡ pos (nat_abs offset)) }
        ensures told { (stand self.old).tells → IfOk result (IsEdge (stand self.new).log (named_at topic.now partition) (edge_view edge)) }
        ensures plainly { (stand self.old).plain → (stand self.old).tells → HasPart (stand self.old).log (named_at topic.now partition) → IfErr result (λ e. e ≡ Want) }
        ensures quietly { (stand self.old).quiet → (stand self.old).tells → HasPart (stand self.old).log (named_at topic.now partition) → IfErr result (λ e. e ≡ Want) };

    /// The offsets that a group has committed at these partitions, in the order asked; -1 is none.
    fn committed(
        &mut self,
        alloc: Global,
        group: &str,
        parts: &[TopicPart],
    ) -> Result<Items<i64>, LinkNo>
        requires { ArePartsOf parts.now }
        ensures goes { Reads (stand self.old) (stand self.new) result }
        ensures count { IfOk result (λ offsets. length offsets ≡ length parts.now) }
        ensures low { IfOk result (All IsToldOffset) }
        ensures told { (stand self.old).tells → IfOk result (AllZip (IsCommittedAt (stand self.new).log group.now) parts.now) }
        ensures plainly { (stand self.old).plain → IfErr result (λ e. e ≡ Want) }
        ensures quietly { (stand self.old).quiet → IfErr result (λ e. e ≡ Want) };
}
