ghost use Rattle.std.specs.Prelude.{◌≡◌};

use broker_link::{LinkNo, PartInfo, TopicInfo};
use gate_io::Items;

/// What was found for a question.
#[derive(Debug, Drop)]
pub enum Found {
    /// The ids of the brokers, in rising order.
    Brokers(Items<i32>),
    /// All topics, by name.
    Topics(Items<TopicInfo>),
    Topic(TopicInfo),
    /// The topic whose partitions are told.
    Partitions(TopicInfo),
    Partition(PartInfo),
    /// Where a partition begins, and where it ends.
    Edges(u64, u64),
}

/// Why nothing was found for a question.
#[derive(Clone, Copy, Debug, PartialEq, Eq)]
pub enum AskNo {
    /// The broker doesn't know the topic.
    NoTopic,
    /// The topic lacks the partition.
    NoPartition,
    /// The link failed, or refused the call.
    Link(LinkNo),
}

impl From<LinkNo> for AskNo {
    ghost use Rattle.rest_replies.specs.declared.found.AskNo.TheVariants.{Link};

    ghost from_gives = { λ e no. no ≡ Link e };

    fn from(e: LinkNo) -> Self {
        AskNo::Link(e)
    }
}
