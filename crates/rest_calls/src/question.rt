use broker_link::TopicPart;
use gate_io::Text;

/// What a client asks of brokers and topics.
#[derive(Debug, Drop)]
pub enum Question {
    /// The ids of the brokers.
    Brokers,
    /// The names of the topics.
    Topics,
    /// A topic with its partitions.
    Topic(Text),
    /// The partitions of a topic.
    Partitions(Text),
    /// One partition.
    Partition(TopicPart),
    /// Where a partition begins and ends.
    EndOffsets(TopicPart),
}
