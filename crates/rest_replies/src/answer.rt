use broker_link::LinkNo;

/// One record's answer: the code 0 and where it stands, or the code of its partition.
#[derive(Clone, Copy, Debug)]
pub struct Told {
    /// The partition that the request named, from 0.
    pub partition: u32,
    /// 0 if the record was stored, or the broker's code for its partition (Apache Kafka protocol guide, error codes).
    pub code: i16,
    /// Where the record stands in its partition, with code 0. It says nothing with another code.
    pub offset: u64,
}

/// Why a produce has no answer for its records.
#[derive(Clone, Copy, Debug, PartialEq, Eq)]
pub enum ProduceNo {
    /// The broker doesn't know the topic.
    NoTopic,
    /// The topic lacks the partition of a record.
    NoPartition,
    /// The link failed, or refused the whole call. Never with the link's want of memory.
    Link(LinkNo),
    Want,
}
