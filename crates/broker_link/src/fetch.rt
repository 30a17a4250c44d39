ghost use Rattle.std.specs.Prelude.{◌≤ℤ◌, pos};

use crate::Stored;
use gate_io::{Items, Text};

/// A topic and one of its partitions.
#[derive(Debug, Drop)]
pub struct TopicPart {
    pub topic: Text,
    pub partition: i32,
    pub ghost whole: { pos 0 ≤ℤ partition },
}

/// From which offset on the rows of a partition are asked.
#[derive(Debug, Drop)]
pub struct FetchFrom {
    pub topic: Text,
    pub partition: i32,
    pub offset: i64,
    pub ghost whole: { pos 0 ≤ℤ partition },
    pub ghost low: { pos 0 ≤ℤ offset },
}

/// What came of one ask: the first rows from its offset on, and the offset behind the partition's
/// last row. Where the offset lies below the start or above the end there are no rows, and `end`
/// says nothing.
#[derive(Debug, Drop)]
pub struct Fetched {
    pub rows: Items<Stored>,
    pub end: i64,
    pub out_of_range: bool,
}

/// The start or the end of a partition.
#[derive(Clone, Copy, Debug, PartialEq, Eq)]
pub enum Edge {
    Start,
    End,
}
