//! A broker as a trait, with the meaning of its log.
#![tactic(auto)]

mod count;
mod deaf;
mod fetch;
mod link;
mod listing;
mod memory;
mod place;
mod reading;
mod script;
mod size;
mod tally;
mod topics;

pub use count::count_parts;
pub use fetch::{Edge, FetchFrom, Fetched, TopicPart};
pub use link::{Link, LinkNo, NewRecord, PartInfo, PartPlaced, PartRecords, Stored, TopicInfo};
pub use memory::MemLink;
pub use place::Place;
pub use script::{Fail, Foreign};
pub use size::length_of;
