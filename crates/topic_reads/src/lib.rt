//! Questions on brokers, topics and partitions, asked of the link.
#![tactic(auto)]

mod find;
mod reply;

pub use reply::ask;
