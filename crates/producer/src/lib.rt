//! A produce: a request's records by partition, one call of the link, and the answer of each record.
#![tactic(auto)]

mod by_part;
mod partition;
mod parts;
mod request;
mod send;
mod told;

pub use partition::partition_of;
pub use request::produce;
