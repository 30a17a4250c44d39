//! Values of Avro schemas: their limits, why one isn't read or written, and the parts of schemas and JSON values by which it is.
#![tactic(auto)]

mod error;
pub mod json_leaf;
pub mod json_pick;
pub mod level;
pub mod limits;
pub mod pick;

pub use error::AvroNo;
