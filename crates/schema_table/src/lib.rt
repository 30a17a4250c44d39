//! The table of schemas: ids for good, over anything that keeps its rows.
#![tactic(auto)]

mod known;
mod load;
mod schemas;
mod table;

pub use known::News;
pub use schemas::Schemas;
pub use table::{StartNo, Table, TableNo};
