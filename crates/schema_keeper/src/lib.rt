//! What keeps the rows of a schema table: a trait, and rows in memory.
#![tactic(auto)]

mod keeper;
mod memory;
mod row;

pub use keeper::Keeper;
pub use memory::{KeepFail, MemKeeper};
pub use row::{KeepNo, SchemaRow};
