//! Record batches of format 2, read and written.
#![tactic(auto)]

mod base;
mod fault;
mod field;
mod first;
mod laws;
mod read;
mod record;
mod write;

pub use base::set_base_offset;
pub use fault::BatchFault;
pub use first::{FirstBatch, first_batch, one_batch};
pub use laws::offsets_of_a_batch_rise;
pub use read::read_batches;
pub use write::write_batch;
