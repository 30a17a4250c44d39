//! Bodies in chunks, read part by part at the front of bytes.
#![tactic(auto)]

mod part;
mod trailers;

pub use part::{Part, next_part};
