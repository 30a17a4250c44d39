//! What a consumer is, and how its assignment and positions are fixed.
#![tactic(auto)]

mod assign;
mod consumer;
mod fix;
mod known;
mod order;
mod positions;
mod seeking;
mod topics;

pub use assign::assign_parts;
pub use consumer::Consumer;
pub use positions::put_position;
pub use seeking::{seek, seek_edge};
