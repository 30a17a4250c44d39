//! Calls from HTTP requests.
#![tactic(auto)]

mod assign;
mod body;
mod call;
mod create;
mod key;
mod question;
mod reading;
mod seek;
mod sent;
mod shard;
mod unread;
mod value;

pub use call::{Batch, Call, Payload, Row, Settings, allows};
pub use forms::Format;
pub use key::key_of;
pub use question::Question;
pub use reading::{call_of, readings_are_one};
pub use rest_routes::Accepted;
pub use shard::shard_of;
