//! Replies to calls, as JSON texts: the mirror of `rest_calls`.
#![tactic(auto)]

mod answer;
mod creation;
mod failure;
mod found;
mod listing;
mod offsets;
mod row;
mod subscription;
mod topics;

pub use answer::{ProduceNo, Told};
pub use creation::made;
pub use failure::{link_failure, refused, unread};
pub use found::{AskNo, Found};
pub use listing::listed;
pub use offsets::reply_to;
pub use row::put_row;
pub use subscription::no_subscription;
pub use topics::found_reply;
