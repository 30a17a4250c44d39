//! To what a request is sent.
#![tactic(auto)]

mod digits;
mod media;
mod number;
mod parameter;
mod path;
mod place;
mod query;
mod route;
mod routes;

pub use digits::{are_digits, number_in};
pub use media::{Accepted, accepted_formats, format_in, is_acceptable, is_supported};
pub use number::PartitionNumber;
pub use path::is_topic_name;
pub use place::{Ask, Missing, PartitionAsk, Place, TopicAsk, place_of};
pub use query::{Limits, limits_of};
pub use route::{Route, Verb, allow_lists_the_methods};
pub use routes::Routes;
