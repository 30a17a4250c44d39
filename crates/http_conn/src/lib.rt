//! The requests of a stream of bytes, read in any pieces, and the bytes that answer them.
#![tactic(auto)]

mod body;
mod buffer;
mod connection;
mod law;
mod request;
mod whole;

pub use connection::{Connection, interim_response};
pub use law::{
    bytes_give_one_answer, bytes_have_one_stream, requests_go_on, requests_stand_in_what_was_read,
};
pub use request::{ConnNo, Next, Request};
