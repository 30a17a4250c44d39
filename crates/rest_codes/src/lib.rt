//! The replies to requests, and the bytes of a response.
#![tactic(auto)]

mod errors;
mod methods;
mod response;
#[cfg(test)]
mod tests;

pub use errors::{message, refusal};
pub use response::{Media, Reply, quoted_text, response_bytes, want_response};
