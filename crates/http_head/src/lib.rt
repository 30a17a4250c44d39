//! Heads of HTTP/1.1 requests at the front of bytes: judged whole, unfinished, refused or lost, and
//! what a request takes of their fields.
#![tactic(auto)]

mod asked;
mod fields;
mod member;
mod target;
mod verdict;

pub use asked::asked_text;
pub use fields::{Framing, asks_close, is_encoded, joined_values};
pub use member::{first_member, is_word};
pub use verdict::{Head, Verdict, awaits_interim, judge};
