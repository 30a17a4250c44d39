//! The tokens of JSON texts: white space, numbers, strings with their escapes, and words (RFC 8259).
#![tactic(auto)]

mod chars;
mod error;
mod escape;
mod integer;
mod law;
mod number;
mod scan;
mod token;

pub use chars::Inside;
pub use error::JsonNo;
pub use escape::unescape;
pub use integer::integer_of;
pub use law::numbers_are_those_of_the_grammar;
pub use number::Part;
pub use token::{begins_number, numeral_end, skip_blanks, string_end, word_end};
