//! How the values of a broker's message are laid out, and the loops over its arrays.
#![tactic(auto)]

mod array;
mod bytes;
mod error;
mod item;
mod laid;
mod whole;

pub use bytes::{decode_nullable_piece, decode_piece, put_nullable_piece, put_piece};
pub use error::{Refusal, WireNo};
pub use laid::{Laid, Message, Put};
pub use whole::{
    length_of, read_front, read_front_placed, read_whole, read_whole_placed, refusal_at,
    refusal_of, write_frame, write_whole,
};
