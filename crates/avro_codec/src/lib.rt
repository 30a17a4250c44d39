//! Data of Avro schemas as bytes, both ways.
#![tactic(auto)]

mod cursor;
mod decoder;
mod encoder;
mod law;
mod leaf;

pub use avro_datum::{Datum, MapItem};
pub use avro_value::AvroNo;
pub use decoder::decode;
pub use encoder::{encode, encode_into};
pub use law::no_spelling_begins_another;
