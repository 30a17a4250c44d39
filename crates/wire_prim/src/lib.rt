//! The items of a broker's message, read and written, and the checksum of a record batch.
#![tactic(auto)]

mod crc;
mod cursor;
mod error;
mod laws;
mod put;
mod tables;
mod varint;

pub use crc::crc32c;
pub use cursor::Cursor;
pub use error::PrimNo;
pub use laws::{items_have_one_reading, varints_have_one_reading};
pub use put::{
    put_bytes, put_count, put_int8, put_int16, put_int32, put_int64, put_nullable_bytes,
    put_nullable_count, put_nullable_string, put_string, put_varint, put_varlong,
};
pub use varint::varint_len;
