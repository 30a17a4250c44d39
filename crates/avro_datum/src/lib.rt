//! Data of Avro schemas, read from JSON and shown as JSON.
#![tactic(auto)]

mod datum;
mod reader;
mod text_leaf;
mod writer;

pub use avro_value::AvroNo;
pub use datum::{
    Datum, MapItem, make_branch, make_entries, make_fields, make_items, push_entry, push_value,
};
