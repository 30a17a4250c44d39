//! Avro schemas: read from JSON by the public specification, with their Parsing Canonical Form.
#![tactic(auto)]

mod canonical;
mod law;
mod lookup;
mod named;
mod parts;
mod pick;
mod read;
mod reader;
mod schema;

pub use avro_names::SchemaNo;
pub use law::{canonical_forms_read_back, names_of_a_schema_differ};
pub use parts::Field;
pub use schema::{Kind, Schema};
