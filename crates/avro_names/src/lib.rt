//! Names of Avro schemas: fullnames with their namespaces, lists of names, and the definitions of a schema by name.
#![tactic(auto)]

mod definitions;
mod error;
mod member_names;
mod name_list;
mod names;

pub use definitions::{Definition, Definitions};
pub use error::SchemaNo;
pub use member_names::{defined_name, full_name, part_name, symbols_of};
pub use name_list::NameList;
pub use names::{is_float, namespace_of};
