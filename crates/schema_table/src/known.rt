ghost use Rattle.std.specs.Prelude.{◌≡◌, []};

use avro_schema::Schema;
use gate_io::{Items, Text};
use schema_keeper::SchemaRow;
use std::alloc::Global;

/// A schema and its canonical form.
#[derive(Drop)]
pub struct Known {
    pub(crate) text: Text,
    pub(crate) schema: Schema,
}

/// The rows that calls added to a table, in order.
#[derive(Debug, Drop)]
pub struct News {
    pub rows: Items<SchemaRow>,
}

impl News {
    pub fn new(alloc: Global) -> News
        ensures { result.rows ≡ [] }
    {
        News {
            rows: Items::new(alloc),
        }
    }
}
