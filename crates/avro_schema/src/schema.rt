use crate::parts::Parts;
use std::marker::Model;

/// What a node is, with the nodes of an array's items and a map's values and the size of a fixed. A reference is what it stands for.
#[derive(Clone, Copy, Debug, PartialEq, Eq)]
pub enum Kind {
    Null,
    Boolean,
    Int,
    Long,
    Bytes,
    Text,
    Array(u32),
    Map(u32),
    Union,
    Fixed(u32),
    Enum,
    Record,
}

/// A schema. Its types are numbered nodes.
#[derive(Drop)]
pub struct Schema {
    pub(crate) parts: Parts,
}

impl Model for Schema {
    ghost use Rattle.avro_schema.specs.Nodes.{SchemaValue};
    ghost use Rattle.avro_schema.specs.Forms.{IsSchema};

    ghost Value = { SchemaValue };

    ghost view = { λ s. record { nodes = s.parts.nodes.items; root = s.parts.root } };

    ghost invariant = { λ s. IsSchema s.parts.nodes.items s.parts.definitions s.parts.root };
}
