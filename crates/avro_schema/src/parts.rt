ghost use Rattle.std.specs.Prelude.{◌≡◌, ◌<◌, ◌++◌, [], ◌∷◌, length, IfOk, IfErr};
ghost use Rattle.avro_schema.specs.Building.{Finishes};

use avro_names::{Definitions, NameList, SchemaNo};
use gate_io::Text;

/// A field of a record.
#[derive(Debug, Drop)]
pub struct Field {
    /// The name, which no other field of the record has.
    pub name: Text,
    /// The node of its type.
    pub node: u32,
}

/// What a node is, with the nodes of its parts. A named type has its fullname, a reference also the number of its definition.
#[derive(Debug, Drop)]
pub(crate) enum Form {
    Null,
    Boolean,
    Int,
    Long,
    Bytes,
    Text,
    Array(u32),
    Map(u32),
    /// The branches' nodes, and their names.
    Union(Vec<u32>, NameList),
    Fixed(Text, u32),
    Enum(Text, NameList),
    Record(Text, Vec<Field>),
    Named(Text, u32),
}

/// A schema as a flat list of nodes, each behind its parts.
#[derive(Debug, Drop)]
pub(crate) struct Parts {
    pub(crate) nodes: Vec<Form>,
    pub(crate) definitions: Definitions,
    pub(crate) root: u32,
    /// How many bytes of fullnames may still be kept.
    pub(crate) room: usize,
}

/// How many bytes of fullnames are kept while a schema is read: more are want of memory. A canonical form that is short enough has
/// at most 65,536, but those of a longer one grow with the square of the text where a long namespace is inherited.
pub(crate) const NAME_ROOM: usize = 16_777_216;

impl Parts {
    /// Makes a node.
    pub(crate) fn add(&mut self, form: Form) -> Result<u32, SchemaNo>
        ensures ok { IfOk result (λ k. (k ≡ length self.old.nodes.items)
            × (self.new.nodes.items ≡ self.old.nodes.items ++ form ∷ [])) }
        ensures want { IfErr result (λ e. e ≡ SchemaNo.Want) }
        ensures definitions { self.new.definitions ≡ self.old.definitions }
    {
        let Ok(node) = u32::try_from(self.nodes.len()) else {
            return Err(SchemaNo::Want);
        };
        match self.nodes.push(form) {
            Ok(()) => Ok(node),
            Err(_) => Err(SchemaNo::Want),
        }
    }

    /// Makes the node of a type that was read to its end.
    pub(crate) fn finish(&mut self, definition: usize, form: Form) -> Result<u32, SchemaNo>
        requires { definition < length self.old.definitions }
        ensures ok { IfOk result (Finishes self.old self.new definition form) }
        ensures want { IfErr result (λ e. e ≡ SchemaNo.Want) }
    {
        match self.add(form) {
            Ok(node) => {
                self.definitions.close(definition, node);
                Ok(node)
            }
            Err(e) => Err(e),
        }
    }
}
