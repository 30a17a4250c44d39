ghost use Rattle.std.specs.Prelude.{◌≡◌, ◌<◌, ℕ, List, length};
ghost use Rattle.avro_schema.specs.Types.{AvroType, Branches, Fields, union, enum_, record_, branch_name};
ghost use Rattle.avro_schema.specs.Nodes.{tree_of, Stands, HasNode, Resolves, StandForBranches, StandForFields, IsKindOf, IsOfKind};
ghost use Rattle.avro_schema.specs.Forms.{IsSchema, IsFormOf};
ghost use Rattle.avro_schema.specs.Distinct.{HasNames, branch_names};
ghost use Rattle.avro_names.specs.NameList.{place_of};

use crate::parts::{Field, Form};
use crate::pick::{branch_in, branches_in, fields_in, kind_in, name_in, symbol_in, symbols_in};
use crate::schema::{Kind, Schema};
use avro_names::Definitions;
use gate_io::Text;

/// The form of a node, or of the definition that it refers to.
fn form_of<'a>(nodes: &'a Vec<Form>, definitions: &Definitions, node: u32) -> &'a Form
    requires schema { (root : ℕ) × IsSchema nodes.now.items definitions.now root }
    requires inside { node < length nodes.now.items }
    ensures { (root : ℕ) → IsSchema nodes.now.items definitions.now root
        → IsFormOf nodes.now.items root node result.now }
{
    let form = &nodes[node as usize];
    match form {
        Form::Named(_, definition) => &nodes[definitions.get(*definition as usize).node as usize],
        _ => form,
    }
}

impl Schema {
    /// The node of the whole schema.
    pub fn root(&self) -> u32
        ensures { Stands self.now result (tree_of self.now) }
    {
        self.parts.root
    }

    /// The names of a union's branches, an enum's symbols and a record's fields differ.
    pub fn names_differ(&self)
        ensures { HasNames (tree_of self.now) }
    {
        let _parts = &self.parts;
    }

    /// What the node is.
    pub fn kind(&self, node: u32) -> Kind
        requires { HasNode self.now node }
        ensures value { (u : AvroType) → Resolves self.now node u → IsKindOf self.now u result }
        ensures is { IsOfKind self.now node result }
    {
        kind_in(form_of(&self.parts.nodes, &self.parts.definitions, node))
    }

    /// The nodes of a union's branches in order.
    pub fn branches(&self, node: u32) -> &[u32]
        requires { (bs : Branches) × Resolves self.now node (union bs) }
        ensures { (bs : Branches) → Resolves self.now node (union bs) → StandForBranches self.now result.now bs }
    {
        branches_in(form_of(&self.parts.nodes, &self.parts.definitions, node))
    }

    /// The place of a name among those of a union's branches, found by a map.
    pub fn branch(&self, node: u32, name: &str) -> Option<usize>
        requires { (bs : Branches) × Resolves self.now node (union bs) }
        ensures { (bs : Branches) → Resolves self.now node (union bs)
            → result ≡ place_of name.now (branch_names bs) }
    {
        branch_in(
            form_of(&self.parts.nodes, &self.parts.definitions, node),
            name,
        )
    }

    /// The symbols of an enum in order.
    pub fn symbols(&self, node: u32) -> &[Text]
        requires { (name : List ℕ) × (symbols : List (List ℕ)) × Resolves self.now node (enum_ name symbols) }
        ensures { (name : List ℕ) (symbols : List (List ℕ)) → Resolves self.now node (enum_ name symbols)
            → result.now ≡ symbols }
    {
        symbols_in(form_of(&self.parts.nodes, &self.parts.definitions, node))
    }

    /// The place of a name among the symbols of an enum, found by a map.
    pub fn symbol(&self, node: u32, symbol: &str) -> Option<usize>
        requires { (name : List ℕ) × (symbols : List (List ℕ)) × Resolves self.now node (enum_ name symbols) }
        ensures { (name : List ℕ) (symbols : List (List ℕ)) → Resolves self.now node (enum_ name symbols)
            → result ≡ place_of symbol.now symbols }
    {
        symbol_in(
            form_of(&self.parts.nodes, &self.parts.definitions, node),
            symbol,
        )
    }

    /// The fields of a record in order.
    pub fn fields(&self, node: u32) -> &[Field]
        requires { (name : List ℕ) × (fs : Fields) × Resolves self.now node (record_ name fs) }
        ensures { (name : List ℕ) (fs : Fields) → Resolves self.now node (record_ name fs)
            → StandForFields self.now result.now fs }
    {
        fields_in(form_of(&self.parts.nodes, &self.parts.definitions, node))
    }

    /// The name of a union's branch in Avro's JSON encoding: its fullname, or the name of its kind.
    pub fn branch_name(&self, branch: u32) -> &str
        requires { HasNode self.now branch }
        ensures { (t : AvroType) → Stands self.now branch t → result.now ≡ branch_name t }
    {
        name_in(&self.parts.nodes[branch as usize])
    }
}
