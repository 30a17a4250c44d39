ghost use Rattle.std.specs.Prelude.{◌≡◌, ◌<◌, length, nat_le, IfOk, IfErr, string_bytes, true, false};
ghost use Rattle.json_span.specs.Json.{Json, IsWithin};
ghost use Rattle.json_span.specs.Text.{IsText};
ghost use Rattle.json_span.specs.Nodes.{IsTreeOf, Stands, root_of};
ghost use Rattle.json_span.specs.Refusals.{max_levels};
ghost use Rattle.avro_schema.specs.Types.{AvroType};
ghost use Rattle.avro_schema.specs.Canonical.{canonical_form};
ghost use Rattle.avro_schema.specs.Reading.{schema_of, ReadsAs};
ghost use Rattle.avro_schema.specs.Refusals.{Refuses, Answers, NoTree};
ghost use Rattle.avro_schema.specs.Nodes.{tree_of};
ghost use Rattle.avro_schema.specs.Forms.{type_at, types_of, EachBefore};
ghost use Rattle.avro_schema.specs.Building.{Finished, Ends, FormReads};

use crate::canonical::write_type;
use crate::parts::{Form, NAME_ROOM, Parts};
use crate::reader::read_type;
use crate::schema::Schema;
use avro_names::{Definitions, SchemaNo};
use gate_io::{Text, Want};
use json_span::{JsonNo, Tree};
use std::alloc::Global;

/// Reads the text as JSON.
fn read_tree(alloc: Global, text: &str) -> Result<Tree, SchemaNo>
    ensures ok { IfOk result (IsTreeOf text.now) }
    ensures refused { IfErr result (NoTree text.now) }
    ensures accepts { (j : Json) → IsText max_levels text.now j → IfErr result (λ e. e ≡ SchemaNo.Want) }
{
    match json_span::read(alloc, text.as_bytes()) {
        Ok(tree) => Ok(tree),
        Err(JsonNo::TooDeep) => Err(SchemaNo::TooDeep),
        Err(JsonNo::Want) => Err(SchemaNo::Want),
        Err(JsonNo::Cut) => Err(SchemaNo::NotJson),
        Err(JsonNo::BadByte(_)) => Err(SchemaNo::NotJson),
    }
}

/// The canonical form of a node has at most 65,536 bytes.
fn is_short(alloc: Global, nodes: &Vec<Form>, root: u32) -> Result<bool, SchemaNo>
    requires before { EachBefore 0 nodes.now.items }
    requires inside { root < length nodes.now.items }
    ensures ok { IfOk result (λ b. b ≡ nat_le (length (canonical_form (type_at (types_of nodes.now.items) root))) 65536) }
    ensures want { IfErr result (λ e. e ≡ SchemaNo.Want) }
{
    let mut text = Text::from_string(String::new(alloc));
    match write_type(alloc, nodes, root, &mut text) {
        Ok(()) => Ok(text.as_bytes().len() <= 65_536),
        Err(_) => Err(SchemaNo::Want),
    }
}

/// The schema of a JSON value.
fn read_value(alloc: Global, canonical: bool, tree: &Tree) -> Result<Schema, SchemaNo>
    requires { (j : Json) × Stands tree.now (root_of tree.now) j × IsWithin max_levels j }
    ensures { (j : Json) → Stands tree.now (root_of tree.now) j → Answers (schema_of canonical j) result }
{
    let mut parts = Parts {
        nodes: Vec::new(alloc),
        definitions: Definitions::new(alloc),
        root: 0,
        room: NAME_ROOM,
    };
    match read_type(
        alloc,
        tree,
        canonical,
        64,
        false,
        "",
        tree.root(),
        &mut parts,
    ) {
        Ok(root) => finish(alloc, parts, root),
        Err(e) => Err(e),
    }
}

/// The schema whose types were read, where its canonical form is short enough.
fn finish(alloc: Global, parts: Parts, root: u32) -> Result<Schema, SchemaNo>
    requires { (t : AvroType) × Finished parts root t × FormReads t }
    ensures { (t : AvroType) → Finished parts root t → Ends t result }
{
    match is_short(alloc, &parts.nodes, root) {
        Ok(true) => Ok(whole(parts, root)),
        Ok(false) => Err(SchemaNo::TooLong),
        Err(e) => Err(e),
    }
}

fn whole(parts: Parts, root: u32) -> Schema
    requires { (t : AvroType) × Finished parts root t × ReadsAs true (canonical_form t) t }
    ensures { (t : AvroType) → Finished parts root t → tree_of result ≡ t }
{
    let Parts {
        nodes,
        definitions,
        root: _,
        room,
    } = parts;
    Schema {
        parts: Parts {
            nodes,
            definitions,
            root,
            room,
        },
    }
}

fn read_text(alloc: Global, canonical: bool, text: &str) -> Result<Schema, SchemaNo>
    ensures ok { IfOk result (λ s. ReadsAs canonical text.now (tree_of s)) }
    ensures refused { IfErr result (Refuses canonical text.now) }
    ensures value { (j : Json) → IsText max_levels text.now j → Answers (schema_of canonical j) result }
{
    match read_tree(alloc, text) {
        Ok(tree) => read_value(alloc, canonical, &tree),
        Err(e) => Err(e),
    }
}

impl Schema {
    /// Reads a schema (Apache Avro 1.11 specification, "Schema Declaration"). Fullnames of more than 16,777,216 bytes together are want
    /// of memory.
    pub fn read(alloc: Global, text: &str) -> Result<Schema, SchemaNo>
        // The text is a JSON text of a value that is this schema.
        ensures ok { IfOk result (λ s. ReadsAs false text.now (tree_of s)) }

        // Each refusal has its cause: in the text as JSON, or else the first in reading order.
        ensures refused { IfErr result (Refuses false text.now) }
        // A JSON text gets the answer that the definition has for its value, or that memory is wanting.
        ensures value { (j : Json) → IsText max_levels text.now j → Answers (schema_of false j) result }
    {
        read_text(alloc, false, text)
    }

    /// Reads a schema with every name taken as a fullname, whatever encloses it, as in a canonical form.
    pub fn read_canonical(alloc: Global, text: &str) -> Result<Schema, SchemaNo>
        ensures ok { IfOk result (λ s. ReadsAs true text.now (tree_of s)) }

        ensures refused { IfErr result (Refuses true text.now) }
        ensures value { (j : Json) → IsText max_levels text.now j → Answers (schema_of true j) result }
    {
        read_text(alloc, true, text)
    }

    /// The Parsing Canonical Form (Apache Avro 1.11 specification, "Transforming into Parsing Canonical Form").
    pub fn canonical(&self, alloc: Global) -> Result<String, Want>
        ensures value { IfOk result (λ s. string_bytes s ≡ canonical_form (tree_of self.now)) }
        // With every name taken as a fullname it reads as this schema.
        ensures again { IfOk result (λ s. ReadsAs true (string_bytes s) (tree_of self.now)) }
    {
        let mut text = Text::from_string(String::new(alloc));
        write_type(alloc, &self.parts.nodes, self.parts.root, &mut text)?;
        Ok(text.into_string())
    }
}
