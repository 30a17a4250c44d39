//! The parts of a value from nodes of a JSON tree.
ghost use Rattle.std.specs.Prelude.{◌≡◌, ◌<◌, ℕ, List, length, get_or, IfOk, IfErr};
ghost use Rattle.std.specs.BTreeMap.{get_by};
ghost use Rattle.std.specs.Cmp.Lexicographic.{slice_cmp};
ghost use Rattle.std.specs.Ordering.{nat_cmp};
ghost use Rattle.avro_schema.specs.Types.{Branches, Fields, union};
ghost use Rattle.avro_schema.specs.Nodes.{Resolves, SchemaValue, StandForFields};
ghost use Rattle.json_span.specs.Json.{Items, Json, Members};
ghost use Rattle.json_span.specs.Nodes.{HasNode, Stands, StandForItems, StandForMembers};
ghost use Rattle.json_span.specs.declared.tree.Tree as trees;
ghost use Rattle.avro_value.specs.declared.error.AvroNo.TheVariants.{Want};
ghost use Rattle.avro_value.specs.Encoding as encoding;
ghost use Rattle.avro_value.specs.Parts.{AreParts, Finds, IsChoice, last_in, names_in};
ghost use Rattle.avro_value.specs.Reading.{found, present};
ghost use Rattle.avro_value.specs.Reading as reading;

use crate::error::AvroNo;
use crate::pick::is_null;
use avro_schema::{Field, Schema};
use json_span::{Kind, Member, Tree};
use std::alloc::Global;
use std::collections::{BTreeMap, BTreeSet};

/// Up to so many members of a record are searched one by one.
const FEW: usize = 32;

/// A part of a value: the node of its type in the schema, and its own in the tree.
#[derive(Clone, Copy, Debug)]
pub struct Part {
    pub place: u32,
    pub node: u32,
}

/// A branch of a union: its number in the union, and the value in it.
#[derive(Clone, Copy, Debug)]
pub struct Choice {
    pub index: u32,
    pub part: Part,
}

/// The nodes of an array's items.
pub fn items_in<'a>(tree: &'a Tree, node: u32, number: u32) -> Result<&'a [u32], AvroNo>
    requires { HasNode tree.now node }
    ensures { (j : Json) → Stands tree.now node j
        → Finds (λ nodes js. StandForItems tree.now nodes.now js) result (reading.items_in number j) }
{
    match tree.kind(node) {
        Kind::Array => Ok(tree.items(node)),
        _ => Err(AvroNo::Mismatch(number)),
    }
}

/// The members of an object.
fn members_in<'a>(tree: &'a Tree, node: u32, number: u32) -> Result<&'a [Member], AvroNo>
    requires { HasNode tree.now node }
    ensures { (j : Json) → Stands tree.now node j
        → Finds (λ members ms. StandForMembers tree.now members.now ms) result (reading.members_in number j) }
{
    match tree.kind(node) {
        Kind::Object => Ok(tree.members(node)),
        _ => Err(AvroNo::Mismatch(number)),
    }
}

/// Whether no two members have one name.
fn differ(alloc: Global, members: &[Member]) -> Result<bool, AvroNo>
    ensures value { IfOk result (λ b. b ≡ encoding.differ (names_in members.now)) }
    ensures want { IfErr result (λ e. e ≡ Want) }
{
    let mut names = BTreeSet::new(alloc);
    for member in members {
        if !names.insert(member.name.as_str())? {
            return Ok(false);
        }
    }
    Ok(true)
}

/// The entries of a map, none of which has the name of another.
pub fn entries_in<'a>(
    alloc: Global,
    tree: &'a Tree,
    node: u32,
    number: u32,
) -> Result<&'a [Member], AvroNo>
    requires { HasNode tree.now node }
    ensures { (j : Json) → Stands tree.now node j
        → Finds (λ members ms. StandForMembers tree.now members.now ms) result (reading.entries_in number j) }
{
    let members = match members_in(tree, node, number) {
        Ok(members) => members,
        Err(e) => return Err(e),
    };
    if differ(alloc, members)? {
        Ok(members)
    } else {
        Err(AvroNo::Mismatch(number))
    }
}

/// The node of the last member of this name.
fn last_named(members: &[Member], name: &str) -> Option<u32>
    ensures { result ≡ last_in name.now members.now }
{
    let mut index = members.len();
    while index > 0 {
        index -= 1;
        let member = &members[index];
        if member.name.as_str() == name {
            return Some(member.node);
        }
    }
    None
}

/// The last node of each name.
fn last_nodes<'a>(alloc: Global, members: &'a [Member]) -> Result<BTreeMap<&'a str, u32>, AvroNo>
    ensures ok { IfOk result (λ nodes. (name : List ℕ) → get_by (λ k. slice_cmp nat_cmp name k.now) nodes ≡ last_in name members.now) }
    ensures want { IfErr result (λ e. e ≡ Want) }
{
    let mut nodes = BTreeMap::new(alloc);
    for member in members {
        nodes.insert(member.name.as_str(), member.node)?;
    }
    Ok(nodes)
}

/// The parts of fields, by a search for each.
fn searched(
    alloc: Global,
    fields: &[Field],
    members: &[Member],
    number: u32,
) -> Result<Vec<Part>, AvroNo>
    ensures { (s : SchemaValue) (ts : Fields) → StandForFields s fields.now ts
        → (t : trees.Tree) (ms : Members) → StandForMembers t members.now ms
        → Finds (λ parts js. AreParts s t parts.items ts js) result (present number (found ts ms)) }
{
    let mut parts = Vec::with_capacity(alloc, fields.len())?;
    for field in fields {
        let Some(node) = last_named(members, field.name.as_str()) else {
            return Err(AvroNo::Mismatch(number));
        };
        parts.push(Part {
            place: field.node,
            node,
        })?;
    }
    Ok(parts)
}

/// The parts of fields, by a map of the members' names.
fn mapped(
    alloc: Global,
    fields: &[Field],
    members: &[Member],
    number: u32,
) -> Result<Vec<Part>, AvroNo>
    ensures { (s : SchemaValue) (ts : Fields) → StandForFields s fields.now ts
        → (t : trees.Tree) (ms : Members) → StandForMembers t members.now ms
        → Finds (λ parts js. AreParts s t parts.items ts js) result (present number (found ts ms)) }
{
    let nodes = last_nodes(alloc, members)?;
    let mut parts = Vec::with_capacity(alloc, fields.len())?;
    for field in fields {
        let Some(node) = nodes.get(field.name.as_str()) else {
            return Err(AvroNo::Mismatch(number));
        };
        parts.push(Part {
            place: field.node,
            node: *node,
        })?;
    }
    Ok(parts)
}

/// A record's fields, each with the last member of its name.
pub fn fields_in(
    alloc: Global,
    fields: &[Field],
    tree: &Tree,
    node: u32,
    number: u32,
) -> Result<Vec<Part>, AvroNo>
    requires { HasNode tree.now node }
    ensures { (s : SchemaValue) (ts : Fields) → StandForFields s fields.now ts → (j : Json) → Stands tree.now node j
        → Finds (λ parts js. AreParts s tree.now parts.items ts js) result (reading.fields_in number ts j) }
{
    match members_in(tree, node, number) {
        Ok(members) if members.len() <= FEW => searched(alloc, fields, members, number),
        Ok(members) => mapped(alloc, fields, members, number),
        Err(e) => Err(e),
    }
}

/// The node at a place.
fn node_at(nodes: &[u32], index: usize) -> u32
    requires { index < length nodes.now }
    ensures { result ≡ get_or nodes.now index 0 }
{
    nodes[index]
}

/// The branch of this name, which is null's or another's. The union's node is `place`.
fn branch_by(
    schema: &Schema,
    place: u32,
    name: &str,
    is_bare: bool,
    node: u32,
    number: u32,
) -> Result<Choice, AvroNo>
    requires { (ts : Branches) × Resolves schema.now place (union ts) }
    ensures { (ts : Branches) → Resolves schema.now place (union ts)
        → (t : trees.Tree) (j : Json) → Stands t node j
        → Finds (IsChoice schema.now t) result (reading.branch_by number ts name.now is_bare j) }
{
    let Some(index) = schema.branch(place, name) else {
        return Err(AvroNo::Mismatch(number));
    };
    let branch = node_at(schema.branches(place), index);
    let Ok(index) = u32::try_from(index) else {
        return Err(AvroNo::Mismatch(number));
    };
    if is_null(schema, branch) != is_bare {
        return Err(AvroNo::Mismatch(number));
    }
    Ok(Choice {
        index,
        part: Part {
            place: branch,
            node,
        },
    })
}

/// The branch of null, or the one that an object's one member names. The union's node is `place`.
pub fn branch_in(
    schema: &Schema,
    place: u32,
    tree: &Tree,
    node: u32,
    number: u32,
) -> Result<Choice, AvroNo>
    requires node { HasNode tree.now node }
    requires place { (ts : Branches) × Resolves schema.now place (union ts) }
    ensures { (ts : Branches) → Resolves schema.now place (union ts) → (j : Json) → Stands tree.now node j
        → Finds (IsChoice schema.now tree.now) result (reading.branch_in number ts j) }
{
    match tree.kind(node) {
        Kind::Null => branch_by(schema, place, "null", true, node, number),
        Kind::Object => match tree.members(node) {
            [member] => branch_by(
                schema,
                place,
                member.name.as_str(),
                false,
                member.node,
                number,
            ),
            _ => Err(AvroNo::Mismatch(number)),
        },
        _ => Err(AvroNo::Mismatch(number)),
    }
}
