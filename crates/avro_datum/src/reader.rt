//! A datum from a JSON tree.
ghost use Rattle.std.specs.Prelude.{◌≡◌, ◌==◌, ◌&&◌, ◌<◌, ℕ, List, suc, false, map, Ok, IfOk, MatchResult};
ghost use Rattle.avro_schema.specs.Types.{AvroType, Fields, enum_, resolved};
ghost use Rattle.avro_schema.specs.Nodes as types;
ghost use Rattle.avro_schema.specs.Nodes.{tree_of, IsOfKind, Resolves};
ghost use Rattle.json_span.specs.Json.{Json, Members};
ghost use Rattle.json_span.specs.Json as json;
ghost use Rattle.json_span.specs.Nodes.{HasNode, Stands, StandForItems, StandForMembers};
ghost use Rattle.avro_datum.specs.Data.{item_of, value_of};
ghost use Rattle.avro_value.specs.Value.{IsSmall, Value, entries_of, max_nodes, values_of};
ghost use Rattle.avro_value.specs.Value as shapes;
ghost use Rattle.avro_value.specs.Parts.{AreParts, IsChoice};
ghost use Rattle.avro_value.specs.Picks.{is_nesting};
ghost use Rattle.avro_value.specs.Reading.{Labelled, Reader, Reads, below_at, body_at, datum_at, entries_at, fields_at, fixed_at, giving, items_at, points_at, symbol_at, text_at, value_at};
ghost use Rattle.avro_value.specs.Reading as reading;
ghost use Rattle.avro_value.specs.Encoding.{IsJson};
ghost use Rattle.avro_value.specs.Steps.{Fails};
ghost use Rattle.avro_value.specs.declared.error.AvroNo.TheVariants.{Want};

use crate::datum::{
    Datum, MapItem, make_branch, make_entries, make_fields, make_items, push_entry, push_value,
};
use avro_schema::{Kind, Schema};
use avro_value::AvroNo;
use avro_value::json_leaf::{
    fixed_in, flag_in, int_in, long_in, null_in, points_in, symbol_in, text_in,
};
use avro_value::json_pick::{Choice, Part, branch_in, entries_in, fields_in, items_in};
use avro_value::limits::{MAX_LEVELS, MAX_NODES};
use avro_value::pick::is_too_deep;
use gate_io::Text;
use json_span::{Member, Tree};
use sqlite_items::Items;
use std::alloc::Global;

fn read_bytes(alloc: Global, tree: &Tree, node: u32, number: u32) -> Result<Datum, AvroNo>
    requires { HasNode tree.now node }
    ensures { (j : Json) → Stands tree.now node j
        → Reads value_of result (reading.leaf number shapes.bytes (points_at number j)) (suc number) }
{
    match points_in(alloc, tree, node, number) {
        Ok(bytes) => Ok(Datum::Bytes(Items::from_vec(bytes))),
        Err(e) => Err(e),
    }
}

fn read_text(alloc: Global, tree: &Tree, node: u32, number: u32) -> Result<Datum, AvroNo>
    requires { HasNode tree.now node }
    ensures { (j : Json) → Stands tree.now node j
        → Reads value_of result (reading.leaf number shapes.string (text_at number j)) (suc number) }
{
    match text_in(tree, node, number) {
        Ok(text) => match Text::from_str(alloc, text) {
            Ok(text) => Ok(Datum::Text(text)),
            Err(_) => Err(AvroNo::Want),
        },
        Err(e) => Err(e),
    }
}

fn read_fixed(
    alloc: Global,
    tree: &Tree,
    node: u32,
    number: u32,
    size: u32,
) -> Result<Datum, AvroNo>
    requires { HasNode tree.now node }
    ensures { (j : Json) → Stands tree.now node j
        → Reads value_of result (reading.leaf number shapes.fixed (fixed_at number size j)) (suc number) }
{
    match fixed_in(alloc, tree, node, number, size) {
        Ok(bytes) => Ok(Datum::Fixed(Items::from_vec(bytes))),
        Err(e) => Err(e),
    }
}

fn read_symbol(
    schema: &Schema,
    place: u32,
    tree: &Tree,
    node: u32,
    number: u32,
) -> Result<Datum, AvroNo>
    requires node { HasNode tree.now node }
    requires place { (name : List ℕ) × (symbols : List (List ℕ)) × Resolves schema.now place (enum_ name symbols) }
    ensures { (name : List ℕ) (symbols : List (List ℕ)) → Resolves schema.now place (enum_ name symbols)
        → (j : Json) → Stands tree.now node j
        → Reads value_of result (reading.leaf number shapes.symbol (symbol_at number symbols j)) (suc number) }
{
    match symbol_in(schema, place, tree, node, number) {
        Ok(found) => Ok(Datum::Symbol(found)),
        Err(e) => Err(e),
    }
}

// A node without parts.
fn leaf(
    alloc: Global,
    schema: &Schema,
    tree: &Tree,
    place: u32,
    kind: Kind,
    node: u32,
    number: u32,
) -> Result<Datum, AvroNo>
    requires kind { IsOfKind schema.now place kind }
    requires plain { is_nesting kind ≡ false }
    requires node { HasNode tree.now node }
    ensures { (t : AvroType) → types.Stands schema.now place t → (j : Json) → Stands tree.now node j → (inner : Reader)
        → Reads value_of result (body_at inner (resolved (tree_of schema.now) t) j number) (suc number) }
{
    match kind {
        Kind::Null => match null_in(tree, node, number) {
            Ok(()) => Ok(Datum::Null),
            Err(e) => Err(e),
        },
        Kind::Boolean => match flag_in(tree, node, number) {
            Ok(value) => Ok(Datum::Boolean(value)),
            Err(e) => Err(e),
        },
        Kind::Int => match int_in(tree, node, number) {
            Ok(value) => Ok(Datum::Int(value)),
            Err(e) => Err(e),
        },
        Kind::Long => match long_in(tree, node, number) {
            Ok(value) => Ok(Datum::Long(value)),
            Err(e) => Err(e),
        },
        Kind::Bytes => read_bytes(alloc, tree, node, number),
        Kind::Text => read_text(alloc, tree, node, number),
        Kind::Fixed(size) => read_fixed(alloc, tree, node, number, size),
        Kind::Enum => read_symbol(schema, place, tree, node, number),
        Kind::Array(_) | Kind::Map(_) | Kind::Union | Kind::Record => unreachable!(),
    }
}

// Each node's values in order.
#[cycle(read)]
fn read_items(
    alloc: Global,
    schema: &Schema,
    tree: &Tree,
    item: u32,
    nodes: &[u32],
    levels: u32,
    next: &mut u32,
) -> Result<Datum, AvroNo>
    requires item { types.HasNode schema.now item }
    requires nodes { (js : json.Items) × StandForItems tree.now nodes.now js }
    ensures { (t : AvroType) → types.Stands schema.now item t → (js : json.Items) → StandForItems tree.now nodes.now js
        → Reads value_of result (giving (λ vs. shapes.items (values_of vs))
        (items_at (value_at (tree_of schema.now) levels) t js next.old)) next.new }
{
    let mut out = Vec::with_capacity(alloc, nodes.len())?;
    for node in nodes {
        let value = match read_value(alloc, schema, tree, item, *node, levels, next) {
            Ok(value) => value,
            Err(e) => return Err(e),
        };
        push_value(&mut out, value)?;
    }
    Ok(make_items(out))
}

#[cycle(read)]
fn read_entries(
    alloc: Global,
    schema: &Schema,
    tree: &Tree,
    value: u32,
    members: &[Member],
    levels: u32,
    next: &mut u32,
) -> Result<Datum, AvroNo>
    requires value { types.HasNode schema.now value }
    requires members { (ms : Members) × StandForMembers tree.now members.now ms }
    ensures { (t : AvroType) → types.Stands schema.now value t → (ms : Members) → StandForMembers tree.now members.now ms
        → Reads value_of result (giving (λ es. shapes.entries (entries_of es))
        (entries_at (value_at (tree_of schema.now) levels) t ms next.old)) next.new }
{
    let mut out = Vec::with_capacity(alloc, members.len())?;
    for member in members {
        let value = match read_value(alloc, schema, tree, value, member.node, levels, next) {
            Ok(value) => value,
            Err(e) => return Err(e),
        };
        push_entry(alloc, &mut out, member.name.as_str(), value)?;
    }
    Ok(make_entries(out))
}

#[cycle(read)]
fn read_fields(
    alloc: Global,
    schema: &Schema,
    tree: &Tree,
    parts: &[Part],
    levels: u32,
    next: &mut u32,
) -> Result<Datum, AvroNo>
    requires { (ts : Fields) × (js : List Json) × AreParts schema.now tree.now parts.now ts js }
    ensures { (ts : Fields) (js : List Json) → AreParts schema.now tree.now parts.now ts js
        → Reads value_of result (giving (λ vs. shapes.fields (values_of vs))
        (fields_at (value_at (tree_of schema.now) levels) ts js next.old)) next.new }
{
    let mut out = Vec::with_capacity(alloc, parts.len())?;
    for part in parts {
        let value = match read_value(alloc, schema, tree, part.place, part.node, levels, next) {
            Ok(value) => value,
            Err(e) => return Err(e),
        };
        push_value(&mut out, value)?;
    }
    Ok(make_fields(out))
}

#[cycle(read)]
fn read_branch(
    alloc: Global,
    schema: &Schema,
    tree: &Tree,
    choice: Choice,
    levels: u32,
    next: &mut u32,
) -> Result<Datum, AvroNo>
    requires { (x : Labelled) × IsChoice schema.now tree.now choice x }
    ensures { (x : Labelled) → IsChoice schema.now tree.now choice x → Reads value_of result
        (giving (shapes.branch x.place) (value_at (tree_of schema.now) levels x.type x.inner next.old)) next.new }
{
    let part = choice.part;
    let value = match read_value(alloc, schema, tree, part.place, part.node, levels, next) {
        Ok(value) => value,
        Err(e) => return Err(e),
    };
    make_branch(alloc, choice.index, value)
}

// The node that comes next, which isn't too deep or one too many.
#[cycle(read)]
fn read_body(
    alloc: Global,
    schema: &Schema,
    tree: &Tree,
    place: u32,
    kind: Kind,
    node: u32,
    levels: u32,
    next: &mut u32,
) -> Result<Datum, AvroNo>
    requires kind { IsOfKind schema.now place kind }
    requires room { (is_nesting kind && (levels == 0)) ≡ false }
    requires node { HasNode tree.now node }
    requires fewer { next.old < max_nodes }
    ensures { (t : AvroType) → types.Stands schema.now place t → (j : Json) → Stands tree.now node j → Reads value_of result
        (body_at (below_at (tree_of schema.now) levels) (resolved (tree_of schema.now) t) j next.old) next.new }
{
    let number = *next;
    *next += 1;
    match kind {
        Kind::Array(item) => match items_in(tree, node, number) {
            Ok(nodes) => read_items(alloc, schema, tree, item, nodes, levels - 1, next),
            Err(e) => Err(e),
        },
        Kind::Map(value) => match entries_in(alloc, tree, node, number) {
            Ok(members) => read_entries(alloc, schema, tree, value, members, levels - 1, next),
            Err(e) => Err(e),
        },
        Kind::Record => match fields_in(alloc, schema.fields(place), tree, node, number) {
            Ok(parts) => read_fields(alloc, schema, tree, parts.as_slice(), levels - 1, next),
            Err(e) => Err(e),
        },
        Kind::Union => match branch_in(schema, place, tree, node, number) {
            Ok(choice) => read_branch(alloc, schema, tree, choice, levels - 1, next),
            Err(e) => Err(e),
        },
        _ => leaf(alloc, schema, tree, place, kind, node, number),
    }
}

// The value of a node, whose number is the next.
#[cycle(read)]
fn read_value(
    alloc: Global,
    schema: &Schema,
    tree: &Tree,
    place: u32,
    node: u32,
    levels: u32,
    next: &mut u32,
) -> Result<Datum, AvroNo>
    requires place { types.HasNode schema.now place }
    requires node { HasNode tree.now node }
    ensures { (t : AvroType) → types.Stands schema.now place t → (j : Json) → Stands tree.now node j
        → Reads value_of result (value_at (tree_of schema.now) levels t j next.old) next.new }
{
    let kind = schema.kind(place);
    if is_too_deep(kind, levels) {
        return Err(AvroNo::TooDeep);
    }
    if *next >= MAX_NODES {
        return Err(AvroNo::TooMany);
    }
    read_body(alloc, schema, tree, place, kind, node, levels, next)
}

// The datum, or the first refusal.
fn read_all(alloc: Global, schema: &Schema, tree: &Tree, node: u32) -> Result<Datum, AvroNo>
    requires { HasNode tree.now node }
    ensures { (j : Json) → Stands tree.now node j → MatchResult result
        (λ datum. datum_at (tree_of schema.now) j ≡ Ok (value_of datum))
        (λ e. Fails e (datum_at (tree_of schema.now) j)) }
{
    let mut next = 0;
    read_value(
        alloc,
        schema,
        tree,
        schema.root(),
        node,
        MAX_LEVELS,
        &mut next,
    )
}

impl Datum {
    /// The datum of the schema that a node of a JSON tree is (Apache Avro specification, "JSON Encoding"). Of several members of
    /// a record's name the last counts, and members that the record lacks don't matter.
    pub fn read(alloc: Global, schema: &Schema, tree: &Tree, node: u32) -> Result<Datum, AvroNo>
        requires { HasNode tree.now node }
        // The JSON value is that of the datum, within the limits.
        ensures value { (j : Json) → Stands tree.now node j → IfOk result
            (λ datum. IsJson (tree_of schema.now) (tree_of schema.now) (value_of datum) j × IsSmall (value_of datum)) }
        // A JSON value of a datum within the limits is read as it.
        ensures only { (j : Json) → Stands tree.now node j → (v : Value)
            → IsJson (tree_of schema.now) (tree_of schema.now) v j → IsSmall v
            → MatchResult result (λ datum. value_of datum ≡ v) (λ e. e ≡ Want) }
        // The answer is what reading gives: the refusal is that of the first node in preorder that isn't of its schema or passes
        // a limit.
        ensures reading { (j : Json) → Stands tree.now node j → MatchResult result
            (λ datum. datum_at (tree_of schema.now) j ≡ Ok (value_of datum))
            (λ e. Fails e (datum_at (tree_of schema.now) j)) }
    {
        read_all(alloc, schema, tree, node)
    }
}
