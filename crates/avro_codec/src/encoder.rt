//! A datum as bytes.
ghost use Rattle.std.specs.Prelude.{◌≡◌, ◌++◌, ◌<◌, ◌≤◌, ◌^◌, pos, map, length, ℕ, List, Ok, IfOk, IfErr, OnOk, MatchResult};
ghost use Rattle.avro_schema.specs.Types.{AvroType, resolved};
ghost use Rattle.avro_schema.specs.Nodes.{HasNode, Stands, tree_of};
ghost use Rattle.avro_codec.specs.Spelling.{IsDatum};
ghost use Rattle.avro_value.specs.declared.error.AvroNo.TheVariants.{Want};
ghost use Rattle.avro_datum.specs.Data.{item_of, value_of};
ghost use Rattle.avro_value.specs.Value.{IsSmall, values_of, entries_of};
ghost use Rattle.avro_value.specs.Value as shapes;
ghost use Rattle.avro_codec.specs.Plain.{plain, plain_entry};
ghost use Rattle.avro_value.specs.Judging.{Judges, judged, judged_entry, verdict};
ghost use Rattle.avro_value.specs.Steps.{Fails};

use crate::leaf::{
    put_boolean, put_bytes, put_fixed, put_int, put_key, put_long, put_long_bytes, put_sized,
    put_symbol, put_text,
};
use avro_datum::{Datum, MapItem};
use avro_schema::Schema;
use avro_value::AvroNo;
use avro_value::level::{leaf, open};
use avro_value::limits::MAX_LEVELS;
use avro_value::pick::{branch_in, entries_in, fields_in, is_null, items_in};
use std::alloc::Global;

#[cycle(encoder)]
fn put_branch(
    out: &mut Vec<u8>,
    schema: &Schema,
    node: u32,
    levels: u32,
    next: u32,
    place: u32,
    value: &Datum,
) -> Result<u32, AvroNo>
    requires { HasNode schema.now node }
    ensures verdict { (t : AvroType) → Stands schema.now node t
        → Judges result (judged (tree_of schema.now) levels t next (shapes.branch place (value_of value.now))) }
    ensures bytes { OnOk result (out.new.items ≡ out.old.items ++ plain (shapes.branch place (value_of value.now))) }
{
    let below = open(levels, next)?;
    let Some(branch) = branch_in(schema, node, place) else {
        return Err(AvroNo::Mismatch(next));
    };
    put_long_bytes(out, i64::from(place))?;
    put_node(out, schema, branch, below, next + 1, value)
}

#[cycle(encoder)]
fn put_fields(
    out: &mut Vec<u8>,
    schema: &Schema,
    node: u32,
    levels: u32,
    next: u32,
    values: &[Datum],
) -> Result<u32, AvroNo>
    requires { HasNode schema.now node }
    ensures verdict { (t : AvroType) → Stands schema.now node t
        → Judges result (judged (tree_of schema.now) levels t next (shapes.fields (values_of (map value_of values.now)))) }
    ensures bytes { OnOk result (out.new.items ≡ out.old.items ++ plain (shapes.fields (values_of (map value_of values.now)))) }
{
    let below = open(levels, next)?;
    let Some(fields) = fields_in(schema, node, values.len()) else {
        return Err(AvroNo::Mismatch(next));
    };
    let mut next = next + 1;
    for (index, value) in values.iter().enumerate() {
        next = match put_node(out, schema, fields[index].node, below, next, value) {
            Ok(behind) => behind,
            Err(e) => return Err(e),
        };
    }
    Ok(next)
}

#[cycle(encoder)]
fn put_items(
    out: &mut Vec<u8>,
    schema: &Schema,
    node: u32,
    levels: u32,
    next: u32,
    values: &[Datum],
) -> Result<u32, AvroNo>
    requires { HasNode schema.now node }
    ensures verdict { (t : AvroType) → Stands schema.now node t
        → Judges result (judged (tree_of schema.now) levels t next (shapes.items (values_of (map value_of values.now)))) }
    ensures bytes { OnOk result (out.new.items ≡ out.old.items ++ plain (shapes.items (values_of (map value_of values.now)))) }
{
    let below = open(levels, next)?;
    let Some(item) = items_in(schema, node, values.len()) else {
        return Err(AvroNo::Mismatch(next));
    };
    let mut next = next + 1;
    if values.is_empty() {
        out.push(0)?;
        return Ok(next);
    }
    put_long_bytes(out, values.len() as i64)?;
    for value in values {
        next = match put_node(out, schema, item, below, next, value) {
            Ok(behind) => behind,
            Err(e) => return Err(e),
        };
    }
    out.push(0)?;
    Ok(next)
}

#[cycle(encoder)]
fn put_entry(
    out: &mut Vec<u8>,
    schema: &Schema,
    node: u32,
    levels: u32,
    next: u32,
    entry: &MapItem,
) -> Result<u32, AvroNo>
    requires { HasNode schema.now node }
    ensures verdict { (t : AvroType) → Stands schema.now node t
        → Judges result (judged_entry (tree_of schema.now) levels t next (item_of entry.now)) }
    ensures bytes { OnOk result (out.new.items ≡ out.old.items ++ plain_entry (item_of entry.now)) }
{
    match put_key(out, next, entry.key.as_str()) {
        Ok(()) => {}
        Err(e) => return Err(e),
    }
    put_node(out, schema, node, levels, next, &entry.value)
}

#[cycle(encoder)]
fn put_entries(
    out: &mut Vec<u8>,
    schema: &Schema,
    node: u32,
    levels: u32,
    next: u32,
    entries: &[MapItem],
) -> Result<u32, AvroNo>
    requires { HasNode schema.now node }
    ensures verdict { (t : AvroType) → Stands schema.now node t
        → Judges result (judged (tree_of schema.now) levels t next (shapes.entries (entries_of (map item_of entries.now)))) }
    ensures bytes { OnOk result (out.new.items ≡ out.old.items ++ plain (shapes.entries (entries_of (map item_of entries.now)))) }
{
    let below = open(levels, next)?;
    let Some(value) = entries_in(schema, node, entries.len()) else {
        return Err(AvroNo::Mismatch(next));
    };
    let mut next = next + 1;
    if entries.is_empty() {
        out.push(0)?;
        return Ok(next);
    }
    put_long_bytes(out, entries.len() as i64)?;
    for entry in entries {
        next = match put_entry(out, schema, value, below, next, entry) {
            Ok(behind) => behind,
            Err(e) => return Err(e),
        };
    }
    out.push(0)?;
    Ok(next)
}

#[cycle(encoder)]
fn put_node(
    out: &mut Vec<u8>,
    schema: &Schema,
    node: u32,
    levels: u32,
    next: u32,
    datum: &Datum,
) -> Result<u32, AvroNo>
    requires { HasNode schema.now node }
    ensures verdict { (t : AvroType) → Stands schema.now node t
        → Judges result (judged (tree_of schema.now) levels t next (value_of datum.now)) }
    ensures bytes { OnOk result (out.new.items ≡ out.old.items ++ plain (value_of datum.now)) }
{
    match datum {
        Datum::Null => leaf(next, is_null(schema, node)),
        Datum::Boolean(value) => put_boolean(out, schema, node, next, *value),
        Datum::Int(value) => put_int(out, schema, node, next, *value),
        Datum::Long(value) => put_long(out, schema, node, next, *value),
        Datum::Bytes(value) => put_bytes(out, schema, node, next, value.as_slice()),
        Datum::Text(value) => put_text(out, schema, node, next, value.as_str()),
        Datum::Fixed(value) => put_fixed(out, schema, node, next, value.as_slice()),
        Datum::Symbol(place) => put_symbol(out, schema, node, next, *place),
        Datum::Branch(place, value) => put_branch(
            out,
            schema,
            node,
            levels,
            next,
            *place,
            value.get(),
        ),
        Datum::Fields(values) => put_fields(out, schema, node, levels, next, values.as_slice()),
        Datum::Items(values) => put_items(out, schema, node, levels, next, values.as_slice()),
        Datum::Entries(entries) => put_entries(out, schema, node, levels, next, entries.as_slice()),
    }
}

// The plain spelling behind what the buffer holds, or the first refusal.
#[tactic(auto, unfolding(avro_value::specs::Judging::verdict))]
fn write_all(out: Vec<u8>, schema: &Schema, datum: &Datum) -> Result<Vec<u8>, AvroNo>
    ensures value { IfOk result (λ bytes. bytes.items ≡ out.items ++ plain (value_of datum.now)) }
    ensures verdict { MatchResult result
        (λ _. (n : ℕ) × (verdict (tree_of schema.now) (value_of datum.now) ≡ Ok n))
        (λ e. Fails e (verdict (tree_of schema.now) (value_of datum.now))) }
{
    let mut out = out;
    match put_node(&mut out, schema, schema.root(), MAX_LEVELS, 0, datum) {
        Ok(_) => Ok(out),
        Err(e) => Err(e),
    }
}

/// Puts the datum's one spelling with shortest varints and one block behind what the buffer holds, and gives the buffer
/// back. With a refusal the buffer is dropped.
pub fn encode_into(out: Vec<u8>, schema: &Schema, datum: &Datum) -> Result<Vec<u8>, AvroNo>
    ensures value { IfOk result (λ bytes. bytes.items ≡ out.items ++ plain (value_of datum.now)) }
    // It is a spelling of the datum, which is within the limits.
    ensures spells { OnOk result (IsDatum (tree_of schema.now) (tree_of schema.now) (value_of datum.now) (plain (value_of datum.now))
        × IsSmall (value_of datum.now)) }
    // A datum within the limits that has a spelling is written.
    ensures only { (bs : List ℕ) → IsDatum (tree_of schema.now) (tree_of schema.now) (value_of datum.now) bs
        → IsSmall (value_of datum.now) → IfErr result (λ e. e ≡ Want) }
    // The refusal is that of the first node in preorder that isn't of its schema or passes a limit.
    ensures refusal { IfErr result (λ e. Fails e (verdict (tree_of schema.now) (value_of datum.now))) }
{
    write_all(out, schema, datum)
}

/// The datum's one spelling with shortest varints and one block.
pub fn encode(alloc: Global, schema: &Schema, datum: &Datum) -> Result<Vec<u8>, AvroNo>
    ensures value { IfOk result (λ out. out.items ≡ plain (value_of datum.now)) }
    // It is a spelling of the datum, which is within the limits.
    ensures spells { IfOk result (λ out. IsDatum (tree_of schema.now) (tree_of schema.now) (value_of datum.now) out.items
        × IsSmall (value_of datum.now)) }
    // A datum within the limits that has a spelling is written.
    ensures only { (bs : List ℕ) → IsDatum (tree_of schema.now) (tree_of schema.now) (value_of datum.now) bs
        → IsSmall (value_of datum.now) → IfErr result (λ e. e ≡ Want) }
    // The refusal is that of the first node in preorder that isn't of its schema or passes a limit.
    ensures refusal { IfErr result (λ e. Fails e (verdict (tree_of schema.now) (value_of datum.now))) }
{
    encode_into(Vec::new(alloc), schema, datum)
}
