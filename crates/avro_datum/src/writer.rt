//! A datum as JSON tokens.
ghost use Rattle.std.specs.Prelude.{◌≡◌, ◌++◌, map, length, ℕ, List, Ok, IfOk, IfErr, string_bytes};
ghost use Rattle.json.specs.Token.{Token};
ghost use Rattle.json.specs.Print.{print};
ghost use Rattle.json_span.specs.Json.{Json};
ghost use Rattle.json_span.specs.Text.{IsText};
ghost use Rattle.json_span.specs.Refusals.{max_levels};
ghost use Rattle.avro_schema.specs.Types.{AvroType, resolved};
ghost use Rattle.avro_schema.specs.Nodes.{HasNode, Stands, StandForFields, tree_of};
ghost use Rattle.avro_schema.specs.Types as schema_types;
ghost use Rattle.avro_value.specs.declared.error.AvroNo.TheVariants.{Want};
ghost use Rattle.avro_datum.specs.Data.{item_of, value_of};
ghost use Rattle.avro_value.specs.Value.{AreTyped, EntriesTyped, IsSmall, IsTyped, values_of, entries_of};
ghost use Rattle.avro_value.specs.Value as shapes;
ghost use Rattle.avro_value.specs.Encoding.{IsJson, differ};
ghost use Rattle.avro_datum.specs.Shown.{Shows, shown, shown_fields, shown_items, shown_entries, labelled, keys_of, tokens_of};
ghost use Rattle.avro_datum.specs.Shown as tokens;
ghost use Rattle.avro_value.specs.Picks.{Picks};
ghost use Rattle.avro_value.specs.Steps.{Fails};

use crate::datum::{Datum, MapItem};
use crate::text_leaf::{
    put_boolean, put_bytes, put_fixed, put_int, put_long, put_null, put_symbol, put_text,
};
use avro_schema::{Field, Schema};
use avro_value::AvroNo;
use avro_value::level::open;
use avro_value::limits::MAX_LEVELS;
use avro_value::pick::{branch_in, entries_in, fields_in, is_null, items_in};
use json::Writer;
use std::alloc::Global;
use std::collections::BTreeSet;

/// A branch's value: null stands for itself, another in an object with one member that names the branch.
#[cycle(writer)]
fn put_labelled(
    alloc: Global,
    out: &mut Writer,
    schema: &Schema,
    branch: u32,
    levels: u32,
    next: u32,
    value: &Datum,
) -> Result<u32, AvroNo>
    requires { HasNode schema.now branch }
    ensures shown { (t : AvroType) → Stands schema.now branch t
        → Shows result (labelled t (shown (tree_of schema.now) levels t next (value_of value.now)))
        out.old.tokens out.new.tokens }
    ensures typed { IfOk result (λ _. IsTyped (value_of value.now)) }
    ensures before { out.new.before ≡ out.old.before }
{
    if is_null(schema, branch) {
        return put_node(alloc, out, schema, branch, levels, next, value);
    }
    out.begin_object()?;
    out.key(schema.branch_name(branch))?;
    let behind = match put_node(alloc, out, schema, branch, levels, next, value) {
        Ok(behind) => behind,
        Err(e) => return Err(e),
    };
    out.end_object()?;
    Ok(behind)
}

#[cycle(writer)]
fn put_branch(
    alloc: Global,
    out: &mut Writer,
    schema: &Schema,
    node: u32,
    levels: u32,
    next: u32,
    place: u32,
    value: &Datum,
) -> Result<u32, AvroNo>
    requires { HasNode schema.now node }
    ensures shown { (t : AvroType) → Stands schema.now node t
        → Shows result (shown (tree_of schema.now) levels t next (shapes.branch place (value_of value.now)))
        out.old.tokens out.new.tokens }
    ensures typed { IfOk result (λ _. IsTyped (value_of value.now)) }
    ensures before { out.new.before ≡ out.old.before }
{
    let below = open(levels, next)?;
    let Some(branch) = branch_in(schema, node, place) else {
        return Err(AvroNo::Mismatch(next));
    };
    put_labelled(alloc, out, schema, branch, below, next + 1, value)
}

/// Each field under its name.
#[cycle(writer)]
fn put_members(
    alloc: Global,
    out: &mut Writer,
    schema: &Schema,
    fields: &[Field],
    levels: u32,
    next: u32,
    values: &[Datum],
) -> Result<u32, AvroNo>
    requires count { length fields.now ≡ length values.now }
    requires stand { (ts : schema_types.Fields) × StandForFields schema.now fields.now ts }
    ensures shown { (ts : schema_types.Fields) → StandForFields schema.now fields.now ts
        → Shows result (shown_fields (tree_of schema.now) levels ts next (values_of (map value_of values.now)))
        out.old.tokens out.new.tokens }
    ensures typed { IfOk result (λ _. AreTyped (values_of (map value_of values.now))) }
    ensures before { out.new.before ≡ out.old.before }
{
    let mut next = next;
    for (index, value) in values.iter().enumerate() {
        let field = &fields[index];
        out.key(field.name.as_str())?;
        next = match put_node(alloc, out, schema, field.node, levels, next, value) {
            Ok(behind) => behind,
            Err(e) => return Err(e),
        };
    }
    Ok(next)
}

#[cycle(writer)]
fn put_fields(
    alloc: Global,
    out: &mut Writer,
    schema: &Schema,
    node: u32,
    levels: u32,
    next: u32,
    values: &[Datum],
) -> Result<u32, AvroNo>
    requires { HasNode schema.now node }
    ensures shown { (t : AvroType) → Stands schema.now node t
        → Shows result (shown (tree_of schema.now) levels t next (shapes.fields (values_of (map value_of values.now))))
        out.old.tokens out.new.tokens }
    ensures typed { IfOk result (λ _. AreTyped (values_of (map value_of values.now))) }
    ensures before { out.new.before ≡ out.old.before }
{
    let below = open(levels, next)?;
    let Some(fields) = fields_in(schema, node, values.len()) else {
        return Err(AvroNo::Mismatch(next));
    };
    out.begin_object()?;
    let behind = match put_members(alloc, out, schema, fields, below, next + 1, values) {
        Ok(behind) => behind,
        Err(e) => return Err(e),
    };
    out.end_object()?;
    Ok(behind)
}

/// Each item in order.
#[cycle(writer)]
fn put_values(
    alloc: Global,
    out: &mut Writer,
    schema: &Schema,
    item: u32,
    levels: u32,
    next: u32,
    values: &[Datum],
) -> Result<u32, AvroNo>
    requires { HasNode schema.now item }
    ensures shown { (t : AvroType) → Stands schema.now item t
        → Shows result (shown_items (tree_of schema.now) levels t next (values_of (map value_of values.now)))
        out.old.tokens out.new.tokens }
    ensures typed { IfOk result (λ _. AreTyped (values_of (map value_of values.now))) }
    ensures before { out.new.before ≡ out.old.before }
{
    let mut next = next;
    for value in values {
        next = match put_node(alloc, out, schema, item, levels, next, value) {
            Ok(behind) => behind,
            Err(e) => return Err(e),
        };
    }
    Ok(next)
}

#[cycle(writer)]
fn put_items(
    alloc: Global,
    out: &mut Writer,
    schema: &Schema,
    node: u32,
    levels: u32,
    next: u32,
    values: &[Datum],
) -> Result<u32, AvroNo>
    requires { HasNode schema.now node }
    ensures shown { (t : AvroType) → Stands schema.now node t
        → Shows result (shown (tree_of schema.now) levels t next (shapes.items (values_of (map value_of values.now))))
        out.old.tokens out.new.tokens }
    ensures typed { IfOk result (λ _. AreTyped (values_of (map value_of values.now))) }
    ensures before { out.new.before ≡ out.old.before }
{
    let below = open(levels, next)?;
    let Some(item) = items_in(schema, node, values.len()) else {
        return Err(AvroNo::Mismatch(next));
    };
    out.begin_array()?;
    let behind = match put_values(alloc, out, schema, item, below, next + 1, values) {
        Ok(behind) => behind,
        Err(e) => return Err(e),
    };
    out.end_array()?;
    Ok(behind)
}

/// Whether no key is there twice.
fn keys_differ(alloc: Global, entries: &[MapItem]) -> Result<bool, AvroNo>
    ensures value { IfOk result (λ b. b ≡ differ (keys_of (entries_of (map item_of entries.now)))) }
    ensures want { IfErr result (λ e. e ≡ Want) }
{
    let mut keys = BTreeSet::new(alloc);
    for entry in entries {
        if !keys.insert(entry.key.as_str())? {
            return Ok(false);
        }
    }
    Ok(true)
}

/// The node of a map's values, where its keys differ.
fn values_in(
    alloc: Global,
    schema: &Schema,
    node: u32,
    entries: &[MapItem],
) -> Result<Option<u32>, AvroNo>
    requires { HasNode schema.now node }
    ensures value { IfOk result (λ found. (t : AvroType) → Stands schema.now node t
        → Picks schema.now found (tokens.values_in (resolved (tree_of schema.now) t)
        (entries_of (map item_of entries.now)))) }
    ensures want { IfErr result (λ e. e ≡ Want) }
{
    let Some(item) = entries_in(schema, node, entries.len()) else {
        return Ok(None);
    };
    if keys_differ(alloc, entries)? {
        Ok(Some(item))
    } else {
        Ok(None)
    }
}

/// Each entry under its key.
#[cycle(writer)]
fn put_pairs(
    alloc: Global,
    out: &mut Writer,
    schema: &Schema,
    item: u32,
    levels: u32,
    next: u32,
    entries: &[MapItem],
) -> Result<u32, AvroNo>
    requires { HasNode schema.now item }
    ensures shown { (t : AvroType) → Stands schema.now item t
        → Shows result (shown_entries (tree_of schema.now) levels t next (entries_of (map item_of entries.now)))
        out.old.tokens out.new.tokens }
    ensures typed { IfOk result (λ _. EntriesTyped (entries_of (map item_of entries.now))) }
    ensures before { out.new.before ≡ out.old.before }
{
    let mut next = next;
    for entry in entries {
        out.key(entry.key.as_str())?;
        next = match put_node(alloc, out, schema, item, levels, next, &entry.value) {
            Ok(behind) => behind,
            Err(e) => return Err(e),
        };
    }
    Ok(next)
}

#[cycle(writer)]
fn put_entries(
    alloc: Global,
    out: &mut Writer,
    schema: &Schema,
    node: u32,
    levels: u32,
    next: u32,
    entries: &[MapItem],
) -> Result<u32, AvroNo>
    requires { HasNode schema.now node }
    ensures shown { (t : AvroType) → Stands schema.now node t
        → Shows result (shown (tree_of schema.now) levels t next (shapes.entries (entries_of (map item_of entries.now))))
        out.old.tokens out.new.tokens }
    ensures typed { IfOk result (λ _. EntriesTyped (entries_of (map item_of entries.now))) }
    ensures before { out.new.before ≡ out.old.before }
{
    let below = open(levels, next)?;
    let Some(item) = values_in(alloc, schema, node, entries)? else {
        return Err(AvroNo::Mismatch(next));
    };
    out.begin_object()?;
    let behind = match put_pairs(alloc, out, schema, item, below, next + 1, entries) {
        Ok(behind) => behind,
        Err(e) => return Err(e),
    };
    out.end_object()?;
    Ok(behind)
}

#[cycle(writer)]
fn put_node(
    alloc: Global,
    out: &mut Writer,
    schema: &Schema,
    node: u32,
    levels: u32,
    next: u32,
    datum: &Datum,
) -> Result<u32, AvroNo>
    requires { HasNode schema.now node }
    ensures shown { (t : AvroType) → Stands schema.now node t
        → Shows result (shown (tree_of schema.now) levels t next (value_of datum.now))
        out.old.tokens out.new.tokens }
    ensures typed { IfOk result (λ _. IsTyped (value_of datum.now)) }
    ensures before { out.new.before ≡ out.old.before }
{
    match datum {
        Datum::Null => put_null(out, schema, node, next),
        Datum::Boolean(value) => put_boolean(out, schema, node, next, *value),
        Datum::Int(value) => put_int(out, schema, node, next, *value),
        Datum::Long(value) => put_long(out, schema, node, next, *value),
        Datum::Bytes(value) => put_bytes(alloc, out, schema, node, next, value.as_slice()),
        Datum::Text(value) => put_text(out, schema, node, next, value.as_str()),
        Datum::Fixed(value) => put_fixed(alloc, out, schema, node, next, value.as_slice()),
        Datum::Symbol(place) => put_symbol(out, schema, node, next, *place),
        Datum::Branch(place, value) => put_branch(
            alloc,
            out,
            schema,
            node,
            levels,
            next,
            *place,
            value.get(),
        ),
        Datum::Fields(values) => {
            put_fields(alloc, out, schema, node, levels, next, values.as_slice())
        }
        Datum::Items(values) => put_items(
            alloc,
            out,
            schema,
            node,
            levels,
            next,
            values.as_slice(),
        ),
        Datum::Entries(entries) => {
            put_entries(alloc, out, schema, node, levels, next, entries.as_slice())
        }
    }
}

/// The datum's tokens behind a text.
#[tactic(auto, unfolding(crate::specs::Shown::tokens_of))]
fn write_all(alloc: Global, front: String, schema: &Schema, datum: &Datum) -> Result<String, AvroNo>
    ensures value { IfOk result (λ s. (ts : List Token) × (tokens_of (tree_of schema.now) (value_of datum.now) ≡ Ok ts)
        × (string_bytes s ≡ string_bytes front ++ print ts)) }
    ensures typed { IfOk result (λ _. IsTyped (value_of datum.now)) }
    ensures refusal { IfErr result (λ e. Fails e (tokens_of (tree_of schema.now) (value_of datum.now))) }
{
    let mut out = Writer::new(front.into_bytes());
    match put_node(alloc, &mut out, schema, schema.root(), MAX_LEVELS, 0, datum) {
        Ok(_) => {
            let bytes = out.into_inner();
            Ok(unsafe { String::from_utf8_unchecked(bytes) })
        }
        Err(e) => Err(e),
    }
}

impl Datum {
    /// The datum as JSON by Avro's JSON encoding, without white space and with the fields in the
    /// schema's order (Apache Avro specification, "JSON Encoding"). Bytes are the text of the code
    /// points that they number. A datum that isn't of the schema is refused with its first such
    /// node, and so is a map that has a key twice, or a datum past the limits of depth and nodes.
    pub fn text(&self, alloc: Global, schema: &Schema) -> Result<String, AvroNo>
        // The text is that of the datum's tokens.
        ensures value { IfOk result (λ s. (ts : List Token) × (tokens_of (tree_of schema.now) (value_of self.now) ≡ Ok ts)
            × (string_bytes s ≡ print ts)) }
        // The text is a JSON text of the datum.
        ensures again { IfOk result (λ s. (j : Json) × IsText max_levels (string_bytes s) j
            × IsJson (tree_of schema.now) (tree_of schema.now) (value_of self.now) j) }
        // A datum within the limits that has a JSON value is shown.
        ensures only { (j : Json) → IsJson (tree_of schema.now) (tree_of schema.now) (value_of self.now) j
            → IsSmall (value_of self.now) → IfErr result (λ e. e ≡ Want) }
        // The refusal is that of the first node in preorder that isn't of its schema or passes a limit.
        ensures refusal { IfErr result (λ e. Fails e (tokens_of (tree_of schema.now) (value_of self.now))) }
    {
        schema.names_differ();
        write_all(alloc, String::new(alloc), schema, self)
    }

    /// Puts the datum as JSON behind a text, and gives the text back. With a refusal the text is dropped.
    pub fn text_into(&self, alloc: Global, front: String, schema: &Schema) -> Result<String, AvroNo>
        // Behind the text stands that of the datum's tokens.
        ensures value { IfOk result (λ s. (ts : List Token) × (tokens_of (tree_of schema.now) (value_of self.now) ≡ Ok ts)
            × (string_bytes s ≡ string_bytes front ++ print ts)) }
        // What stands behind it is a JSON text of the datum.
        ensures again { IfOk result (λ s. (bytes : List ℕ) × (string_bytes s ≡ string_bytes front ++ bytes)
            × (j : Json) × IsText max_levels bytes j
            × IsJson (tree_of schema.now) (tree_of schema.now) (value_of self.now) j) }
        // A datum within the limits that has a JSON value is shown.
        ensures only { (j : Json) → IsJson (tree_of schema.now) (tree_of schema.now) (value_of self.now) j
            → IsSmall (value_of self.now) → IfErr result (λ e. e ≡ Want) }
        // The refusal is that of the first node in preorder that isn't of its schema or passes a limit.
        ensures refusal { IfErr result (λ e. Fails e (tokens_of (tree_of schema.now) (value_of self.now))) }
    {
        schema.names_differ();
        write_all(alloc, front, schema, self)
    }
}
