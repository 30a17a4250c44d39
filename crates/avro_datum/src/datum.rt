//! A datum: a value of an Avro schema.
ghost use Rattle.std.specs.Prelude.{◌≡◌, ◌++◌, ◌∷◌, [], map, IfOk, IfErr, OnOk};
ghost use Rattle.avro_datum.specs.Data.{item_of, value_of};
ghost use Rattle.avro_value.specs.Value.{entries_of, values_of};
ghost use Rattle.avro_value.specs.Value as shapes;
ghost use Rattle.avro_value.specs.declared.error.AvroNo.TheVariants.{Want};

use avro_value::AvroNo;
use gate_io::Text;
use sqlite_items::{Boxed, Items};
use std::alloc::Global;

/// An entry of a map.
#[cycle(datum)]
#[derive(Drop)]
pub struct MapItem {
    pub key: Text,
    pub value: Datum,
}

/// A value of a schema (Apache Avro specification, "Data Serialization and Deserialization").
#[cycle(datum)]
#[derive(Drop)]
pub enum Datum {
    Null,
    Boolean(bool),
    Int(i32),
    Long(i64),
    Bytes(Items<u8>),
    Text(Text),
    Fixed(Items<u8>),
    /// The place of an enum's symbol.
    Symbol(u32),
    /// The place of a union's branch, and the value.
    Branch(u32, Boxed<Datum>),
    /// A record's fields in the order of the schema.
    Fields(Items<Datum>),
    /// An array.
    Items(Items<Datum>),
    /// A map.
    Entries(Items<MapItem>),
}

/// One more value.
pub fn push_value(out: &mut Vec<Datum>, value: Datum) -> Result<(), AvroNo>
    ensures ok { OnOk result (map value_of out.new.items ≡ map value_of out.old.items ++ value_of value ∷ []) }
    ensures want { IfErr result (λ e. e ≡ Want) }
{
    out.push(value)?;
    Ok(())
}

/// One more entry.
pub fn push_entry(
    alloc: Global,
    out: &mut Vec<MapItem>,
    key: &str,
    value: Datum,
) -> Result<(), AvroNo>
    ensures ok { OnOk result (map item_of out.new.items
        ≡ map item_of out.old.items ++ record { key = key.now; value = value_of value } ∷ []) }
    ensures want { IfErr result (λ e. e ≡ Want) }
{
    let key = Text::from_str(alloc, key)?;
    out.push(MapItem { key, value })?;
    Ok(())
}

/// A branch of a union.
pub fn make_branch(alloc: Global, place: u32, value: Datum) -> Result<Datum, AvroNo>
    ensures ok { IfOk result (λ d. value_of d ≡ shapes.branch place (value_of value)) }
    ensures want { IfErr result (λ e. e ≡ Want) }
{
    let value = Boxed::new(alloc, value)?;
    Ok(Datum::Branch(place, value))
}

pub fn make_fields(values: Vec<Datum>) -> Datum
    ensures { value_of result ≡ shapes.fields (values_of (map value_of values.items)) }
{
    Datum::Fields(Items::from_vec(values))
}

pub fn make_items(values: Vec<Datum>) -> Datum
    ensures { value_of result ≡ shapes.items (values_of (map value_of values.items)) }
{
    Datum::Items(Items::from_vec(values))
}

pub fn make_entries(entries: Vec<MapItem>) -> Datum
    ensures { value_of result ≡ shapes.entries (entries_of (map item_of entries.items)) }
{
    Datum::Entries(Items::from_vec(entries))
}
