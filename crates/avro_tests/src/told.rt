//! What the calls answer to a test, told as a text. Each call stands in a function without clauses.
use avro_codec::{AvroNo, Datum, MapItem, decode, encode, encode_into};
use avro_schema::{Schema, SchemaNo};
use gate_io::Text;
use sqlite_items::{Boxed, Items};
use std::alloc::Global;
use std::process::Abort;
use std::test::Fail;

/// A datum without parts.
#[derive(Clone, Copy)]
pub(crate) enum Leaf {
    Null,
    Int,
    Long,
    /// The text "x".
    X,
    /// One byte.
    Fixed,
    Symbol(u32),
}

/// What a datum is made of.
#[derive(Clone, Copy)]
pub(crate) enum Given<'a> {
    /// Its JSON text. Told are its bytes in hex and `=`, and behind that the text that these are shown as, if it is another.
    Json(&'a str),
    /// Its bytes. Told are those that are written of it, in hex, or `plain` if they are the same.
    Bytes(&'a [u8]),
    /// Bytes of which the JSON text is told.
    Shown(&'a [u8]),
    /// A value, a branch with its value, or parts: all numbers are 1. Told are the bytes behind a 7, and the JSON text.
    Leaf(Leaf),
    Branch(u32, Leaf),
    Fields(&'a [Leaf]),
    Items(&'a [Leaf]),
    /// Keys, each with an int.
    Keys(&'a [&'a str]),
    /// So many nulls.
    Nulls(usize),
    /// So many records in each other, each with one field that is a union's branch.
    Cells(usize),
}

fn text(alloc: Global, text: &str) -> Result<String, Fail> {
    Ok(String::from_str(alloc, text)?)
}

fn told_no(alloc: Global, no: AvroNo) -> Result<String, Fail> {
    match no {
        AvroNo::Mismatch(node) => Ok(format!(in alloc; "mismatch at {node}")?),
        AvroNo::Range(node) => Ok(format!(in alloc; "range at {node}")?),
        AvroNo::Short => text(alloc, "short"),
        AvroNo::Rest => text(alloc, "rest"),
        AvroNo::BadUtf8 => text(alloc, "not UTF-8"),
        AvroNo::TooDeep => text(alloc, "too deep"),
        AvroNo::TooMany => text(alloc, "too many"),
        AvroNo::Want => text(alloc, "want"),
    }
}

fn put_hex(out: &mut String, bytes: &[u8]) -> Result<(), Fail> {
    for byte in bytes {
        for digit in [byte / 16, byte % 16] {
            out.push(char::from_digit(u32::from(digit), 16).unwrap_or('?'))?;
        }
    }
    Ok(())
}

/// The bytes in hex, and something behind them.
fn hex(alloc: Global, bytes: &[u8], behind: &str) -> Result<String, Fail> {
    let mut out = String::new(alloc);
    put_hex(&mut out, bytes)?;
    out.push_str(behind)?;
    Ok(out)
}

fn schema_of(alloc: Global, text: &str) -> Result<Schema, SchemaNo> {
    Schema::read(alloc, text)
}

/// The datum of a JSON text, or its refusal. None where the text is no JSON.
fn read_json(alloc: Global, schema: &Schema, json: &str) -> Option<Result<Datum, AvroNo>> {
    let Ok(tree) = json_span::read(alloc, json.as_bytes()) else {
        return None;
    };
    Some(Datum::read(alloc, schema, &tree, tree.root()))
}

fn read_bytes(alloc: Global, schema: &Schema, bytes: &[u8]) -> Result<Datum, AvroNo> {
    decode(alloc, schema, bytes)
}

fn bytes_of(alloc: Global, schema: &Schema, datum: &Datum) -> Result<Vec<u8>, AvroNo> {
    encode(alloc, schema, datum)
}

fn bytes_behind(front: Vec<u8>, schema: &Schema, datum: &Datum) -> Result<Vec<u8>, AvroNo> {
    encode_into(front, schema, datum)
}

fn text_of(alloc: Global, schema: &Schema, datum: &Datum) -> Result<String, AvroNo> {
    datum.text(alloc, schema)
}

fn text_behind(
    alloc: Global,
    front: String,
    schema: &Schema,
    datum: &Datum,
) -> Result<String, AvroNo> {
    datum.text_into(alloc, front, schema)
}

/// The text, or its refusal.
fn shown(alloc: Global, shown: Result<String, AvroNo>) -> Result<String, Fail> {
    match shown {
        Ok(text) => Ok(text),
        Err(no) => told_no(alloc, no),
    }
}

/// The bytes, and the JSON text of what they spell.
fn both_of(alloc: Global, schema: &Schema, bytes: &[u8]) -> Result<String, Fail> {
    let front = hex(alloc, bytes, "=")?;
    match read_bytes(alloc, schema, bytes) {
        Ok(datum) => shown(alloc, text_behind(alloc, front, schema, &datum)),
        Err(no) => told_no(alloc, no),
    }
}

fn of_read(alloc: Global, schema: &Schema, datum: &Datum) -> Result<String, Fail> {
    match bytes_of(alloc, schema, datum) {
        Ok(bytes) => both_of(alloc, schema, bytes.as_slice()),
        Err(no) => told_no(alloc, no),
    }
}

fn of_json(alloc: Global, schema: &Schema, json: &str) -> Result<String, Fail> {
    match read_json(alloc, schema, json) {
        Some(Ok(datum)) => of_read(alloc, schema, &datum),
        Some(Err(no)) => told_no(alloc, no),
        None => text(alloc, "no JSON"),
    }
}

/// Bytes that were written where these had been read.
fn again(alloc: Global, bytes: &[u8], written: &[u8]) -> Result<String, Fail> {
    if written == bytes {
        text(alloc, "plain")
    } else {
        hex(alloc, written, "")
    }
}

/// What is written of a datum that was read from these bytes.
fn rewritten(alloc: Global, schema: &Schema, bytes: &[u8], datum: &Datum) -> Result<String, Fail> {
    match bytes_of(alloc, schema, datum) {
        Ok(written) => again(alloc, bytes, written.as_slice()),
        Err(no) => told_no(alloc, no),
    }
}

fn of_bytes(alloc: Global, schema: &Schema, bytes: &[u8]) -> Result<String, Fail> {
    match read_bytes(alloc, schema, bytes) {
        Ok(datum) => rewritten(alloc, schema, bytes, &datum),
        Err(no) => told_no(alloc, no),
    }
}

fn of_shown(alloc: Global, schema: &Schema, bytes: &[u8]) -> Result<String, Fail> {
    match read_bytes(alloc, schema, bytes) {
        Ok(datum) => shown(alloc, text_of(alloc, schema, &datum)),
        Err(no) => told_no(alloc, no),
    }
}

/// The bytes of a datum that was made, behind a 7.
fn written(alloc: Global, schema: &Schema, datum: &Datum) -> Result<String, Fail> {
    match bytes_behind(Vec::from_array(alloc, [7])?, schema, datum) {
        Ok(bytes) => hex(alloc, bytes.as_slice(), ""),
        Err(no) => told_no(alloc, no),
    }
}

fn both_told(alloc: Global, bytes: &str, json: &str) -> Result<String, Fail> {
    Ok(format!(in alloc; "{bytes}, {json}")?)
}

/// Both answers to a datum that was made.
fn of_made(alloc: Global, schema: &Schema, datum: &Datum) -> Result<String, Fail> {
    let bytes = written(alloc, schema, datum)?;
    let json = shown(alloc, text_of(alloc, schema, datum))?;
    both_told(alloc, bytes.as_str(), json.as_str())
}

fn leaf_of(alloc: Global, what: Leaf) -> Result<Datum, Fail> {
    match what {
        Leaf::Null => Ok(Datum::Null),
        Leaf::Int => Ok(Datum::Int(1)),
        Leaf::Long => Ok(Datum::Long(1)),
        Leaf::X => Ok(Datum::Text(Text::from_str(alloc, "x")?)),
        Leaf::Fixed => Ok(Datum::Fixed(Items::from_vec(Vec::from_array(alloc, [1])?))),
        Leaf::Symbol(place) => Ok(Datum::Symbol(place)),
    }
}

fn branch(alloc: Global, place: u32, value: Datum) -> Result<Datum, Fail> {
    Ok(Datum::Branch(place, Boxed::new(alloc, value)?))
}

fn leaves(alloc: Global, what: &[Leaf]) -> Result<Items<Datum>, Fail> {
    let mut out = Vec::new(alloc);
    for one in what {
        out.push(leaf_of(alloc, *one)?)?;
    }
    Ok(Items::from_vec(out))
}

fn nulls(alloc: Global, count: usize) -> Result<Datum, Fail> {
    let mut out = Vec::new(alloc);
    for _ in 0..count {
        out.push(Datum::Null)?;
    }
    Ok(Datum::Items(Items::from_vec(out)))
}

fn item(alloc: Global, key: &str) -> Result<MapItem, Fail> {
    Ok(MapItem {
        key: Text::from_str(alloc, key)?,
        value: Datum::Int(1),
    })
}

fn entries(alloc: Global, keys: &[&str]) -> Result<Datum, Fail> {
    let mut out = Vec::new(alloc);
    for key in keys {
        out.push(item(alloc, key)?)?;
    }
    Ok(Datum::Entries(Items::from_vec(out)))
}

fn cell(alloc: Global, next: Datum) -> Result<Datum, Fail> {
    Ok(Datum::Fields(Items::from_vec(Vec::from_array(alloc, [next])?)))
}

fn cells(alloc: Global, count: usize) -> Result<Datum, Fail> {
    let mut cells = cell(alloc, branch(alloc, 0, Datum::Null)?)?;
    for _ in 1..count {
        cells = cell(alloc, branch(alloc, 1, cells)?)?;
    }
    Ok(cells)
}

fn made(alloc: Global, given: &Given<'_>) -> Result<Datum, Fail> {
    match given {
        Given::Leaf(what) => leaf_of(alloc, *what),
        Given::Branch(place, what) => branch(alloc, *place, leaf_of(alloc, *what)?),
        Given::Fields(what) => Ok(Datum::Fields(leaves(alloc, what)?)),
        Given::Items(what) => Ok(Datum::Items(leaves(alloc, what)?)),
        Given::Keys(keys) => entries(alloc, keys),
        Given::Nulls(count) => nulls(alloc, *count),
        Given::Cells(count) => cells(alloc, *count),
        _ => Ok(Datum::Null),
    }
}

fn of_given(alloc: Global, schema: &Schema, given: &Given<'_>) -> Result<String, Fail> {
    match made(alloc, given) {
        Ok(datum) => of_made(alloc, schema, &datum),
        Err(e) => Err(e),
    }
}

/// What is told of a datum under a schema.
fn under(alloc: Global, schema: &Schema, given: &Given<'_>) -> Result<String, Fail> {
    match given {
        Given::Json(json) => of_json(alloc, schema, json),
        Given::Bytes(bytes) => of_bytes(alloc, schema, bytes),
        Given::Shown(bytes) => of_shown(alloc, schema, bytes),
        _ => of_given(alloc, schema, given),
    }
}

fn told(alloc: Global, schema: &str, given: &Given<'_>) -> Result<String, Fail> {
    match schema_of(alloc, schema) {
        Ok(schema) => under(alloc, &schema, given),
        Err(_) => text(alloc, "no schema"),
    }
}

/// What is told, without the JSON text that was given.
fn other<'a>(told: &'a str, given: &Given<'_>) -> &'a str {
    match given {
        Given::Json(json) => match told.strip_suffix(*json) {
            Some(front) if front.ends_with('=') => front,
            _ => told,
        },
        _ => told,
    }
}

/// Each row is told so.
pub(crate) fn told_so(
    rt: &impl Abort,
    alloc: Global,
    rows: &[(&str, Given<'_>, &str)],
) -> Result<(), Fail> {
    for (index, (schema, given, wanted)) in rows.iter().enumerate() {
        let told = told(alloc, schema, given)?;
        assert_eq!(rt; other(told.as_str(), given), *wanted, "row {index}");
    }
    Ok(())
}

/// A text, another one so many times, and a third.
pub(crate) fn repeated(
    alloc: Global,
    front: &str,
    part: &str,
    count: usize,
    end: &str,
) -> Result<String, Fail> {
    let mut out = String::from_str(alloc, front)?;
    for _ in 0..count {
        out.push_str(part)?;
    }
    out.push_str(end)?;
    Ok(out)
}
