//! Values without parts from nodes of a JSON tree. A `number` is the datum's node, counted in preorder.
ghost use Rattle.std.specs.Prelude.{◌≡◌, ◌^◌, ℕ, List, suc, if◌then◌else◌, MatchResult};
ghost use Rattle.std.specs.List.{list_all};
ghost use Rattle.avro_schema.specs.Nodes.{Resolves};
ghost use Rattle.avro_schema.specs.Types.{enum_};
ghost use Rattle.json_span.specs.Json.{Json};
ghost use Rattle.json_span.specs.Nodes.{HasNode, Stands};
ghost use Rattle.json_token.specs.Number.{is_digit};
ghost use Rattle.avro_value.specs.declared.error.AvroNo.TheVariants.{Mismatch, Range};
ghost use Rattle.avro_value.specs.Parts.{Gives};
ghost use Rattle.avro_value.specs.Reading.{fixed_at, flag_at, integer_at, null_at, placed, points_at, points_of, ranged, symbol_at, text_at};
ghost use Rattle.avro_value.specs.Reading as reading;
ghost use Rattle.avro_value.specs.Steps.{Fails};
ghost use Rattle.avro_value.specs.Value as shapes;

use crate::error::AvroNo;
use avro_schema::Schema;
use json_span::{Kind, Tree};
use std::alloc::Global;

/// Fails unless the node is null.
pub fn null_in(tree: &Tree, node: u32, number: u32) -> Result<(), AvroNo>
    requires { HasNode tree.now node }
    ensures { (j : Json) → Stands tree.now node j → Gives (λ _. (shapes.null, suc number)) result (null_at number j) }
{
    match tree.kind(node) {
        Kind::Null => Ok(()),
        _ => Err(AvroNo::Mismatch(number)),
    }
}

pub fn flag_in(tree: &Tree, node: u32, number: u32) -> Result<bool, AvroNo>
    requires { HasNode tree.now node }
    ensures { (j : Json) → Stands tree.now node j → Gives (λ b. b) result (flag_at number j) }
{
    match tree.kind(node) {
        Kind::Bool(value) => Ok(value),
        _ => Err(AvroNo::Mismatch(number)),
    }
}

fn are_digits(text: &[u8]) -> bool
    ensures { result ≡ list_all is_digit text.now }
{
    text.iter().all(|b| b.is_ascii_digit())
}

/// Whether the text is digits behind at most one sign.
fn is_whole(text: &[u8]) -> bool
    ensures { result ≡ reading.is_whole text.now }
{
    if text.is_empty() {
        return false;
    }
    if text[0] == b'-' {
        are_digits(&text[1..])
    } else {
        are_digits(text)
    }
}

/// Why a number isn't an integer: it is one that is too long, or it has a fraction or an exponent.
fn no_integer(text: &[u8], number: u32) -> AvroNo
    ensures { result ≡ (if reading.is_whole text.now then Range number else Mismatch number) }
{
    if is_whole(text) {
        AvroNo::Range(number)
    } else {
        AvroNo::Mismatch(number)
    }
}

/// The integer of at most 38 digits that a number is.
fn integer_in(tree: &Tree, node: u32, number: u32) -> Result<i128, AvroNo>
    requires { HasNode tree.now node }
    ensures { (j : Json) → Stands tree.now node j → MatchResult result
        (λ n. (bound : ℕ) → integer_at number bound j ≡ ranged number bound n)
        (λ e. (bound : ℕ) → Fails e (integer_at number bound j)) }
{
    match tree.kind(node) {
        Kind::Number => match tree.int_of(node) {
            Some(value) => Ok(value),
            None => Err(no_integer(tree.text_of(node).as_bytes(), number)),
        },
        _ => Err(AvroNo::Mismatch(number)),
    }
}

pub fn int_in(tree: &Tree, node: u32, number: u32) -> Result<i32, AvroNo>
    requires { HasNode tree.now node }
    ensures { (j : Json) → Stands tree.now node j → Gives (λ n. n) result (integer_at number (2 ^ 31) j) }
{
    let value = match integer_in(tree, node, number) {
        Ok(value) => value,
        Err(e) => return Err(e),
    };
    match i32::try_from(value) {
        Ok(value) => Ok(value),
        Err(_) => Err(AvroNo::Range(number)),
    }
}

pub fn long_in(tree: &Tree, node: u32, number: u32) -> Result<i64, AvroNo>
    requires { HasNode tree.now node }
    ensures { (j : Json) → Stands tree.now node j → Gives (λ n. n) result (integer_at number (2 ^ 63) j) }
{
    let value = match integer_in(tree, node, number) {
        Ok(value) => value,
        Err(e) => return Err(e),
    };
    match i64::try_from(value) {
        Ok(value) => Ok(value),
        Err(_) => Err(AvroNo::Range(number)),
    }
}

pub fn text_in<'a>(tree: &'a Tree, node: u32, number: u32) -> Result<&'a str, AvroNo>
    requires { HasNode tree.now node }
    ensures { (j : Json) → Stands tree.now node j → Gives (λ text. text.now) result (text_at number j) }
{
    match tree.kind(node) {
        Kind::Text => Ok(tree.string_of(node)),
        _ => Err(AvroNo::Mismatch(number)),
    }
}

/// The bytes that a text's code points are.
fn points(alloc: Global, text: &str, number: u32) -> Result<Vec<u8>, AvroNo>
    ensures { Gives (λ bytes. bytes.items) result (points_of number text.now) }
{
    let mut out = Vec::with_capacity(alloc, text.len())?;
    if text.is_ascii() {
        out.extend_from_slice(text.as_bytes())?;
        return Ok(out);
    }
    for c in text.chars() {
        let Ok(byte) = u8::try_from(c) else {
            return Err(AvroNo::Mismatch(number));
        };
        out.push(byte)?;
    }
    Ok(out)
}

pub fn points_in(alloc: Global, tree: &Tree, node: u32, number: u32) -> Result<Vec<u8>, AvroNo>
    requires { HasNode tree.now node }
    ensures { (j : Json) → Stands tree.now node j → Gives (λ bytes. bytes.items) result (points_at number j) }
{
    match text_in(tree, node, number) {
        Ok(text) => points(alloc, text, number),
        Err(e) => Err(e),
    }
}

pub fn fixed_in(
    alloc: Global,
    tree: &Tree,
    node: u32,
    number: u32,
    size: u32,
) -> Result<Vec<u8>, AvroNo>
    requires { HasNode tree.now node }
    ensures { (j : Json) → Stands tree.now node j → Gives (λ bytes. bytes.items) result (fixed_at number size j) }
{
    let bytes = match points_in(alloc, tree, node, number) {
        Ok(bytes) => bytes,
        Err(e) => return Err(e),
    };
    if bytes.len() == size as usize {
        Ok(bytes)
    } else {
        Err(AvroNo::Mismatch(number))
    }
}

/// A place that is a `u32`.
fn placed(found: Option<usize>, number: u32) -> Result<u32, AvroNo>
    ensures { Gives (λ place. place) result (placed number found) }
{
    let Some(place) = found else {
        return Err(AvroNo::Mismatch(number));
    };
    match u32::try_from(place) {
        Ok(place) => Ok(place),
        Err(_) => Err(AvroNo::Mismatch(number)),
    }
}

/// The place of the enum's symbol that a text is. The enum's node is `place`.
pub fn symbol_in(
    schema: &Schema,
    place: u32,
    tree: &Tree,
    node: u32,
    number: u32,
) -> Result<u32, AvroNo>
    requires node { HasNode tree.now node }
    requires place { (name : List ℕ) × (symbols : List (List ℕ)) × Resolves schema.now place (enum_ name symbols) }
    ensures { (name : List ℕ) (symbols : List (List ℕ)) → Resolves schema.now place (enum_ name symbols)
        → (j : Json) → Stands tree.now node j → Gives (λ found. found) result (symbol_at number symbols j) }
{
    match text_in(tree, node, number) {
        Ok(name) => placed(schema.symbol(place, name), number),
        Err(e) => Err(e),
    }
}
