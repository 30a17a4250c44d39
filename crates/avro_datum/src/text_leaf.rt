//! Data without parts as JSON tokens.
ghost use Rattle.std.specs.Prelude.{◌≡◌, ◌++◌, ◌∷◌, [], ◌&&◌, ◌^◌, ◌<◌, true, length, option_map, IfOk, IfErr, OnOk, string_bytes};
ghost use Rattle.std.specs.List.{AllByRecursion};
ghost use Rattle.std.specs.Str.{is_utf8, encode_utf8_all};
ghost use Rattle.std.specs.Fmt.{signed_decimal};
ghost use Rattle.json.specs.Token as token;
ghost use Rattle.json.specs.Reads.{token_of};
ghost use Rattle.json.specs.Print.{IsPrintable};
ghost use Rattle.avro_schema.specs.Types.{AvroType, resolved};
ghost use Rattle.avro_schema.specs.Nodes.{HasNode, Stands, tree_of};
ghost use Rattle.avro_value.specs.Judging.{is_below};
ghost use Rattle.avro_value.specs.Judging as judging;
ghost use Rattle.avro_datum.specs.Shown.{Shows, named};
ghost use Rattle.avro_datum.specs.Shown as shown;
ghost use Rattle.avro_value.specs.declared.error.AvroNo.TheVariants.{Want};

use avro_schema::{Kind, Schema};
use avro_value::AvroNo;
use avro_value::level::leaf;
use avro_value::pick::{is_boolean, is_bytes, is_fixed, is_int, is_long, is_null, is_string};
use json::{Token, Writer};
use sqlite_items::at;
use std::alloc::Global;

/// A node without parts that is one token.
fn put_leaf(out: &mut Writer, next: u32, holds: bool, token: Token<'_>) -> Result<u32, AvroNo>
    requires { IsPrintable (token_of token) }
    ensures shown { Shows result (shown.leaf next holds (token_of token.entry ∷ []))
        out.old.tokens out.new.tokens }
    ensures before { out.new.before ≡ out.old.before }
{
    let behind = leaf(next, holds)?;
    out.token(token)?;
    Ok(behind)
}

/// A node that is a number.
fn put_number(out: &mut Writer, next: u32, holds: bool, value: i64) -> Result<u32, AvroNo>
    ensures shown { Shows result (shown.leaf next holds (token.number (signed_decimal value) ∷ []))
        out.old.tokens out.new.tokens }
    ensures before { out.new.before ≡ out.old.before }
{
    let behind = leaf(next, holds)?;
    out.i64(value)?;
    Ok(behind)
}

pub(crate) fn put_null(
    out: &mut Writer,
    schema: &Schema,
    node: u32,
    next: u32,
) -> Result<u32, AvroNo>
    requires { HasNode schema.now node }
    ensures shown { (t : AvroType) → Stands schema.now node t
        → Shows result (shown.leaf next (judging.is_null (resolved (tree_of schema.now) t)) (token.null ∷ []))
        out.old.tokens out.new.tokens }
    ensures before { out.new.before ≡ out.old.before }
{
    put_leaf(out, next, is_null(schema, node), Token::Null)
}

pub(crate) fn put_boolean(
    out: &mut Writer,
    schema: &Schema,
    node: u32,
    next: u32,
    value: bool,
) -> Result<u32, AvroNo>
    requires { HasNode schema.now node }
    ensures shown { (t : AvroType) → Stands schema.now node t
        → Shows result (shown.leaf next (judging.is_boolean (resolved (tree_of schema.now) t)) (token.boolean value ∷ []))
        out.old.tokens out.new.tokens }
    ensures before { out.new.before ≡ out.old.before }
{
    put_leaf(out, next, is_boolean(schema, node), Token::Bool(value))
}

pub(crate) fn put_int(
    out: &mut Writer,
    schema: &Schema,
    node: u32,
    next: u32,
    value: i32,
) -> Result<u32, AvroNo>
    requires { HasNode schema.now node }
    ensures shown { (t : AvroType) → Stands schema.now node t
        → Shows result (shown.leaf next (judging.is_int (resolved (tree_of schema.now) t) && is_below (2 ^ 31) value)
        (token.number (signed_decimal value) ∷ [])) out.old.tokens out.new.tokens }
    ensures before { out.new.before ≡ out.old.before }
{
    put_number(out, next, is_int(schema, node), i64::from(value))
}

pub(crate) fn put_long(
    out: &mut Writer,
    schema: &Schema,
    node: u32,
    next: u32,
    value: i64,
) -> Result<u32, AvroNo>
    requires { HasNode schema.now node }
    ensures shown { (t : AvroType) → Stands schema.now node t
        → Shows result (shown.leaf next (judging.is_long (resolved (tree_of schema.now) t) && is_below (2 ^ 63) value)
        (token.number (signed_decimal value) ∷ [])) out.old.tokens out.new.tokens }
    ensures before { out.new.before ≡ out.old.before }
{
    put_number(out, next, is_long(schema, node), value)
}

/// The text whose code points are the bytes.
fn text_of(alloc: Global, bytes: &[u8]) -> Result<String, AvroNo>
    ensures value { IfOk result (λ s. string_bytes s ≡ encode_utf8_all bytes.now) }
    ensures want { IfErr result (λ e. e ≡ Want) }
{
    let mut text = String::with_capacity(alloc, bytes.len())?;
    for byte in bytes {
        text.push(char::from(*byte))?;
    }
    Ok(text)
}

/// A node that is the text of these bytes.
fn put_points(
    alloc: Global,
    out: &mut Writer,
    next: u32,
    holds: bool,
    bytes: &[u8],
) -> Result<u32, AvroNo>
    ensures shown { Shows result (shown.leaf next holds (token.string (encode_utf8_all bytes.now) ∷ []))
        out.old.tokens out.new.tokens }
    ensures before { out.new.before ≡ out.old.before }
{
    let behind = leaf(next, holds)?;
    if bytes.is_ascii() {
        // ASCII is its own UTF-8.
        out.string(unsafe { std::str::from_utf8_unchecked(bytes) })?;
        return Ok(behind);
    }
    let text = text_of(alloc, bytes)?;
    out.string(text.as_str())?;
    Ok(behind)
}

pub(crate) fn put_bytes(
    alloc: Global,
    out: &mut Writer,
    schema: &Schema,
    node: u32,
    next: u32,
    value: &[u8],
) -> Result<u32, AvroNo>
    requires { HasNode schema.now node }
    ensures shown { (t : AvroType) → Stands schema.now node t
        → Shows result (shown.leaf next (judging.is_bytes (resolved (tree_of schema.now) t))
        (token.string (encode_utf8_all value.now) ∷ [])) out.old.tokens out.new.tokens }
    ensures typed { AllByRecursion (λ b. b < 256) value.now }
    ensures before { out.new.before ≡ out.old.before }
{
    put_points(alloc, out, next, is_bytes(schema, node), value)
}

pub(crate) fn put_fixed(
    alloc: Global,
    out: &mut Writer,
    schema: &Schema,
    node: u32,
    next: u32,
    value: &[u8],
) -> Result<u32, AvroNo>
    requires { HasNode schema.now node }
    ensures shown { (t : AvroType) → Stands schema.now node t
        → Shows result (shown.leaf next (judging.is_fixed (resolved (tree_of schema.now) t) (length value.now))
        (token.string (encode_utf8_all value.now) ∷ [])) out.old.tokens out.new.tokens }
    ensures typed { AllByRecursion (λ b. b < 256) value.now }
    ensures before { out.new.before ≡ out.old.before }
{
    put_points(alloc, out, next, is_fixed(schema, node, value.len()), value)
}

pub(crate) fn put_text(
    out: &mut Writer,
    schema: &Schema,
    node: u32,
    next: u32,
    value: &str,
) -> Result<u32, AvroNo>
    requires { HasNode schema.now node }
    ensures shown { (t : AvroType) → Stands schema.now node t
        → Shows result (shown.leaf next (judging.is_string (resolved (tree_of schema.now) t))
        (token.string value.now ∷ [])) out.old.tokens out.new.tokens }
    ensures typed { is_utf8 value.now ≡ true }
    ensures before { out.new.before ≡ out.old.before }
{
    put_leaf(out, next, is_string(schema, node), Token::String(value))
}

/// An enum's symbol.
fn symbol_in<'a>(schema: &'a Schema, node: u32, place: u32) -> Option<&'a str>
    requires { HasNode schema.now node }
    ensures { (t : AvroType) → Stands schema.now node t
        → option_map (λ s. s.now) result ≡ shown.symbol_in (resolved (tree_of schema.now) t) place }
{
    match schema.kind(node) {
        Kind::Enum => match at(schema.symbols(node), place as usize) {
            Some(symbol) => Some(symbol.as_str()),
            None => None,
        },
        _ => None,
    }
}

pub(crate) fn put_symbol(
    out: &mut Writer,
    schema: &Schema,
    node: u32,
    next: u32,
    place: u32,
) -> Result<u32, AvroNo>
    requires { HasNode schema.now node }
    ensures shown { (t : AvroType) → Stands schema.now node t
        → Shows result (named next (shown.symbol_in (resolved (tree_of schema.now) t) place))
        out.old.tokens out.new.tokens }
    ensures typed { place < 2 ^ 32 }
    ensures before { out.new.before ≡ out.old.before }
{
    match symbol_in(schema, node, place) {
        Some(symbol) => put_leaf(out, next, true, Token::String(symbol)),
        None => leaf(next, false),
    }
}
