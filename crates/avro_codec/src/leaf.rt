//! Data without parts as bytes.
ghost use Rattle.std.specs.Prelude.{◌≡◌, ◌<◌, ◌^◌, ◌++◌, ◌∷◌, [], ◌&&◌, ◌⊎◌, true, false, pos, nat_lt, length, suc, IfOk, IfErr, OnOk};
ghost use Rattle.std.specs.Str.{is_utf8};
ghost use Rattle.avro_schema.specs.Types.{AvroType, resolved};
ghost use Rattle.avro_schema.specs.Nodes.{HasNode, Stands, tree_of};
ghost use Rattle.avro_codec.specs.Plain.{flag, int_bytes, long_bytes, sized};
ghost use Rattle.avro_value.specs.Judging.{Judges, opened, is_below};
ghost use Rattle.avro_value.specs.Judging as judging;
ghost use Rattle.avro_value.specs.declared.error.AvroNo.TheVariants.{Mismatch, Want};

use avro_schema::Schema;
use avro_value::AvroNo;
use avro_value::level::leaf;
use avro_value::pick::{has_symbol, is_boolean, is_bytes, is_fixed, is_int, is_long, is_string};
use gate_io::Text;
use wire_prim::{put_varint, put_varlong};

#[tactic(auto, unfolding(crate::specs::Plain::int_bytes))]
pub(crate) fn put_int_bytes(out: &mut Vec<u8>, value: i32) -> Result<(), AvroNo>
    ensures ok { OnOk result (out.new.items ≡ out.old.items ++ int_bytes value) }
    ensures want { IfErr result (λ e. e ≡ Want) }
{
    put_varint(out, value)?;
    Ok(())
}

#[tactic(auto, unfolding(crate::specs::Plain::long_bytes))]
pub(crate) fn put_long_bytes(out: &mut Vec<u8>, value: i64) -> Result<(), AvroNo>
    ensures ok { OnOk result (out.new.items ≡ out.old.items ++ long_bytes value) }
    ensures want { IfErr result (λ e. e ≡ Want) }
{
    put_varlong(out, value)?;
    Ok(())
}

/// A length and the bytes.
pub(crate) fn put_sized(out: &mut Vec<u8>, piece: &[u8]) -> Result<(), AvroNo>
    requires { length piece.now < 2 ^ 63 }
    ensures ok { OnOk result (out.new.items ≡ out.old.items ++ sized piece.now) }
    ensures want { IfErr result (λ e. e ≡ Want) }
{
    put_long_bytes(out, piece.len() as i64)?;
    out.extend_from_slice(piece)?;
    Ok(())
}

pub(crate) fn put_boolean(
    out: &mut Vec<u8>,
    schema: &Schema,
    node: u32,
    next: u32,
    value: bool,
) -> Result<u32, AvroNo>
    requires { HasNode schema.now node }
    ensures verdict { (t : AvroType) → Stands schema.now node t
        → Judges result (judging.leaf next (judging.is_boolean (resolved (tree_of schema.now) t))) }
    ensures bytes { OnOk result (out.new.items ≡ out.old.items ++ flag value ∷ []) }
{
    let behind = leaf(next, is_boolean(schema, node))?;
    out.push(u8::from(value))?;
    Ok(behind)
}

pub(crate) fn put_int(
    out: &mut Vec<u8>,
    schema: &Schema,
    node: u32,
    next: u32,
    value: i32,
) -> Result<u32, AvroNo>
    requires { HasNode schema.now node }
    ensures verdict { (t : AvroType) → Stands schema.now node t
        → Judges result (judging.leaf next (judging.is_int (resolved (tree_of schema.now) t) && is_below (2 ^ 31) value)) }
    ensures bytes { OnOk result (out.new.items ≡ out.old.items ++ int_bytes value) }
{
    let behind = leaf(next, is_int(schema, node))?;
    put_int_bytes(out, value)?;
    Ok(behind)
}

pub(crate) fn put_long(
    out: &mut Vec<u8>,
    schema: &Schema,
    node: u32,
    next: u32,
    value: i64,
) -> Result<u32, AvroNo>
    requires { HasNode schema.now node }
    ensures verdict { (t : AvroType) → Stands schema.now node t
        → Judges result (judging.leaf next (judging.is_long (resolved (tree_of schema.now) t) && is_below (2 ^ 63) value)) }
    ensures bytes { OnOk result (out.new.items ≡ out.old.items ++ long_bytes value) }
{
    let behind = leaf(next, is_long(schema, node))?;
    put_long_bytes(out, value)?;
    Ok(behind)
}

pub(crate) fn put_bytes(
    out: &mut Vec<u8>,
    schema: &Schema,
    node: u32,
    next: u32,
    value: &[u8],
) -> Result<u32, AvroNo>
    requires { HasNode schema.now node }
    ensures verdict { (t : AvroType) → Stands schema.now node t
        → Judges result (judging.leaf next (judging.is_bytes (resolved (tree_of schema.now) t) && nat_lt (length value.now) (2 ^ 63))) }
    ensures bytes { OnOk result (out.new.items ≡ out.old.items ++ sized value.now) }
{
    let fits = i64::try_from(value.len()).is_ok();
    let behind = leaf(next, is_bytes(schema, node) && fits)?;
    put_sized(out, value)?;
    Ok(behind)
}

pub(crate) fn put_text(
    out: &mut Vec<u8>,
    schema: &Schema,
    node: u32,
    next: u32,
    value: &str,
) -> Result<u32, AvroNo>
    requires { HasNode schema.now node }
    ensures verdict { (t : AvroType) → Stands schema.now node t
        → Judges result (judging.leaf next (judging.is_string (resolved (tree_of schema.now) t)
        && (is_utf8 value.now && nat_lt (length value.now) (2 ^ 63)))) }
    ensures bytes { OnOk result (out.new.items ≡ out.old.items ++ sized value.now) }
{
    let value = value.as_bytes();
    let fits = i64::try_from(value.len()).is_ok();
    let behind = leaf(next, is_string(schema, node) && fits)?;
    put_sized(out, value)?;
    Ok(behind)
}

pub(crate) fn put_fixed(
    out: &mut Vec<u8>,
    schema: &Schema,
    node: u32,
    next: u32,
    value: &[u8],
) -> Result<u32, AvroNo>
    requires { HasNode schema.now node }
    ensures verdict { (t : AvroType) → Stands schema.now node t
        → Judges result (judging.leaf next (judging.is_fixed (resolved (tree_of schema.now) t) (length value.now))) }
    ensures bytes { OnOk result (out.new.items ≡ out.old.items ++ value.now) }
{
    let behind = leaf(next, is_fixed(schema, node, value.len()))?;
    out.extend_from_slice(value)?;
    Ok(behind)
}

pub(crate) fn put_symbol(
    out: &mut Vec<u8>,
    schema: &Schema,
    node: u32,
    next: u32,
    place: u32,
) -> Result<u32, AvroNo>
    requires { HasNode schema.now node }
    ensures verdict { (t : AvroType) → Stands schema.now node t
        → Judges result (judging.leaf next (judging.has_symbol (resolved (tree_of schema.now) t) place && nat_lt place (2 ^ 31))) }
    ensures bytes { OnOk result (out.new.items ≡ out.old.items ++ int_bytes (pos place)) }
{
    let fits = i32::try_from(place).is_ok();
    let behind = leaf(next, has_symbol(schema, node, place) && fits)?;
    put_int_bytes(out, place as i32)?;
    Ok(behind)
}

/// The key of an entry.
pub(crate) fn put_key(out: &mut Vec<u8>, next: u32, key: &str) -> Result<(), AvroNo>
    ensures ok { OnOk result (judging.is_key key.now ≡ true) }
    ensures bytes { OnOk result (out.new.items ≡ out.old.items ++ sized key.now) }
    ensures cause { IfErr result (λ e. (e ≡ Want)
        ⊎ ((e ≡ Mismatch next) × (judging.is_key key.now ≡ false))) }
{
    let key = key.as_bytes();
    if i64::try_from(key.len()).is_err() {
        return Err(AvroNo::Mismatch(next));
    }
    put_sized(out, key)?;
    Ok(())
}
