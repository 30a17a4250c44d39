//! Writes the items of a message (Kafka protocol guide, "Protocol Primitive Types") behind what is written so far. Want of
//! memory leaves that as it was.
ghost use Rattle.std.specs.Prelude.{ℕ, List, ◌≡◌, ◌+◌, ◌<◌, ◌≤◌, ◌^◌, ◌++◌, length, option_map, OnOk, OnErr};
ghost use Rattle.std.specs.Option.{ForSome};
ghost use Rattle.wire_prim.specs.Item.{bytes_item, count_item, int8_bytes, int16_bytes, int32_bytes, int64_bytes, nullable_bytes_item, nullable_count_item, nullable_string_item, string_item};
ghost use Rattle.wire_prim.specs.Behind.{behind_bytes_item, behind_count, behind_int8, behind_int16, behind_int32, behind_int64, behind_nullable_bytes, behind_nullable_count, behind_nullable_string, behind_string};
ghost use Rattle.wire_prim.specs.Laws.{ReadsBack};
ghost use Rattle.wire_prim.specs.Varint.{IsVarint, behind_varint, behind_varlong, groups_of, varint_bytes, varlong_bytes};

use crate::varint::zigzag;
use gate_io::Want;

fn put(out: &mut Vec<u8>, piece: &[u8]) -> Result<(), Want>
    ensures ok { OnOk result (out.new.items ≡ out.old.items ++ piece.now) }
    ensures stays { OnErr result (out.new.items ≡ out.old.items) }
{
    match out.extend_from_slice(piece) {
        Ok(()) => Ok(()),
        Err(_) => Err(Want),
    }
}

// A length and what it counts, or neither.
fn put_behind(out: &mut Vec<u8>, size: &[u8], piece: &[u8]) -> Result<(), Want>
    ensures ok { OnOk result (out.new.items ≡ out.old.items ++ (size.now ++ piece.now)) }
    ensures stays { OnErr result (out.new.items ≡ out.old.items) }
{
    let before = out.len();
    put(out, size)?;
    let result = put(out, piece);
    if result.is_err() {
        out.truncate(before);
    }
    result
}

/// An INT8: one byte.
pub fn put_int8(out: &mut Vec<u8>, value: i8) -> Result<(), Want>
    ensures ok { OnOk result (out.new.items ≡ out.old.items ++ int8_bytes value) }
    ensures stays { OnErr result (out.new.items ≡ out.old.items) }
    ensures reads { ReadsBack (int8_bytes value) behind_int8 }
{
    put(out, &value.to_be_bytes())
}

/// An INT16: two bytes, the higher one first.
pub fn put_int16(out: &mut Vec<u8>, value: i16) -> Result<(), Want>
    ensures ok { OnOk result (out.new.items ≡ out.old.items ++ int16_bytes value) }
    ensures stays { OnErr result (out.new.items ≡ out.old.items) }
    ensures reads { ReadsBack (int16_bytes value) behind_int16 }
{
    put(out, &value.to_be_bytes())
}

/// An INT32: four bytes, the highest first.
pub fn put_int32(out: &mut Vec<u8>, value: i32) -> Result<(), Want>
    ensures ok { OnOk result (out.new.items ≡ out.old.items ++ int32_bytes value) }
    ensures stays { OnErr result (out.new.items ≡ out.old.items) }
    ensures reads { ReadsBack (int32_bytes value) behind_int32 }
{
    put(out, &value.to_be_bytes())
}

/// An INT64: eight bytes, the highest first.
pub fn put_int64(out: &mut Vec<u8>, value: i64) -> Result<(), Want>
    ensures ok { OnOk result (out.new.items ≡ out.old.items ++ int64_bytes value) }
    ensures stays { OnErr result (out.new.items ≡ out.old.items) }
    ensures reads { ReadsBack (int64_bytes value) behind_int64 }
{
    put(out, &value.to_be_bytes())
}

/// A STRING: the number of its bytes as an INT16, and the text, which has at most 32,767 bytes.
pub fn put_string(out: &mut Vec<u8>, value: &str) -> Result<(), Want>
    requires { length value.now < 2 ^ 15 }
    ensures ok { OnOk result (out.new.items ≡ out.old.items ++ string_item value.now) }
    ensures stays { OnErr result (out.new.items ≡ out.old.items) }
    ensures reads { ReadsBack (string_item value.now) behind_string }
{
    let size = value.len() as i16;
    put_behind(out, &size.to_be_bytes(), value.as_bytes())
}

/// A NULLABLE_STRING: a STRING of at most 32,767 bytes, or -1 as an INT16 for null.
pub fn put_nullable_string(out: &mut Vec<u8>, value: Option<&str>) -> Result<(), Want>
    requires { ForSome value (λ text. length text.now < 2 ^ 15) }
    ensures ok { OnOk result (out.new.items
        ≡ out.old.items ++ nullable_string_item (option_map (λ text. text.now) value.entry)) }
    ensures stays { OnErr result (out.new.items ≡ out.old.items) }
    ensures reads { ReadsBack (nullable_string_item (option_map (λ text. text.now) value.entry))
        behind_nullable_string }
{
    match value {
        Some(text) => put_string(out, text),
        None => put_int16(out, -1),
    }
}

/// BYTES: their number as an INT32, and the bytes, which are at most 2,147,483,647.
pub fn put_bytes(out: &mut Vec<u8>, value: &[u8]) -> Result<(), Want>
    requires { length value.now < 2 ^ 31 }
    ensures ok { OnOk result (out.new.items ≡ out.old.items ++ bytes_item value.now) }
    ensures stays { OnErr result (out.new.items ≡ out.old.items) }
    ensures reads { ReadsBack (bytes_item value.now) behind_bytes_item }
{
    let size = value.len() as i32;
    put_behind(out, &size.to_be_bytes(), value)
}

/// NULLABLE_BYTES: BYTES, at most 2,147,483,647, or -1 as an INT32 for null.
pub fn put_nullable_bytes(out: &mut Vec<u8>, value: Option<&[u8]>) -> Result<(), Want>
    requires { ForSome value (λ piece. length piece.now < 2 ^ 31) }
    ensures ok { OnOk result (out.new.items
        ≡ out.old.items ++ nullable_bytes_item (option_map (λ piece. piece.now) value.entry)) }
    ensures stays { OnErr result (out.new.items ≡ out.old.items) }
    ensures reads { ReadsBack (nullable_bytes_item (option_map (λ piece. piece.now) value.entry))
        behind_nullable_bytes }
{
    match value {
        Some(piece) => put_bytes(out, piece),
        None => put_int32(out, -1),
    }
}

/// The number of items of an ARRAY as an INT32, at most 2,147,483,647.
pub fn put_count(out: &mut Vec<u8>, value: u32) -> Result<(), Want>
    requires { value < 2 ^ 31 }
    ensures ok { OnOk result (out.new.items ≡ out.old.items ++ count_item value) }
    ensures stays { OnErr result (out.new.items ≡ out.old.items) }
    ensures reads { ReadsBack (count_item value) behind_count }
{
    put_int32(out, value as i32)
}

/// The number of items of an ARRAY that may be null: at most 2,147,483,647, or -1 for null.
pub fn put_nullable_count(out: &mut Vec<u8>, value: Option<u32>) -> Result<(), Want>
    requires { ForSome value (λ count. count < 2 ^ 31) }
    ensures ok { OnOk result (out.new.items ≡ out.old.items ++ nullable_count_item value) }
    ensures stays { OnErr result (out.new.items ≡ out.old.items) }
    ensures reads { ReadsBack (nullable_count_item value) behind_nullable_count }
{
    match value {
        Some(count) => put_count(out, count),
        None => put_int32(out, -1),
    }
}

// The groups of a number, at most so many more than one.
fn put_groups(out: &mut Vec<u8>, more: usize, number: u64) -> Result<(), Want>
    requires few { more ≤ 9 }
    requires fits { number < 128 ^ (more + 1) }
    ensures ok { OnOk result (out.new.items ≡ out.old.items ++ groups_of more number) }
    ensures stays { OnErr result (out.new.items ≡ out.old.items) }
{
    if number < 128 {
        return match out.push(number as u8) {
            Ok(()) => Ok(()),
            Err(_) => Err(Want),
        };
    }
    if number < 16384 {
        return put(out, &[128 + (number % 128) as u8, (number / 128) as u8]);
    }
    let mut groups = [0u8; 10];
    let mut number = number;
    let mut count = 0;
    while number >= 128 {
        groups[count] = 128 + (number % 128) as u8;
        number /= 128;
        count += 1;
    }
    groups[count] = number as u8;
    put(out, &groups[..count + 1])
}

/// A VARINT: a zigzag integer of 32 bits, in the fewest bytes that spell it, 1 to 5.
pub fn put_varint(out: &mut Vec<u8>, value: i32) -> Result<(), Want>
    ensures ok { OnOk result (out.new.items ≡ out.old.items ++ varint_bytes value) }
    ensures stays { OnErr result (out.new.items ≡ out.old.items) }
    ensures reads { ReadsBack (varint_bytes value) behind_varint }
    ensures spells { IsVarint 5 value (varint_bytes value) }
    ensures shortest { (item : List ℕ) → IsVarint 5 value item → length (varint_bytes value) ≤ length item }
{
    put_groups(out, 4, zigzag(i64::from(value)))
}

/// A VARLONG: a zigzag integer of 64 bits, in the fewest bytes that spell it, 1 to 10.
pub fn put_varlong(out: &mut Vec<u8>, value: i64) -> Result<(), Want>
    ensures ok { OnOk result (out.new.items ≡ out.old.items ++ varlong_bytes value) }
    ensures stays { OnErr result (out.new.items ≡ out.old.items) }
    ensures reads { ReadsBack (varlong_bytes value) behind_varlong }
    ensures spells { IsVarint 10 value (varlong_bytes value) }
    ensures shortest { (item : List ℕ) → IsVarint 10 value item → length (varlong_bytes value) ≤ length item }
{
    put_groups(out, 9, zigzag(value))
}
