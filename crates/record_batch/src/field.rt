//! The items of a batch's fields. A batch has 61 bytes at least, so each of them is there.
ghost use Rattle.std.specs.Prelude.{◌≡◌, ◌≤◌, length};
ghost use Rattle.wire_prim.specs.Behind.{int8_at, int16_at, int32_at, int64_at};
ghost use Rattle.record_batch.specs.Read.{after};

use wire_prim::Cursor;

/// An INT8 that is there, as the next three.
pub fn int8(cursor: &mut Cursor) -> i8
    requires { 1 ≤ length cursor.old.left }
    ensures value { result ≡ int8_at cursor.old.left }
    ensures moves { cursor.new ≡ after 1 cursor.old }
{
    match cursor.int8() {
        Ok(value) => value,
        Err(_) => unreachable!(),
    }
}

pub fn int16(cursor: &mut Cursor) -> i16
    requires { 2 ≤ length cursor.old.left }
    ensures value { result ≡ int16_at cursor.old.left }
    ensures moves { cursor.new ≡ after 2 cursor.old }
{
    match cursor.int16() {
        Ok(value) => value,
        Err(_) => unreachable!(),
    }
}

pub fn int32(cursor: &mut Cursor) -> i32
    requires { 4 ≤ length cursor.old.left }
    ensures value { result ≡ int32_at cursor.old.left }
    ensures moves { cursor.new ≡ after 4 cursor.old }
{
    match cursor.int32() {
        Ok(value) => value,
        Err(_) => unreachable!(),
    }
}

pub fn int64(cursor: &mut Cursor) -> i64
    requires { 8 ≤ length cursor.old.left }
    ensures value { result ≡ int64_at cursor.old.left }
    ensures moves { cursor.new ≡ after 8 cursor.old }
{
    match cursor.int64() {
        Ok(value) => value,
        Err(_) => unreachable!(),
    }
}

/// Passes so many bytes, which are there.
pub fn skip(cursor: &mut Cursor, count: usize)
    requires { count ≤ length cursor.old.left }
    ensures moves { cursor.new ≡ after count cursor.old }
{
    match cursor.piece(count) {
        Ok(_) => {}
        Err(_) => unreachable!(),
    }
}
