//! Writes a batch.
ghost use Rattle.std.specs.Prelude.{ℕ, pos, ◌≡◌, ◌<◌, ◌≤◌, ◌+◌, ◌^◌, ◌++◌, length, drop, IfOk, OnOk};
ghost use Rattle.record_batch.specs.Written.{batch_bytes, body_bytes, fields_bytes, framed_bytes, head_bytes, nullable_bytes, producer_bytes, record_bytes, records_bytes, stamps_bytes, stored_from};
ghost use Rattle.record_batch.specs.Batch.{batches_of};
ghost use Rattle.wire_prim.specs.Crc.{checksum};

use broker_link::NewRecord;
use gate_io::{Items, Want};
use std::alloc::Global;
use wire_prim::{crc32c, put_int8, put_int16, put_int32, put_int64, put_varint, varint_len};

fn put(out: &mut Vec<u8>, piece: &[u8]) -> Result<(), Want>
    ensures { OnOk result (out.new.items ≡ out.old.items ++ piece.now) }
{
    match out.extend_from_slice(piece) {
        Ok(()) => Ok(()),
        Err(_) => Err(Want),
    }
}

// A length as an integer, where it fits.
fn size_of(size: usize) -> Result<i32, Want>
    ensures { IfOk result (λ it. (it ≡ pos size) × (size < 2 ^ 31)) }
{
    match i32::try_from(size) {
        Ok(size) => Ok(size),
        Err(_) => Err(Want),
    }
}

fn put_nullable(out: &mut Vec<u8>, piece: &Option<Items<u8>>) -> Result<(), Want>
    ensures { OnOk result (out.new.items ≡ out.old.items ++ nullable_bytes piece.now) }
{
    match piece {
        Some(piece) => {
            put_varint(out, size_of(piece.len())?)?;
            put(out, piece.as_slice())
        }
        None => put_varint(out, -1),
    }
}

fn put_body(out: &mut Vec<u8>, delta: i32, row: &NewRecord) -> Result<(), Want>
    ensures { (n : ℕ) → delta ≡ pos n
        → OnOk result (out.new.items ≡ out.old.items ++ body_bytes n row.now) }
{
    put(out, &[0, 0])?; // attributes, and a timestamp delta of 0
    put_varint(out, delta)?;
    put_nullable(out, &row.key)?;
    put_nullable(out, &row.value)?;
    put_varint(out, 0)
}

// How many bytes a key or a value has, with its length.
fn nullable_len(piece: &Option<Items<u8>>) -> Result<u64, Want>
    ensures value { IfOk result (λ size. size ≡ length (nullable_bytes piece.now)) }
    ensures bound { IfOk result (λ size. size < 2 ^ 32) }
{
    match piece {
        Some(piece) => {
            let size = size_of(piece.len())?;
            Ok(varint_len(size) as u64 + size as u64)
        }
        None => Ok(1),
    }
}

// How many bytes the body of a record has.
fn body_len(delta: i32, row: &NewRecord) -> Result<i32, Want>
    ensures { (n : ℕ) → delta ≡ pos n
        → IfOk result (λ size. size ≡ pos (length (body_bytes n row.now))) }
{
    let key = nullable_len(&row.key)?;
    let value = nullable_len(&row.value)?;
    size_of((3 + varint_len(delta) as u64 + key + value) as usize)
}

fn put_record(out: &mut Vec<u8>, delta: usize, row: &NewRecord) -> Result<(), Want>
    ensures { OnOk result (out.new.items ≡ out.old.items ++ record_bytes delta row.now) }
{
    let delta = size_of(delta)?;
    put_varint(out, body_len(delta, row)?)?;
    put_body(out, delta, row)
}

fn put_records(out: &mut Vec<u8>, rows: &[NewRecord]) -> Result<(), Want>
    ensures { OnOk result (out.new.items ≡ out.old.items ++ records_bytes 0 rows.now) }
{
    for (delta, row) in rows.iter().enumerate() {
        put_record(out, delta, row)?;
    }
    Ok(())
}

#[tactic(auto, unfolding(crate::specs::Written::stamps_bytes))]
fn put_stamps(out: &mut Vec<u8>, base_ts: i64, last: i32) -> Result<(), Want>
    ensures { OnOk result (out.new.items ≡ out.old.items ++ stamps_bytes base_ts last) }
{
    put_int16(out, 0)?; // attributes
    put_int32(out, last)?;
    put_int64(out, base_ts)?;
    put_int64(out, base_ts)
}

#[tactic(auto, unfolding(crate::specs::Written::producer_bytes))]
fn put_producer(out: &mut Vec<u8>, count: i32) -> Result<(), Want>
    ensures { OnOk result (out.new.items ≡ out.old.items ++ producer_bytes count) }
{
    put_int64(out, -1)?;
    put_int16(out, -1)?; // epoch
    put_int32(out, -1)?; // sequence
    put_int32(out, count)
}

fn put_fields(out: &mut Vec<u8>, base_ts: i64, count: usize) -> Result<(), Want>
    requires { 0 < count }
    ensures ok { OnOk result (out.new.items ≡ out.old.items ++ fields_bytes base_ts count) }
    ensures fits { OnOk result (count < 2 ^ 31) }
{
    let count = size_of(count)?;
    put_stamps(out, base_ts, count - 1)?;
    put_producer(out, count)
}

#[tactic(auto, unfolding(crate::specs::Written::head_bytes))]
fn put_head(out: &mut Vec<u8>, size: i32) -> Result<(), Want>
    ensures { OnOk result (out.new.items ≡ out.old.items ++ head_bytes size) }
{
    put_int64(out, 0)?; // base offset
    put_int32(out, size)?;
    put_int32(out, -1)?; // the leader's epoch
    put_int8(out, 2)
}

// The length, the checksum and what stands between them, before the bytes that the checksum is of.
fn frame_head(alloc: Global, summed: &[u8]) -> Result<Vec<u8>, Want>
    ensures ok { IfOk result (λ head. head.items ++ summed.now ≡ framed_bytes summed.now) }
    ensures size { IfOk result (λ head. length head.items ≡ 21) }
    ensures fits { IfOk result (λ _. 9 + length summed.now < 2 ^ 31) }
    ensures sum { checksum summed.now < 2 ^ 32 }
{
    let sum = crc32c(summed);
    let size = size_of(summed.len().saturating_add(9))?;
    let Ok(mut head) = Vec::with_capacity(alloc, 21) else {
        return Err(Want);
    };
    put_head(&mut head, size)?;
    put_int32(&mut head, sum.cast_signed())?;
    Ok(head)
}

// Sets the first 21 bytes, which stand before what the checksum is of.
fn set_front(alloc: Global, out: &mut [u8]) -> Result<(), Want>
    requires { 21 ≤ length out.now }
    ensures len { length out.new ≡ length out.old }
    ensures ok { OnOk result (out.new ≡ framed_bytes (drop 21 out.old)) }
    ensures fits { OnOk result (9 + length (drop 21 out.old) < 2 ^ 31) }
    ensures sum { checksum (drop 21 out.old) < 2 ^ 32 }
{
    let (place, summed) = out.split_at_mut(21);
    let head = frame_head(alloc, summed)?;
    place.copy_from_slice(head.as_slice());
    Ok(())
}

fn set_head(alloc: Global, out: &mut Vec<u8>) -> Result<(), Want>
    requires { 21 ≤ length out.now.items }
    ensures ok { OnOk result (out.new.items ≡ framed_bytes (drop 21 out.old.items)) }
    ensures fits { OnOk result (9 + length (drop 21 out.old.items) < 2 ^ 31) }
    ensures sum { checksum (drop 21 out.old.items) < 2 ^ 32 }
{
    set_front(alloc, out.as_mut_slice())
}

// Room for a batch: 61 bytes, and each record with its length.
fn room_of(rows: &[NewRecord]) -> usize {
    let mut room = 61usize;
    for row in rows {
        let key = nullable_len(&row.key).unwrap_or(0);
        let value = nullable_len(&row.value).unwrap_or(0);
        // Two varints have at most 5 bytes each.
        room = room.saturating_add((13 + key + value) as usize);
    }
    room
}

/// A batch of the rows at the offsets from 0 on, all at one timestamp.
pub fn write_batch(alloc: Global, rows: &[NewRecord], base_ts: i64) -> Result<Vec<u8>, Want>
    requires { 0 < length rows.now }
    ensures bytes { IfOk result (λ out. out.items ≡ batch_bytes base_ts rows.now) }
    ensures reads { IfOk result (λ out. batches_of out.items ≡ Ok (stored_from 0 rows.now)) }
{
    let Ok(mut out) = Vec::with_capacity(alloc, room_of(rows)) else {
        return Err(Want);
    };
    put(&mut out, &[0; 21])?; // set when the rest is known
    put_fields(&mut out, base_ts, rows.len())?;
    put_records(&mut out, rows)?;
    set_head(alloc, &mut out)?;
    Ok(out)
}
