//! Reads the batches of a partition.
ghost use Rattle.std.specs.Prelude.{ℤ, ◌≡◌, ◌≤◌, ◌<ℤ◌, ◌+◌, ◌^◌, ◌++◌, ◌∷◌, [], pos, length, option_map, take, IfOk, IfErr, OnOk};
ghost use Rattle.wire_prim.specs.Reading.{Reading};
ghost use Rattle.record_batch.specs.declared.fault.BatchFault.TheVariants.{Want};
ghost use Rattle.record_batch.specs.Batch.{Adds, HasRows, IsFramed, added, batch_at, batches_of, fault_of, fields_of, frame_at, named, rows_from, rows_of};
ghost use Rattle.record_batch.specs.Read.{after};
ghost use Rattle.record_batch.specs.Record.{records_at};
ghost use Rattle.record_batch.specs.Seen.{fields_seen, seen};
ghost use Rattle.record_batch.specs.First.{Counts};
ghost use Rattle.wire_prim.specs.Behind.{int64_at};

use crate::fault::BatchFault;
use crate::field;
use crate::record::{Row, record};
use broker_link::Stored;
use gate_io::Items;
use std::alloc::{AllocError, Global};
use wire_prim::{Cursor, crc32c};

fn owned(alloc: Global, piece: Option<&[u8]>) -> Result<Option<Items<u8>>, AllocError>
    ensures { IfOk result (λ it. it ≡ option_map (λ p. p.now) piece.entry) }
{
    match piece {
        Some(piece) => Ok(Some(Items::from_slice(alloc, piece)?)),
        None => Ok(None),
    }
}

// Keeps a row at or above an offset.
fn keep(alloc: Global, rows: &mut Vec<Stored>, row: &Row, from: i64) -> Result<(), BatchFault>
    ensures ok { OnOk result (rows.new.items ≡ rows.old.items ++ rows_from from (seen row.now ∷ [])) }
    ensures want { IfErr result (λ fault. fault ≡ Want) }
{
    if row.offset < from {
        return Ok(());
    }
    let key = owned(alloc, row.key)?;
    let value = owned(alloc, row.value)?;
    let offset = row.offset;
    match rows.push(Stored { offset, key, value }) {
        Ok(()) => Ok(()),
        Err(_) => Err(BatchFault::Want),
    }
}

#[derive(Drop)]
struct Head<'a> {
    base: i64,
    magic: i8,
    crc: u32,
    summed: &'a [u8],
    attributes: u16,
    count: i32,
}

// The fields of a batch, up to its records.
fn fields<'a>(cursor: &mut Cursor<'a>) -> Head<'a>
    requires { 61 ≤ length cursor.old.left }
    ensures fields { fields_seen result ≡ fields_of cursor.old.left }
    ensures moves { cursor.new ≡ after 61 cursor.old }
{
    let base = field::int64(cursor);
    field::skip(cursor, 8); // the length of what follows, and the leader's epoch
    let magic = field::int8(cursor);
    let crc = field::int32(cursor).cast_unsigned();
    let summed = cursor.rest();
    let attributes = field::int16(cursor).cast_unsigned();
    field::skip(cursor, 34); // the last delta, two timestamps, and the producer's id, epoch and sequence
    let count = field::int32(cursor);
    Head {
        base,
        magic,
        crc,
        summed,
        attributes,
        count,
    }
}

// The records of a batch, and nothing behind them.
fn take_records(
    alloc: Global,
    cursor: &mut Cursor,
    count: u32,
    base: i64,
    from: i64,
    rows: &mut Vec<Stored>,
) -> Result<(), BatchFault>
    ensures { Adds result (added from rows.old.items (named (records_at count base (pos 0) cursor.old)))
        rows.new.items }
{
    let mut low = 0;
    for _ in 0..count {
        let row = match record(cursor, base, low) {
            Ok(row) => row,
            Err(place) => return Err(BatchFault::BadRecord(place)),
        };
        low = row.offset + 1;
        keep(alloc, rows, &row, from)?;
    }
    if cursor.left() == 0 {
        Ok(())
    } else {
        Err(BatchFault::BadRecord(cursor.place()))
    }
}

/// The next batch, none where the bytes end inside it, or the place of a length that is too small.
pub fn next_batch<'a>(cursor: &mut Cursor<'a>) -> Result<Option<Cursor<'a>>, usize>
    ensures { IsFramed result (frame_at cursor.old) cursor.old cursor.new }
{
    let mut ahead = cursor.copy();
    if ahead.int64().is_err() {
        return Ok(None);
    }
    let place = ahead.place();
    let Ok(size) = ahead.int32() else {
        return Ok(None);
    };
    if size < 49 {
        return Err(place);
    }
    match cursor.part(size as usize + 12) {
        Ok(batch) => Ok(Some(batch)),
        Err(_) => Ok(None),
    }
}

/// How many records the batch has, its base offset, and its records; or its fault, but for theirs.
#[tactic(auto, unfolding(crate::specs::Batch::batch_at))]
pub fn counted(batch: Cursor) -> Result<(u32, i64, Cursor), BatchFault>
    requires { 61 ≤ length batch.left }
    ensures counts { Counts result (batch_at batch.entry) }
    ensures base { IfOk result (λ found. found.1 ≡ int64_at batch.entry.left) }
{
    let mut batch = batch;
    let place = batch.place();
    let head = fields(&mut batch);
    if let Some(fault) = fault_of(&head) {
        return Err(fault);
    }
    if head.count < 0 {
        return Err(BatchFault::BadRecord(place + 57));
    }
    Ok((head.count as u32, head.base, batch))
}

// Adds the rows of a batch.
fn take_batch(
    alloc: Global,
    batch: Cursor,
    from: i64,
    rows: &mut Vec<Stored>,
) -> Result<(), BatchFault>
    requires { 61 ≤ length batch.left }
    ensures { Adds result (added from rows.old.items (batch_at batch.entry)) rows.new.items }
{
    let (count, base, mut records) = match counted(batch) {
        Ok(found) => found,
        Err(fault) => return Err(fault),
    };
    take_records(alloc, &mut records, count, base, from, rows)
}

// Why a batch isn't read, but for its records.
fn fault_of(head: &Head) -> Option<BatchFault>
    ensures { result ≡ fault_of (fields_seen head.now) }
{
    if head.magic != 2 {
        return Some(BatchFault::BadMagic(head.magic));
    }
    let computed = crc32c(head.summed);
    if head.crc != computed {
        return Some(BatchFault::BadCrc {
            kept: head.crc,
            computed,
        });
    }
    if head.attributes % 8 != 0 {
        return Some(BatchFault::Codec((head.attributes % 8) as u8));
    }
    if head.attributes / 16 % 4 != 0 {
        return Some(BatchFault::Control);
    }
    None
}

/// The rows at or above an offset, of the batches in turn up to one that the bytes cut.
pub fn read_batches(alloc: Global, bytes: &[u8], from: i64) -> Result<Vec<Stored>, BatchFault>
    ensures { HasRows (λ rows. rows.items) result (added from [] (batches_of bytes.now)) }
{
    let mut rows = Vec::new(alloc);
    let mut cursor = Cursor::new(bytes);
    // Each batch has more bytes than one.
    for _ in 0..bytes.len() {
        match next_batch(&mut cursor) {
            Ok(Some(batch)) => match take_batch(alloc, batch, from, &mut rows) {
                Ok(()) => {}
                Err(fault) => return Err(fault),
            },
            Ok(None) => return Ok(rows),
            Err(place) => return Err(BatchFault::BadRecord(place)),
        }
    }
    Ok(rows)
}
