//! The work of which the time is measured.
ghost use Rattle.std.specs.Prelude.{◌<◌, length};

use broker_link::NewRecord;
use gate_io::{Items, Want};
use record_batch::{read_batches, write_batch};
use std::alloc::Global;
use wire_prim::Cursor;

// A record with a key of 4 bytes and a value of 100.
fn row(alloc: Global) -> Result<NewRecord, Want> {
    let Ok(key) = Items::from_slice(alloc, &[b'k'; 4]) else {
        return Err(Want);
    };
    let Ok(value) = Items::from_slice(alloc, &[b'v'; 100]) else {
        return Err(Want);
    };
    Ok(NewRecord {
        key: Some(key),
        value: Some(value),
    })
}

/// The 1,000 records of a batch.
pub fn rows(alloc: Global) -> Result<Vec<NewRecord>, Want> {
    let mut rows = Vec::new(alloc);
    for _ in 0..1000_u32 {
        let row = row(alloc)?;
        if rows.push(row).is_err() {
            return Err(Want);
        }
    }
    Ok(rows)
}

/// Writes a batch so many times, and counts its bytes.
pub fn write_rounds(alloc: Global, rows: &[NewRecord], rounds: u32) -> Result<u64, Want>
    requires { 0 < length rows.now }
{
    let mut count = 0u64;
    for _ in 0..rounds {
        let batch = write_batch(alloc, rows, 0)?;
        count = count.wrapping_add(batch.len() as u64);
    }
    Ok(count)
}

/// Reads batches so many times, and counts their rows.
pub fn read_rounds(alloc: Global, bytes: &[u8], rounds: u32) -> Result<u64, Want> {
    let mut count = 0u64;
    for _ in 0..rounds {
        match read_batches(alloc, bytes, 0) {
            Ok(rows) => count = count.wrapping_add(rows.len() as u64),
            Err(_) => return Err(Want),
        }
    }
    Ok(count)
}

// The sum of the first 1,000 varints.
fn sum_of(bytes: &[u8]) -> u64 {
    let mut cursor = Cursor::new(bytes);
    let mut sum = 0u64;
    for _ in 0..1000_u32 {
        let value = cursor.varint().unwrap_or(0);
        sum = sum.wrapping_add(u64::from(value.unsigned_abs()));
    }
    sum
}

/// Reads 1,000 varints so many times, and sums them.
pub fn read_varints(bytes: &[u8], rounds: u32) -> u64 {
    let mut sum = 0u64;
    for _ in 0..rounds {
        sum = sum.wrapping_add(sum_of(bytes));
    }
    sum
}
