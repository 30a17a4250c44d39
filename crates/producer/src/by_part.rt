ghost use Rattle.std.specs.Prelude.{◌≡◌, ◌==◌, ◌<◌, ◌≤◌, ◌^◌, ℕ, pos, nat_abs, Option, List, [], ◌∷◌, map, length, reverse, All, IfOk, OnOk, OnErr, IfSome, option_map};
ghost use Rattle.std.specs.List.{position};
ghost use Rattle.model.specs.state.Entry.{Payload as Item};
ghost use Rattle.broker_link.specs.declared.link.PartRecords.{PartRecords as Part};
ghost use Rattle.rest_calls.specs.Views.{bytes_of, PartitionFits};
ghost use Rattle.producer.specs.Groups.{grouped, put_in};
ghost use Rattle.producer.specs.Payloads.{number_at, payloads_of};

use crate::partition::partition_of;
use broker_link::{NewRecord, PartRecords};
use gate_io::Items;
use rest_calls::{Payload, Row};
use std::alloc::{AllocError, Global};

fn bytes_in(payload: &Payload) -> Option<&[u8]>
    ensures { option_map (λ bytes. bytes.now) result ≡ bytes_of payload.now }
{
    match payload {
        Payload::Null => None,
        Payload::Ready(bytes) => Some(bytes.as_slice()),
    }
}

/// The partition, of `count`, of the record at this index of its request: the one that it names, or
/// one by its key or its index.
fn number_of(row: &Row, index: usize, count: u32) -> u32
    requires { 0 < count × count ≤ 2 ^ 31 }
    ensures value { result ≡ number_at count index row.now }
    ensures low { PartitionFits row.now → result < 2 ^ 31 }
{
    match row.partition {
        Some(partition) => partition.unsigned_abs(),
        None => partition_of(bytes_in(&row.key), index, count),
    }
}

/// The first part of that number.
fn place_of(parts: &[PartRecords], number: u32) -> Option<usize>
    ensures { result ≡ position (λ p. nat_abs p.partition == number) parts.now }
{
    parts
        .iter()
        .position(|p| p.partition.unsigned_abs() == number)
}

fn stored(payload: Payload) -> Option<Items<u8>>
    ensures { result ≡ bytes_of payload }
{
    match payload {
        Payload::Null => None,
        Payload::Ready(bytes) => Some(bytes),
    }
}

fn new_record(row: Row) -> NewRecord
    ensures { result ≡ record { key = bytes_of row.key; value = bytes_of row.value } }
{
    NewRecord {
        key: stored(row.key),
        value: stored(row.value),
    }
}

fn new_part(alloc: Global, number: u32, new: NewRecord) -> Result<PartRecords, AllocError>
    requires { number < 2 ^ 31 }
    ensures { IfOk result (λ part. part ≡ record { partition = pos number; rows = new ∷ [] }) }
{
    let mut rows = Items::new(alloc);
    rows.push(new)?;
    Ok(PartRecords {
        partition: number as i32,
        rows,
    })
}

fn put_record(
    alloc: Global,
    parts: &mut Vec<PartRecords>,
    number: u32,
    new: NewRecord,
) -> Result<(), AllocError>
    requires { number < 2 ^ 31 }
    ensures { OnOk result (parts.new.items ≡ put_in (record { partition = number; key = new.key; value = new.value }) parts.old.items) }
{
    match place_of(parts.as_slice(), number) {
        Some(place) => {
            parts[place].rows.push(new)?;
        }
        None => {
            parts.push(new_part(alloc, number, new)?)?;
        }
    }
    Ok(())
}

/// The records with the last one first.
fn reversed(alloc: Global, mut rows: Items<Row>) -> Result<Vec<Row>, AllocError>
    ensures { IfOk result (λ reversed. reverse reversed.items ≡ rows) }
{
    let mut reversed = Vec::with_capacity(alloc, rows.len())?;
    while let Some(row) = rows.pop() {
        reversed.push(row)?;
    }
    Ok(reversed)
}

/// The records by partition of a topic of `count`, in request order within each, and the partition of
/// each record. Keys and values are moved.
pub(crate) fn group(
    alloc: Global,
    rows: Items<Row>,
    count: u32,
) -> Result<(Vec<PartRecords>, Vec<u32>), AllocError>
    requires some { 0 < count × count ≤ 2 ^ 31 }
    requires fit { All PartitionFits rows }
    ensures parts { IfOk result (λ both. both.0.items ≡ grouped [] (payloads_of count rows)) }
    ensures numbers { IfOk result (λ both. both.1.items ≡ map (λ p. p.partition) (payloads_of count rows)) }
{
    let mut left = reversed(alloc, rows)?;
    let mut parts = Vec::new(alloc);
    let mut numbers = Vec::with_capacity(alloc, left.len())?;
    while let Some(row) = left.pop() {
        let number = number_of(&row, numbers.len(), count);
        put_record(alloc, &mut parts, number, new_record(row))?;
        numbers.push(number)?;
    }
    Ok((parts, numbers))
}
