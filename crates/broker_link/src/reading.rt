//! How a link in memory takes stored rows for a fetch.

ghost use Rattle.std.specs.Prelude.{◌≡◌, ◌+◌, ◌<◌, ◌^◌, ◌||◌, true, [], not, pos, nat_abs, drop, length, is_some, IfOk};
ghost use Rattle.model.specs.step.Walk.{length_of};
ghost use Rattle.broker_link.specs.Fetching.{asked, IsFetched, IsGot, stored_from};
ghost use Rattle.broker_link.specs.Produced.{numbered};
ghost use Rattle.broker_link.specs.Reads.{AreRead, AreTaken, Fills, IsBound, IsRead, less};
ghost use Rattle.broker_link.specs.Stored.{log_of};

use crate::size::length_of;
use crate::topics::{MemTopics, copied};
use crate::{FetchFrom, Fetched, NewRecord, Stored};
use gate_io::Items;
use std::alloc::{AllocError, Global};

/// How many key and value bytes an answer may still take, `None` once a row didn't fit, and
/// whether it has a row. The first row of all always fits.
#[derive(Debug, Drop)]
pub(crate) struct Bound {
    left: Option<u64>,
    begun: bool,
}

impl Bound {
    fn new(max_bytes: u32) -> Bound
        ensures { IsBound max_bytes [] result }
    {
        Bound {
            left: Some(u64::from(max_bytes)),
            begun: false,
        }
    }

    /// A row of this size is to be taken.
    fn takes(&mut self, size: u64) -> bool
        ensures takes { result ≡ (not self.old.begun || is_some self.new.left) }
        ensures left { self.new.left ≡ less size self.old.left }
        ensures begun { self.new.begun ≡ true }
    {
        let first = !self.begun;
        self.left = match self.left {
            Some(left) => left.checked_sub(size),
            None => None,
        };
        self.begun = true;
        first || self.left.is_some()
    }
}

/// The key and value bytes of a record.
fn size_of(one: &NewRecord) -> u64
    ensures { result ≡ length_of one.now.key + length_of one.now.value }
{
    length_of(&one.key) + length_of(&one.value)
}

/// The row of a record at an offset.
fn row_at(alloc: Global, offset: usize, one: &NewRecord) -> Result<Stored, AllocError>
    requires { offset < 2 ^ 63 }
    ensures offset { IfOk result (λ row. row.offset ≡ pos offset) }
    ensures key { IfOk result (λ row. row.key ≡ one.now.key) }
    ensures value { IfOk result (λ row. row.value ≡ one.now.value) }
{
    let key = copied(alloc, &one.key)?;
    let value = copied(alloc, &one.value)?;
    Ok(Stored {
        offset: offset as i64,
        key,
        value,
    })
}

/// Takes records as rows, numbered from a base on, as far as the bound goes.
fn take_rows(
    alloc: Global,
    base: usize,
    records: &[NewRecord],
    bound: &mut Bound,
) -> Result<Items<Stored>, AllocError>
    requires { base + length records.now < 2 ^ 63 }
    ensures taken { IfOk result (AreTaken base records.now) }
    ensures fills { IfOk result (Fills bound.old bound.new (numbered base records.now)) }
{
    let mut rows = Items::new(alloc);
    for (i, one) in records.iter().enumerate() {
        if !bound.takes(size_of(one)) {
            return Ok(rows);
        }
        rows.push(row_at(alloc, base + i, one)?)?;
    }
    Ok(rows)
}

/// Reads a partition's records from an offset on.
fn read(
    alloc: Global,
    records: &[NewRecord],
    offset: i64,
    bound: &mut Bound,
) -> Result<Fetched, AllocError>
    requires { offset ≡ pos (nat_abs offset) }
    ensures is { IfOk result (IsRead records.now (nat_abs offset)) }
    ensures fills { IfOk result (λ f. Fills bound.old bound.new (numbered (nat_abs offset) (drop (nat_abs offset) records.now)) f.rows) }
{
    let end = records.len() as i64;
    let start = offset as usize;
    if start > records.len() {
        return Ok(Fetched {
            rows: Items::new(alloc),
            end,
            out_of_range: true,
        });
    }
    let rows = take_rows(alloc, start, &records[start..], bound)?;
    Ok(Fetched {
        rows,
        end,
        out_of_range: false,
    })
}

/// Reads what one ask names; of a partition that is lacking as of an empty one.
fn read_one(
    alloc: Global,
    topics: &MemTopics,
    ask: &FetchFrom,
    bound: &mut Bound,
) -> Result<Fetched, AllocError>
    ensures fetched { IfOk result (IsFetched ask.now) }
    ensures got { IfOk result (IsGot (log_of topics.now.list.items) ask.now) }
    ensures fills { IfOk result (λ f. Fills bound.old bound.new (stored_from (log_of topics.now.list.items) (asked ask.now)) f.rows) }
{
    match topics.find(ask.topic.as_str(), ask.partition) {
        Some(records) => read(alloc, records, ask.offset, bound),
        None => read(alloc, &[], ask.offset, bound),
    }
}

/// Reads what the asks name, one after the other, until a row would bring all their key and value
/// bytes above the bound.
pub(crate) fn read_all(
    alloc: Global,
    topics: &MemTopics,
    asks: &[FetchFrom],
    max_bytes: u32,
) -> Result<Items<Fetched>, AllocError>
    ensures { IfOk result (AreRead (log_of topics.now.list.items) max_bytes asks.now) }
{
    let mut bound = Bound::new(max_bytes);
    let mut fetched = Items::new(alloc);
    for ask in asks {
        fetched.push(read_one(alloc, topics, ask, &mut bound)?)?;
    }
    Ok(fetched)
}
