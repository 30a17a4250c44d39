//! Judges the batch that some bytes begin with. Nothing is kept of its records, so it takes no memory.
ghost use Rattle.std.specs.Prelude.{ℤ, ℕ, List, ◌≡◌, ◌≤◌, ◌&&◌, pos, length, None, IfErr, IfSome};
ghost use Rattle.std.specs.Ordering.{int_eq};
ghost use Rattle.broker_link.specs.declared.link.Stored.{Stored};
ghost use Rattle.record_batch.specs.declared.fault.BatchFault.TheVariants.{Want};
ghost use Rattle.record_batch.specs.Record.{records_at};
ghost use Rattle.record_batch.specs.Batch.{named};
ghost use Rattle.record_batch.specs.First.{IsOneBatch, Judges, JudgesPart, TellsDeltas};

use crate::fault::BatchFault;
use crate::read::{counted, next_batch};
use crate::record::record;
use wire_prim::Cursor;

/// The whole batch that bytes begin with.
#[derive(Clone, Copy, Debug, PartialEq, Eq)]
pub struct FirstBatch {
    /// `baseOffset`, as it stands in the batch.
    pub base: i64,
    /// How many bytes the batch has: 12 more than its `batchLength` says.
    pub size: usize,
    /// How many records it has.
    pub count: u32,
    /// Whether the offset deltas of its records are 0, 1, 2 and so on.
    pub contiguous: bool,
}

// Whether the offset is the one that comes next, as all before it were.
fn goes_on(contiguous: bool, offset: i64, next: i64) -> bool
    ensures { result ≡ (contiguous && int_eq offset next) }
{
    contiguous && offset == next
}

// Whether the offset deltas of the records are 0, 1, 2 and so on. Nothing stands behind them.
fn have_deltas(cursor: &mut Cursor, count: u32, base: i64) -> Result<bool, BatchFault>
    ensures { TellsDeltas result (named (records_at count base (pos 0) cursor.old)) base }
{
    let mut low = 0;
    let mut next = base;
    let mut contiguous = true;
    for _ in 0..count {
        let row = match record(cursor, base, low) {
            Ok(row) => row,
            Err(place) => return Err(BatchFault::BadRecord(place)),
        };
        contiguous = goes_on(contiguous, row.offset, next);
        low = row.offset + 1;
        next = low;
    }
    if cursor.left() == 0 {
        Ok(contiguous)
    } else {
        Err(BatchFault::BadRecord(cursor.place()))
    }
}

// Judges the batch whose bytes these are.
fn judge(batch: Cursor) -> Result<FirstBatch, BatchFault>
    requires { 61 ≤ length batch.left }
    ensures { JudgesPart result batch.entry }
{
    let size = batch.left();
    let (count, base, mut records) = match counted(batch) {
        Ok(found) => found,
        Err(fault) => return Err(fault),
    };
    match have_deltas(&mut records, count, base) {
        Ok(contiguous) => Ok(FirstBatch {
            base,
            size,
            count,
            contiguous,
        }),
        Err(fault) => Err(fault),
    }
}

/// The batch that the bytes begin with; none where they end before it does. A fault is that of this batch, as
/// `read_batches` names it, and never want of memory.
pub fn first_batch(bytes: &[u8]) -> Result<Option<FirstBatch>, BatchFault>
    ensures judges { Judges result bytes.now }
    ensures not_want { IfErr result (λ fault. fault ≡ Want → ⊥) }
{
    let mut cursor = Cursor::new(bytes);
    match next_batch(&mut cursor) {
        Ok(Some(batch)) => match judge(batch) {
            Ok(first) => Ok(Some(first)),
            Err(fault) => Err(fault),
        },
        Ok(None) => Ok(None),
        Err(place) => Err(BatchFault::BadRecord(place)),
    }
}

/// How many records the bytes have, if they are exactly one whole batch with one or more records, whose offset deltas are
/// 0, 1, 2 and so on.
pub fn one_batch(bytes: &[u8]) -> Option<u32>
    ensures some { IfSome result (λ count. (rows : List Stored) × IsOneBatch bytes.now rows × (length rows ≡ count)) }
    ensures none { result ≡ None → (rows : List Stored) → IsOneBatch bytes.now rows → ⊥ }
{
    match first_batch(bytes) {
        Ok(Some(first)) if first.contiguous && first.count > 0 && first.size == bytes.len() => {
            Some(first.count)
        }
        _ => None,
    }
}
