//! What is to happen at later calls of a link in memory.

ghost use Rattle.std.specs.Prelude.{◌≡◌, ◌≢◌, ◌∷◌, [], All, None, IfOk};
ghost use Rattle.broker_link.specs.Stored.{log_with, OthersCame};

use crate::topics::{MemTopics, copy_of};
use crate::{NewRecord, PartRecords};
use gate_io::{Items, Text};
use std::alloc::{AllocError, Global};

/// The call of that number fails, before or after its effect. Code 0 is a fault, another one a
/// refusal.
#[derive(Clone, Copy, Debug)]
pub struct Fail {
    pub call: u64,
    pub after: bool,
    pub code: i16,
}

/// A row of somebody else, which is there before the call of that number.
#[derive(Debug, Drop)]
pub struct Foreign {
    pub call: u64,
    pub topic: Text,
    pub partition: i32,
    pub row: NewRecord,
}

#[derive(Debug, Drop)]
pub(crate) struct Script {
    pub(crate) fails: Items<Fail>,
    pub(crate) others: Items<Foreign>,
}

/// The code of the first failure that is meant for the call, at this side of its effect.
pub(crate) fn code_at(fails: &[Fail], call: u64, after: bool) -> Option<i16>
    ensures none { fails.now ≡ [] → result ≡ None }
    ensures unnamed { All (λ fail. fail.call ≢ call) fails.now → result ≡ None }
{
    for fail in fails {
        if fail.call == call && fail.after == after {
            return Some(fail.code);
        }
    }
    None
}

impl Foreign {
    /// The row as records for its partition.
    fn part(&self, alloc: Global) -> Result<PartRecords, AllocError>
        ensures partition { IfOk result (λ part. part.partition ≡ self.now.partition) }
        ensures row { IfOk result (λ part. part.rows ≡ self.now.row ∷ []) }
    {
        let mut rows = Items::new(alloc);
        rows.push(copy_of(alloc, &self.row)?)?;
        Ok(PartRecords {
            partition: self.partition,
            rows,
        })
    }
}

/// Adds a row of somebody else where it is for this call, the topics have its partition and there
/// is memory, and counts it.
fn add_other(alloc: Global, topics: &mut MemTopics, others: &mut u64, one: &Foreign, call: u64)
    ensures came { OthersCame (log_with topics.old.list.items others.old) (log_with topics.new.list.items others.new) }
    ensures unnamed { one.now.call ≢ call → (topics.new.list.items ≡ topics.old.list.items) × (others.new ≡ others.old) }
{
    if one.call != call || one.partition < 0 || *others == u64::MAX {
        return;
    }
    let Ok(part) = one.part(alloc) else {
        return;
    };
    let Ok(placed) = topics.put_part(alloc, one.topic.as_str(), &part) else {
        return;
    };
    if placed.code == 0 {
        *others += 1;
    }
}

/// Adds the rows of others that are there before the call of that number.
pub(crate) fn add_others(
    alloc: Global,
    topics: &mut MemTopics,
    others: &mut u64,
    list: &[Foreign],
    call: u64,
)
    ensures came { OthersCame (log_with topics.old.list.items others.old) (log_with topics.new.list.items others.new) }
    ensures none { list.now ≡ [] → (topics.new.list.items ≡ topics.old.list.items) × (others.new ≡ others.old) }
    ensures unnamed { All (λ other. other.call ≢ call) list.now → (topics.new.list.items ≡ topics.old.list.items) × (others.new ≡ others.old) }
{
    for one in list {
        add_other(alloc, topics, others, one, call);
    }
}
