//! The topics and partitions of a broker in memory.

ghost use Rattle.std.specs.Prelude.{true, false, ◌≡◌, ◌∷◌, [], ◌+◌, ◌<◌, ◌≤◌, ◌^◌, List, Some, None, pos, nat_abs, length, IfOk, OnErr, IfSome, slice_get, slice_set, replicate, map, Contains, AllPairs};
ghost use Rattle.std.specs.Str.{bytes_eq};
ghost use Rattle.std.specs.List.{position};
ghost use Rattle.model.specs.state.Log.{Part, Topic, part_at};
ghost use Rattle.model.specs.step.Fixed.{HasPart};
ghost use Rattle.broker_link.specs.Fetching.{ask_at, HaveAsked, named_at};
ghost use Rattle.broker_link.specs.Made.{empty_part, empty_topic};
ghost use Rattle.broker_link.specs.Produced.{AreParts, first_code};
ghost use Rattle.broker_link.specs.Stored.{appended, ArePut, IsPut, log_of, part_of, SomePut};

use crate::{FetchFrom, NewRecord, PartPlaced, PartRecords};
use gate_io::{Items, Text};
use std::alloc::{AllocError, Global};
use std::marker::Model;

/// The records of a partition; each one's offset is its place.
#[derive(Debug, Drop)]
pub(crate) struct MemPart {
    rows: Vec<NewRecord>,
}

impl Model for MemPart {
    ghost use Rattle.model.specs.state.Log.{Part};
    ghost use Rattle.broker_link.specs.Stored.{part_of};

    ghost Value = { Part };

    ghost view = { λ p. part_of p.rows.items };
}

#[derive(Debug, Drop)]
pub(crate) struct MemTopic {
    name: Text,
    parts: Vec<MemPart>,
}

impl Model for MemTopic {
    ghost use Rattle.model.specs.state.Log.{Topic};

    ghost Value = { Topic };

    ghost view = { λ t. record { name = t.name; parts = t.parts.items } };
}

/// The topics of a broker in memory.
#[derive(Debug, Drop)]
pub(crate) struct MemTopics {
    pub(crate) list: Vec<MemTopic>,
}

pub(crate) fn copied(
    alloc: Global,
    bytes: &Option<Items<u8>>,
) -> Result<Option<Items<u8>>, AllocError>
    ensures { IfOk result (λ copy. copy ≡ bytes.now) }
{
    match bytes {
        None => Ok(None),
        Some(items) => {
            let copy = Items::from_slice(alloc, items.as_slice())?;
            Ok(Some(copy))
        }
    }
}

/// A copy of a record.
pub(crate) fn copy_of(alloc: Global, old: &NewRecord) -> Result<NewRecord, AllocError>
    ensures { IfOk result (λ copy. copy ≡ old.now) }
{
    let key = copied(alloc, &old.key)?;
    let value = copied(alloc, &old.value)?;
    Ok(NewRecord { key, value })
}

fn copies(alloc: Global, records: &[NewRecord]) -> Result<Vec<NewRecord>, AllocError>
    ensures { IfOk result (λ rows. rows.items ≡ records.now) }
{
    let mut rows = Vec::new(alloc);
    for one in records {
        rows.push(copy_of(alloc, one)?)?;
    }
    Ok(rows)
}

impl MemPart {
    #[tactic(auto, unfolding(crate::specs::Stored::appended))]
    /// Puts the records at the end, all of them or none, and gives the offset of the first.
    fn append(&mut self, alloc: Global, records: &[NewRecord]) -> Result<u64, AllocError>
        ensures ok { IfOk result (λ base. (base ≡ self.old.end) × (self.new ≡ appended self.old records.now)) }
        ensures err { OnErr result (self.new ≡ self.old) }
        ensures small { IfOk result (λ base. base + length records.now < 2 ^ 63) }
    {
        let base = self.rows.len() as u64;
        let count = records.len() as u64;
        if base >= 1 << 63 || count >= (1 << 63) - base {
            return Err(AllocError);
        }
        let mut rows = copies(alloc, records)?;
        self.rows.append(&mut rows)?;
        Ok(base)
    }
}

impl MemTopic {
    pub(crate) fn is_named(&self, topic: &str) -> bool
        ensures { result ≡ bytes_eq self.now.name topic.now }
    {
        self.name.as_str() == topic
    }

    pub(crate) fn name(&self) -> &str
        ensures { result.now ≡ self.now.name }
    {
        self.name.as_str()
    }

    pub(crate) fn count(&self) -> usize
        ensures { result ≡ length self.now.parts }
    {
        self.parts.len()
    }

    /// The records of a partition.
    fn rows(&self, number: usize) -> &[NewRecord]
        requires { number < length self.now.parts }
        ensures { slice_get self.now.parts number ≡ Some (part_of result.now) }
    {
        self.parts[number].rows.as_slice()
    }

    fn append(
        &mut self,
        alloc: Global,
        number: usize,
        records: &[NewRecord],
    ) -> Result<u64, AllocError>
        requires { number < length self.old.parts }
        ensures ok { IfOk result (λ base. (part : Part) → slice_get self.old.parts number ≡ Some part → (base ≡ part.end)
            × (self.new ≡ record { name = self.old.name; parts = slice_set self.old.parts number (appended part records.now) })) }
        ensures err { OnErr result (self.new ≡ self.old) }
        ensures small { IfOk result (λ base. base + length records.now < 2 ^ 63) }
    {
        self.parts[number].append(alloc, records)
    }
}

/// Empty partitions, so many.
fn empty_parts(alloc: Global, count: u32) -> Result<Vec<MemPart>, AllocError>
    ensures { IfOk result (λ parts. parts.items ≡ replicate count empty_part) }
{
    let mut parts = Vec::new(alloc);
    for _number in 0..count {
        parts.push(MemPart {
            rows: Vec::new(alloc),
        })?;
    }
    Ok(parts)
}

fn make_topic(alloc: Global, plan: &(Text, u32)) -> Result<MemTopic, AllocError>
    ensures { IfOk result (λ topic. topic ≡ empty_topic plan.now) }
{
    let name = Text::from_str(alloc, plan.0.as_str())?;
    let parts = empty_parts(alloc, plan.1)?;
    Ok(MemTopic { name, parts })
}

fn make_topics(alloc: Global, plans: &[(Text, u32)]) -> Result<Vec<MemTopic>, AllocError>
    ensures { IfOk result (λ topics. topics.items ≡ map empty_topic plans.now) }
{
    let mut topics = Vec::new(alloc);
    for plan in plans {
        topics.push(make_topic(alloc, plan)?)?;
    }
    Ok(topics)
}

/// The partition's number as an index, where it is one of so many.
fn number_in(count: usize, partition: i32) -> Option<usize>
    requires whole { partition ≡ pos (nat_abs partition) }
    ensures some { IfSome result (λ n. (partition ≡ pos n) × (n < count)) }
    ensures lacks { result ≡ None → count ≤ nat_abs partition }
{
    match usize::try_from(partition) {
        Ok(number) if number < count => Some(number),
        _ => None,
    }
}

/// A partition that the log lacks.
fn lacking(partition: i32) -> PartPlaced
    ensures partition { result.partition ≡ partition }
    ensures code { result.code ≡ pos 3 }
{
    PartPlaced {
        partition,
        code: 3,
        base: -1,
    }
}

/// The first code that is not 0.
pub(crate) fn code_in(placed: &[PartPlaced]) -> Option<i16>
    ensures { result ≡ first_code placed.now }
{
    for one in placed {
        if one.code != 0 {
            return Some(one.code);
        }
    }
    None
}

impl MemTopics {
    /// These topics, each empty.
    pub(crate) fn new(alloc: Global, plans: &[(Text, u32)]) -> Result<MemTopics, AllocError>
        ensures { IfOk result (λ topics. topics.list.items ≡ map empty_topic plans.now) }
    {
        let list = make_topics(alloc, plans)?;
        Ok(MemTopics { list })
    }

    fn place(&self, topic: &str) -> Option<usize>
        ensures place { result ≡ position (λ t. bytes_eq t.name topic.now) self.now.list.items }
        ensures within { IfSome result (λ i. i < length self.now.list.items) }
    {
        self.list.iter().position(|t| t.is_named(topic))
    }

    /// The records of a partition, where there is one.
    pub(crate) fn find(&self, topic: &str, partition: i32) -> Option<&[NewRecord]>
        requires whole { partition ≡ pos (nat_abs partition) }
        ensures have { IfSome result (λ rows. HasPart (log_of self.now.list.items) (named_at topic.now partition)) }
        ensures value { IfSome result (λ rows. part_at (log_of self.now.list.items) (named_at topic.now partition) ≡ part_of rows.now) }
        ensures lacks { result ≡ None → HasPart (log_of self.now.list.items) (named_at topic.now partition) → ⊥ }
    {
        let place = self.place(topic)?;
        let number = number_in(self.list[place].count(), partition)?;
        Some(self.list[place].rows(number))
    }

    /// Each of these partitions is there.
    pub(crate) fn have(&self, asks: &[FetchFrom]) -> bool
        ensures have { result ≡ true → HaveAsked (log_of self.now.list.items) asks.now }
        ensures lack { result ≡ false → HaveAsked (log_of self.now.list.items) asks.now → ⊥ }
    {
        for ask in asks {
            if self.find(ask.topic.as_str(), ask.partition).is_none() {
                return false;
            }
        }
        true
    }

    fn store(
        &mut self,
        alloc: Global,
        place: usize,
        number: usize,
        records: &[NewRecord],
    ) -> Result<u64, AllocError>
        requires within { place < length self.old.list.items }
        requires part { IfSome (slice_get self.old.list.items place) (λ t. number < length t.parts) }
        ensures ok { IfOk result (λ base. (t : Topic) (part : Part) → slice_get self.old.list.items place ≡ Some t → slice_get t.parts number ≡ Some part
            → (base ≡ part.end) × (self.new.list.items ≡ slice_set self.old.list.items place
            (record { name = t.name; parts = slice_set t.parts number (appended part records.now) }))) }
        ensures err { OnErr result (self.new.list.items ≡ self.old.list.items) }
        ensures small { IfOk result (λ base. base + length records.now < 2 ^ 63) }
    {
        self.list[place].append(alloc, number, records)
    }

    /// Stores the records of one partition, or answers that the log lacks it.
    pub(crate) fn put_part(
        &mut self,
        alloc: Global,
        topic: &str,
        part: &PartRecords,
    ) -> Result<PartPlaced, AllocError>
        requires whole { part.now.partition ≡ pos (nat_abs part.now.partition) }
        ensures ok { IfOk result (IsPut (log_of self.old.list.items) (log_of self.new.list.items) topic.now part.now) }
        ensures err { OnErr result (self.new.list.items ≡ self.old.list.items) }
    {
        let Some(place) = self.place(topic) else {
            return Ok(lacking(part.partition));
        };
        let Some(number) = number_in(self.list[place].count(), part.partition) else {
            return Ok(lacking(part.partition));
        };
        let base = self.store(alloc, place, number, part.rows.as_slice())?;
        Ok(PartPlaced {
            partition: part.partition,
            code: 0,
            base: base as i64,
        })
    }

    pub(crate) fn put_parts(
        &mut self,
        alloc: Global,
        topic: &str,
        parts: &[PartRecords],
    ) -> Result<Items<PartPlaced>, AllocError>
        requires { AreParts parts.now }
        ensures ok { IfOk result (ArePut (log_of self.old.list.items) (log_of self.new.list.items) topic.now parts.now) }
        ensures err { OnErr result (SomePut (log_of self.old.list.items) (log_of self.new.list.items) topic.now parts.now) }
    {
        let mut placed = Items::new(alloc);
        for part in parts {
            let one = self.put_part(alloc, topic, part)?;
            placed.push(one)?;
        }
        Ok(placed)
    }
}
