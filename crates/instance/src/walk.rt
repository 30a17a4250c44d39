ghost use Rattle.std.specs.Prelude.{◌≡◌, ◌<◌, ◌≤◌, ◌+◌, ◌-◌, ◌^◌, ◌&&◌, ◌||◌, IfSome, None, Some, codes, option_map, is_some, string_bytes, take, drop, IfOk, nat_lt, nat_le, OnOk, All, List, [], length};
ghost use Rattle.json.specs.Print.{quoted};
ghost use Rattle.forms.specs.Formats.{format_of};
ghost use Rattle.broker_link.specs.Fetching.{row_of};
ghost use Rattle.model.specs.state.World.{Format as Shown};
ghost use Rattle.model.specs.step.Walk.{Lot, bytes_of, or_first, size_of, turned, unwalked, walk, walk_part};
ghost use Rattle.instance.specs.Walk.{HasRow, IsLost, IsPick, IsSoFar, PutsSo, WalksSo, is_enough, item_in, lot_at, lots_of, rule_of, seen, stored_in};

use broker_link::{Fetched, Place, Stored, length_of};
use forms::{FormNo, Format};
use rest_codes::quoted_text;
use rest_replies::put_row;
use std::alloc::{AllocError, Global};

/// As many rows as a reply has at most.
const MOST_ROWS: usize = 10_000;

/// The assigned partitions, each with what was fetched for it.
#[derive(Clone, Copy, Debug)]
pub(crate) struct Lots<'a> {
    pub places: &'a [Place],
    pub fetched: &'a [Fetched],
    pub ghost same: { length fetched.now ≡ length places.now },
}

/// A row of a lot, by both places.
#[derive(Clone, Copy, Debug)]
pub(crate) struct Pick {
    pub lot: usize,
    pub row: usize,
}

/// What bounds a walk: as many key and value bytes as it takes, but for those of the first row, and
/// the format that its rows are shown in.
#[derive(Clone, Copy, Debug)]
pub(crate) struct Rule {
    pub bound: u64,
    pub format: Format,
}

/// What a walk has met so far: the rows that were taken, their key and value bytes, their text as a
/// JSON array that isn't closed, whether a stop was met, and the first row that doesn't read.
#[derive(Debug, Drop)]
pub(crate) struct Walk {
    pub picks: Vec<Pick>,
    pub bytes: u64,
    pub text: String,
    pub stopped: bool,
    pub unread: Option<Pick>,
}

/// The record that a pick names.
pub(crate) fn stored_at<'a>(fetched: &'a [Fetched], pick: Pick) -> &'a Stored
    requires { HasRow fetched.now pick }
    ensures { result.now ≡ stored_in fetched.now pick }
{
    &fetched[pick.lot].rows.as_slice()[pick.row]
}

/// The bytes of the key and the value.
fn size_of(stored: &Stored) -> u64
    ensures { result ≡ size_of (row_of stored.now) }
{
    length_of(&stored.key) + length_of(&stored.value)
}

/// Appends the text of a row, with a comma before it unless it is the first. False where the row
/// doesn't read.
fn put_item(
    alloc: Global,
    text: &mut String,
    first: bool,
    lots: &Lots,
    topic: &str,
    format: Format,
    pick: Pick,
) -> Result<bool, AllocError>
    requires pick { IsPick (lots_of lots.now.places.now lots.now.fetched.now) pick }
    requires topic { topic.now ≡ quoted (item_in (lots_of lots.now.places.now lots.now.fetched.now) pick).at.topic }
    requires lot { pick.lot < length lots.now.places.now }
    requires row { HasRow lots.now.fetched.now pick }
    ensures { PutsSo first (format_of format) (item_in (lots_of lots.now.places.now lots.now.fetched.now) pick) (string_bytes text.old) (string_bytes text.new) result }
{
    let partition = lots.places[pick.lot].partition;
    match put_row(
        alloc,
        text,
        first,
        topic,
        partition,
        format,
        stored_at(lots.fetched, pick),
    ) {
        Ok(()) => Ok(true),
        Err(FormNo::Json) => Ok(false),
        Err(_) => Err(AllocError),
    }
}

/// The first row that doesn't read, of the one met before and this one.
fn first_lost(met: Option<Pick>, pick: Pick) -> Pick
    ensures first { (lots : List Lot) → Some (item_in lots result) ≡ or_first (option_map (item_in lots) met) (item_in lots pick) }
    ensures lost { (lots : List Lot) (format : Shown) → IfSome met (IsLost lots format) → IsLost lots format pick → IsLost lots format result }
{
    match met {
        Some(first) => first,
        None => pick,
    }
}

impl Walk {
    fn new(alloc: Global) -> Result<Walk, AllocError>
        ensures empty { IfOk result (λ w. (lots : List Lot) → seen lots w ≡ unwalked) }
        ensures bytes { IfOk result (λ w. w.bytes ≡ 0) }
        ensures picks { IfOk result (λ w. w.picks.items ≡ []) }
        ensures text { IfOk result (λ w. string_bytes w.text ≡ codes "[") }
        ensures unread { IfOk result (λ w. w.unread ≡ None) }
    {
        Ok(Walk {
            picks: Vec::new(alloc),
            bytes: 0,
            text: String::from_str(alloc, "[")?,
            stopped: false,
            unread: None,
        })
    }

    /// Takes a row behind those that were taken. False where the walk through its lot is over.
    fn row(
        &mut self,
        alloc: Global,
        lots: &Lots,
        topic: &str,
        rule: Rule,
        pick: Pick,
    ) -> Result<bool, AllocError>
        requires so_far { IsSoFar (lots_of lots.now.places.now lots.now.fetched.now) (format_of rule.format) self.old }
        requires pick { IsPick (lots_of lots.now.places.now lots.now.fetched.now) pick }
        requires topic { topic.now ≡ quoted (item_in (lots_of lots.now.places.now lots.now.fetched.now) pick).at.topic }
        requires lot { pick.lot < length lots.now.places.now }
        requires row { HasRow lots.now.fetched.now pick }
        ensures walks { WalksSo (rule_of rule.bound (format_of rule.format)) (item_in (lots_of lots.now.places.now lots.now.fetched.now) pick)
            (seen (lots_of lots.now.places.now lots.now.fetched.now) self.old) (seen (lots_of lots.now.places.now lots.now.fetched.now) self.new) result }
        ensures so_far { OnOk result (IsSoFar (lots_of lots.now.places.now lots.now.fetched.now) (format_of rule.format) self.new) }
    {
        let size = size_of(stored_at(lots.fetched, pick));
        if self.is_full(size, rule.bound) {
            self.stopped = true;
            return Ok(false);
        }
        let first = self.picks.is_empty();
        if !put_item(alloc, &mut self.text, first, lots, topic, rule.format, pick)? {
            self.unread = Some(first_lost(self.unread, pick));
            return Ok(false);
        }
        self.picks.push(pick)?;
        self.bytes += size;
        self.stopped = self.picks.len() >= MOST_ROWS;
        Ok(true)
    }

    /// Walks through one lot.
    fn part(&mut self, alloc: Global, lots: &Lots, lot: usize, rule: Rule) -> Result<(), AllocError>
        requires place { lot < length lots.now.places.now }
        requires so_far { IsSoFar (lots_of lots.now.places.now lots.now.fetched.now) (format_of rule.format) self.old }
        ensures walked { OnOk result (seen (lots_of lots.now.places.now lots.now.fetched.now) self.new
            ≡ walk_part (rule_of rule.bound (format_of rule.format)) (lot_at (lots_of lots.now.places.now lots.now.fetched.now) lot).place.at (seen (lots_of lots.now.places.now lots.now.fetched.now) self.old) (lot_at (lots_of lots.now.places.now lots.now.fetched.now) lot).rows) }
        ensures so_far { OnOk result (IsSoFar (lots_of lots.now.places.now lots.now.fetched.now) (format_of rule.format) self.new) }
    {
        let count = lots.fetched[lot].rows.len();
        if count == 0 {
            return Ok(());
        }
        let topic = quoted_text(alloc, lots.places[lot].topic.as_str())?;
        for row in 0..count {
            if !self.row(alloc, lots, topic.as_str(), rule, Pick { lot, row })? {
                return Ok(());
            }
        }
        Ok(())
    }

    /// A row of that size can't be taken any more.
    fn is_full(&self, size: u64, bound: u64) -> bool
        ensures { result ≡ (nat_lt 0 (length self.now.picks.items) && (nat_le 10000 (length self.now.picks.items) || nat_lt bound (self.now.bytes + size))) }
    {
        !self.picks.is_empty()
            && (self.picks.len() >= MOST_ROWS || self.bytes > bound || size > bound - self.bytes)
    }

    /// Walks through the lots of a range in turn, until a stop.
    fn range(
        &mut self,
        alloc: Global,
        lots: &Lots,
        from: usize,
        to: usize,
        rule: Rule,
    ) -> Result<(), AllocError>
        requires bounds { (from ≤ to) × (to ≤ length lots.now.places.now) }
        requires so_far { IsSoFar (lots_of lots.now.places.now lots.now.fetched.now) (format_of rule.format) self.old }
        ensures walked { OnOk result (seen (lots_of lots.now.places.now lots.now.fetched.now) self.new
            ≡ walk (rule_of rule.bound (format_of rule.format)) (seen (lots_of lots.now.places.now lots.now.fetched.now) self.old) (take (to - from) (drop from (lots_of lots.now.places.now lots.now.fetched.now)))) }
        ensures so_far { OnOk result (IsSoFar (lots_of lots.now.places.now lots.now.fetched.now) (format_of rule.format) self.new) }
    {
        for lot in from..to {
            if self.stopped {
                return Ok(());
            }
            self.part(alloc, lots, lot, rule)?;
        }
        Ok(())
    }

    /// The first row that doesn't read, where none was taken.
    pub fn lost(&self) -> Option<Pick>
        ensures some { IfSome result (λ p. (self.now.picks.items ≡ []) × (self.now.unread ≡ Some p)) }
        ensures none { result ≡ None → self.now.picks.items ≡ [] → self.now.unread ≡ None }
    {
        if self.picks.is_empty() {
            self.unread
        } else {
            None
        }
    }

    /// The rows are enough for a reply: they reach so many bytes, or a stop or a row that doesn't read
    /// was met, or no look comes after this one.
    pub fn is_enough(&self, min_bytes: u32, last: bool) -> bool
        ensures { result ≡ is_enough (length self.now.picks.items) self.now.bytes self.now.stopped (is_some self.now.unread) min_bytes last }
    {
        if self.picks.is_empty() {
            return last;
        }
        self.bytes >= u64::from(min_bytes) || self.stopped || self.unread.is_some() || last
    }
}

/// Goes once round the lots from a place, and takes rows until a stop.
pub(crate) fn go_round(
    alloc: Global,
    lots: &Lots,
    rotation: usize,
    rule: Rule,
) -> Result<Walk, AllocError>
    requires { rotation ≤ length lots.now.places.now }
    ensures walked { IfOk result (λ w. seen (lots_of lots.now.places.now lots.now.fetched.now) w
        ≡ walk (rule_of rule.bound (format_of rule.format)) unwalked (turned rotation (lots_of lots.now.places.now lots.now.fetched.now))) }
    ensures so_far { IfOk result (IsSoFar (lots_of lots.now.places.now lots.now.fetched.now) (format_of rule.format)) }
{
    let mut walked = Walk::new(alloc)?;
    walked.range(alloc, lots, rotation, lots.places.len(), rule)?;
    walked.range(alloc, lots, 0, rotation, rule)?;
    Ok(walked)
}
