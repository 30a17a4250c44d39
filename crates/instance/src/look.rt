ghost use Rattle.std.specs.Prelude.{◌≡◌, ◌*◌, ◌≤◌, ◌^◌, min, None, Some, codes, string_bytes, ◌++◌, [], ◌∷◌, ◌<◌, All, IfOk, IfErr, OnErr, List, ℕ, length, map, option_map};
ghost use Rattle.model.specs.state.Log.{IsLog};
ghost use Rattle.model.specs.state.World.{IsInOrder, IsLow, Key};
ghost use Rattle.model.specs.state.Entry.Act.{Records};
ghost use Rattle.model.specs.step.Events.{at_most};
ghost use Rattle.model.specs.history.Noted.{EndsInLook};
ghost use Rattle.broker_link.specs.Causes.{ComesOf};
ghost use Rattle.broker_link.specs.Fetching.{edge_view, rows_in};
ghost use Rattle.broker_link.specs.declared.link.LinkNo.TheVariants.{Want};
ghost use Rattle.instance.specs.Gathering.{AreGiven, HaveAll, IsHand, SetsBack};
ghost use Rattle.instance.specs.Passing.{Consults, Passes};
ghost use Rattle.forms.specs.Formats.{format_of};
ghost use Rattle.model.specs.state.Entry.Reply.{Unread};
ghost use Rattle.model.specs.step.Walk.{turned, unwalked, walk};
ghost use Rattle.model.specs.texts.Texts.Response.{Body};
ghost use Rattle.rest_calls.specs.Responses.{format_in, response_in};
ghost use Rattle.rest_calls.specs.Views.{formats_in};
ghost use Rattle.rest_replies.specs.Failure.{Says};
ghost use Rattle.instance.specs.declared.event.Event.TheVariants.{Looked};
ghost use Rattle.consumer_state.specs.Assign.{ActsSo};
ghost use Rattle.instance.specs.Ending.{IsKept, IsOver, IsSettled};
ghost use Rattle.instance.specs.Handed.{LooksAtGiven};
ghost use Rattle.instance.specs.Walk.{HasOffsets, HasRow, IsPick, IsSoFar, item_in, lots_of, rule_of, seen};
ghost use Rattle.broker_link.specs.Places.{place_of};
ghost use Rattle.consumer_state.specs.Views.{IsSound, consumer_of};
ghost use Rattle.instance.specs.Views.{events_in, said_in};

use crate::fetching::{all_inside, bytes_for, fetch_from};
use crate::moves::move_behind;
use crate::resets::set_back;
use crate::walk::{Lots, Pick, Rule, Walk, go_round, stored_at};
use crate::{Event, Outcome};
use broker_link::{Edge, Fetched, Link, LinkNo, Place};
use consumer_state::Consumer;
use gate_io::{Items, Text};
use rest_calls::{Accepted, Format, allows};
use rest_codes::{Media, Reply};
use rest_replies::{link_failure, refused, unread};
use std::alloc::{AllocError, Global};

/// As many key and value bytes as a reply has at most, but for those of its first row.
const MOST_SHOWN: u64 = 4_194_304;

/// Fetches from the positions, and once more where some were out of range and were set back.
fn gather<L: Link>(
    alloc: Global,
    link: &mut L,
    places: &mut [Place],
    first: usize,
    most: u32,
    edge: Edge,
    events: &mut Items<Event>,
) -> Result<Items<Fetched>, LinkNo>
    requires order { IsInOrder (map place_of places.old) }
    requires first { first ≤ length places.old }
    requires few { most < 2 ^ 31 }
    requires none { events.old ≡ [] }
    ensures passes { Passes (L.stand link.old) (L.stand link.new) }
    ensures set { SetsBack (L.stand link.old).tells (edge_view edge) (L.stand link.old).log (map place_of places.old) events.new (L.stand link.new).log (map place_of places.new) }
    ensures kept { IsLow (map place_of places.old) → IsLow (map place_of places.new) }
    ensures same { IfOk result (λ fetched. length fetched ≡ length places.new) }
    ensures offsets { IfOk result (All HasOffsets) }
    ensures hand { (L.stand link.old).tells → IsLog (L.stand link.old).log → IfOk result (λ fetched. IsHand (L.stand link.new).log (map place_of places.new) (lots_of places.new fetched)) }
    ensures given { (L.stand link.old).in_turn → (L.stand link.old).tells → IfOk result (λ fetched. AreGiven most first (L.stand link.new).log (map place_of places.new) (map rows_in fetched)) }
    ensures sent { OnErr result (0 < length places.old) }
    ensures good { (L.stand link.old).plain → (L.stand link.old).tells → HaveAll (L.stand link.old).log (map place_of places.old) → IfErr result (λ e. e ≡ Want) }
    ensures cause { IfErr result (ComesOf (L.stand link.old).counts (L.stand link.new).counts) }
{
    if places.is_empty() {
        return Ok(Items::new(alloc));
    }
    let fetched = match fetch_from(alloc, link, places, first, most) {
        Ok(fetched) => fetched,
        Err(e) => return Err(e),
    };
    if all_inside(fetched.as_slice()) {
        return Ok(fetched);
    }
    match set_back(alloc, link, places, fetched.as_slice(), edge) {
        Ok(news) => *events = news,
        Err(e) => return Err(e),
    }
    fetch_from(alloc, link, places, first, most)
}

/// The rows that the walk takes of what was fetched.
fn take_rows(
    consumer: &Consumer,
    alloc: Global,
    bound: u64,
    fetched: &[Fetched],
) -> Result<Walk, AllocError>
    requires sound { IsSound consumer.now }
    requires same { length fetched.now ≡ length consumer.now.assignment.items }
    ensures walked { IfOk result (λ w. seen (lots_of consumer.now.assignment.items fetched.now) w
        ≡ walk (rule_of bound (format_of consumer.now.settings.format)) unwalked (turned consumer.now.rotation (lots_of consumer.now.assignment.items fetched.now))) }
    ensures so_far { IfOk result (IsSoFar (lots_of consumer.now.assignment.items fetched.now) (format_of consumer.now.settings.format)) }
{
    let lots = Lots {
        places: consumer.assignment.as_slice(),
        fetched,
    };
    let rule = Rule {
        bound,
        format: consumer.settings.format,
    };
    go_round(alloc, &lots, consumer.rotation, rule)
}

/// The reply that names a row that doesn't read.
fn unread_at(
    consumer: &Consumer,
    alloc: Global,
    fetched: &[Fetched],
    pick: Pick,
) -> Result<Reply, AllocError>
    requires same { length fetched.now ≡ length consumer.now.assignment.items }
    requires pick { IsPick (lots_of consumer.now.assignment.items fetched.now) pick }
    requires lot { pick.lot < length consumer.now.assignment.items }
    requires row { HasRow fetched.now pick }
    ensures { IfOk result (Says (Unread (item_in (lots_of consumer.now.assignment.items fetched.now) pick) 2)) }
{
    let places = consumer.assignment.as_slice();
    let place = &places[pick.lot];
    let offset = stored_at(fetched, pick).offset.unsigned_abs();
    unread(
        alloc,
        place.topic.as_str(),
        place.partition.unsigned_abs(),
        offset,
        2,
    )
}

fn media_of(format: Format) -> Media
    ensures { format_in result ≡ Some (format_of format) }
{
    match format {
        Format::Binary => Media::Binary,
        Format::Json => Media::Json,
    }
}

/// The reply of the rows that were taken.
fn shown(mut text: String, format: Format) -> Result<Reply, AllocError>
    ensures { IfOk result (λ r. response_in r ≡ Body (Some (format_of format)) (string_bytes text ++ codes "]")) }
{
    text.push_str("]")?;
    Ok(Reply::Body {
        media: media_of(format),
        text: Text::from_string(text),
    })
}

/// Ends a look with what its walk takes, or by the first row that doesn't read where it took none. Its
/// reply and its event are made before anything moves.
fn settle(
    consumer: &mut Consumer,
    alloc: Global,
    round: u32,
    wait: u64,
    bound: u64,
    fetched: &[Fetched],
    events: &mut Items<Event>,
) -> Result<Option<Reply>, AllocError>
    requires sound { IsSound consumer.old }
    requires same { length fetched.now ≡ length consumer.old.assignment.items }
    requires offsets { All HasOffsets fetched.now }
    ensures settled { IfOk result (λ reply. IsSettled round wait bound (consumer_of consumer.old) (lots_of consumer.old.assignment.items fetched.now) events.old events.new (option_map response_in reply) (consumer_of consumer.new)) }
    ensures looks { IfOk result (λ reply. reply ≡ None → events.new ≡ events.old ++ Looked round ∷ []) }
    ensures waits { IfOk result (λ reply. reply ≡ None → 10 * round < wait) }
    ensures stays { OnErr result ((consumer.new ≡ consumer.old) × (events.new ≡ events.old)) }
    ensures sound { IsSound consumer.new }
{
    let walk = take_rows(consumer, alloc, bound, fetched)?;
    if let Some(pick) = walk.lost() {
        let reply = unread_at(consumer, alloc, fetched, pick)?;
        return Ok(Some(reply));
    }
    let last = wait <= 10 * u64::from(round);
    if !walk.is_enough(consumer.settings.min_bytes, last) {
        events.push(Event::Looked(round))?;
        return Ok(None);
    }
    let reply = shown(walk.text, consumer.settings.format)?;
    events.push(Event::Looked(round))?;
    move_behind(consumer, fetched, walk.picks.as_slice());
    Ok(Some(reply))
}

/// The same, with what is answered where it finds no memory.
fn conclude(
    consumer: &mut Consumer,
    alloc: Global,
    round: u32,
    wait: u64,
    bound: u64,
    fetched: &[Fetched],
    mut events: Items<Event>,
) -> Outcome
    requires sound { IsSound consumer.old }
    requires same { length fetched.now ≡ length consumer.old.assignment.items }
    requires offsets { All HasOffsets fetched.now }
    ensures over { IsOver round wait bound (consumer_of consumer.old) (lots_of consumer.old.assignment.items fetched.now) events result (consumer_of consumer.new) }
    ensures waits { result.reply ≡ None → 10 * round < wait }
    ensures looks { result.reply ≡ None → EndsInLook (events_in result) round }
    ensures sound { IsSound consumer.new }
{
    match settle(consumer, alloc, round, wait, bound, fetched, &mut events) {
        Ok(reply) => Outcome { events, reply },
        Err(AllocError) => Outcome {
            events,
            reply: Some(Reply::Want),
        },
    }
}

/// Fetches for a consumer's reply of so many bytes at most, and first where its walk begins.
fn gather_for<L: Link>(
    consumer: &mut Consumer,
    alloc: Global,
    link: &mut L,
    bound: u64,
    events: &mut Items<Event>,
) -> Result<Items<Fetched>, LinkNo>
    requires sound { IsSound consumer.old }
    requires none { events.old ≡ [] }
    ensures passes { Passes (L.stand link.old) (L.stand link.new) }
    ensures set { SetsBack (L.stand link.old).tells (edge_view consumer.old.settings.reset) (L.stand link.old).log (map place_of consumer.old.assignment.items) events.new (L.stand link.new).log (map place_of consumer.new.assignment.items) }
    ensures kept { IsKept consumer.old consumer.new }
    ensures sound { IsSound consumer.new }
    ensures same { IfOk result (λ fetched. length fetched ≡ length consumer.new.assignment.items) }
    ensures offsets { IfOk result (All HasOffsets) }
    ensures hand { (L.stand link.old).tells → IsLog (L.stand link.old).log → IfOk result (λ fetched. IsHand (L.stand link.new).log (map place_of consumer.new.assignment.items) (lots_of consumer.new.assignment.items fetched)) }
    ensures given { (L.stand link.old).in_turn → (L.stand link.old).tells → IfOk result (λ fetched. AreGiven (min (2 * bound) 1048576) consumer.old.rotation (L.stand link.new).log (map place_of consumer.new.assignment.items) (map rows_in fetched)) }
    ensures sent { OnErr result (0 < length consumer.old.assignment.items) }
    ensures good { (L.stand link.old).plain → (L.stand link.old).tells → HaveAll (L.stand link.old).log (map place_of consumer.old.assignment.items) → IfErr result (λ e. e ≡ Want) }
    ensures cause { IfErr result (ComesOf (L.stand link.old).counts (L.stand link.new).counts) }
{
    let first = consumer.rotation;
    let edge = consumer.settings.reset;
    let most = bytes_for(bound);
    gather(
        alloc,
        link,
        &mut consumer.assignment,
        first,
        most,
        edge,
        events,
    )
}

/// The smaller of a limit and what the query asks, if it asks.
fn at_most(limit: u64, asked: Option<u64>) -> u64
    ensures value { result ≡ at_most limit asked }
    ensures limit { result ≤ limit }
{
    match asked {
        Some(asked) => limit.min(asked),
        None => limit,
    }
}

/// One look of a Records call, of the round `round`: it fetches from the positions, and is answered
/// with what its walk takes, or not yet. 40601 where the request doesn't accept the instance's format.
pub(crate) fn look<L: Link>(
    consumer: &mut Consumer,
    alloc: Global,
    link: &mut L,
    now: u64,
    round: u32,
    accepts: Accepted,
    timeout: Option<u64>,
    max_bytes: Option<u64>,
) -> Outcome
    requires sound { IsSound consumer.old }
    ensures sound { IsSound consumer.new }
    ensures acts { (advertise : List ℕ) (key : Key) → ActsSo advertise key now round (Records (formats_in accepts) timeout max_bytes) (L.stand link.old).tells (L.stand link.old).plain (L.stand link.old).counts (L.stand link.new).counts (consumer_of consumer.old) (L.stand link.old).log (events_in result) (said_in result) (L.stand link.new).log (consumer_of consumer.new) }
    ensures handed { (L.stand link.old).in_turn → (L.stand link.old).tells → LooksAtGiven now round (formats_in accepts) timeout max_bytes (consumer_of consumer.old) (events_in result) (said_in result) (L.stand link.new).log (consumer_of consumer.new) }
    ensures waits { result.reply ≡ None → 10 * round < 2 ^ 32 }
    ensures looks { result.reply ≡ None → EndsInLook (events_in result) round }

    ensures consults { Consults (L.stand link.old) (L.stand link.new) }
{
    consumer.last_use = now;
    if !allows(accepts, consumer.settings.format) {
        return Outcome::of_reply(alloc, refused(alloc, 40601));
    }
    let wait = at_most(u64::from(consumer.settings.timeout_ms), timeout);
    let bound = at_most(MOST_SHOWN, max_bytes);
    let mut events = Items::new(alloc);
    match gather_for(consumer, alloc, link, bound, &mut events) {
        Ok(fetched) => conclude(
            consumer,
            alloc,
            round,
            wait,
            bound,
            fetched.as_slice(),
            events,
        ),
        Err(e) => Outcome {
            events,
            reply: Some(link_failure(alloc, e)),
        },
    }
}
