ghost use Rattle.std.specs.Prelude.{◌≡◌, All, IfErr, IfOk, List, [], ℕ, Some, map, negsuc, replicate};
ghost use Rattle.model.specs.state.Log.{IsLog};
ghost use Rattle.model.specs.state.Entry.Act.{SeekEdge};
ghost use Rattle.model.specs.step.Fixed.{Edges, HasPart};
ghost use Rattle.broker_link.specs.Fetching.{at_of, edge_view};
ghost use Rattle.broker_link.specs.Places.{at_in, place_of};
ghost use Rattle.broker_link.specs.Replies.{CountsKept, IsGood};
ghost use Rattle.rest_calls.specs.Responses.{response_in};
ghost use Rattle.rest_calls.specs.Views.{key_in};
ghost use Rattle.consumer_state.specs.Assign.{ActsSo};
ghost use Rattle.consumer_state.specs.LinkCalls.{GoesOn, IsCaused, IsFailed, refusal_of};
ghost use Rattle.consumer_state.specs.Positions.{SeeksSo};
ghost use Rattle.consumer_state.specs.Views.{IsSound, consumer_of};

use crate::assign::refusal;
use crate::consumer::Consumer;
use crate::fix::fix_all;
use crate::positions::{are_assigned, have_places, set_all};
use crate::topics::AssignNo;
use broker_link::{Edge, Link, Place, TopicPart};
use rest_codes::Reply;
use rest_replies::refused;
use std::alloc::{AllocError, Global};

/// Sets these positions in turn, or none where a partition isn't assigned.
pub fn seek(consumer: &mut Consumer, alloc: Global, now: u64, places: &[Place]) -> Reply
    requires { IsSound consumer.old }
    ensures sound { IsSound consumer.new }
    ensures seeks { SeeksSo now (map place_of places.now) (consumer_of consumer.old) result (consumer_of consumer.new) }
{
    consumer.last_use = now;
    if !have_places(consumer.assignment.as_slice(), places) {
        return refused(alloc, 40990);
    }
    set_all(&mut consumer.assignment, places);
    Reply::Empty
}

/// As many positions that aren't known.
fn unknown(alloc: Global, count: usize) -> Result<Vec<i64>, AllocError>
    ensures { IfOk result (λ known. known.items ≡ replicate count (negsuc 0)) }
{
    let mut known = Vec::new(alloc);
    known.resize(count, -1)?;
    Ok(known)
}

/// The start or the end of each of these partitions, as the link tells them in turn.
fn edges_of<L: Link>(
    alloc: Global,
    link: &mut L,
    edge: Edge,
    parts: &[TopicPart],
) -> Result<Vec<Place>, AssignNo>
    ensures goes { GoesOn (L.stand link.old) (L.stand link.new) }
    ensures caused { IsCaused (L.stand link.old).counts (L.stand link.new).counts result }
    ensures failed { IfErr result IsFailed }
    ensures whose { IfOk result (λ places. map at_in places.items ≡ map at_of parts.now) }
    ensures told { (L.stand link.old).tells → IsLog (L.stand link.old).log → IfOk result (λ places. Edges (edge_view edge) (L.stand link.old).log (map at_of parts.now) (map place_of places.items) (L.stand link.new).log) }
    ensures good { (L.stand link.old).plain → (L.stand link.old).tells → All (HasPart (L.stand link.old).log) (map at_of parts.now) → IfErr result (λ no. IsGood (refusal_of no)) }
{
    let known = unknown(alloc, parts.len())?;
    fix_all(alloc, link, parts, known.as_slice(), edge)
}

/// Sets the positions of these partitions to their start or end, or none where a partition isn't
/// assigned or the link refuses.
pub fn seek_edge<L: Link>(
    consumer: &mut Consumer,
    alloc: Global,
    link: &mut L,
    now: u64,
    edge: Edge,
    parts: &[TopicPart],
) -> Reply
    requires sound { IsSound consumer.old }
    ensures sound { IsSound consumer.new }
    ensures goes { GoesOn (L.stand link.old) (L.stand link.new) }
    ensures kept { CountsKept (L.stand link.old).counts (L.stand link.new).counts }
    ensures acts { (advertise group instance : List ℕ) (round : ℕ) → ActsSo advertise (key_in group instance) now round (SeekEdge (edge_view edge) (map at_of parts.now)) (L.stand link.old).tells (L.stand link.old).plain (L.stand link.old).counts (L.stand link.new).counts (consumer_of consumer.old) (L.stand link.old).log [] (Some (response_in result)) (L.stand link.new).log (consumer_of consumer.new) }
{
    consumer.last_use = now;
    if !are_assigned(consumer.assignment.as_slice(), parts) {
        return refused(alloc, 40990);
    }
    if parts.is_empty() {
        return Reply::Empty;
    }
    match edges_of(alloc, link, edge, parts) {
        Ok(news) => {
            set_all(&mut consumer.assignment, news.as_slice());
            Reply::Empty
        }
        Err(no) => refusal(alloc, no),
    }
}
