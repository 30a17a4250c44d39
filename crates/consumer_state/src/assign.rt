ghost use Rattle.std.specs.Prelude.{◌≡◌, IfOk, IfErr, List, [], ℕ, map, Some};
ghost use Rattle.model.specs.state.Log.{IsLog};
ghost use Rattle.model.specs.state.World.{IsLow};
ghost use Rattle.model.specs.step.Fixed.{Fixes};
ghost use Rattle.model.specs.step.Rules.{IsSet, lacking};
ghost use Rattle.model.specs.state.Entry.Act.{Assign};
ghost use Rattle.broker_link.specs.Fetching.{at_of, edge_view};
ghost use Rattle.broker_link.specs.Replies.{CountsKept, IsGood};
ghost use Rattle.rest_calls.specs.Responses.{response_in};
ghost use Rattle.rest_calls.specs.Views.{key_in};
ghost use Rattle.consumer_state.specs.Assign.{ActsSo};
ghost use Rattle.rest_replies.specs.Failure.{SaysOrWant};
ghost use Rattle.consumer_state.specs.LinkCalls.{FitsCode, GoesOn, IsCaused, refusal_of};
ghost use Rattle.broker_link.specs.Places.{at_in, place_of};
ghost use Rattle.consumer_state.specs.Views.{IsSound, consumer_of};

use crate::consumer::Consumer;
use crate::fix::fix;
use crate::order::sorted;
use crate::topics::{AssignNo, check_topics};
use broker_link::{Edge, Link, Place, TopicPart};
use rest_codes::Reply;
use rest_replies::{link_failure, refused};
use std::alloc::Global;

/// The places that are assigned by a list, where the topics have its partitions.
fn places_for<L: Link>(
    alloc: Global,
    link: &mut L,
    group: &str,
    reset: Edge,
    kept: &[Place],
    parts: &[TopicPart],
) -> Result<Vec<Place>, AssignNo>
    ensures goes { GoesOn (L.stand link.old) (L.stand link.new) }
    ensures caused { IsCaused (L.stand link.old).counts (L.stand link.new).counts result }
    ensures code { (L.stand link.old).tells → IsLog (L.stand link.old).log → FitsCode (lacking (L.stand link.old).log (map at_of parts.now) (map at_of parts.now)) result }
    ensures set { IfOk result (λ places. IsSet (map at_of parts.now) (map place_of places.items)) }
    ensures small { IfOk result (λ places. IsLow (map place_of places.items)) }
    ensures fixes { (L.stand link.old).tells → IsLog (L.stand link.old).log → IfOk result (λ places.
        Fixes ((L.stand link.old).log.committed group.now) (edge_view reset) (map place_of kept.now) (L.stand link.old).log (map at_in places.items) (map place_of places.items) (L.stand link.new).log) }
    ensures good { (L.stand link.old).plain → (L.stand link.old).tells → IsLog (L.stand link.old).log → IfErr result (λ no. IsGood (refusal_of no)) }
{
    check_topics(alloc, link, parts)?;
    let sorted = sorted(alloc, parts)?;
    fix(alloc, link, group, reset, kept, sorted.as_slice())
}

/// The reply to an Assign or a seek that isn't done.
pub(crate) fn refusal(alloc: Global, no: AssignNo) -> Reply
    ensures says { SaysOrWant (refusal_of no) result }
{
    match no {
        AssignNo::NoTopic => refused(alloc, 40401),
        AssignNo::NoPartition => refused(alloc, 40402),
        AssignNo::Failed(e) => link_failure(alloc, e),
    }
}

/// Assigns these partitions, or leaves the assignment as it was. An empty list clears it.
pub fn assign_parts<L: Link>(
    consumer: &mut Consumer,
    alloc: Global,
    link: &mut L,
    now: u64,
    group: &str,
    parts: &[TopicPart],
) -> Reply
    requires sound { IsSound consumer.old }
    ensures sound { IsSound consumer.new }
    ensures goes { GoesOn (L.stand link.old) (L.stand link.new) }
    ensures kept { CountsKept (L.stand link.old).counts (L.stand link.new).counts }
    ensures acts { (advertise instance : List ℕ) (round : ℕ) → ActsSo advertise (key_in group.now instance) now round (Assign (map at_of parts.now)) (L.stand link.old).tells (L.stand link.old).plain (L.stand link.old).counts (L.stand link.new).counts (consumer_of consumer.old) (L.stand link.old).log [] (Some (response_in result)) (L.stand link.new).log (consumer_of consumer.new) }
{
    consumer.last_use = now;
    if parts.is_empty() {
        consumer.assignment = Vec::new(alloc);
        consumer.rotation = 0;
        return Reply::Empty;
    }
    let kept = consumer.assignment.as_slice();
    match places_for(alloc, link, group, consumer.settings.reset, kept, parts) {
        Ok(places) => {
            consumer.assignment = places;
            consumer.rotation = 0;
            Reply::Empty
        }
        Err(no) => refusal(alloc, no),
    }
}
