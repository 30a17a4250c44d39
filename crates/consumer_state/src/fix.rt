ghost use Rattle.std.specs.Prelude.{[], ◌∷◌, ◌++◌, OnOk, ◌≡◌, ◌<◌, ◌^◌, ◌≤ℤ◌, All, AllPairs, IfOk, IfErr, List, ℕ, length, map, nat_abs, pos, filter, false};
ghost use Rattle.std.specs.List.{AllZip};
ghost use Rattle.model.specs.state.Log.{IsLog, is_at};
ghost use Rattle.model.specs.state.World.{IsLow};
ghost use Rattle.model.specs.step.Fixed.{Fixes, HasPart};
ghost use Rattle.broker_link.specs.Fetching.{IsCommittedAt, at_of, edge_view};
ghost use Rattle.broker_link.specs.Replies.{IsGood};
ghost use Rattle.consumer_state.specs.Fix.{AreFixed, IsFixed};
ghost use Rattle.consumer_state.specs.LinkCalls.{GoesOn, IsCaused, IsFailed, refusal_of};
ghost use Rattle.consumer_state.specs.Order.{AreRising};
ghost use Rattle.broker_link.specs.Places.{at_in, place_of};

use crate::known::{known_of, news_of};
use crate::topics::AssignNo;
use broker_link::{Edge, Link, Place, TopicPart};
use gate_io::{Items, Text};
use std::alloc::{AllocError, Global};

/// The position of one partition: what is known of it, where that isn't -1, else the edge.
fn fix_one<L: Link>(
    alloc: Global,
    link: &mut L,
    part: &TopicPart,
    known: i64,
    reset: Edge,
) -> Result<i64, AssignNo>
    ensures goes { GoesOn (L.stand link.old) (L.stand link.new) }
    ensures caused { IsCaused (L.stand link.old).counts (L.stand link.new).counts result }
    ensures failed { IfErr result IsFailed }
    ensures low { IfOk result (λ offset. pos 0 ≤ℤ offset) }
    ensures small { IfOk result (λ offset. nat_abs offset < 2 ^ 63) }
    ensures fixed { (L.stand link.old).tells → IfOk result (λ offset. IsFixed (L.stand link.new).log (edge_view reset) (at_of part.now) known (nat_abs offset)) }
    ensures good { (L.stand link.old).plain → (L.stand link.old).tells → HasPart (L.stand link.old).log (at_of part.now) → IfErr result (λ no. IsGood (refusal_of no)) }
{
    if known >= 0 {
        return Ok(known);
    }
    let offset = link.list_offset(alloc, part.topic.as_str(), part.partition, reset)?;
    Ok(offset)
}

fn placed(alloc: Global, part: &TopicPart, position: i64) -> Result<Place, AllocError>
    requires { pos 0 ≤ℤ position }
    ensures { IfOk result (λ place. place_of place ≡ record { at = at_of part.now; position = nat_abs position }) }
{
    let topic = Text::from_str(alloc, part.topic.as_str())?;
    Ok(Place {
        topic,
        partition: part.partition,
        position,
    })
}

/// Fixes one partition more, at the end of the places.
fn fix_next<L: Link>(
    alloc: Global,
    link: &mut L,
    part: &TopicPart,
    known: i64,
    reset: Edge,
) -> Result<Place, AssignNo>
    ensures goes { GoesOn (L.stand link.old) (L.stand link.new) }
    ensures caused { IsCaused (L.stand link.old).counts (L.stand link.new).counts result }
    ensures failed { IfErr result IsFailed }
    ensures whose { IfOk result (λ place. at_in place ≡ at_of part.now) }
    ensures small { IfOk result (λ place. nat_abs place.position < 2 ^ 63) }
    ensures fixed { (L.stand link.old).tells → IfOk result (λ place. IsFixed (L.stand link.new).log (edge_view reset) (at_of part.now) known (nat_abs place.position)) }
    ensures good { (L.stand link.old).plain → (L.stand link.old).tells → HasPart (L.stand link.old).log (at_of part.now) → IfErr result (λ no. IsGood (refusal_of no)) }
{
    let position = fix_one(alloc, link, part, known, reset)?;
    let place = placed(alloc, part, position)?;
    Ok(place)
}

fn push(places: &mut Vec<Place>, place: Place) -> Result<(), AllocError>
    ensures { OnOk result (places.new.items ≡ places.old.items ++ place ∷ []) }
{
    places.push(place)?;
    Ok(())
}

/// The places of the partitions, one after the other.
pub(crate) fn fix_all<L: Link>(
    alloc: Global,
    link: &mut L,
    parts: &[TopicPart],
    known: &[i64],
    reset: Edge,
) -> Result<Vec<Place>, AssignNo>
    requires same { length known.now ≡ length parts.now }
    ensures goes { GoesOn (L.stand link.old) (L.stand link.new) }
    ensures caused { IsCaused (L.stand link.old).counts (L.stand link.new).counts result }
    ensures failed { IfErr result IsFailed }
    ensures whose { IfOk result (λ places. map at_in places.items ≡ map at_of parts.now) }
    ensures small { IfOk result (λ places. IsLow (map place_of places.items)) }
    ensures fixed { (L.stand link.old).tells → IsLog (L.stand link.old).log → IfOk result (λ places. AreFixed (edge_view reset) (L.stand link.old).log (map at_of parts.now) known.now (map place_of places.items) (L.stand link.new).log) }
    ensures good { (L.stand link.old).plain → (L.stand link.old).tells → All (HasPart (L.stand link.old).log) (map at_of parts.now) → IfErr result (λ no. IsGood (refusal_of no)) }
{
    let mut places = Vec::new(alloc);
    for (i, part) in parts.iter().enumerate() {
        let place = fix_next(alloc, link, part, known[i], reset)?;
        push(&mut places, place)?;
    }
    Ok(places)
}

/// What the group has committed at these partitions; none are asked where there are none.
fn committed<L: Link>(
    alloc: Global,
    link: &mut L,
    group: &str,
    news: &[TopicPart],
) -> Result<Items<i64>, AssignNo>
    requires { AreRising (map at_of news.now) }
    ensures goes { GoesOn (L.stand link.old) (L.stand link.new) }
    ensures caused { IsCaused (L.stand link.old).counts (L.stand link.new).counts result }
    ensures failed { IfErr result IsFailed }
    ensures count { IfOk result (λ offsets. length offsets ≡ length news.now) }
    ensures told { (L.stand link.old).tells → IfOk result (AllZip (IsCommittedAt (L.stand link.new).log group.now) news.now) }
    ensures good { (L.stand link.old).plain → IfErr result (λ no. IsGood (refusal_of no)) }
{
    if news.is_empty() {
        return Ok(Items::new(alloc));
    }
    let offsets = link.committed(alloc, group, news)?;
    Ok(offsets)
}

/// The places of these partitions: the position of one that was assigned, else the committed
/// offset of the group, else the edge.
pub(crate) fn fix<L: Link>(
    alloc: Global,
    link: &mut L,
    group: &str,
    reset: Edge,
    kept: &[Place],
    parts: &[TopicPart],
) -> Result<Vec<Place>, AssignNo>
    requires { AreRising (map at_of parts.now) }
    ensures goes { GoesOn (L.stand link.old) (L.stand link.new) }
    ensures caused { IsCaused (L.stand link.old).counts (L.stand link.new).counts result }
    ensures failed { IfErr result IsFailed }
    ensures whose { IfOk result (λ places. map at_in places.items ≡ map at_of parts.now) }
    ensures small { IfOk result (λ places. IsLow (map place_of places.items)) }
    ensures fixes { (L.stand link.old).tells → IsLog (L.stand link.old).log → IfOk result (λ places.
        Fixes ((L.stand link.old).log.committed group.now) (edge_view reset) (map place_of kept.now) (L.stand link.old).log (map at_of parts.now) (map place_of places.items) (L.stand link.new).log) }
    ensures good { (L.stand link.old).plain → (L.stand link.old).tells → All (HasPart (L.stand link.old).log) (map at_of parts.now) → IfErr result (λ no. IsGood (refusal_of no)) }
{
    let news = news_of(alloc, kept, parts)?;
    let offsets = committed(alloc, link, group, news.as_slice())?;
    let known = known_of(alloc, kept, parts, offsets.as_slice())?;
    fix_all(alloc, link, parts, known.as_slice(), reset)
}
