ghost use Rattle.std.specs.Prelude.{◌≡◌, IfOk, OnOk, List, drop, map, not};
ghost use Rattle.std.specs.List.{position, position_or_len};
ghost use Rattle.model.specs.state.Log.{is_at};
ghost use Rattle.model.specs.state.World.{is_before};
ghost use Rattle.broker_link.specs.Fetching.{at_of};
ghost use Rattle.consumer_state.specs.Order.{AreSorted, begins_with, put_at};

use broker_link::TopicPart;
use gate_io::Text;
use std::alloc::{AllocError, Global};

/// By the topic's bytes, and then by number.
fn is_before(x: &TopicPart, y: &TopicPart) -> bool
    ensures { result ≡ is_before (at_of x.now) (at_of y.now) }
{
    if x.topic.as_str() == y.topic.as_str() {
        x.partition.unsigned_abs() < y.partition.unsigned_abs()
    } else {
        x.topic.as_str() < y.topic.as_str()
    }
}

pub(crate) fn is_at(x: &TopicPart, y: &TopicPart) -> bool
    ensures { result ≡ is_at (at_of x.now) (at_of y.now) }
{
    x.topic.as_str() == y.topic.as_str() && x.partition.unsigned_abs() == y.partition.unsigned_abs()
}

pub(crate) fn copied(alloc: Global, part: &TopicPart) -> Result<TopicPart, AllocError>
    ensures { IfOk result (λ copy. at_of copy ≡ at_of part.now) }
{
    let topic = Text::from_str(alloc, part.topic.as_str())?;
    Ok(TopicPart {
        topic,
        partition: part.partition,
    })
}

fn first_from(sorted: &[TopicPart], part: &TopicPart) -> Option<usize>
    ensures { result ≡ position (λ other. not (is_before (at_of other) (at_of part.now))) sorted.now }
{
    sorted.iter().position(|other| !is_before(other, part))
}

/// How many of these stand before the partition.
fn place_for(sorted: &[TopicPart], part: &TopicPart) -> usize
    ensures { result ≡ position_or_len (λ other. not (is_before (at_of other) (at_of part.now))) sorted.now }
{
    first_from(sorted, part).unwrap_or(sorted.len())
}

fn stands_at(sorted: &[TopicPart], place: usize, part: &TopicPart) -> bool
    ensures { result ≡ begins_with (at_of part.now) (map at_of (drop place sorted.now)) }
{
    match sorted.get(place) {
        Some(other) => is_at(other, part),
        None => false,
    }
}

fn put(alloc: Global, sorted: &mut Vec<TopicPart>, part: &TopicPart) -> Result<(), AllocError>
    ensures { OnOk result (map at_of sorted.new.items ≡ put_at (at_of part.now) (map at_of sorted.old.items)) }
{
    let place = place_for(sorted.as_slice(), part);
    if stands_at(sorted.as_slice(), place, part) {
        return Ok(());
    }
    let copy = copied(alloc, part)?;
    sorted.insert(place, copy)?;
    Ok(())
}

/// The partitions by topic and number, each once.
pub(crate) fn sorted(alloc: Global, parts: &[TopicPart]) -> Result<Vec<TopicPart>, AllocError>
    ensures { IfOk result (λ sorted. AreSorted (map at_of parts.now) (map at_of sorted.items)) }
{
    let mut sorted = Vec::new(alloc);
    for part in parts {
        put(alloc, &mut sorted, part)?;
    }
    Ok(sorted)
}
