ghost use Rattle.std.specs.Prelude.{◌≡◌, ◌+◌, ◌++◌, ◌<◌, ◌≤◌, IfOk, OnOk, List, [], ◌∷◌, filter, length, map, option_map, pos, None};
ghost use Rattle.model.specs.state.Log.{is_at};
ghost use Rattle.model.specs.state.World.{position_in};
ghost use Rattle.broker_link.specs.Fetching.{at_of, named_at};
ghost use Rattle.consumer_state.specs.Fix.{is_new, known_at, merged, next_after};
ghost use Rattle.broker_link.specs.Places.{at_in, place_of};

use crate::order::copied;
use broker_link::{Place, TopicPart};
use std::alloc::{AllocError, Global};

pub(crate) fn is_there(place: &Place, topic: &str, partition: i32) -> bool
    ensures { result ≡ is_at (named_at topic.now partition) (at_in place.now) }
{
    topic == place.topic.as_str() && partition.unsigned_abs() == place.partition.unsigned_abs()
}

/// The position of the partition among these places.
pub(crate) fn position_of(kept: &[Place], topic: &str, partition: i32) -> Option<i64>
    ensures { result ≡ option_map pos (position_in (map place_of kept.now) (named_at topic.now partition)) }
{
    for place in kept {
        if is_there(place, topic, partition) {
            return Some(place.position);
        }
    }
    None
}

fn put_new(
    alloc: Global,
    kept: &[Place],
    news: &mut Vec<TopicPart>,
    part: &TopicPart,
) -> Result<(), AllocError>
    ensures { OnOk result (map at_of news.new.items ≡ map at_of news.old.items ++ filter (is_new (map place_of kept.now)) (at_of part.now ∷ [])) }
{
    if position_of(kept, part.topic.as_str(), part.partition).is_some() {
        return Ok(());
    }
    news.push(copied(alloc, part)?)?;
    Ok(())
}

/// Those of the partitions that weren't assigned, in order.
pub(crate) fn news_of(
    alloc: Global,
    kept: &[Place],
    parts: &[TopicPart],
) -> Result<Vec<TopicPart>, AllocError>
    ensures { IfOk result (λ news. map at_of news.items ≡ filter (is_new (map place_of kept.now)) (map at_of parts.now)) }
{
    let mut news = Vec::new(alloc);
    for part in parts {
        put_new(alloc, kept, &mut news, part)?;
    }
    Ok(news)
}

/// Puts what is known of one partition more, and gives the place of the next new one's offset.
fn put_known(
    kept: &[Place],
    part: &TopicPart,
    offsets: &[i64],
    next: usize,
    known: &mut Vec<i64>,
) -> Result<usize, AllocError>
    requires within { position_in (map place_of kept.now) (at_of part.now) ≡ None → next < length offsets.now }
    ensures put { OnOk result (known.new.items ≡ known.old.items ++ known_at (position_in (map place_of kept.now) (at_of part.now)) offsets.now next ∷ []) }
    ensures next { IfOk result (λ n. n ≡ next_after (position_in (map place_of kept.now) (at_of part.now)) next) }
{
    match position_of(kept, part.topic.as_str(), part.partition) {
        Some(position) => {
            known.push(position)?;
            Ok(next)
        }
        None => {
            known.push(offsets[next])?;
            Ok(next + 1)
        }
    }
}

/// What is known of each partition: its position, else the next of these committed offsets.
pub(crate) fn known_of(
    alloc: Global,
    kept: &[Place],
    parts: &[TopicPart],
    offsets: &[i64],
) -> Result<Vec<i64>, AllocError>
    requires { length offsets.now ≡ length (filter (is_new (map place_of kept.now)) (map at_of parts.now)) }
    ensures { IfOk result (λ known. known.items ≡ merged (map place_of kept.now) (map at_of parts.now) offsets.now 0) }
{
    let mut known = Vec::new(alloc);
    let mut next = 0;
    for part in parts {
        next = put_known(kept, part, offsets, next, &mut known)?;
    }
    Ok(known)
}
