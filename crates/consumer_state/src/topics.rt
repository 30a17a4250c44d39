ghost use Rattle.std.specs.Prelude.{◌≡◌, ◌<◌, IfOk, IfErr, List, ℕ, length, map, take, true};
ghost use Rattle.std.specs.List.{list_any};
ghost use Rattle.model.specs.state.Log.{IsLog};
ghost use Rattle.model.specs.step.Rules.{lacking};
ghost use Rattle.broker_link.specs.Fetching.{at_of};
ghost use Rattle.broker_link.specs.Replies.{IsGood};
ghost use Rattle.consumer_state.specs.Topics.{FitsNext, Pass, is_beyond, topic_code};
ghost use Rattle.consumer_state.specs.LinkCalls.{FitsCode, GoesOn, IsCaused, refusal_of};
ghost use Rattle.std.specs.Str.{bytes_eq};

use broker_link::{Link, LinkNo, TopicPart, count_parts};
use std::alloc::{AllocError, Global};

/// Why partitions aren't assigned.
#[derive(Clone, Copy, Debug, PartialEq, Eq)]
pub(crate) enum AssignNo {
    /// The broker doesn't know a topic.
    NoTopic,
    /// A topic lacks a listed partition.
    NoPartition,
    Failed(LinkNo),
}

impl From<LinkNo> for AssignNo {
    ghost use Rattle.consumer_state.specs.declared.topics.AssignNo.TheVariants.{Failed};

    ghost from_gives = { λ e no. no ≡ Failed e };

    fn from(e: LinkNo) -> Self {
        AssignNo::Failed(e)
    }
}

impl From<AllocError> for AssignNo {
    ghost use Rattle.broker_link.specs.declared.link.LinkNo.TheVariants.{Want};
    ghost use Rattle.consumer_state.specs.declared.topics.AssignNo.TheVariants.{Failed};

    ghost from_gives = { λ _ no. no ≡ Failed Want };

    fn from(_: AllocError) -> Self {
        AssignNo::Failed(LinkNo::Want)
    }
}

fn is_beyond(part: &TopicPart, topic: &str, count: usize) -> bool
    ensures { result ≡ is_beyond topic.now count (at_of part.now) }
{
    part.topic.as_str() == topic && part.partition.unsigned_abs() as usize >= count
}

/// One of these is a partition behind the topic's last one.
fn lists_beyond(parts: &[TopicPart], topic: &str, count: usize) -> bool
    ensures { result ≡ list_any (λ part. is_beyond topic.now count (at_of part)) parts.now }
{
    parts.iter().any(|part| is_beyond(part, topic, count))
}

fn is_named(parts: &[TopicPart], topic: &str) -> bool
    ensures { result ≡ list_any (λ part. bytes_eq part.topic topic.now) parts.now }
{
    parts.iter().any(|part| part.topic.as_str() == topic)
}

/// Gets the topic's metadata, and looks there for each of its partitions that is listed.
fn check_topic<L: Link>(
    alloc: Global,
    link: &mut L,
    topic: &str,
    parts: &[TopicPart],
) -> Result<(), AssignNo>
    ensures goes { GoesOn (L.stand link.old) (L.stand link.new) }
    ensures caused { IsCaused (L.stand link.old).counts (L.stand link.new).counts result }
    ensures code { (L.stand link.old).tells → IsLog (L.stand link.old).log → FitsCode (topic_code (L.stand link.old).log (map at_of parts.now) topic.now) result }
    ensures good { (L.stand link.old).plain → IfErr result (λ no. IsGood (refusal_of no)) }
{
    let count = count_parts(alloc, link, topic)?;
    let Some(count) = count else {
        return Err(AssignNo::NoTopic);
    };
    if lists_beyond(parts, topic, count) {
        return Err(AssignNo::NoPartition);
    }
    Ok(())
}

/// The same of the topic at a place, unless one before it has that topic.
fn check_place<L: Link>(
    alloc: Global,
    link: &mut L,
    parts: &[TopicPart],
    place: usize,
) -> Result<(), AssignNo>
    requires within { place < length parts.now }
    ensures goes { GoesOn (L.stand link.old) (L.stand link.new) }
    ensures caused { IsCaused (L.stand link.old).counts (L.stand link.new).counts result }
    ensures code { (L.stand link.old).tells → IsLog (L.stand link.old).log → Pass (L.stand link.old).log (map at_of parts.now) (take place (map at_of parts.now)) → FitsNext (L.stand link.old).log (map at_of parts.now) place result }
    ensures good { (L.stand link.old).plain → IfErr result (λ no. IsGood (refusal_of no)) }
{
    let topic = parts[place].topic.as_str();
    if is_named(&parts[..place], topic) {
        return Ok(());
    }
    check_topic(alloc, link, topic, parts)
}

/// Gets the metadata of each topic once, in the order of first places, and looks at each answer
/// before the next call.
pub(crate) fn check_topics<L: Link>(
    alloc: Global,
    link: &mut L,
    parts: &[TopicPart],
) -> Result<(), AssignNo>
    ensures goes { GoesOn (L.stand link.old) (L.stand link.new) }
    ensures caused { IsCaused (L.stand link.old).counts (L.stand link.new).counts result }
    ensures code { (L.stand link.old).tells → IsLog (L.stand link.old).log → FitsCode (lacking (L.stand link.old).log (map at_of parts.now) (map at_of parts.now)) result }
    ensures good { (L.stand link.old).plain → IfErr result (λ no. IsGood (refusal_of no)) }
{
    for place in 0..parts.len() {
        check_place(alloc, link, parts, place)?;
    }
    Ok(())
}
