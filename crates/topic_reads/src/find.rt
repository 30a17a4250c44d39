ghost use Rattle.std.specs.Prelude.{◌≡◌, ℕ, IfErr, IfOk, MatchOption, All, Some, None, slice_get};
ghost use Rattle.std.specs.List.{position};
ghost use Rattle.model.specs.state.Log.{IsLog};
ghost use Rattle.broker_link.specs.Fetching.{at_of};
ghost use Rattle.broker_link.specs.Stands.{Consults};
ghost use Rattle.rest_calls.specs.Questions.{question_of};
ghost use Rattle.model.specs.step.Step.{IsAnswered};
ghost use Rattle.topic_reads.specs.Heard.{AreHeard};
ghost use Rattle.topic_reads.specs.Finding.{ComesOf, FindsEdges, FindsPart, FindsTopic, IsWantIfLinks, is_numbered, part_of};
ghost use Rattle.rest_replies.specs.Found.{reply_of};
ghost use Rattle.rest_replies.specs.Topics.{Fits};

use broker_link::{Edge, Link, PartInfo, TopicInfo, TopicPart};
use rest_calls::Question;
use rest_replies::{AskNo, Found};
use std::alloc::Global;

/// What the broker tells of a topic.
fn topic_info<L: Link>(alloc: Global, link: &mut L, topic: &str) -> Result<TopicInfo, AskNo>
    ensures consults { Consults (L.stand link.old) (L.stand link.new) }
    ensures found { (L.stand link.old).tells → IsLog (L.stand link.old).log → FindsTopic (L.stand link.old).log topic.now result }
    ensures nodes { IfOk result (λ info. All (L.stand link.old).nodes info.parts) }
    ensures cause { IfErr result (ComesOf (L.stand link.old).counts (L.stand link.new).counts) }
    ensures good { (L.stand link.old).plain → IfErr result IsWantIfLinks }
{
    let mut infos = link.metadata(alloc, Some(topic))?;
    if infos.is_empty() {
        return Err(AskNo::NoTopic);
    }
    Ok(infos.remove(0))
}

fn is_numbered(part: &PartInfo, number: i32) -> bool
    ensures { result ≡ is_numbered number part.now }
{
    part.number == number
}

fn place_of(parts: &[PartInfo], number: i32) -> Option<usize>
    ensures { result ≡ position (is_numbered number) parts.now }
{
    parts.iter().position(|part| is_numbered(part, number))
}

/// The partition of that number.
fn part_in(info: TopicInfo, number: i32) -> Option<PartInfo>
    ensures { result ≡ part_of number info.parts }
{
    let TopicInfo { mut parts, .. } = info;
    let place = place_of(parts.as_slice(), number)?;
    Some(parts.remove(place))
}

/// What the broker tells of a partition.
fn part_info<L: Link>(alloc: Global, link: &mut L, part: &TopicPart) -> Result<PartInfo, AskNo>
    ensures consults { Consults (L.stand link.old) (L.stand link.new) }
    ensures found { (L.stand link.old).tells → IsLog (L.stand link.old).log → FindsPart (L.stand link.old).log (at_of part.now) result }
    ensures nodes { IfOk result (L.stand link.old).nodes }
    ensures cause { IfErr result (ComesOf (L.stand link.old).counts (L.stand link.new).counts) }
    ensures good { (L.stand link.old).plain → IfErr result IsWantIfLinks }
{
    let info = topic_info(alloc, link, part.topic.as_str())?;
    match part_in(info, part.partition) {
        Some(part) => Ok(part),
        None => Err(AskNo::NoPartition),
    }
}

/// Where a partition begins and ends.
fn edges<L: Link>(alloc: Global, link: &mut L, part: &TopicPart) -> Result<(u64, u64), AskNo>
    ensures consults { Consults (L.stand link.old) (L.stand link.new) }
    ensures found { (L.stand link.old).tells → IsLog (L.stand link.old).log → FindsEdges (L.stand link.old).log (L.stand link.new).log (at_of part.now) result }
    ensures cause { IfErr result (ComesOf (L.stand link.old).counts (L.stand link.new).counts) }
    ensures good { (L.stand link.old).plain → (L.stand link.old).tells → IsLog (L.stand link.old).log → IfErr result IsWantIfLinks }
{
    part_info(alloc, link, part)?;
    let topic = part.topic.as_str();
    let start = link.list_offset(alloc, topic, part.partition, Edge::Start)?;
    let end = link.list_offset(alloc, topic, part.partition, Edge::End)?;
    Ok((start.unsigned_abs(), end.unsigned_abs()))
}

/// Asks the link what the question is about.
pub(crate) fn find<L: Link>(
    alloc: Global,
    link: &mut L,
    question: &Question,
) -> Result<Found, AskNo>
    ensures consults { Consults (L.stand link.old) (L.stand link.new) }
    ensures fits { IfOk result (Fits question.now) }
    ensures answered { (L.stand link.old).tells → IsLog (L.stand link.old).log → IsAnswered (question_of question.now) (L.stand link.old).log (L.stand link.new).log (Some (reply_of result)) }
    ensures heard { IfOk result (AreHeard (L.stand link.old)) }
    ensures cause { IfErr result (ComesOf (L.stand link.old).counts (L.stand link.new).counts) }
    ensures good { (L.stand link.old).plain → (L.stand link.old).tells → IsLog (L.stand link.old).log → IfErr result IsWantIfLinks }
{
    let found = match question {
        Question::Brokers => Found::Brokers(link.brokers(alloc)?),
        Question::Topics => Found::Topics(link.metadata(alloc, None)?),
        Question::Topic(topic) => Found::Topic(topic_info(alloc, link, topic.as_str())?),
        Question::Partitions(topic) => Found::Partitions(topic_info(alloc, link, topic.as_str())?),
        Question::Partition(part) => Found::Partition(part_info(alloc, link, part)?),
        Question::EndOffsets(part) => {
            let (start, end) = edges(alloc, link, part)?;
            Found::Edges(start, end)
        }
    };
    Ok(found)
}
