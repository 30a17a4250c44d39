ghost use Rattle.std.specs.Prelude.{◌≡◌, ◌⊎◌, ◌<◌, ◌≤◌, ◌≢◌, ◌^◌, ℕ, List, All, length, Err, None, Result, IfSome};
ghost use Rattle.model.specs.step.Fixed.{SameCommits};
ghost use Rattle.broker_link.specs.declared.link.LinkNo.TheVariants.{Want as LinkWant};
ghost use Rattle.broker_link.specs.Replies.{IsCounted, link_reply};
ghost use Rattle.broker_link.specs.Stands.{Goes, IsOnceAtMost};
ghost use Rattle.rest_calls.specs.Views.{PartitionFits};
ghost use Rattle.rest_replies.specs.Answer.{refusal_reply, reply_of};
ghost use Rattle.rest_replies.specs.declared.answer.ProduceNo.TheVariants.{NoPartition, NoTopic, Link as LinkFailed};
ghost use Rattle.producer.specs.Request.{EndsTold, IsGoodPlainly};

use crate::parts::are_within;
use crate::send::send_parts;
use broker_link::{Link, LinkNo, count_parts};
use gate_io::Items;
use rest_calls::Batch;
use rest_replies::{ProduceNo, Told};
use std::alloc::Global;

fn failed(e: LinkNo) -> ProduceNo
    ensures reply { refusal_reply result ≡ link_reply e }
    ensures apart { result ≢ LinkFailed LinkWant }
    ensures links { (result ≢ NoTopic) × (result ≢ NoPartition) }
{
    match e {
        LinkNo::Want => ProduceNo::Want,
        other => ProduceNo::Link(other),
    }
}

/// How many partitions, where their numbers are those of Kafka.
fn as_number(count: usize) -> Option<u32>
    ensures some { IfSome result (λ n. n ≡ count) }
    ensures few { IfSome result (λ n. n ≤ 2 ^ 31) }
    ensures many { result ≡ None → 2 ^ 31 < count }
{
    if count <= 1 << 31 {
        Some(count as u32)
    } else {
        None
    }
}

/// Stores the records of a request, with at most one produce call, which is given `now`, and answers
/// each in request order. A record that names no partition gets one by `partition_of`. Nothing is sent
/// but metadata before the topic and each partition are known.
pub fn produce<L: Link>(
    alloc: Global,
    now: u64,
    link: &mut L,
    topic: &str,
    batch: Batch,
) -> Result<Items<Told>, ProduceNo>
    requires some { 0 < length batch.rows }
    requires few { length batch.rows < 2 ^ 63 }
    requires fit { All PartitionFits batch.rows }
    ensures ends { EndsTold (L.stand link.old) (L.stand link.new) topic.now batch (reply_of result) }
    ensures apart { result ≢ Err (LinkFailed LinkWant) }

    ensures goes { Goes (L.stand link.old) (L.stand link.new) }
    ensures asked { IsOnceAtMost now (L.stand link.old).produces (L.stand link.new).produces }
    ensures unsent { (result ≡ Err NoTopic) ⊎ (result ≡ Err NoPartition)
        → (L.stand link.new).produces ≡ (L.stand link.old).produces }
    ensures commits { (L.stand link.old).tells → SameCommits (L.stand link.old).log (L.stand link.new).log }

    ensures counts { IsCounted (L.stand link.old).counts (L.stand link.new).counts (reply_of result) }
    ensures good { IsGoodPlainly (L.stand link.old) (reply_of result) }
{
    let count = match count_parts(alloc, link, topic) {
        Ok(Some(count)) => count,
        Ok(None) => return Err(ProduceNo::NoTopic),
        Err(e) => return Err(failed(e)),
    };
    if !are_within(batch.rows.as_slice(), count) {
        return Err(ProduceNo::NoPartition);
    }
    let Some(count) = as_number(count) else {
        return Err(ProduceNo::Want);
    };
    match send_parts(alloc, now, link, topic, batch.rows, count) {
        Ok(told) => Ok(told),
        Err(e) => Err(failed(e)),
    }
}
