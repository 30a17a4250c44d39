ghost use Rattle.std.specs.Prelude.{◌≡◌, map, option_map, option_and_then, codes, length, nat_abs, IfSome};
ghost use Rattle.serde_json.specs.View.{view, items_view};
ghost use Rattle.serde_json.specs.Find.{get, as_array};
ghost use Rattle.broker_link.specs.Fetching.{at_of};
ghost use Rattle.rest_calls.specs.Json.{all_of};
ghost use Rattle.rest_calls.specs.Views.{IsNumber};
ghost use Rattle.rest_calls.specs.Assign.{number_of, partition_of, topic_in, topic_of, part_of, parts_of, assigned_by};
ghost use Rattle.rest_calls.specs.Reading.{AssignedAs};
ghost use Rattle.rest_calls.specs.Reads.{Reads, ReadsAs, parts_view};

use crate::unread::Unread;
use crate::value::json_of;
use broker_link::TopicPart;
use gate_io::{Items, Text};
use serde_json::Value;
use std::alloc::{AllocError, Global};

/// A partition's number.
fn number_of(value: &Value) -> Option<i32>
    ensures value { option_map nat_abs result ≡ number_of (view value.now) }
    ensures fits { IfSome result IsNumber }
{
    let number = value.as_u64()?;
    if number < 1 << 31 {
        Some(number as i32)
    } else {
        None
    }
}

fn partition_of(object: &Value) -> Option<i32>
    ensures value { option_map nat_abs result ≡ partition_of (view object.now) }
    ensures fits { IfSome result IsNumber }
{
    number_of(object.get("partition")?)
}

/// A topic's name in a body has 1 to 249 bytes.
fn topic_in(text: &str) -> Option<&str>
    ensures { option_map (λ t. t.now) result ≡ topic_in text.now }
{
    if text.is_empty() || text.len() > 249 {
        return None;
    }
    Some(text)
}

#[tactic(auto, unfolding(crate::specs::Assign::topic_of))]
fn topic_of(object: &Value) -> Option<&str>
    ensures { option_map (λ t. t.now) result ≡ topic_of (view object.now) }
{
    topic_in(object.get("topic").and_then(Value::as_str)?)
}

#[tactic(auto, unfolding(crate::specs::Assign::part_of))]
pub(crate) fn part_of(alloc: Global, object: &Value) -> Result<TopicPart, Unread>
    ensures { Reads at_of result (part_of (view object.now)) }
{
    let Some(topic) = topic_of(object) else {
        return Err(Unread::Unreadable);
    };
    let Some(partition) = partition_of(object) else {
        return Err(Unread::Unreadable);
    };
    match Text::from_str(alloc, topic) {
        Ok(topic) => Ok(TopicPart { topic, partition }),
        Err(AllocError) => Err(Unread::Want),
    }
}

fn parts_in(alloc: Global, parts: &[Value]) -> Result<Items<TopicPart>, Unread>
    ensures { Reads parts_view result (all_of part_of (items_view parts.now)) }
{
    let Ok(mut read) = Vec::with_capacity(alloc, parts.len()) else {
        return Err(Unread::Want);
    };
    for object in parts {
        let part = part_of(alloc, object)?;
        if read.push(part).is_err() {
            return Err(Unread::Want);
        }
    }
    Ok(Items::from_vec(read))
}

fn listed(body: &Value) -> Option<&[Value]>
    ensures { option_map (λ ps. items_view ps.now) result
        ≡ option_and_then as_array (get (codes "partitions") (view body.now)) }
{
    let parts = body.get("partitions").and_then(Value::as_array)?;
    Some(parts.as_slice())
}

#[tactic(auto, unfolding(crate::specs::Assign::parts_of))]
fn parts_of(alloc: Global, body: &Value) -> Result<Items<TopicPart>, Unread>
    ensures { Reads parts_view result (parts_of (view body.now)) }
{
    match listed(body) {
        Some(parts) => parts_in(alloc, parts),
        None => Err(Unread::Unreadable),
    }
}

/// Reads the body of a request to assign partitions.
pub(crate) fn read_parts(alloc: Global, body: &[u8]) -> Result<Items<TopicPart>, Unread>
    ensures { ReadsAs parts_view result (AssignedAs body.now) }
{
    let value = match json_of(alloc, body) {
        Ok(value) => value,
        Err(e) => return Err(e),
    };
    parts_of(alloc, &value)
}
