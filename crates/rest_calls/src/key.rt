ghost use Rattle.std.specs.Prelude.{◌≡◌, false, IfOk};
ghost use Rattle.model.specs.state.World.{key_bytes};
ghost use Rattle.rest_calls.specs.Views.{asked_of, is_unnamed, key_in, name_in};
ghost use Rattle.rest_calls.specs.Keys.{key_bytes_of, topic_asked};
ghost use Rattle.rest_calls.specs.Questions.{question_of};

use crate::call::Call;
use crate::question::Question;
use gate_io::{Items, Text, Want};
use std::alloc::{AllocError, Global};

fn joined(alloc: Global, group: &Text, instance: &str) -> Result<Items<u8>, AllocError>
    ensures { IfOk result (λ key. key ≡ key_bytes (key_in group.now instance.now)) }
{
    let mut key = Vec::new(alloc);
    key.extend_from_slice(group.as_bytes())?;
    key.extend_from_slice(b"\0")?;
    key.extend_from_slice(instance.as_bytes())?;
    Ok(Items::from_vec(key))
}

fn name_in(name: &Option<Text>) -> &str
    ensures { result.now ≡ name_in name.now }
{
    match name {
        Some(name) => name.as_str(),
        None => "",
    }
}

fn topic_asked(question: &Question) -> &str
    ensures { result.now ≡ topic_asked (question_of question.now) }
{
    match question {
        Question::Brokers | Question::Topics => "",
        Question::Topic(topic) | Question::Partitions(topic) => topic.as_str(),
        Question::Partition(part) | Question::EndOffsets(part) => part.topic.as_str(),
    }
}

fn bytes_of(alloc: Global, call: &Call) -> Result<Items<u8>, AllocError>
    ensures { IfOk result (λ key. key ≡ key_bytes_of (asked_of call.now)) }
{
    match call {
        Call::Produce { topic, .. } => Items::from_slice(alloc, topic.as_bytes()),
        Call::Ask(question) => Items::from_slice(alloc, topic_asked(question).as_bytes()),
        Call::Create { group, name, .. } => joined(alloc, group, name_in(name)),
        Call::Delete { group, instance } => joined(alloc, group, instance.as_str()),
        Call::Subscription { group, instance } => joined(alloc, group, instance.as_str()),
        Call::Assign {
            group,
            instance,
            ..
        } => joined(alloc, group, instance.as_str()),
        Call::Assignments { group, instance } => joined(alloc, group, instance.as_str()),
        Call::Seek {
            group,
            instance,
            ..
        } => joined(alloc, group, instance.as_str()),
        Call::SeekEdge {
            group,
            instance,
            ..
        } => joined(alloc, group, instance.as_str()),
        Call::Records {
            group,
            instance,
            ..
        } => joined(alloc, group, instance.as_str()),
    }
}

/// The bytes by which a call finds its shard: for a consumer's call the group, a zero byte and the
/// instance, else the topic that it is about, and none for a question about all topics or brokers.
pub fn key_of(alloc: Global, call: &Call) -> Result<Items<u8>, Want>
    requires named { is_unnamed (asked_of call.now) ≡ false }
    ensures { IfOk result (λ key. key ≡ key_bytes_of (asked_of call.now)) }
{
    match bytes_of(alloc, call) {
        Ok(key) => Ok(key),
        Err(AllocError) => Err(Want),
    }
}
