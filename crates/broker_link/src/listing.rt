//! What a link in memory tells of its topics.

ghost use Rattle.std.specs.Prelude.{◌≡◌, ◌<◌, ◌^◌, pos, length, [], ◌∷◌, All, IfOk, OnOk, option_map};
ghost use Rattle.std.specs.List.{position, position_or_len};
ghost use Rattle.model.specs.state.Log.{shape_of};
ghost use Rattle.broker_link.specs.Made.{ArePlans};
ghost use Rattle.broker_link.specs.Metadata.{IsInfo, NumberedFrom};
ghost use Rattle.broker_link.specs.Infos.{AreOnNodeOne, Gathered, IsOnNodeOne, insert_info, is_below, TakesIn, wanted};
ghost use Rattle.broker_link.specs.Stored.{log_of};

use crate::topics::MemTopic;
use crate::{PartInfo, TopicInfo};
use gate_io::{Items, Text};
use std::alloc::{AllocError, Global};

/// The one node.
pub(crate) fn nodes(alloc: Global) -> Result<Items<i32>, AllocError>
    ensures { IfOk result (λ nodes. nodes ≡ pos 1 ∷ []) }
{
    let mut nodes = Items::new(alloc);
    nodes.push(1)?;
    Ok(nodes)
}

fn make_part(alloc: Global, number: usize) -> Result<PartInfo, AllocError>
    ensures number { number < 2 ^ 31 → IfOk result (λ part. part.number ≡ pos number) }
    ensures nodes { IfOk result IsOnNodeOne }
{
    let replicas = nodes(alloc)?;
    let in_sync = nodes(alloc)?;
    Ok(PartInfo {
        number: i32::try_from(number).unwrap_or(i32::MAX),
        leader: 1,
        replicas,
        in_sync,
    })
}

fn make_parts(alloc: Global, count: usize) -> Result<Items<PartInfo>, AllocError>
    ensures count { IfOk result (λ parts. length parts ≡ count) }
    ensures numbers { count < 2 ^ 31 → IfOk result (NumberedFrom 0) }
    ensures nodes { IfOk result (All IsOnNodeOne) }
{
    let mut parts = Items::new(alloc);
    for number in 0..count {
        parts.push(make_part(alloc, number)?)?;
    }
    Ok(parts)
}

fn make_info(alloc: Global, topic: &MemTopic) -> Result<TopicInfo, AllocError>
    ensures is { length topic.now.parts < 2 ^ 31 → IfOk result (IsInfo topic.now) }
    ensures nodes { IfOk result AreOnNodeOne }
{
    let name = Text::from_str(alloc, topic.name())?;
    let parts = make_parts(alloc, topic.count())?;
    Ok(TopicInfo { name, parts })
}

fn is_wanted(name: Option<&str>, topic: &MemTopic) -> bool
    ensures { result ≡ wanted (option_map (λ t. t.now) name.entry) topic.now }
{
    match name {
        None => true,
        Some(name) => topic.is_named(name),
    }
}

fn first_below(infos: &[TopicInfo], name: &str) -> Option<usize>
    ensures { result ≡ position (is_below name.now) infos.now }
{
    infos.iter().position(|y| name < y.name.as_str())
}

fn place_for(infos: &[TopicInfo], name: &str) -> usize
    ensures { result ≡ position_or_len (is_below name.now) infos.now }
{
    first_below(infos, name).unwrap_or(infos.len())
}

fn put_info(infos: &mut Vec<TopicInfo>, info: TopicInfo) -> Result<(), AllocError>
    ensures { OnOk result (infos.new.items ≡ insert_info info infos.old.items) }
{
    let place = place_for(infos.as_slice(), info.name.as_str());
    infos.insert(place, info)?;
    Ok(())
}

fn gather_one(
    alloc: Global,
    infos: &mut Vec<TopicInfo>,
    topic: &MemTopic,
    name: Option<&str>,
) -> Result<(), AllocError>
    ensures takes { length topic.now.parts < 2 ^ 31 → OnOk result (TakesIn (option_map (λ t. t.now) name.entry) topic.now infos.old.items infos.new.items) }
    ensures nodes { All AreOnNodeOne infos.old.items → OnOk result (All AreOnNodeOne infos.new.items) }
{
    if !is_wanted(name, topic) {
        return Ok(());
    }
    let info = make_info(alloc, topic)?;
    put_info(infos, info)
}

pub(crate) fn gather(
    alloc: Global,
    topics: &[MemTopic],
    name: Option<&str>,
) -> Result<Vec<TopicInfo>, AllocError>
    ensures gathered { ArePlans (shape_of (log_of topics.now)) → IfOk result (λ infos. Gathered (option_map (λ t. t.now) name.entry) topics.now infos.items) }
    ensures nodes { IfOk result (λ infos. All AreOnNodeOne infos.items) }
{
    let mut infos = Vec::new(alloc);
    for topic in topics {
        gather_one(alloc, &mut infos, topic, name)?;
    }
    Ok(infos)
}
