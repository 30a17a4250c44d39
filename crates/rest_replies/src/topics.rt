ghost use Rattle.std.specs.Prelude.{◌≡◌, ◌++◌, IfOk, OnOk, List, [], cond, codes, map, string_bytes, Ok};
ghost use Rattle.std.specs.Fmt.{signed_decimal};
ghost use Rattle.std.specs.List.{list_any};
ghost use Rattle.rest_replies.specs.Topics.{SaysFound, body_of, edges_line, node_in, nodes_line, part_line, quoted_name, replica_line, text_of, topic_in, topic_line};
ghost use Rattle.json.specs.Print.{quoted};
ghost use Rattle.model.specs.texts.Bodies.{array, bool_text, same_node, told_text};
ghost use Rattle.rest_replies.specs.Failure.{SaysOrWant};
ghost use Rattle.rest_replies.specs.Found.{name_in, refusal_of, told_in};

use crate::{AskNo, Found, link_failure, refused};
use broker_link::{PartInfo, TopicInfo};
use gate_io::Text;
use rest_calls::Question;
use rest_codes::{Media, Reply, quoted_text};
use std::alloc::{AllocError, Global};

fn word(is: bool) -> &'static str
    ensures { result.now ≡ bool_text is }
{
    if is { "true" } else { "false" }
}

fn is_node(one: i32, other: i32) -> bool
    ensures { result ≡ same_node one other }
{
    one == other
}

fn has_node(nodes: &[i32], node: i32) -> bool
    ensures { result ≡ list_any (same_node node) nodes.now }
{
    nodes.iter().any(|other| is_node(node, *other))
}

fn put_next(text: &mut String, first: bool, next: &str) -> Result<(), AllocError>
    ensures { OnOk result (string_bytes text.new ≡ string_bytes text.old ++ (cond first [] (codes ",") ++ next.now)) }
{
    if !first {
        text.push_str(",")?;
    }
    text.push_str(next)
}

/// A JSON array of these texts.
fn array(alloc: Global, texts: &[Text]) -> Result<String, AllocError>
    ensures { IfOk result (λ s. string_bytes s ≡ array texts.now) }
{
    let mut text = String::from_str(alloc, "[")?;
    for (i, one) in texts.iter().enumerate() {
        put_next(&mut text, i == 0, one.as_str())?;
    }
    text.push_str("]")?;
    Ok(text)
}

#[tactic(auto, unfolding(crate::specs::Topics::replica_line))]
fn replica_line(alloc: Global, node: i32, leader: &str, in_sync: &str) -> Result<String, AllocError>
    ensures { IfOk result (λ s. string_bytes s ≡ replica_line node leader.now in_sync.now) }
{
    format!(in alloc; "{{\"broker\":{node},\"leader\":{leader},\"in_sync\":{in_sync}}}")
}

/// A node that has the partition.
fn replica_text(alloc: Global, part: &PartInfo, node: i32) -> Result<Text, AllocError>
    ensures { IfOk result (λ t. t ≡ node_in part.now node) }
{
    let leader = word(is_node(node, part.leader));
    let in_sync = word(has_node(part.in_sync.as_slice(), node));
    let text = replica_line(alloc, node, leader, in_sync)?;
    Ok(Text::from_string(text))
}

fn replica_texts(alloc: Global, part: &PartInfo, nodes: &[i32]) -> Result<Vec<Text>, AllocError>
    ensures { IfOk result (λ texts. texts.items ≡ map (node_in part.now) nodes.now) }
{
    let mut texts = Vec::new(alloc);
    for node in nodes {
        texts.push(replica_text(alloc, part, *node)?)?;
    }
    Ok(texts)
}

#[tactic(auto, unfolding(crate::specs::Topics::part_line))]
fn part_line(alloc: Global, number: u32, leader: i32, replicas: &str) -> Result<String, AllocError>
    ensures { IfOk result (λ s. string_bytes s ≡ part_line number leader replicas.now) }
{
    format!(in alloc; "{{\"partition\":{number},\"leader\":{leader},\"replicas\":{replicas}}}")
}

/// A partition, the node that leads it, and the nodes that have it.
fn part_text(alloc: Global, part: &PartInfo) -> Result<Text, AllocError>
    ensures { IfOk result (λ t. t ≡ told_text (told_in part.now)) }
{
    let replicas = replica_texts(alloc, part, part.replicas.as_slice())?;
    let replicas = array(alloc, replicas.as_slice())?;
    let number = part.number.unsigned_abs();
    let text = part_line(alloc, number, part.leader, replicas.as_str())?;
    Ok(Text::from_string(text))
}

fn part_texts(alloc: Global, parts: &[PartInfo]) -> Result<Vec<Text>, AllocError>
    ensures { IfOk result (λ texts. texts.items ≡ map text_of parts.now) }
{
    let mut texts = Vec::new(alloc);
    for part in parts {
        texts.push(part_text(alloc, part)?)?;
    }
    Ok(texts)
}

/// The partitions of a topic.
fn parts_text(alloc: Global, info: &TopicInfo) -> Result<String, AllocError>
    ensures { IfOk result (λ s. string_bytes s ≡ array (map told_text (map told_in info.now.parts))) }
{
    let parts = part_texts(alloc, info.parts.as_slice())?;
    array(alloc, parts.as_slice())
}

#[tactic(auto, unfolding(crate::specs::Topics::topic_line))]
fn topic_line(alloc: Global, name: &str, parts: &str) -> Result<String, AllocError>
    ensures { IfOk result (λ s. string_bytes s ≡ topic_line name.now parts.now) }
{
    format!(in alloc; "{{\"name\":{name},\"configs\":{{}},\"partitions\":{parts}}}")
}

/// A topic with its partitions, under the name that was asked for.
fn topic_text(alloc: Global, name: &str, info: &TopicInfo) -> Result<String, AllocError>
    ensures { IfOk result (λ s. string_bytes s ≡ topic_line (quoted name.now) (array (map told_text (map told_in info.now.parts)))) }
{
    let name = quoted_text(alloc, name)?;
    let parts = parts_text(alloc, info)?;
    topic_line(alloc, name.as_str(), parts.as_str())
}

fn name_text(alloc: Global, info: &TopicInfo) -> Result<Text, AllocError>
    ensures { IfOk result (λ t. t ≡ quoted info.now.name) }
{
    let name = quoted_text(alloc, info.name.as_str())?;
    Ok(Text::from_string(name))
}

fn name_texts(alloc: Global, infos: &[TopicInfo]) -> Result<Vec<Text>, AllocError>
    ensures { IfOk result (λ texts. texts.items ≡ map quoted_name infos.now) }
{
    let mut texts = Vec::new(alloc);
    for info in infos {
        texts.push(name_text(alloc, info)?)?;
    }
    Ok(texts)
}

/// The names of the topics.
fn names_text(alloc: Global, infos: &[TopicInfo]) -> Result<String, AllocError>
    ensures { IfOk result (λ s. string_bytes s ≡ array (map quoted (map name_in infos.now))) }
{
    let names = name_texts(alloc, infos)?;
    array(alloc, names.as_slice())
}

fn node_text(alloc: Global, node: i32) -> Result<Text, AllocError>
    ensures { IfOk result (λ t. t ≡ signed_decimal node) }
{
    let text = format!(in alloc; "{node}")?;
    Ok(Text::from_string(text))
}

fn node_texts(alloc: Global, nodes: &[i32]) -> Result<Vec<Text>, AllocError>
    ensures { IfOk result (λ texts. texts.items ≡ map signed_decimal nodes.now) }
{
    let mut texts = Vec::new(alloc);
    for node in nodes {
        texts.push(node_text(alloc, *node)?)?;
    }
    Ok(texts)
}

#[tactic(auto, unfolding(crate::specs::Topics::nodes_line))]
fn nodes_line(alloc: Global, nodes: &str) -> Result<String, AllocError>
    ensures { IfOk result (λ s. string_bytes s ≡ nodes_line nodes.now) }
{
    format!(in alloc; "{{\"brokers\":{nodes}}}")
}

/// The ids of the brokers.
fn nodes_text(alloc: Global, nodes: &[i32]) -> Result<String, AllocError>
    ensures { IfOk result (λ s. string_bytes s ≡ nodes_line (array (map signed_decimal nodes.now))) }
{
    let nodes = node_texts(alloc, nodes)?;
    let nodes = array(alloc, nodes.as_slice())?;
    nodes_line(alloc, nodes.as_str())
}

#[tactic(auto, unfolding(crate::specs::Topics::edges_line))]
fn edges_text(alloc: Global, start: u64, end: u64) -> Result<String, AllocError>
    ensures { IfOk result (λ s. string_bytes s ≡ edges_line start end) }
{
    format!(in alloc; "{{\"beginning_offset\":{start},\"end_offset\":{end}}}")
}

/// The name of the topic that a question is about; a question on none has an empty one.
fn name_of(question: &Question) -> &str
    ensures { result.now ≡ topic_in question.now }
{
    match question {
        Question::Topic(topic) | Question::Partitions(topic) => topic.as_str(),
        _ => "",
    }
}

fn found_text(alloc: Global, name: &str, found: &Found) -> Result<String, AllocError>
    ensures { IfOk result (λ s. string_bytes s ≡ body_of name.now found.now) }
{
    match found {
        Found::Brokers(nodes) => nodes_text(alloc, nodes.as_slice()),
        Found::Topics(infos) => names_text(alloc, infos.as_slice()),
        Found::Topic(info) => topic_text(alloc, name, info),
        Found::Partitions(info) => parts_text(alloc, info),
        Found::Partition(part) => {
            let text = part_text(alloc, part)?;
            Ok(text.into_string())
        }
        Found::Edges(start, end) => edges_text(alloc, *start, *end),
    }
}

fn told(alloc: Global, question: &Question, found: &Found) -> Reply
    ensures { SaysFound question.now (Ok found.now) result }
{
    match found_text(alloc, name_of(question), found) {
        Ok(text) => Reply::Body {
            media: Media::Plain,
            text: Text::from_string(text),
        },
        Err(AllocError) => Reply::Want,
    }
}

fn nothing(alloc: Global, e: AskNo) -> Reply
    ensures { SaysOrWant (refusal_of e) result }
{
    match e {
        AskNo::NoTopic => refused(alloc, 40401),
        AskNo::NoPartition => refused(alloc, 40402),
        AskNo::Link(e) => link_failure(alloc, e),
    }
}

/// The reply to a question: what was found for it, or why nothing was.
pub fn found_reply(alloc: Global, question: &Question, found: Result<Found, AskNo>) -> Reply
    ensures { SaysFound question.now found result }
{
    match found {
        Ok(found) => told(alloc, question, &found),
        Err(e) => nothing(alloc, e),
    }
}
