//! Requests and calls of tests.

use crate::sample::request_of;
use broker_link::{Edge, Place, TopicPart};
use gate_io::{Items, Text};
use http_conn::Request;
use rest_calls::{Accepted, Call, Format, Payload, Question, Row, Settings, call_of};
use rest_codes::Reply;
use rest_routes::Routes;
use std::alloc::{AllocError, Global};
use std::process::Abort;
use std::test::Fail;

/// A request with this content type, or with none where it is empty.
fn request_with(
    alloc: Global,
    method: &str,
    path: &str,
    query: &str,
    media: &str,
    body: &[u8],
) -> Result<Request, Fail> {
    let mut request = request_of(alloc, method, path, "", media, "")?;
    request.query = Text::from_str(alloc, query)?;
    request.body = Items::from_slice(alloc, body)?;
    Ok(request)
}

/// The bytes in hexadecimal behind a `#`, or `null`.
fn show_payload(alloc: Global, out: &mut String, payload: &Payload) -> Result<(), AllocError> {
    let Payload::Ready(bytes) = payload else {
        return out.push_str("null");
    };
    out.push_str("#")?;
    for byte in bytes.as_slice() {
        let text = format!(in alloc; "{byte:02x}")?;
        out.push_str(text.as_str())?;
    }
    Ok(())
}

/// Each record as its partition, key and value.
fn show_rows(alloc: Global, out: &mut String, rows: &[Row]) -> Result<(), AllocError> {
    for row in rows {
        match row.partition {
            Some(partition) => {
                let text = format!(in alloc; "; {partition} ")?;
                out.push_str(text.as_str())?;
            }
            None => out.push_str("; - ")?,
        }
        show_payload(alloc, out, &row.key)?;
        out.push_str(" ")?;
        show_payload(alloc, out, &row.value)?;
    }
    Ok(())
}

fn show_names(out: &mut String, kind: &str, group: &Text, name: &str) -> Result<(), AllocError> {
    out.push_str(kind)?;
    out.push_str(" ")?;
    out.push_str(group.as_str())?;
    out.push_str(" ")?;
    out.push_str(name)
}

fn edge_name_of(edge: Edge) -> &'static str {
    match edge {
        Edge::Start => "start",
        Edge::End => "end",
    }
}

fn show_settings(alloc: Global, out: &mut String, settings: &Settings) -> Result<(), AllocError> {
    let format = match settings.format {
        Format::Binary => "binary",
        Format::Json => "json",
    };
    let reset = edge_name_of(settings.reset);
    let (bytes, wait) = (settings.min_bytes, settings.timeout_ms);
    let text = format!(in alloc; " {format} {reset} {bytes} {wait}")?;
    out.push_str(text.as_str())
}

/// Each partition as its topic and number.
fn show_parts(alloc: Global, out: &mut String, parts: &[TopicPart]) -> Result<(), AllocError> {
    for part in parts {
        let (topic, partition) = (part.topic.as_str(), part.partition);
        let text = format!(in alloc; " {topic}/{partition}")?;
        out.push_str(text.as_str())?;
    }
    Ok(())
}

/// Each place as its topic, number and position.
fn show_places(alloc: Global, out: &mut String, places: &[Place]) -> Result<(), AllocError> {
    for place in places {
        let (topic, partition, position) = (place.topic.as_str(), place.partition, place.position);
        let text = format!(in alloc; " {topic}/{partition}:{position}")?;
        out.push_str(text.as_str())?;
    }
    Ok(())
}

/// The formats that are named.
fn show_accepts(out: &mut String, accepts: Accepted) -> Result<(), AllocError> {
    for (is_named, text) in [
        (accepts.binary, " binary"),
        (accepts.json, " json"),
        (accepts.avro, " avro"),
    ] {
        if is_named {
            out.push_str(text)?;
        }
    }
    Ok(())
}

fn show_limit(
    alloc: Global,
    out: &mut String,
    name: &str,
    limit: Option<u64>,
) -> Result<(), AllocError> {
    let Some(limit) = limit else {
        return Ok(());
    };
    let text = format!(in alloc; " {name} {limit}")?;
    out.push_str(text.as_str())
}

fn show_part(
    alloc: Global,
    out: &mut String,
    kind: &str,
    part: &TopicPart,
) -> Result<(), AllocError> {
    let (topic, partition) = (part.topic.as_str(), part.partition);
    let text = format!(in alloc; "{kind} {topic}/{partition}")?;
    out.push_str(text.as_str())
}

fn show_topic(out: &mut String, kind: &str, topic: &Text) -> Result<(), AllocError> {
    out.push_str(kind)?;
    out.push_str(" ")?;
    out.push_str(topic.as_str())
}

fn show_question(alloc: Global, out: &mut String, question: &Question) -> Result<(), AllocError> {
    match question {
        Question::Brokers => out.push_str("brokers"),
        Question::Topics => out.push_str("topics"),
        Question::Topic(topic) => show_topic(out, "topic", topic),
        Question::Partitions(topic) => show_topic(out, "partitions", topic),
        Question::Partition(part) => show_part(alloc, out, "partition", part),
        Question::EndOffsets(part) => show_part(alloc, out, "offsets", part),
    }
}

fn show_call(alloc: Global, out: &mut String, call: &Call) -> Result<(), AllocError> {
    match call {
        Call::Produce { topic, batch } => {
            out.push_str(topic.as_str())?;
            show_rows(alloc, out, batch.rows.as_slice())
        }
        Call::Ask(question) => show_question(alloc, out, question),
        Call::Create {
            group,
            name,
            settings,
        } => {
            let name = match name {
                Some(name) => name.as_str(),
                None => "unnamed",
            };
            show_names(out, "create", group, name)?;
            show_settings(alloc, out, settings)
        }
        Call::Delete { group, instance } => show_names(out, "delete", group, instance.as_str()),
        Call::Subscription { group, instance } => {
            show_names(out, "subscription", group, instance.as_str())
        }
        Call::Assign {
            group,
            instance,
            parts,
        } => {
            show_names(out, "assign", group, instance.as_str())?;
            show_parts(alloc, out, parts.as_slice())
        }
        Call::Assignments { group, instance } => {
            show_names(out, "assignments", group, instance.as_str())
        }
        Call::Seek {
            group,
            instance,
            places,
        } => {
            show_names(out, "seek", group, instance.as_str())?;
            show_places(alloc, out, places.as_slice())
        }
        Call::SeekEdge {
            group,
            instance,
            edge,
            parts,
        } => {
            show_names(out, edge_name_of(*edge), group, instance.as_str())?;
            show_parts(alloc, out, parts.as_slice())
        }
        Call::Records {
            group,
            instance,
            accepts,
            timeout,
            max_bytes,
        } => {
            show_names(out, "records", group, instance.as_str())?;
            show_accepts(out, *accepts)?;
            show_limit(alloc, out, "timeout", *timeout)?;
            show_limit(alloc, out, "max_bytes", *max_bytes)
        }
    }
}

/// A call as a text, or the code and message of a refusal.
fn shown(alloc: Global, read: &Result<Call, Reply>) -> Result<String, AllocError> {
    let mut out = String::new(alloc);
    match read {
        Ok(call) => show_call(alloc, &mut out, call)?,
        Err(Reply::Error { code, text }) => {
            let message = text.as_str();
            let refusal = format!(in alloc; "{code} {message}")?;
            out.push_str(refusal.as_str())?;
        }
        Err(Reply::NoMethod { allow }) => {
            let refusal = format!(in alloc; "405 {allow}")?;
            out.push_str(refusal.as_str())?;
        }
        Err(_) => out.push_str("another reply")?,
    }
    Ok(out)
}

/// What a request reads as.
pub(crate) fn reading_of(alloc: Global, request: &Request) -> Result<String, Fail> {
    let routes = Routes::new(alloc)?;
    let read = call_of(alloc, &routes, request);
    Ok(shown(alloc, &read)?)
}

/// What a request of this method, path and content type, with none where it is empty, reads as.
pub(crate) fn told(
    alloc: Global,
    line: (&str, &str, &str),
    query: &str,
    body: &[u8],
) -> Result<String, Fail> {
    let (method, path, media) = line;
    let request = request_with(alloc, method, path, query, media, body)?;
    reading_of(alloc, &request)
}

/// Each body, sent so, reads as the text beside it.
pub(crate) fn bodies_read_as(
    rt: &impl Abort,
    alloc: Global,
    line: (&str, &str, &str),
    cases: &[(&[u8], &str)],
) -> Result<(), Fail> {
    for (place, (body, want)) in cases.iter().enumerate() {
        let text = told(alloc, line, "", body)?;
        assert_eq!(rt; text.as_str(), *want, "case {place}");
    }
    Ok(())
}

/// Each body, sent so, reads as this text.
pub(crate) fn bodies_all_read_as(
    rt: &impl Abort,
    alloc: Global,
    line: (&str, &str, &str),
    bodies: &[&[u8]],
    want: &str,
) -> Result<(), Fail> {
    for (place, body) in bodies.iter().enumerate() {
        let text = told(alloc, line, "", body)?;
        assert_eq!(rt; text.as_str(), want, "case {place}");
    }
    Ok(())
}
