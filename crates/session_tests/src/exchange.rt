//! Sessions as tables of exchanges: each request of one connection with the response to it.

use crate::sessions::{ORDERS, story, whole};
use std::alloc::Global;
use std::process::Abort;
use std::test::Fail;

/// A request by its first line, the fields that it has beside those of every request, each ended by
/// CR LF, and its body; and its response by status, media type and body.
#[derive(Clone, Copy)]
pub(crate) struct Exchange<'a> {
    pub line: &'a str,
    pub fields: &'a str,
    pub body: &'a str,
    pub status: &'a str,
    pub media: &'a str,
    pub told: &'a str,
}

pub(crate) const BINARY: &str = "application/vnd.kafka.binary.v2+json";

pub(crate) const JSON: &str = "application/vnd.kafka.json.v2+json";

pub(crate) const PLAIN: &str = "application/vnd.kafka.v2+json";

pub(crate) const BINARY_BODY: &str = "Content-Type: application/vnd.kafka.binary.v2+json\r\n";

pub(crate) const JSON_BODY: &str = "Content-Type: application/vnd.kafka.json.v2+json\r\n";

pub(crate) const PLAIN_BODY: &str = "Content-Type: application/vnd.kafka.v2+json\r\n";

pub(crate) const OK: &str = "200 OK";

pub(crate) const NO_CONTENT: &str = "204 No Content";

pub(crate) const NOT_FOUND: &str = "404 Not Found";

pub(crate) const UNREADABLE: &str = "422 Unprocessable Entity";

pub(crate) const PRODUCE: &str = "POST /topics/orders";

pub(crate) const CREATE: &str = "POST /consumers/g";

pub(crate) const ASSIGN: &str = "POST /consumers/g/instances/c1/assignments";

pub(crate) const RECORDS: &str = "GET /consumers/g/instances/c1/records?timeout=0";

pub(crate) const WAITING: &str = "GET /consumers/g/instances/c1/records?timeout=25";

pub(crate) const MADE: &str =
    "{\"instance_id\":\"c1\",\"base_uri\":\"http://localhost:8082/consumers/g/instances/c1\"}";

pub(crate) const PARTITION_0: &str = "{\"partitions\":[{\"topic\":\"orders\",\"partition\":0}]}";

pub(crate) const BOTH: &str =
    "{\"partitions\":[{\"topic\":\"orders\",\"partition\":0},{\"topic\":\"orders\",\"partition\":1}]}";

fn push_request(alloc: Global, text: &mut String, one: &Exchange<'_>) -> Result<(), Fail> {
    let (line, fields, body) = (one.line, one.fields, one.body);
    let size = body.len();
    let request = format!(in alloc;
        "{line} HTTP/1.1\r\nHost: p\r\n{fields}Content-Length: {size}\r\n\r\n{body}"
    )?;
    text.push_str(request.as_str())?;
    Ok(())
}

fn push_response(alloc: Global, text: &mut String, one: &Exchange<'_>) -> Result<(), Fail> {
    let (status, media, told) = (one.status, one.media, one.told);
    let size = told.len();
    if size == 0 {
        text.push_str("HTTP/1.1 204 No Content\r\n\r\n")?;
        return Ok(());
    }
    let response = format!(in alloc;
        "HTTP/1.1 {status}\r\nContent-Type: {media}\r\nContent-Length: {size}\r\n\r\n{told}"
    )?;
    text.push_str(response.as_str())?;
    Ok(())
}

pub(crate) fn requests_of(alloc: Global, exchanges: &[Exchange<'_>]) -> Result<String, Fail> {
    let mut text = String::new(alloc);
    for one in exchanges {
        push_request(alloc, &mut text, one)?;
    }
    Ok(text)
}

/// The responses behind this line.
pub(crate) fn responses_of(
    alloc: Global,
    ending: &str,
    exchanges: &[Exchange<'_>],
) -> Result<String, Fail> {
    let mut text = String::from_str(alloc, ending)?;
    for one in exchanges {
        push_response(alloc, &mut text, one)?;
    }
    Ok(text)
}

/// These exchanges are those of one session of these words, which ends so.
pub(crate) fn is_session_of(
    rt: &impl Abort,
    alloc: Global,
    words: &[&str],
    exchanges: &[Exchange<'_>],
    ending: &str,
) -> Result<(), Fail> {
    let input = requests_of(alloc, exchanges)?;
    let wanted = responses_of(alloc, ending, exchanges)?;
    let told = story(alloc, &whole(words), input.as_bytes())?;
    assert_eq!(rt; told.as_str(), wanted.as_str());
    Ok(())
}

/// So is it over two partitions of `orders`.
pub(crate) fn is_session(
    rt: &impl Abort,
    alloc: Global,
    exchanges: &[Exchange<'_>],
    ending: &str,
) -> Result<(), Fail> {
    is_session_of(rt, alloc, &ORDERS, exchanges, ending)
}
