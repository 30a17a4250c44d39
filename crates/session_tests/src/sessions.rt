//! Sessions in memory over two partitions of `orders`: what is written, and with which status, line
//! on standard error and moment each ends. The expected texts are written by hand after docs/API.md.

use gate_io::{Clock, MemClock, MemSink, MemSource};
use proxy_cli::run;
use std::alloc::Global;
use std::process::Abort;
use std::test::Fail;

/// The words of a session, and how its source and its sink behave.
#[derive(Clone, Copy)]
pub(crate) struct Streams<'a> {
    words: &'a [&'a str],
    read_piece: usize,
    read_faults: &'a [u64],
    write_piece: usize,
    write_faults: &'a [u64],
}

pub(crate) const ORDERS: [&str; 2] = ["session", "orders:2"];

/// Nothing fails, and all is taken at once.
pub(crate) fn whole<'a>(words: &'a [&'a str]) -> Streams<'a> {
    Streams {
        words,
        read_piece: 1_000_000,
        read_faults: &[],
        write_piece: 1_000_000,
        write_faults: &[],
    }
}

/// A session by its requests, all but the last `left` bytes of them, and how it ends: its status, moment
/// and line, and behind them the first `written` bytes of the responses.
#[derive(Clone, Copy)]
struct Row<'a> {
    name: &'a str,
    streams: Streams<'a>,
    requests: &'a [&'a str],
    left: usize,
    ending: &'a str,
    responses: &'a [&'a str],
    written: usize,
}

fn words_of(alloc: Global, words: &[&str]) -> Result<Vec<String>, Fail> {
    let mut texts = Vec::new(alloc);
    for word in words {
        texts.push(String::from_str(alloc, word)?)?;
    }
    Ok(texts)
}

fn source_of(alloc: Global, streams: &Streams<'_>, input: &[u8]) -> Result<MemSource, Fail> {
    let faults = Vec::from_slice(alloc, streams.read_faults)?;
    let bytes = Vec::from_slice(alloc, input)?;
    Ok(MemSource::new(bytes, streams.read_piece, faults))
}

fn sink_of(alloc: Global, streams: &Streams<'_>) -> Result<MemSink, Fail> {
    let faults = Vec::from_slice(alloc, streams.write_faults)?;
    Ok(MemSink::new(alloc, streams.write_piece, faults))
}

fn status_of(
    alloc: Global,
    words: &[String],
    source: &mut MemSource,
    sink: &mut MemSink,
    err: &mut MemSink,
    clock: &mut MemClock,
) -> u8 {
    run(alloc, words, source, sink, err, clock)
}

pub(crate) fn text(bytes: &[u8]) -> &str {
    str::from_utf8(bytes).unwrap_or("?")
}

/// "STATUS at MOMENT", a line end, the line on standard error, and what was written.
fn told(
    alloc: Global,
    status: u8,
    moment: u64,
    err: &MemSink,
    sink: &MemSink,
) -> Result<String, Fail> {
    let line = text(err.written());
    let output = text(sink.written());
    Ok(format!(in alloc; "{status} at {moment}\n{line}{output}")?)
}

/// Runs a session over this input from moment 0 on, and tells how it ended.
pub(crate) fn story(alloc: Global, streams: &Streams<'_>, input: &[u8]) -> Result<String, Fail> {
    let words = words_of(alloc, streams.words)?;
    let mut source = source_of(alloc, streams, input)?;
    let mut sink = sink_of(alloc, streams)?;
    let mut err = MemSink::new(alloc, 1_000_000, Vec::new(alloc));
    let mut clock = MemClock::new(0, Vec::new(alloc));
    let status = status_of(
        alloc,
        words.as_slice(),
        &mut source,
        &mut sink,
        &mut err,
        &mut clock,
    );
    told(alloc, status, clock.now_ms(), &err, &sink)
}

fn push_all(text: &mut String, parts: &[&str]) -> Result<(), Fail> {
    for part in parts {
        text.push_str(part)?;
    }
    Ok(())
}

/// The first bytes, or all where there are fewer.
fn front(bytes: &[u8], count: usize) -> &[u8] {
    &bytes[..bytes.len().min(count)]
}

fn told_of(alloc: Global, row: &Row<'_>) -> Result<String, Fail> {
    let mut input = String::new(alloc);
    push_all(&mut input, row.requests)?;
    let kept = input.len().saturating_sub(row.left);
    story(alloc, &row.streams, front(input.as_bytes(), kept))
}

fn wanted_of(alloc: Global, row: &Row<'_>) -> Result<String, Fail> {
    let mut output = String::new(alloc);
    push_all(&mut output, row.responses)?;
    let mut wanted = String::from_str(alloc, row.ending)?;
    wanted.push_str(text(front(output.as_bytes(), row.written)))?;
    Ok(wanted)
}

fn ends_so(rt: &impl Abort, alloc: Global, row: &Row<'_>) -> Result<(), Fail> {
    let told = told_of(alloc, row)?;
    let wanted = wanted_of(alloc, row)?;
    let name = row.name;
    assert_eq!(rt; told.as_str(), wanted.as_str(), "{name}");
    Ok(())
}

const ONE: &str =
    "POST /topics/orders HTTP/1.1\r\nHost: p\r\nContent-Type: application/vnd.kafka.binary.v2+json\r\nContent-Length: 48\r\n\r\n{\"records\":[{\"value\":\"S2Fma2E=\",\"partition\":0}]}";

const FIRST: &str =
    "HTTP/1.1 200 OK\r\nContent-Type: application/vnd.kafka.v2+json\r\nContent-Length: 115\r\n\r\n{\"offsets\":[{\"partition\":0,\"offset\":0,\"error_code\":null,\"error\":null}],\"key_schema_id\":null,\"value_schema_id\":null}";

const SECOND: &str =
    "HTTP/1.1 200 OK\r\nContent-Type: application/vnd.kafka.v2+json\r\nContent-Length: 115\r\n\r\n{\"offsets\":[{\"partition\":0,\"offset\":1,\"error_code\":null,\"error\":null}],\"key_schema_id\":null,\"value_schema_id\":null}";

/// The first produce, whose client may wait before it sends the body of 48 bytes.
const WAITING: &str =
    "POST /topics/orders HTTP/1.1\r\nHost: p\r\nContent-Type: application/vnd.kafka.binary.v2+json\r\nContent-Length: 48\r\nExpect: 100-continue\r\n\r\n{\"records\":[{\"value\":\"S2Fma2E=\",\"partition\":0}]}";

const INTERIM: &str = "HTTP/1.1 100 Continue\r\n\r\n";

const ELSEWHERE: &str = "GET / HTTP/1.1\nHost:p\n\n";

const NOT_FOUND: &str =
    "HTTP/1.1 404 Not Found\r\nContent-Type: application/vnd.kafka.v2+json\r\nContent-Length: 41\r\n\r\n{\"error_code\":404,\"message\":\"Not found.\"}";

const BAD: &str = "GET / HTTP/1.1\r\n\r\nunread";

const CLOSING: &str = "GET / HTTP/1.0\n\nunread";

const CLOSED: &str =
    "HTTP/1.1 404 Not Found\r\nContent-Type: application/vnd.kafka.v2+json\r\nContent-Length: 41\r\nConnection: close\r\n\r\n{\"error_code\":404,\"message\":\"Not found.\"}";

const BAD_REQUEST: &str =
    "HTTP/1.1 400 Bad Request\r\nContent-Type: application/vnd.kafka.v2+json\r\nContent-Length: 43\r\nConnection: close\r\n\r\n{\"error_code\":400,\"message\":\"Bad request.\"}";

/// What is sent, all but so many of its last bytes, and what is answered.
type Cut<'a> = (&'a str, &'a [&'a str], usize, &'a [&'a str]);

const CUTS: [Cut<'static>; 13] = [
    ("nothing", &[], 0, &[]),
    ("a byte is left out", &[ONE], 1, &[]),
    ("all but a byte of the body is left out", &[ONE], 47, &[]),
    ("the body is left out", &[ONE], 48, &[]),
    ("the head is cut", &[ONE], 49, &[]),
    ("one byte", &[ONE], 160, &[]),
    ("one request", &[ONE], 0, &[FIRST]),
    ("the second lacks a byte", &[ONE, ONE], 1, &[FIRST]),
    ("two requests", &[ONE, ONE], 0, &[FIRST, SECOND]),
    ("an expectation", &[WAITING], 0, &[INTERIM, FIRST]),
    ("its body is left out", &[WAITING], 48, &[INTERIM]),
    ("its head is cut", &[WAITING], 49, &[]),
    (
        "two of them",
        &[WAITING, WAITING],
        1,
        &[INTERIM, FIRST, INTERIM],
    ),
];

fn cuts_end_so(rt: &impl Abort, alloc: Global, cases: &[Cut<'_>]) -> Result<(), Fail> {
    for (name, requests, left, responses) in cases {
        let row = Row {
            name,
            streams: whole(&ORDERS),
            requests,
            left: *left,
            ending: "0 at 0\n",
            responses,
            written: 1_000_000,
        };
        ends_so(rt, alloc, &row)?;
    }
    Ok(())
}

#[test]
fn a_request_that_the_end_cuts_off_has_no_answer_and_no_effect(
    rt: HostRuntime,
) -> Result<(), Fail> {
    cuts_end_so(&rt, rt.alloc(), &CUTS)
}

/// The calls of the source that fail, how much the sink takes at once, the calls of the sink that
/// fail, how the session of one produce ends, and how many bytes of its response were written.
const FAULTS: [(&[u64], usize, &[u64], &str, usize); 7] = [
    (&[], 1_000_000, &[], "0 at 0\n", 1_000_000),
    (&[0], 1_000_000, &[], "3 at 0\nread fault\n", 0),
    (&[1], 1_000_000, &[], "3 at 0\nread fault\n", 1_000_000),
    (&[], 1, &[0], "4 at 0\nwrite fault\n", 0),
    (&[], 1, &[1], "4 at 0\nwrite fault\n", 1),
    (&[], 1, &[7], "4 at 0\nwrite fault\n", 7),
    (&[], 0, &[], "4 at 0\nwrite fault\n", 0),
];

fn faults_end_so(
    rt: &impl Abort,
    alloc: Global,
    cases: &[(&[u64], usize, &[u64], &str, usize)],
) -> Result<(), Fail> {
    for (read_faults, write_piece, write_faults, ending, written) in cases {
        let streams = Streams {
            words: &ORDERS,
            read_piece: 1_000_000,
            read_faults,
            write_piece: *write_piece,
            write_faults,
        };
        let row = Row {
            name: ending,
            streams,
            requests: &[ONE],
            left: 0,
            ending,
            responses: &[FIRST],
            written: *written,
        };
        ends_so(rt, alloc, &row)?;
    }
    Ok(())
}

#[test]
fn a_failed_read_or_write_ends_behind_what_was_written(rt: HostRuntime) -> Result<(), Fail> {
    faults_end_so(&rt, rt.alloc(), &FAULTS)
}

/// Words, the requests that follow them, and what is answered.
type Asked<'a> = (&'a str, &'a [&'a str], &'a [&'a str], &'a [&'a str]);

const UNREAD: [Asked<'static>; 10] = [
    ("no words", &[], &[ONE], &[]),
    ("no topic", &["session"], &[ONE], &[]),
    ("no partitions", &["session", "orders"], &[ONE], &[]),
    ("no partition", &["session", "orders:0"], &[ONE], &[]),
    ("twice", &["session", "orders:1", "orders:2"], &[ONE], &[]),
    (
        "two names",
        &["session", "--advertise", "a", "--advertise", "b", "o:1"],
        &[ONE],
        &[],
    ),
    (
        "a file of schemas",
        &["session", "--schemas", "f", "orders:2"],
        &[ONE],
        &[],
    ),
    ("a server", &["serve", "--broker", "h:1"], &[ONE], &[]),
    ("a broker", &["broker", "orders:2"], &[ONE], &[]),
    ("a flood", &["flood", "0", "1"], &[ONE], &[]),
];

const CREATE: &str =
    "POST /consumers/g HTTP/1.1\r\nHost: p\r\nContent-Type: application/vnd.kafka.v2+json\r\nContent-Length: 13\r\n\r\n{\"name\":\"c1\"}";

/// The instance has the name that the words give.
const CREATED: &str =
    "HTTP/1.1 200 OK\r\nContent-Type: application/vnd.kafka.v2+json\r\nContent-Length: 69\r\n\r\n{\"instance_id\":\"c1\",\"base_uri\":\"http://h:1/consumers/g/instances/c1\"}";

const READ: [Asked<'static>; 3] = [
    (
        "a name before the topic",
        &["session", "--advertise=h:1", "orders:2"],
        &[CREATE],
        &[CREATED],
    ),
    (
        "a name behind the topic",
        &["session", "orders:2", "--advertise", "h:1"],
        &[CREATE],
        &[CREATED],
    ),
    ("no options", &["session", "--", "orders:2"], &[], &[]),
];

/// Each of these ends so.
fn words_end_so(
    rt: &impl Abort,
    alloc: Global,
    ending: &str,
    cases: &[Asked<'_>],
) -> Result<(), Fail> {
    for (name, words, requests, responses) in cases {
        let row = Row {
            name,
            streams: whole(words),
            requests,
            left: 0,
            ending,
            responses,
            written: 1_000_000,
        };
        ends_so(rt, alloc, &row)?;
    }
    Ok(())
}

#[test]
fn words_that_ask_for_no_session_are_status_2(rt: HostRuntime) -> Result<(), Fail> {
    let usage =
        "2 at 0\nusage: restgate session [--advertise HOST:PORT] TOPIC:PARTS [TOPIC:PARTS ..]\n";
    words_end_so(&rt, rt.alloc(), usage, &UNREAD)
}

#[test]
fn words_of_a_session_give_its_name_and_topics(rt: HostRuntime) -> Result<(), Fail> {
    words_end_so(&rt, rt.alloc(), "0 at 0\n", &READ)
}

/// The size of the pieces, the last request and what it is answered.
const PIECES: [(usize, &str, &str); 5] = [
    (1, BAD, BAD_REQUEST),
    (3, BAD, BAD_REQUEST),
    (3, CLOSING, CLOSED),
    (100, CLOSING, CLOSED),
    (4096, CLOSING, CLOSED),
];

fn pieces_end_so(
    rt: &impl Abort,
    alloc: Global,
    cases: &[(usize, &str, &str)],
) -> Result<(), Fail> {
    for (piece, end, last) in cases {
        let streams = Streams {
            words: &ORDERS,
            read_piece: *piece,
            read_faults: &[],
            write_piece: 1_000_000,
            write_faults: &[],
        };
        let row = Row {
            name: "pieces",
            streams,
            requests: &[ONE, ELSEWHERE, ONE, end],
            left: 0,
            ending: "0 at 0\n",
            responses: &[FIRST, NOT_FOUND, SECOND, last],
            written: 1_000_000,
        };
        ends_so(rt, alloc, &row)?;
    }
    Ok(())
}

#[test]
fn requests_come_in_any_pieces(rt: HostRuntime) -> Result<(), Fail> {
    pieces_end_so(&rt, rt.alloc(), &PIECES)
}

fn many(alloc: Global, one: &str, count: u32) -> Result<String, Fail> {
    let mut text = String::with_capacity(alloc, 2_400_000)?;
    for _ in 0..count {
        text.push_str(one)?;
    }
    Ok(text)
}

/// The last response has a `Connection: close` of 19 bytes more.
fn is_closed(rt: &impl Abort, told: &str) {
    let open = NOT_FOUND.len();
    let end =
        "Content-Length: 41\r\nConnection: close\r\n\r\n{\"error_code\":404,\"message\":\"Not found.\"}";
    assert!(rt; told.starts_with("0 at 0\nHTTP/1.1 404 Not Found\r\n"));
    assert!(rt; told.ends_with(end));
    assert_eq!(rt; told.len(), 7 + 100_000 * open + 19);
}

#[test]
fn the_last_request_that_is_allowed_closes(rt: HostRuntime) -> Result<(), Fail> {
    let input = many(rt.alloc(), ELSEWHERE, 100_002)?;
    let told = story(rt.alloc(), &whole(&ORDERS), input.as_bytes())?;
    is_closed(&rt, told.as_str());
    Ok(())
}
