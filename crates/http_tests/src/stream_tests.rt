//! The expected values are written by hand. Each test is a constant table, which one loop walks.

use gate_io::{Failed, Items, MemSink, MemSource, Source};
use http_conn::{ConnNo, Connection, Next, Request};
use rest_codes::Reply;
use std::alloc::Global;
use std::process::Abort;
use std::test::Fail;

fn text(bytes: &[u8]) -> &str {
    str::from_utf8(bytes).unwrap_or("?")
}

fn listed(bytes: &Option<Items<u8>>) -> &str {
    match bytes {
        Some(items) => text(items.as_slice()),
        None => "-",
    }
}

fn put(told: &mut String, part: &str, end: &str) -> Result<(), Fail> {
    told.push_str(part)?;
    told.push_str(end)?;
    Ok(())
}

/// What a request shows: method, path, query, accept, content type, encoded, close, body, each before
/// a bar.
fn show(told: &mut String, request: &Request) -> Result<(), Fail> {
    let encoded = if request.encoded { "coded" } else { "plain" };
    let close = if request.close { "close" } else { "open" };
    let parts = [
        request.method.as_str(),
        request.path.as_str(),
        request.query.as_str(),
        listed(&request.accept),
        listed(&request.content_type),
        encoded,
        close,
    ];
    for part in parts {
        put(told, part, "|")?;
    }
    put(told, text(request.body.as_slice()), ";")
}

/// The status of a refusal.
fn cause(reply: &Reply) -> &'static str {
    match reply {
        Reply::Error { code, .. } => match *code {
            400 => "400;",
            413 => "413;",
            431 => "431;",
            _ => "?;",
        },
        Reply::Empty | Reply::Body { .. } | Reply::NoMethod { .. } | Reply::Want => "?;",
    }
}

/// What an answer shows that isn't a request.
fn other(next: &Next) -> &'static str {
    match next {
        Next::Ready(_) => "",
        Next::Continue => "continue;",
        Next::End => "end",
        Next::CutShort => "cut;",
        Next::Bad(reply) => cause(reply),
    }
}

fn failure(no: ConnNo) -> &'static str {
    match no {
        ConnNo::ReadFault => "fault;",
        ConnNo::WriteFault(_) => "write;",
        ConnNo::Want => "want;",
    }
}

fn next(alloc: Global, conn: &mut Connection, source: &mut MemSource) -> Result<Next, ConnNo> {
    conn.next(alloc, source)
}

/// Tells what one call gives.
fn tell(told: &mut String, answer: Result<Next, ConnNo>) -> Result<(), Fail> {
    match answer {
        Ok(Next::Ready(request)) => show(told, &request),
        Ok(next) => put(told, other(&next), ""),
        Err(no) => put(told, failure(no), ""),
    }
}

/// A source that gives its bytes in pieces of that size, and fails at these calls.
fn source(alloc: Global, bytes: &[u8], piece: usize, fail: &[u64]) -> Result<MemSource, Fail> {
    let bytes = Vec::from_slice(alloc, bytes)?;
    let fail = Vec::from_slice(alloc, fail)?;
    Ok(MemSource::new(bytes, piece, fail))
}

/// All that a connection gives, to its end.
fn story_of(alloc: Global, source: &mut MemSource) -> Result<String, Fail> {
    let mut conn = Connection::new(alloc)?;
    let mut told = String::new(alloc);
    for _ in 0..10 {
        tell(&mut told, next(alloc, &mut conn, source))?;
        if told.as_str().ends_with("end") {
            break;
        }
    }
    Ok(told)
}

pub(crate) fn story(
    alloc: Global,
    bytes: &[u8],
    piece: usize,
    fail: &[u64],
) -> Result<String, Fail> {
    let mut source = source(alloc, bytes, piece, fail)?;
    story_of(alloc, &mut source)
}

/// Each input, in pieces of that size, is told so.
pub(crate) fn end_so(
    rt: &impl Abort,
    alloc: Global,
    cases: &[(&str, &[u8], usize, &str)],
) -> Result<(), Fail> {
    for (name, bytes, piece, wanted) in cases {
        let told = story(alloc, bytes, *piece, &[])?;
        assert_eq!(rt; told.as_str(), *wanted, "{name}");
    }
    Ok(())
}

/// Two requests, the second without a body.
const PRODUCE: &[u8] = b"POST /topics/orders?x=1&y=2 HTTP/1.1\r\n\
Host: p\r\n\
Accept: a/b\r\n\
accept: c/d \r\n\
Content-Type: t/u\r\n\
Content-Length: 0004\r\n\
\r\n\
body\
GET / HTTP/1.1\r\n\
Host: p\r\n\
Content-Encoding: Identity\r\n\
Content-Encoding: gzip\r\n\
\r\n";

const PRODUCED: &str =
    "POST|/topics/orders|x=1&y=2|a/b,c/d|t/u|plain|open|body;GET|/||-|-|coded|open|;end";

const PIECES: [(&str, &[u8], usize, &str); 6] = [
    ("1", PRODUCE, 1, PRODUCED),
    ("2", PRODUCE, 2, PRODUCED),
    ("3", PRODUCE, 3, PRODUCED),
    ("7", PRODUCE, 7, PRODUCED),
    ("64", PRODUCE, 64, PRODUCED),
    ("all", PRODUCE, 100_000, PRODUCED),
];

#[test]
fn pieces_of_any_size_give_the_same_requests(rt: HostRuntime) -> Result<(), Fail> {
    end_so(&rt, rt.alloc(), &PIECES)
}

const ENDINGS: [(&str, &[u8], usize, &str); 20] = [
    ("nothing", b"", 5, "end"),
    ("blank lines alone", b"\r\n\r\n", 5, "cut;end"),
    (
        "a head that is cut",
        b"GET / HTTP/1.1\r\nHost",
        5,
        "cut;end",
    ),
    ("a target that is cut", b"GET /\xff", 5, "cut;end"),
    (
        "a body that is cut",
        b"GET / HTTP/1.1\r\nHost:p\r\nContent-Length: 2\r\n\r\nx",
        5,
        "cut;end",
    ),
    (
        "two lengths",
        b"GET / HTTP/1.1\r\nHost:p\r\nContent-Length: 1\r\nContent-Length: 1\r\n\r\nx",
        5,
        "400;end",
    ),
    (
        "a length with a sign",
        b"GET / HTTP/1.1\r\nHost:p\r\nContent-Length: +1\r\n\r\nx",
        5,
        "400;end",
    ),
    (
        "an empty length",
        b"GET / HTTP/1.1\r\nHost:p\r\nContent-Length:\r\n\r\nx",
        5,
        "400;end",
    ),
    (
        "a length past the largest",
        b"GET / HTTP/1.1\r\nHost:p\r\nContent-Length: 8388609\r\n\r\n",
        5,
        "413;end",
    ),
    (
        "the largest length",
        b"GET / HTTP/1.1\r\nHost:p\r\nContent-Length: 8388608\r\n\r\n",
        5,
        "cut;end",
    ),
    (
        "a huge length",
        b"GET / HTTP/1.1\r\nHost:p\r\nContent-Length: 99999999999999999999999\r\n\r\n",
        5,
        "413;end",
    ),
    (
        "two lengths, of which one is too large",
        b"GET / HTTP/1.1\r\nHost:p\r\nContent-Length: 8388609\r\nContent-Length: 8388609\r\n\r\n",
        5,
        "400;end",
    ),
    ("no host", b"GET / HTTP/1.1\r\n\r\n", 5, "400;end"),
    (
        "two hosts",
        b"GET / HTTP/1.1\r\nHost:p\r\nhost:p\r\n\r\n",
        5,
        "400;end",
    ),
    (
        "no slash",
        b"GET a HTTP/1.1\r\nHost:p\r\n\r\n",
        5,
        "400;end",
    ),
    (
        "another scheme",
        b"GET HTTP://a/ HTTP/1.1\r\nHost:p\r\n\r\n",
        5,
        "400;end",
    ),
    ("no method", b" / HTTP/1.1\r\n\r\n", 5, "400;end"),
    (
        "bytes that can't become a head",
        b"GET / HTTQ",
        5,
        "400;end",
    ),
    (
        "a target that isn't ASCII",
        b"GET /\xc3\xa4 HTTP/1.1\r\nHost:p\r\n\r\n",
        5,
        "400;end",
    ),
    (
        "a target that isn't UTF-8",
        b"GET /\xff HTTP/1.1\r\nHost:p\r\n\r\n",
        5,
        "400;end",
    ),
];

#[test]
fn each_ending_is_the_definitions(rt: HostRuntime) -> Result<(), Fail> {
    end_so(&rt, rt.alloc(), &ENDINGS)
}

/// Behind each of these heads stands a whole request, which is read unless the first one closes.
const CLOSINGS: [(&str, &[u8], usize, &str); 7] = [
    (
        "HTTP/1.0",
        b"GET / HTTP/1.0\n\nGET /b HTTP/1.0\n\n",
        9,
        "GET|/||-|-|plain|close|;end",
    ),
    (
        "HTTP/1.0 that would keep alive",
        b"GET / HTTP/1.0\nConnection: keep-alive\n\nGET /b HTTP/1.0\n\n",
        9,
        "GET|/||-|-|plain|close|;end",
    ),
    (
        "close",
        b"GET / HTTP/1.1\nHost:p\nConnection: close\n\nGET /b HTTP/1.0\n\n",
        9,
        "GET|/||-|-|plain|close|;end",
    ),
    (
        "close among others",
        b"GET / HTTP/1.1\nHost:p\nConnection: te, \tCLOSE ,x\n\nGET /b HTTP/1.0\n\n",
        9,
        "GET|/||-|-|plain|close|;end",
    ),
    (
        "close in a second field",
        b"GET / HTTP/1.1\nHost:p\nConnection: te\nconnection:close\n\nGET /b HTTP/1.0\n\n",
        9,
        "GET|/||-|-|plain|close|;end",
    ),
    (
        "keep-alive",
        b"GET / HTTP/1.1\nHost:p\nConnection: keep-alive\n\nGET /b HTTP/1.0\n\n",
        9,
        "GET|/||-|-|plain|open|;GET|/b||-|-|plain|close|;end",
    ),
    (
        "longer and shorter words",
        b"GET / HTTP/1.1\nHost:p\nConnection: closed, clos, c lose,\n\nGET /b HTTP/1.0\n\n",
        9,
        "GET|/||-|-|plain|open|;GET|/b||-|-|plain|close|;end",
    ),
];

#[test]
fn a_request_that_closes_is_the_last(rt: HostRuntime) -> Result<(), Fail> {
    end_so(&rt, rt.alloc(), &CLOSINGS)
}

const EXPECTATIONS: [(&str, &[u8], usize, &str); 14] = [
    (
        "a body of a length",
        b"POST / HTTP/1.1\nHost:p\nExpect: 100-continue\nContent-Length: 2\n\nxy",
        9,
        "continue;POST|/||-|-|plain|open|xy;end",
    ),
    (
        "a body in chunks",
        b"POST / HTTP/1.1\nHost:p\nEXPECT: 100-Continue\nTransfer-Encoding: chunked\n\n2\r\n",
        9,
        "continue;cut;end",
    ),
    (
        "all bytes at once",
        b"POST / HTTP/1.1\nHost:p\nExpect:100-continue\nTransfer-Encoding: chunked\n\n1\r\nx\r\n0\r\n\r\n",
        999,
        "continue;POST|/||-|-|plain|open|x;end",
    ),
    (
        "a second field",
        b"POST / HTTP/1.1\nHost:p\nExpect: x\nExpect: 100-continue\nContent-Length: 1\n\nx",
        999,
        "continue;POST|/||-|-|plain|open|x;end",
    ),
    (
        "two requests",
        b"POST / HTTP/1.1\nHost:p\nExpect: 100-continue\nContent-Length: 1\n\nxPOST /b HTTP/1.1\nHost:p\nExpect: 100-continue\nContent-Length: 1\nConnection: close\n\ny",
        999,
        "continue;POST|/||-|-|plain|open|x;continue;POST|/b||-|-|plain|close|y;end",
    ),
    (
        "a body that is refused",
        b"POST / HTTP/1.1\nHost:p\nExpect: 100-continue\nTransfer-Encoding: chunked\n\nx",
        999,
        "continue;400;end",
    ),
    (
        "no body",
        b"GET / HTTP/1.1\nHost:p\nExpect: 100-continue\n\n",
        9,
        "GET|/||-|-|plain|open|;end",
    ),
    (
        "an empty body",
        b"POST / HTTP/1.1\nHost:p\nExpect: 100-continue\nContent-Length: 0\n\n",
        9,
        "POST|/||-|-|plain|open|;end",
    ),
    (
        "a head that is refused",
        b"POST / HTTP/1.1\nExpect: 100-continue\nContent-Length: 1\n\nx",
        9,
        "400;end",
    ),
    (
        "a length above the largest",
        b"POST / HTTP/1.1\nHost:p\nExpect: 100-continue\nContent-Length: 8388609\n\n",
        9,
        "413;end",
    ),
    (
        "HTTP/1.0",
        b"POST / HTTP/1.0\nExpect: 100-continue\nContent-Length: 1\n\nx",
        9,
        "POST|/||-|-|plain|close|x;end",
    ),
    (
        "another expectation",
        b"POST / HTTP/1.1\nHost:p\nExpect: x\nContent-Length: 1\n\nx",
        9,
        "POST|/||-|-|plain|open|x;end",
    ),
    (
        "one among others",
        b"POST / HTTP/1.1\nHost:p\nExpect: 100-continue, x\nContent-Length: 1\n\nx",
        9,
        "POST|/||-|-|plain|open|x;end",
    ),
    (
        "a head that is cut",
        b"POST / HTTP/1.1\nHost:p\nExpect: 100-continue\nContent-Length: 1\n",
        9,
        "cut;end",
    ),
];

#[test]
fn the_interim_response_is_asked_for_once_before_a_body(rt: HostRuntime) -> Result<(), Fail> {
    end_so(&rt, rt.alloc(), &EXPECTATIONS)
}

const TARGETS: [(&str, &[u8], usize, &str); 6] = [
    (
        "absolute",
        b"GET http://h:1/a/b?c HTTP/1.0\n\n",
        9,
        "GET|/a/b|c|-|-|plain|close|;end",
    ),
    (
        "an authority alone",
        b"GET http://h HTTP/1.0\n\n",
        9,
        "GET|/||-|-|plain|close|;end",
    ),
    (
        "no authority",
        b"GET http:///a HTTP/1.0\n\n",
        9,
        "GET|/a||-|-|plain|close|;end",
    ),
    (
        "a query behind the authority",
        b"GET http://h?c HTTP/1.0\n\n",
        9,
        "GET||c|-|-|plain|close|;end",
    ),
    (
        "a fragment behind the authority",
        b"GET http://h#c HTTP/1.0\n\n",
        9,
        "GET|#c||-|-|plain|close|;end",
    ),
    (
        "a scheme in a path",
        b"GET /http://h HTTP/1.0\n\n",
        9,
        "GET|/http://h||-|-|plain|close|;end",
    ),
];

#[test]
fn an_absolute_target_is_read_behind_its_authority(rt: HostRuntime) -> Result<(), Fail> {
    end_so(&rt, rt.alloc(), &TARGETS)
}

/// A head with so many fields `a:b`, and this end.
fn head(alloc: Global, fields: usize, end: &[u8]) -> Result<Vec<u8>, Fail> {
    let mut bytes = Vec::from_slice(alloc, b"GET / HTTP/1.0\r\n")?;
    for _ in 0..fields {
        bytes.extend_from_slice(b"a:b\n")?;
    }
    bytes.extend_from_slice(end)?;
    Ok(bytes)
}

fn story_of_head(alloc: Global, fields: usize, end: &[u8]) -> Result<String, Fail> {
    let bytes = head(alloc, fields, end)?;
    story(alloc, bytes.as_slice(), 4096, &[])
}

/// A head with so many fields is told so.
fn count_so(rt: &impl Abort, alloc: Global, cases: &[(usize, &[u8], &str)]) -> Result<(), Fail> {
    for (fields, end, wanted) in cases {
        let told = story_of_head(alloc, *fields, end)?;
        assert_eq!(rt; told.as_str(), *wanted, "{fields} fields");
    }
    Ok(())
}

const COUNTS: [(usize, &[u8], &str); 10] = [
    (64, b"\r\n", "GET|/||-|-|plain|close|;end"),
    (65, b"\r\n", "431;end"),
    (66, b"", "cut;end"),
    (4000, b"\n", "431;end"),
    (4092, b"", "431;end"),
    (4091, b"", "cut;end"),
    (4091, b"abc\x01", "431;end"),
    (4091, b"ab\x01c", "400;end"),
    (4091, b"ab:\n", "431;end"),
    (4090, b"ab:c\x01cd", "400;end"),
];

#[test]
fn fields_are_counted_on_a_whole_head(rt: HostRuntime) -> Result<(), Fail> {
    count_so(&rt, rt.alloc(), &COUNTS)
}

/// With reads that fail at these calls, the bytes are told so.
fn fail_so(
    rt: &impl Abort,
    alloc: Global,
    bytes: &[u8],
    cases: &[(&[u64], &str)],
) -> Result<(), Fail> {
    for (fail, wanted) in cases {
        let told = story(alloc, bytes, 100, fail)?;
        assert_eq!(rt; told.as_str(), *wanted);
    }
    Ok(())
}

const FAULTS: [(&[u64], &str); 2] = [
    (
        &[1],
        "GET|/||-|-|plain|open|;GET|/||-|-|plain|open|;fault;end",
    ),
    (&[0], "fault;end"),
];

#[test]
fn a_failed_read_ends_the_connection_behind_whole_requests(rt: HostRuntime) -> Result<(), Fail> {
    let bytes = b"GET / HTTP/1.1\r\nHost:p\r\n\r\nGET / HTTP/1.1\r\nHost:p\r\n\r\nGET /";
    fail_so(&rt, rt.alloc(), bytes, &FAULTS)
}

fn send(conn: &mut Connection, sink: &mut MemSink, bytes: &[u8]) -> Result<(), ConnNo> {
    conn.send(sink, bytes)
}

fn written(sink: &MemSink) -> &str {
    text(sink.written())
}

/// Each response is sent so, and the sink then holds that.
fn send_so(
    rt: &impl Abort,
    conn: &mut Connection,
    sink: &mut MemSink,
    cases: &[(&[u8], Result<(), ConnNo>, &str)],
) {
    for (bytes, wanted, held) in cases {
        assert_eq!(rt; send(conn, sink, bytes), *wanted);
        assert_eq!(rt; written(sink), *held);
    }
}

const SENDS: [(&[u8], Result<(), ConnNo>, &str); 2] = [
    (b"abcdef", Ok(()), "abcdef"),
    (b"ghijkl", Err(ConnNo::WriteFault(3)), "abcdefghi"),
];

#[test]
fn sends_all_or_tells_how_much(rt: HostRuntime) -> Result<(), Fail> {
    let fail = Vec::from_slice(rt.alloc(), &[3])?;
    let mut sink = MemSink::new(rt.alloc(), 3, fail);
    let mut conn = Connection::new(rt.alloc())?;
    send_so(&rt, &mut conn, &mut sink, &SENDS);
    Ok(())
}

/// Tells what one more read gives.
fn tell_read(told: &mut String, source: &mut MemSource) -> Result<(), Fail> {
    let mut rest = [0; 8];
    match source.read(&mut rest) {
        Ok(count) => put(told, text(&rest[..count]), ""),
        Err(Failed) => put(told, "failed", ""),
    }
}

/// The first request of a connection, and what a read gives behind it.
fn first_of(alloc: Global, source: &mut MemSource) -> Result<String, Fail> {
    let mut conn = Connection::new(alloc)?;
    let mut told = String::new(alloc);
    tell(&mut told, next(alloc, &mut conn, source))?;
    tell_read(&mut told, source)?;
    Ok(told)
}

fn first(alloc: Global, bytes: &[u8], piece: usize) -> Result<String, Fail> {
    let mut source = source(alloc, bytes, piece, &[])?;
    first_of(alloc, &mut source)
}

/// In pieces of that size, the first request and the next read are told so.
fn wait_so(
    rt: &impl Abort,
    alloc: Global,
    cases: &[(&str, &[u8], usize, &str)],
) -> Result<(), Fail> {
    for (name, bytes, piece, wanted) in cases {
        let told = first(alloc, bytes, *piece)?;
        assert_eq!(rt; told.as_str(), *wanted, "{name}");
    }
    Ok(())
}

/// A request of 24 bytes.
const SHORT: &[u8] = b"GET / HTTP/1.1\nHost:p\r\n\ntail";

/// A head of 44 bytes and a body of 44.
const EVEN: &[u8] =
    b"GET / HTTP/1.1\nHost:p\nContent-Length: 44\r\n\r\n01234567890123456789012345678901234567890123tail";

/// A head of 63 bytes that awaits the interim response.
const AWAITING: &[u8] = b"POST / HTTP/1.1\nHost:p\nExpect: 100-continue\nContent-Length: 4\n\ntail";

const FIRSTS: [(&str, &[u8], usize, &str); 7] = [
    ("three pieces", SHORT, 8, "GET|/||-|-|plain|open|;tail"),
    ("two pieces", SHORT, 12, "GET|/||-|-|plain|open|;tail"),
    ("one piece", SHORT, 24, "GET|/||-|-|plain|open|;tail"),
    (
        "the body behind the head",
        EVEN,
        44,
        "GET|/||-|-|plain|open|01234567890123456789012345678901234567890123;tail",
    ),
    ("the interim response", AWAITING, 63, "continue;tail"),
    ("it behind three pieces", AWAITING, 21, "continue;tail"),
    (
        "the body in parts",
        EVEN,
        22,
        "GET|/||-|-|plain|open|01234567890123456789012345678901234567890123;tail",
    ),
];

#[test]
fn a_request_is_given_before_the_next_piece_is_read(rt: HostRuntime) -> Result<(), Fail> {
    wait_so(&rt, rt.alloc(), &FIRSTS)
}
