//! Bodies in chunks, by the rules of RFC 9112, section 7. The expected values are written by hand.

use crate::stream_tests::{end_so, story};
use std::alloc::Global;
use std::process::Abort;
use std::test::Fail;

const PIECES: [(&str, &[u8], usize, &str); 6] = [
    (
        "1",
        b"POST /t HTTP/1.1\r\nHost:p\r\nTransfer-Encoding: chunked\r\n\r\n4;a=b\r\nWiki\r\n5\r\npedia\r\n0\r\nTrailer: x\r\n\r\nGET / HTTP/1.0\n\n",
        1,
        "POST|/t||-|-|plain|open|Wikipedia;GET|/||-|-|plain|close|;end",
    ),
    (
        "2",
        b"POST /t HTTP/1.1\r\nHost:p\r\nTransfer-Encoding: chunked\r\n\r\n4;a=b\r\nWiki\r\n5\r\npedia\r\n0\r\nTrailer: x\r\n\r\nGET / HTTP/1.0\n\n",
        2,
        "POST|/t||-|-|plain|open|Wikipedia;GET|/||-|-|plain|close|;end",
    ),
    (
        "3",
        b"POST /t HTTP/1.1\r\nHost:p\r\nTransfer-Encoding: chunked\r\n\r\n4;a=b\r\nWiki\r\n5\r\npedia\r\n0\r\nTrailer: x\r\n\r\nGET / HTTP/1.0\n\n",
        3,
        "POST|/t||-|-|plain|open|Wikipedia;GET|/||-|-|plain|close|;end",
    ),
    (
        "7",
        b"POST /t HTTP/1.1\r\nHost:p\r\nTransfer-Encoding: chunked\r\n\r\n4;a=b\r\nWiki\r\n5\r\npedia\r\n0\r\nTrailer: x\r\n\r\nGET / HTTP/1.0\n\n",
        7,
        "POST|/t||-|-|plain|open|Wikipedia;GET|/||-|-|plain|close|;end",
    ),
    (
        "64",
        b"POST /t HTTP/1.1\r\nHost:p\r\nTransfer-Encoding: chunked\r\n\r\n4;a=b\r\nWiki\r\n5\r\npedia\r\n0\r\nTrailer: x\r\n\r\nGET / HTTP/1.0\n\n",
        64,
        "POST|/t||-|-|plain|open|Wikipedia;GET|/||-|-|plain|close|;end",
    ),
    (
        "100000",
        b"POST /t HTTP/1.1\r\nHost:p\r\nTransfer-Encoding: chunked\r\n\r\n4;a=b\r\nWiki\r\n5\r\npedia\r\n0\r\nTrailer: x\r\n\r\nGET / HTTP/1.0\n\n",
        100000,
        "POST|/t||-|-|plain|open|Wikipedia;GET|/||-|-|plain|close|;end",
    ),
];

#[test]
fn chunks_in_pieces_of_any_size_give_the_same_body(rt: HostRuntime) -> Result<(), Fail> {
    end_so(&rt, rt.alloc(), &PIECES)
}

const WHOLE: [(&str, &[u8], usize, &str); 9] = [
    (
        "digits of both cases and leading zeros",
        b"POST /t HTTP/1.1\r\nHost:p\r\nTransfer-Encoding: chunked\r\n\r\nA\r\n0123456789\r\n00b\r\n0123456789a\r\n000\r\n\r\n",
        9,
        "POST|/t||-|-|plain|open|01234567890123456789a;end",
    ),
    (
        "no content",
        b"POST /t HTTP/1.1\r\nHost:p\r\nTransfer-Encoding: chunked\r\n\r\n0\r\n\r\nGET / HTTP/1.0\n\n",
        9,
        "POST|/t||-|-|plain|open|;GET|/||-|-|plain|close|;end",
    ),
    (
        "an extension with a quoted text",
        b"POST /t HTTP/1.1\r\nHost:p\r\nTransfer-Encoding: chunked\r\n\r\n4;a=b;c=\"d;e\"\r\nWiki\r\n0;last\r\n\r\nGET / HTTP/1.0\n\n",
        9,
        "POST|/t||-|-|plain|open|Wiki;GET|/||-|-|plain|close|;end",
    ),
    (
        "blanks behind a size",
        b"POST /t HTTP/1.1\r\nHost:p\r\nTransfer-Encoding: chunked\r\n\r\n4 \t\r\nWiki\r\n0\t\r\n\r\nGET / HTTP/1.0\n\n",
        9,
        "POST|/t||-|-|plain|open|Wiki;GET|/||-|-|plain|close|;end",
    ),
    (
        "content that holds a line end",
        b"POST /t HTTP/1.1\r\nHost:p\r\nTransfer-Encoding: chunked\r\n\r\n4\r\na\r\nb\r\n0\r\n\r\nGET / HTTP/1.0\n\n",
        9,
        "POST|/t||-|-|plain|open|a\r\nb;GET|/||-|-|plain|close|;end",
    ),
    (
        "trailers are dropped",
        b"POST /t HTTP/1.1\r\nHost:p\r\nTransfer-Encoding: chunked\r\n\r\n1\r\na\r\n0\r\nContent-Length: 9\r\nHost: q\r\n\r\nGET / HTTP/1.0\n\n",
        9,
        "POST|/t||-|-|plain|open|a;GET|/||-|-|plain|close|;end",
    ),
    (
        "a trailer like a request",
        b"POST /t HTTP/1.1\r\nHost:p\r\nTransfer-Encoding: chunked\r\n\r\n0\r\nGET: / HTTP/1.1\r\n\r\nGET / HTTP/1.0\n\n",
        9,
        "POST|/t||-|-|plain|open|;GET|/||-|-|plain|close|;end",
    ),
    (
        "a coding in capitals",
        b"POST /t HTTP/1.1\r\nHost:p\r\nTransfer-Encoding: CHUNKED\r\n\r\n1\r\na\r\n0\r\n\r\nGET / HTTP/1.0\n\n",
        9,
        "POST|/t||-|-|plain|open|a;GET|/||-|-|plain|close|;end",
    ),
    (
        "trailers that end in LF alone",
        b"POST /t HTTP/1.1\r\nHost:p\r\nTransfer-Encoding: chunked\r\n\r\n0\r\na:b\n\nGET / HTTP/1.0\n\n",
        9,
        "POST|/t||-|-|plain|open|;GET|/||-|-|plain|close|;end",
    ),
];

#[test]
fn a_body_is_the_content_of_its_chunks(rt: HostRuntime) -> Result<(), Fail> {
    end_so(&rt, rt.alloc(), &WHOLE)
}

const REFUSED: [(&str, &[u8], usize, &str); 24] = [
    (
        "no digit",
        b"POST /t HTTP/1.1\r\nHost:p\r\nTransfer-Encoding: chunked\r\n\r\nx\r\n",
        9,
        "400;end",
    ),
    (
        "an empty line",
        b"POST /t HTTP/1.1\r\nHost:p\r\nTransfer-Encoding: chunked\r\n\r\n\r\n",
        9,
        "400;end",
    ),
    (
        "a sign",
        b"POST /t HTTP/1.1\r\nHost:p\r\nTransfer-Encoding: chunked\r\n\r\n+1\r\na\r\n",
        9,
        "400;end",
    ),
    (
        "sixteen digits",
        b"POST /t HTTP/1.1\r\nHost:p\r\nTransfer-Encoding: chunked\r\n\r\n0000000000000001\r\na\r\n",
        9,
        "cut;end",
    ),
    (
        "seventeen digits",
        b"POST /t HTTP/1.1\r\nHost:p\r\nTransfer-Encoding: chunked\r\n\r\n00000000000000001\r\na\r\n",
        9,
        "400;end",
    ),
    (
        "a size past the largest number",
        b"POST /t HTTP/1.1\r\nHost:p\r\nTransfer-Encoding: chunked\r\n\r\n10000000000000000\r\n",
        9,
        "400;end",
    ),
    (
        "the largest number",
        b"POST /t HTTP/1.1\r\nHost:p\r\nTransfer-Encoding: chunked\r\n\r\nffffffffffffffff\r\n",
        9,
        "413;end",
    ),
    (
        "a size above the largest body",
        b"POST /t HTTP/1.1\r\nHost:p\r\nTransfer-Encoding: chunked\r\n\r\n800001\r\n",
        9,
        "413;end",
    ),
    (
        "the size of the largest body",
        b"POST /t HTTP/1.1\r\nHost:p\r\nTransfer-Encoding: chunked\r\n\r\n800000\r\n",
        9,
        "cut;end",
    ),
    (
        "a sum above the largest body",
        b"POST /t HTTP/1.1\r\nHost:p\r\nTransfer-Encoding: chunked\r\n\r\n1\r\na\r\n800000\r\n",
        9,
        "413;end",
    ),
    (
        "a sum that wraps",
        b"POST /t HTTP/1.1\r\nHost:p\r\nTransfer-Encoding: chunked\r\n\r\n1\r\na\r\nffffffffffffffff\r\n",
        9,
        "413;end",
    ),
    (
        "content that goes on",
        b"POST /t HTTP/1.1\r\nHost:p\r\nTransfer-Encoding: chunked\r\n\r\n1\r\nab",
        9,
        "400;end",
    ),
    (
        "CR and another byte behind the content",
        b"POST /t HTTP/1.1\r\nHost:p\r\nTransfer-Encoding: chunked\r\n\r\n1\r\na\rb",
        9,
        "400;end",
    ),
    (
        "LF alone behind the content",
        b"POST /t HTTP/1.1\r\nHost:p\r\nTransfer-Encoding: chunked\r\n\r\n1\r\na\n",
        9,
        "400;end",
    ),
    (
        "LF alone behind a line",
        b"POST /t HTTP/1.1\r\nHost:p\r\nTransfer-Encoding: chunked\r\n\r\n1\na\r\n",
        9,
        "400;end",
    ),
    (
        "CR in an extension",
        b"POST /t HTTP/1.1\r\nHost:p\r\nTransfer-Encoding: chunked\r\n\r\n1;a\rb\r\n",
        9,
        "400;end",
    ),
    (
        "a trailer without a name",
        b"POST /t HTTP/1.1\r\nHost:p\r\nTransfer-Encoding: chunked\r\n\r\n0\r\n:x\r\n",
        9,
        "400;end",
    ),
    (
        "a trailer without a colon",
        b"POST /t HTTP/1.1\r\nHost:p\r\nTransfer-Encoding: chunked\r\n\r\n0\r\nGET / HTTP/1.1\r\n\r\n",
        9,
        "400;end",
    ),
    (
        "a line that is cut",
        b"POST /t HTTP/1.1\r\nHost:p\r\nTransfer-Encoding: chunked\r\n\r\n4",
        9,
        "cut;end",
    ),
    (
        "an extension that is cut",
        b"POST /t HTTP/1.1\r\nHost:p\r\nTransfer-Encoding: chunked\r\n\r\n4;ab\r",
        9,
        "cut;end",
    ),
    (
        "content that is cut",
        b"POST /t HTTP/1.1\r\nHost:p\r\nTransfer-Encoding: chunked\r\n\r\n4\r\nWik",
        9,
        "cut;end",
    ),
    (
        "a line end that is cut",
        b"POST /t HTTP/1.1\r\nHost:p\r\nTransfer-Encoding: chunked\r\n\r\n4\r\nWiki\r",
        9,
        "cut;end",
    ),
    (
        "no last chunk",
        b"POST /t HTTP/1.1\r\nHost:p\r\nTransfer-Encoding: chunked\r\n\r\n4\r\nWiki\r\n",
        9,
        "cut;end",
    ),
    (
        "trailers that are cut",
        b"POST /t HTTP/1.1\r\nHost:p\r\nTransfer-Encoding: chunked\r\n\r\n0\r\na:b\r\n",
        9,
        "cut;end",
    ),
];

#[test]
fn each_bad_chunk_has_its_status(rt: HostRuntime) -> Result<(), Fail> {
    end_so(&rt, rt.alloc(), &REFUSED)
}

const FRAMINGS: [(&str, &[u8], usize, &str); 6] = [
    (
        "a length beside the coding",
        b"POST /t HTTP/1.1\r\nHost:p\r\nTransfer-Encoding: chunked\r\nContent-Length: 1\r\n\r\n0\r\n\r\n",
        9,
        "400;end",
    ),
    (
        "another coding",
        b"POST /t HTTP/1.1\r\nHost:p\r\nTransfer-Encoding: gzip\r\n\r\n",
        9,
        "400;end",
    ),
    (
        "another coding before it",
        b"POST /t HTTP/1.1\r\nHost:p\r\nTransfer-Encoding: gzip, chunked\r\n\r\n",
        9,
        "400;end",
    ),
    (
        "the coding twice",
        b"POST /t HTTP/1.1\r\nHost:p\r\nTransfer-Encoding: chunked\r\nTransfer-Encoding: chunked\r\n\r\n",
        9,
        "400;end",
    ),
    (
        "no coding",
        b"POST /t HTTP/1.1\r\nHost:p\r\nTransfer-Encoding:\r\n\r\n",
        9,
        "400;end",
    ),
    (
        "HTTP/1.0",
        b"POST /t HTTP/1.0\r\nTransfer-Encoding: chunked\r\n\r\n0\r\n\r\n",
        9,
        "400;end",
    ),
];

#[test]
fn one_coding_alone_is_read(rt: HostRuntime) -> Result<(), Fail> {
    end_so(&rt, rt.alloc(), &FRAMINGS)
}

/// A head of a body in chunks, and so many times a text behind this front, and an end.
fn repeated(
    alloc: Global,
    front: &[u8],
    text: &[u8],
    times: usize,
    end: &[u8],
) -> Result<Vec<u8>, Fail> {
    let head = b"POST /t HTTP/1.1\r\nHost:p\r\nTransfer-Encoding: chunked\r\n\r\n";
    let mut bytes = Vec::from_slice(alloc, head)?;
    bytes.extend_from_slice(front)?;
    for _ in 0..times {
        bytes.extend_from_slice(text)?;
    }
    bytes.extend_from_slice(end)?;
    Ok(bytes)
}

fn story_of_many(
    alloc: Global,
    front: &[u8],
    text: &[u8],
    times: usize,
    end: &[u8],
) -> Result<String, Fail> {
    let bytes = repeated(alloc, front, text, times, end)?;
    story(alloc, bytes.as_slice(), 4096, &[])
}

/// Each input is told so.
fn many_so(
    rt: &impl Abort,
    alloc: Global,
    cases: &[(&[u8], &[u8], usize, &[u8], &str)],
) -> Result<(), Fail> {
    for (front, text, times, end, wanted) in cases {
        let told = story_of_many(alloc, front, text, *times, end)?;
        assert_eq!(rt; told.as_str(), *wanted, "{times}");
    }
    Ok(())
}

/// A chunk line has 256 bytes at most, and trailers have 16,384 bytes and 64 fields.
const MANY: [(&[u8], &[u8], usize, &[u8], &str); 12] = [
    (
        b"1;",
        b"x",
        252,
        b"\r\na\r\n0\r\n\r\n",
        "POST|/t||-|-|plain|open|a;end",
    ),
    (b"1;", b"x", 253, b"\r\na\r\n0\r\n\r\n", "400;end"),
    (b"1;", b"x", 253, b"", "cut;end"),
    (b"1;", b"x", 254, b"", "400;end"),
    (
        b"0\r\n",
        b"a:b\n",
        64,
        b"\n",
        "POST|/t||-|-|plain|open|;end",
    ),
    (b"0\r\n", b"a:b\n", 65, b"\n", "431;end"),
    (b"0\r\n", b"a:b\n", 65, b"", "cut;end"),
    (b"0\r\na:", b"b", 16380, b"\r\n\n", "431;end"),
    (b"0\r\na:", b"b", 16380, b"\n\r\n", "431;end"),
    (
        b"0\r\na:",
        b"b",
        16380,
        b"\n\n",
        "POST|/t||-|-|plain|open|;end",
    ),
    (b"0\r\na:", b"b", 16380, b"\x01", "400;end"),
    (b"0\r\na:", b"b", 16381, b"\x01", "431;end"),
];

#[test]
fn lines_and_trailers_have_their_bounds(rt: HostRuntime) -> Result<(), Fail> {
    many_so(&rt, rt.alloc(), &MANY)
}
