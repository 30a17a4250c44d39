use crate::shown::{bodies_all_read_as, bodies_read_as, told};
use std::alloc::Global;
use std::process::Abort;
use std::test::Fail;

const UNREADABLE: &str = "422 Body does not read.";

const INVALID: &str = "42204 Invalid consumer configuration.";

const CREATE: (&str, &str, &str) = ("POST", "/consumers/g", "");

const ASSIGNMENTS_OF: &str = "/consumers/g/instances/c1/assignments";

const ASSIGN: (&str, &str, &str) = ("POST", ASSIGNMENTS_OF, "");

/// Each method, path and query, without a body, reads as the text beside them.
fn places_read_as(
    rt: &impl Abort,
    alloc: Global,
    cases: &[(&str, &str, &str, &str)],
) -> Result<(), Fail> {
    for (place, (method, path, query, want)) in cases.iter().enumerate() {
        let text = told(alloc, (method, path, ""), query, b"")?;
        assert_eq!(rt; text.as_str(), *want, "case {place}");
    }
    Ok(())
}

const NAMED: &str = "/consumers/a.b_c-9Z/instances/-/records";

const PLACES: [(&str, &str, &str, &str); 16] = [
    ("GET", "/consumers/g", "", "405 9"),
    ("PUT", "/topics/t", "", "405 3"),
    (
        "POST",
        "/topics/t/partitions/0",
        "",
        "415 Unsupported media type.",
    ),
    ("GET", "/brokers", "x=%", "brokers"),
    ("GET", "/topics", "", "topics"),
    ("GET", "/topics/t", "", "topic t"),
    ("GET", "/topics/a%20b/partitions", "", "partitions a b"),
    ("GET", "/topics/t/partitions/01/offsets", "", "offsets t/1"),
    (
        "DELETE",
        "/consumers/a%20b/instances/c%2F1",
        "",
        "delete a b c/1",
    ),
    (
        "GET",
        NAMED,
        "tim%65out=%32%35&x=1+1",
        "records a.b_c-9Z - timeout 25",
    ),
    (
        "POST",
        "/consumers/g",
        "",
        "create g unnamed binary end 1 1000",
    ),
    ("DELETE", "/consumers/g/instances/c1", "", "delete g c1"),
    ("GET", ASSIGNMENTS_OF, "", "assignments g c1"),
    (
        "GET",
        NAMED,
        "max_bytes=1",
        "records a.b_c-9Z - max_bytes 1",
    ),
    ("GET", NAMED, "timeout=25", "records a.b_c-9Z - timeout 25"),
    ("GET", NAMED, "timeout=x", UNREADABLE),
];

#[test]
fn reads_each_place_without_a_body(rt: HostRuntime) -> Result<(), Fail> {
    places_read_as(&rt, rt.alloc(), &PLACES)
}

const SETTINGS: [(&[u8], &str); 12] = [
    (
        b"{\"name\":null,\"format\":null}",
        "create g unnamed binary end 1 1000",
    ),
    (
        b"{\"name\":\"Auto-x\",\"id\":7}",
        "create g Auto-x binary end 1 1000",
    ),
    (
        b"{\"name\":5,\"name\":\"a/\\u20ac\"}",
        "create g a/\u{20ac} binary end 1 1000",
    ),
    (
        b"{\"format\":\"binary\",\"auto.offset.reset\":\"latest\"}",
        "create g unnamed binary end 1 1000",
    ),
    (b"{\"format\":\"json\"}", "create g unnamed json end 1 1000"),
    (
        b"{\"format\":\"avro\",\"format\":\"\\u006ason\"}",
        "create g unnamed json end 1 1000",
    ),
    (
        b"{\"auto.offset.reset\":\"earliest\",\"auto.commit.enable\":false}",
        "create g unnamed binary start 1 1000",
    ),
    (
        b"{\"auto.offset.reset\":null,\"auto.commit.enable\":\"true\"}",
        "create g unnamed binary end 1 1000",
    ),
    (
        b"{\"fetch.min.bytes\":4194304,\"consumer.request.timeout.ms\":0}",
        "create g unnamed binary end 4194304 0",
    ),
    (
        b"{\"fetch.min.bytes\":\"1\",\"consumer.request.timeout.ms\":\"30000\"}",
        "create g unnamed binary end 1 30000",
    ),
    (
        b"{\"fetch.min.bytes\":\"00000000000000000000000000007\"}",
        "create g unnamed binary end 7 1000",
    ),
    (
        b"{\"fetch.min.bytes\":-1,\"consumer.request.timeout.ms\":\"-1\"}",
        "create g unnamed binary end 1 1000",
    ),
];

#[test]
fn takes_settings_within_their_limits(rt: HostRuntime) -> Result<(), Fail> {
    bodies_read_as(&rt, rt.alloc(), CREATE, &SETTINGS)
}

const BEYOND: [&[u8]; 21] = [
    b"{\"name\":\"\"}",
    b"{\"name\":\"auto-\"}",
    b"{\"name\":\"a\\u001fb\"}",
    b"{\"name\":\"a\\u007f\"}",
    b"{\"format\":\"avro\"}",
    b"{\"format\":\"JSON\"}",
    b"{\"format\":5}",
    b"{\"auto.offset.reset\":\"none\"}",
    b"{\"auto.offset.reset\":true}",
    b"{\"auto.commit.enable\":\"True\"}",
    b"{\"auto.commit.enable\":0}",
    b"{\"fetch.min.bytes\":0}",
    b"{\"fetch.min.bytes\":\"4194305\"}",
    b"{\"fetch.min.bytes\":\"18446744073709551617\"}",
    b"{\"fetch.min.bytes\":-2}",
    b"{\"fetch.min.bytes\":\"+1\"}",
    b"{\"fetch.min.bytes\":1.0}",
    b"{\"consumer.request.timeout.ms\":30001}",
    b"{\"consumer.request.timeout.ms\":\"-01\"}",
    b"{\"consumer.request.timeout.ms\":\"\"}",
    b"{\"format\":\"binary\",\"format\":\"avro\"}",
];

#[test]
fn refuses_settings_beyond_their_limits(rt: HostRuntime) -> Result<(), Fail> {
    bodies_all_read_as(&rt, rt.alloc(), CREATE, &BEYOND, INVALID)
}

const BAD_CREATES: [&[u8]; 8] = [
    b" ",
    b"null",
    b"[]",
    b"{}x",
    b"{\"name\":5}",
    b"{\"name\":\"c1\",\"name\":[]}",
    b"{\"format\":\"avro\",\"name\":5}",
    b"{\"name\":\"\xff\"}",
];

#[test]
fn refuses_a_create_that_does_not_read_before_its_settings(rt: HostRuntime) -> Result<(), Fail> {
    bodies_all_read_as(&rt, rt.alloc(), CREATE, &BAD_CREATES, UNREADABLE)
}

/// A body of `before`, `/` so often, each end and `after` is read as a call, or refused.
fn ends_are_taken(
    rt: &impl Abort,
    alloc: Global,
    line: (&str, &str, &str),
    body: (&str, usize, &str),
    cases: &[(&str, bool)],
) -> Result<(), Fail> {
    let (before, count, after) = body;
    let mut long = String::new(alloc);
    for _ in 0..count {
        long.push_str("/")?;
    }
    let long = long.as_str();
    for (end, is_taken) in cases {
        let body = format!(in alloc; "{before}{long}{end}{after}")?;
        let text = told(alloc, line, "", body.as_bytes())?;
        assert_eq!(rt; !text.starts_with("4"), *is_taken, "end {end}");
    }
    Ok(())
}

const GIVEN_ENDS: [(&str, bool); 3] = [("\u{e9}", true), ("xyz", false), ("x\u{e9}", false)];

#[test]
fn takes_names_of_1_to_249_bytes(rt: HostRuntime) -> Result<(), Fail> {
    let body = ("{\"name\":\"", 247, "\"}");
    ends_are_taken(&rt, rt.alloc(), CREATE, body, &GIVEN_ENDS)
}

const ASSIGNMENTS: [(&[u8], &str); 3] = [
    (b"{\"partitions\":[]}", "assign g c1"),
    (
        b"{\"partitions\":[{\"topic\":\"b\",\"partition\":1},{\"topic\":\"a\",\"partition\":0},{\"topic\":\"b\",\"partition\":1}]}",
        "assign g c1 b/1 a/0 b/1",
    ),
    (
        b"{\"partitions\":5,\"partitions\":[{\"partition\":2147483647,\"topic\":5,\"topic\":\"%20 \",\"offset\":\"x\"}]}",
        "assign g c1 %20 /2147483647",
    ),
];

#[test]
fn reads_the_parts_of_an_assignment(rt: HostRuntime) -> Result<(), Fail> {
    bodies_read_as(&rt, rt.alloc(), ASSIGN, &ASSIGNMENTS)
}

const BAD_ASSIGNMENTS: [&[u8]; 14] = [
    b"",
    b"{}",
    b"[]",
    b"{\"partitions\":null}",
    b"{\"partitions\":{}}",
    b"{\"partitions\":[null]}",
    b"{\"partitions\":[{\"topic\":\"t\"}]}",
    b"{\"partitions\":[{\"partition\":0}]}",
    b"{\"partitions\":[{\"topic\":\"\",\"partition\":0}]}",
    b"{\"partitions\":[{\"topic\":\"t\",\"partition\":\"0\"}]}",
    b"{\"partitions\":[{\"topic\":\"t\",\"partition\":-1}]}",
    b"{\"partitions\":[{\"topic\":\"t\",\"partition\":2147483648}]}",
    b"{\"partitions\":[{\"topic\":\"t\",\"partition\":4294967296}]}",
    b"{\"partitions\":[{\"topic\":\"t\",\"partition\":0},{\"topic\":\"t\"}]}",
];

#[test]
fn refuses_an_assignment_that_does_not_read(rt: HostRuntime) -> Result<(), Fail> {
    bodies_all_read_as(&rt, rt.alloc(), ASSIGN, &BAD_ASSIGNMENTS, UNREADABLE)
}

const TOPIC_ENDS: [(&str, bool); 4] = [("", true), ("x", true), ("xy", false), ("\u{e9}", false)];

#[test]
fn takes_topics_of_1_to_249_bytes_in_a_body(rt: HostRuntime) -> Result<(), Fail> {
    let body = (
        "{\"partitions\":[{\"partition\":0,\"topic\":\"",
        248,
        "\"}]}",
    );
    ends_are_taken(&rt, rt.alloc(), ASSIGN, body, &TOPIC_ENDS)
}
