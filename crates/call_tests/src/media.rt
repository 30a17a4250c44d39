use crate::sample::request_of;
use crate::shown::reading_of;
use http_conn::Request;
use rest_calls::{Format, allows};
use rest_routes::{Place, Routes, accepted_formats, is_acceptable, is_supported, place_of};
use std::alloc::Global;
use std::process::Abort;
use std::test::Fail;

const PRODUCE: (&str, &str) = ("POST", "/topics/t");

const PRODUCE_TO: (&str, &str) = ("POST", "/topics/t/partitions/7");

const CREATE: (&str, &str) = ("POST", "/consumers/g");

const DELETE: (&str, &str) = ("DELETE", "/consumers/g/instances/c");

const ASSIGN: (&str, &str) = ("POST", "/consumers/g/instances/c/assignments");

const SUBSCRIPTION: (&str, &str) = ("GET", "/consumers/g/instances/c/subscription");

const SEEK: (&str, &str) = ("POST", "/consumers/g/instances/c/positions");

const TO_START: (&str, &str) = ("POST", "/consumers/g/instances/c/positions/beginning");

const TO_END: (&str, &str) = ("POST", "/consumers/g/instances/c/positions/end");

const RECORDS: (&str, &str) = ("GET", "/consumers/g/instances/c/records");

const BINARY: &str = "application/vnd.kafka.binary.v2+json";

const JSON: &str = "application/vnd.kafka.json.v2+json";

const AVRO: &str = "application/vnd.kafka.avro.v2+json";

/// What is said of a request's media types: 200, 406, 415, or 404 where it has no place.
fn status_of(alloc: Global, request: &Request) -> Result<u32, Fail> {
    let routes = Routes::new(alloc)?;
    let Ok(place) = place_of(alloc, &routes, request) else {
        return Ok(404);
    };
    Ok(judged(&place, request))
}

fn judged(place: &Place, request: &Request) -> u32 {
    if !is_acceptable(place, request) {
        return 406;
    }
    if is_supported(place, request) {
        200
    } else {
        415
    }
}

fn accepting(alloc: Global, line: (&str, &str), accept: &str) -> Result<u32, Fail> {
    let request = request_of(alloc, line.0, line.1, accept, BINARY, "")?;
    status_of(alloc, &request)
}

/// Each request that accepts this is said to be so.
fn accepts_are(
    rt: &impl Abort,
    alloc: Global,
    cases: &[((&str, &str), &str, u32)],
) -> Result<(), Fail> {
    for (line, accept, status) in cases {
        assert_eq!(rt; accepting(alloc, *line, accept)?, *status, "{accept}");
    }
    Ok(())
}

const TOPICS: (&str, &str) = ("GET", "/topics");

const ACCEPTS: [((&str, &str), &str, u32); 31] = [
    (TOPICS, "application/vnd.kafka.v2+json", 200),
    (TOPICS, "*/*", 200),
    (TOPICS, BINARY, 406),
    (DELETE, "", 200),
    (DELETE, "application/vnd.kafka.v2+json", 200),
    (DELETE, "application/vnd.kafka+json", 200),
    (DELETE, "application/json", 200),
    (DELETE, "Application/JSON", 200),
    (DELETE, "application/json; q=0.5", 200),
    (DELETE, "application/json;charset=utf-8, text/html", 200),
    (DELETE, "text/html,\t*/* ;q=0.1", 200),
    (DELETE, "application/*", 200),
    (DELETE, "text/html", 406),
    (DELETE, "text/*", 406),
    (DELETE, "application/jsonx", 406),
    (DELETE, "application/ json", 406),
    (DELETE, ",", 406),
    (DELETE, "text/html;application/json", 406),
    (DELETE, BINARY, 406),
    (DELETE, JSON, 406),
    (DELETE, AVRO, 406),
    (SUBSCRIPTION, "application/vnd.kafka.v2+json", 200),
    (SUBSCRIPTION, BINARY, 406),
    (SEEK, "*/*", 200),
    (TO_END, JSON, 406),
    (RECORDS, BINARY, 200),
    (
        RECORDS,
        "text/html, Application/vnd.kafka.binary.v2+json;q=1",
        200,
    ),
    (RECORDS, "application/vnd.kafka.JSON.v2+json", 200),
    (RECORDS, AVRO, 200),
    (RECORDS, "application/vnd.kafka.xml.v2+json", 406),
    (RECORDS, "application/vnd.kafka.v2+json", 200),
];

#[test]
fn a_reply_is_of_a_type_that_is_accepted(rt: HostRuntime) -> Result<(), Fail> {
    accepts_are(&rt, rt.alloc(), &ACCEPTS)
}

fn sending(alloc: Global, line: (&str, &str), media: &str, body: &str) -> Result<u32, Fail> {
    let request = request_of(alloc, line.0, line.1, "", media, body)?;
    status_of(alloc, &request)
}

/// Each request that sends a body of this type is said to be so.
fn types_are(
    rt: &impl Abort,
    alloc: Global,
    cases: &[((&str, &str), &str, &str, u32)],
) -> Result<(), Fail> {
    for (line, media, body, status) in cases {
        assert_eq!(rt; sending(alloc, *line, media, body)?, *status, "{media}");
    }
    Ok(())
}

const TYPES: [((&str, &str), &str, &str, u32); 32] = [
    (TOPICS, "text/plain", "{}", 200),
    (PRODUCE, BINARY, "{}", 200),
    (
        PRODUCE,
        "Application/VND.kafka.binary.v2+json ; q=1",
        "{}",
        200,
    ),
    (PRODUCE, "", "{}", 415),
    (PRODUCE, "text/plain", "{}", 415),
    (PRODUCE, "application/json", "{}", 415),
    (PRODUCE, JSON, "{}", 200),
    (
        PRODUCE,
        "Application/vnd.kafka.JSON.v2+json;charset=utf-8",
        "{}",
        200,
    ),
    (PRODUCE_TO, JSON, "{}", 200),
    (PRODUCE, "application/vnd.kafka.json.v2", "{}", 415),
    (PRODUCE, AVRO, "{}", 415),
    (PRODUCE_TO, AVRO, "{}", 415),
    (CREATE, "", "{}", 200),
    (CREATE, "application/vnd.kafka.v2+json", "{}", 200),
    (CREATE, "application/json; charset=utf-8", "{}", 200),
    (CREATE, JSON, "{}", 415),
    (CREATE, BINARY, "", 200),
    (CREATE, "text/plain", " ", 415),
    (ASSIGN, "application/json", "{}", 200),
    (ASSIGN, "text/plain", "{}", 415),
    (SUBSCRIPTION, "text/plain", "{}", 200),
    (SEEK, "", "{}", 200),
    (SEEK, "application/vnd.kafka.v2+json", "{}", 200),
    (SEEK, BINARY, "{}", 415),
    (SEEK, "text/plain", "", 200),
    (TO_START, "application/json", "{}", 200),
    (TO_START, "text/plain", "{}", 415),
    (TO_END, "application/vnd.kafka+json", "{}", 200),
    (TO_END, JSON, "{}", 415),
    (TO_END, "text/plain", " ", 415),
    (RECORDS, "text/plain", "{}", 200),
    (("GET", "/consumers/g"), "application/json", "{}", 404),
];

#[test]
fn a_body_is_of_a_type_that_its_place_reads(rt: HostRuntime) -> Result<(), Fail> {
    types_are(&rt, rt.alloc(), &TYPES)
}

// A member that stands for each type names no format, whichever others stand beside it.
const READS: [(&str, &str); 9] = [
    ("", "records g c"),
    (BINARY, "records g c binary"),
    (JSON, "records g c json"),
    (AVRO, "records g c avro"),
    (
        "text/html, application/vnd.kafka.json.v2+json ,Application/vnd.kafka.BINARY.v2+json;q=0.5",
        "records g c binary json",
    ),
    (
        "application/vnd.kafka.avro.v2+json;q=1,application/vnd.kafka.json.v2+json",
        "records g c json avro",
    ),
    (
        "application/vnd.kafka.json.v2+json, */*;q=0.1",
        "records g c",
    ),
    (
        "application/json,application/vnd.kafka.avro.v2+json",
        "records g c",
    ),
    ("text/html", "406 Not acceptable."),
];

/// Each read of records that accepts this reads as the text beside it.
fn reads_are(rt: &impl Abort, alloc: Global, cases: &[(&str, &str)]) -> Result<(), Fail> {
    for (accept, want) in cases {
        let request = request_of(alloc, RECORDS.0, RECORDS.1, accept, "", "")?;
        let text = reading_of(alloc, &request)?;
        assert_eq!(rt; text.as_str(), *want, "{accept}");
    }
    Ok(())
}

#[test]
fn a_read_names_the_formats_that_it_accepts(rt: HostRuntime) -> Result<(), Fail> {
    reads_are(&rt, rt.alloc(), &READS)
}

/// Whether replies in the binary and in the JSON format are accepted.
fn allowed_by(alloc: Global, accept: &str) -> Result<(bool, bool), Fail> {
    let request = request_of(alloc, RECORDS.0, RECORDS.1, accept, "", "")?;
    let accepts = accepted_formats(&request.accept);
    Ok((
        allows(accepts, Format::Binary),
        allows(accepts, Format::Json),
    ))
}

const ALLOWED: [(&str, (bool, bool)); 6] = [
    ("", (true, true)),
    (BINARY, (true, false)),
    (JSON, (false, true)),
    (AVRO, (false, false)),
    (
        "application/vnd.kafka.json.v2+json,application/vnd.kafka.binary.v2+json",
        (true, true),
    ),
    ("application/vnd.kafka.json.v2+json,*/*", (true, true)),
];

/// Each Accept allows these formats.
fn allowed_are(rt: &impl Abort, alloc: Global, cases: &[(&str, (bool, bool))]) -> Result<(), Fail> {
    for (accept, want) in cases {
        assert_eq!(rt; allowed_by(alloc, accept)?, *want, "{accept}");
    }
    Ok(())
}

#[test]
fn a_format_is_allowed_where_it_is_named_or_none_is(rt: HostRuntime) -> Result<(), Fail> {
    allowed_are(&rt, rt.alloc(), &ALLOWED)
}
