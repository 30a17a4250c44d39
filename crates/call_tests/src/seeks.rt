use crate::sample::request_of;
use crate::shown::{bodies_all_read_as, bodies_read_as, reading_of, told};
use std::alloc::Global;
use std::process::Abort;
use std::test::Fail;

const UNREADABLE: &str = "422 Body does not read.";

const POSITIONS: &str = "/consumers/g/instances/c1/positions";

const BEGINNING: &str = "/consumers/g/instances/c1/positions/beginning";

const END: &str = "/consumers/g/instances/c1/positions/end";

const SUBSCRIPTION: &str = "/consumers/g/instances/c1/subscription";

const SEEK: (&str, &str, &str) = ("POST", POSITIONS, "");

const TO_START: (&str, &str, &str) = ("POST", BEGINNING, "");

const TO_END: (&str, &str, &str) = ("POST", END, "");

const SEEKS: [(&[u8], &str); 4] = [
    (b"{\"offsets\":[]}", "seek g c1"),
    (
        b"{\"offsets\":[{\"topic\":\"b\",\"partition\":1,\"offset\":20},{\"topic\":\"a\",\"partition\":0,\"offset\":0},{\"topic\":\"b\",\"partition\":1,\"offset\":7}]}",
        "seek g c1 b/1:20 a/0:0 b/1:7",
    ),
    (
        b"{\"offsets\":[{\"offset\":9223372036854775807,\"partition\":2147483647,\"topic\":\"t\",\"metadata\":\"m\"}]}",
        "seek g c1 t/2147483647:9223372036854775807",
    ),
    (
        b"{\"offsets\":5,\"partitions\":0,\"offsets\":[{\"topic\":\"t\",\"partition\":0,\"offset\":\"x\",\"offset\":3}]}",
        "seek g c1 t/0:3",
    ),
];

#[test]
fn reads_the_places_of_a_seek(rt: HostRuntime) -> Result<(), Fail> {
    bodies_read_as(&rt, rt.alloc(), SEEK, &SEEKS)
}

const BAD_SEEKS: [&[u8]; 22] = [
    b"",
    b" ",
    b"{}",
    b"[]",
    b"{\"offsets\":null}",
    b"{\"offsets\":{}}",
    b"{\"offsets\":[null]}",
    b"{\"partitions\":[{\"topic\":\"t\",\"partition\":0,\"offset\":1}]}",
    b"{\"offsets\":[{\"topic\":\"t\",\"partition\":0}]}",
    b"{\"offsets\":[{\"topic\":\"t\",\"offset\":1}]}",
    b"{\"offsets\":[{\"partition\":0,\"offset\":1}]}",
    b"{\"offsets\":[{\"topic\":\"\",\"partition\":0,\"offset\":1}]}",
    b"{\"offsets\":[{\"topic\":\"t\",\"partition\":2147483648,\"offset\":1}]}",
    b"{\"offsets\":[{\"topic\":\"t\",\"partition\":0,\"offset\":null}]}",
    b"{\"offsets\":[{\"topic\":\"t\",\"partition\":0,\"offset\":\"1\"}]}",
    b"{\"offsets\":[{\"topic\":\"t\",\"partition\":0,\"offset\":-1}]}",
    b"{\"offsets\":[{\"topic\":\"t\",\"partition\":0,\"offset\":1.0}]}",
    b"{\"offsets\":[{\"topic\":\"t\",\"partition\":0,\"offset\":1e0}]}",
    b"{\"offsets\":[{\"topic\":\"t\",\"partition\":0,\"offset\":9223372036854775808}]}",
    b"{\"offsets\":[{\"topic\":\"t\",\"partition\":0,\"offset\":18446744073709551615}]}",
    b"{\"offsets\":[{\"topic\":\"t\",\"partition\":0,\"offset\":18446744073709551617}]}",
    b"{\"offsets\":[{\"topic\":\"t\",\"partition\":0,\"offset\":1},{\"topic\":\"t\",\"partition\":0}]}",
];

#[test]
fn refuses_a_seek_that_does_not_read(rt: HostRuntime) -> Result<(), Fail> {
    bodies_all_read_as(&rt, rt.alloc(), SEEK, &BAD_SEEKS, UNREADABLE)
}

const PARTS: &[u8] =
    b"{\"partitions\":[{\"topic\":\"b\",\"partition\":1},{\"topic\":\"a\",\"partition\":0,\"offset\":-1},{\"topic\":\"b\",\"partition\":1}]}";

const TO_STARTS: [(&[u8], &str); 2] = [
    (PARTS, "start g c1 b/1 a/0 b/1"),
    (b"{\"partitions\":[]}", "start g c1"),
];

const TO_ENDS: [(&[u8], &str); 2] = [
    (PARTS, "end g c1 b/1 a/0 b/1"),
    (b"{\"partitions\":[]}", "end g c1"),
];

#[test]
fn reads_to_which_edge_a_seek_goes(rt: HostRuntime) -> Result<(), Fail> {
    bodies_read_as(&rt, rt.alloc(), TO_START, &TO_STARTS)?;
    bodies_read_as(&rt, rt.alloc(), TO_END, &TO_ENDS)
}

const BAD_PARTS: [&[u8]; 6] = [
    b"",
    b"{}",
    b"{\"offsets\":[{\"topic\":\"t\",\"partition\":0}]}",
    b"{\"partitions\":null}",
    b"{\"partitions\":[{\"topic\":\"t\"}]}",
    b"{\"partitions\":[{\"topic\":\"t\",\"partition\":2147483648}]}",
];

#[test]
fn refuses_a_seek_to_an_edge_that_does_not_read(rt: HostRuntime) -> Result<(), Fail> {
    bodies_all_read_as(&rt, rt.alloc(), TO_START, &BAD_PARTS, UNREADABLE)?;
    bodies_all_read_as(&rt, rt.alloc(), TO_END, &BAD_PARTS, UNREADABLE)
}

/// Each method, path and content type, with this body, reads as the text beside them.
fn places_read_as(
    rt: &impl Abort,
    alloc: Global,
    body: &[u8],
    cases: &[((&str, &str, &str), &str)],
) -> Result<(), Fail> {
    for (place, (line, want)) in cases.iter().enumerate() {
        let text = told(alloc, *line, "", body)?;
        assert_eq!(rt; text.as_str(), *want, "case {place}");
    }
    Ok(())
}

const UNSUPPORTED: &str = "415 Unsupported media type.";

// The number behind 405 is that of the path's first place.
const LINES: [((&str, &str, &str), &str); 9] = [
    (("GET", SUBSCRIPTION, "text/plain"), "subscription g c1"),
    (("PUT", SUBSCRIPTION, ""), "405 13"),
    (("GET", POSITIONS, ""), "405 18"),
    (("DELETE", BEGINNING, ""), "405 19"),
    (("GET", END, ""), "405 20"),
    (("POST", POSITIONS, "text/plain"), UNSUPPORTED),
    (("POST", BEGINNING, "text/plain"), UNSUPPORTED),
    (("POST", END, "text/plain"), UNSUPPORTED),
    (("POST", END, "application/json"), UNREADABLE),
];

#[test]
fn a_seek_has_its_method_and_its_type(rt: HostRuntime) -> Result<(), Fail> {
    places_read_as(&rt, rt.alloc(), b"{\"a\":1}", &LINES)
}

/// What an encoded seek of this path reads as.
fn encoded(alloc: Global, path: &str) -> Result<String, Fail> {
    let mut request = request_of(
        alloc,
        "POST",
        path,
        "",
        "",
        "{\"offsets\":[],\"partitions\":[]}",
    )?;
    request.encoded = true;
    reading_of(alloc, &request)
}

/// Each encoded seek reads as this text.
fn encoded_all_read_as(
    rt: &impl Abort,
    alloc: Global,
    paths: &[&str],
    want: &str,
) -> Result<(), Fail> {
    for path in paths {
        let text = encoded(alloc, path)?;
        assert_eq!(rt; text.as_str(), want, "{path}");
    }
    Ok(())
}

#[test]
fn refuses_an_encoded_seek(rt: HostRuntime) -> Result<(), Fail> {
    encoded_all_read_as(&rt, rt.alloc(), &[POSITIONS, BEGINNING, END], UNSUPPORTED)
}
