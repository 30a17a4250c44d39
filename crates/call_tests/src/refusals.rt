use crate::shown::{bodies_all_read_as, bodies_read_as, told};
use std::alloc::{AllocError, Global};
use std::process::Abort;
use std::test::Fail;

const BINARY: &str = "application/vnd.kafka.binary.v2+json";

const ONE_RECORD: &[u8] = b"{\"records\":[{\"value\":\"S2Fma2E=\",\"partition\":0}]}";

const PRODUCE: (&str, &str, &str) = ("POST", "/topics/t", BINARY);

const UNREAD: &str = "422 Body does not read.";

// The bytes are those of coreutils' `base64 -d`; `+/8=` has the two characters that differ in the
// alphabet for URLs.
const READABLE: [(&[u8], &str); 15] = [
    (ONE_RECORD, "t; 0 null #4b61666b61"),
    (
        b"{\"records\":[{\"value\":\"S2Fma2E=\",\"partition\":1},{\"value\":\"bm8=\",\"partition\":0},{\"partition\":1}]}",
        "t; 1 null #4b61666b61; 0 null #6e6f; 1 null null",
    ),
    (
        b"{\"records\":[{\"key\":\"YWJj\",\"value\":\"+/8=\",\"partition\":2147483647}]}",
        "t; 2147483647 #616263 #fbff",
    ),
    (
        b"{\"records\":[{\"key\":null,\"value\":null,\"partition\":3}]}",
        "t; 3 null null",
    ),
    (b"{\"records\":[{\"partition\":3}]}", "t; 3 null null"),
    (b"{\"records\":[{}]}", "t; - null null"),
    (
        b"{\"records\":[{\"value\":\"S2Fma2E=\"},{\"key\":\"YWJj\",\"partition\":null},{\"partition\":1}]}",
        "t; - null #4b61666b61; - #616263 null; 1 null null",
    ),
    (
        b"{\"records\":[{\"partition\":0,\"partition\":null}]}",
        "t; - null null",
    ),
    (
        b"{\"records\":[{\"key\":\"\",\"value\":\"AA==\",\"partition\":0}]}",
        "t; 0 # #00",
    ),
    (
        b"{\"records\":[{\"partition\":\"x\"}],\"records\":[{\"partition\":1,\"partition\":2}]}",
        "t; 2 null null",
    ),
    (
        b"{\"records\":[{\"value\":5,\"value\":\"YQ==\",\"key\":\"YQ==\",\"key\":null,\"partition\":0}]}",
        "t; 0 null #61",
    ),
    (
        b"{\"key_schema\":7,\"key_schema_id\":\"x\",\"value_schema\":[],\"value_schema_id\":-1,\"records\":[{\"partition\":0}]}",
        "t; 0 null null",
    ),
    (
        b"{\"a\":{\"records\":1},\"records\":[{\"partition\":0,\"headers\":[1],\"Value\":2}]}",
        "t; 0 null null",
    ),
    (
        b" {\r\n\t\"records\" : [ { \"partition\" : 0 } ] } \n",
        "t; 0 null null",
    ),
    (
        b"{\"records\":[{\"\\u0070artition\":0,\"value\":\"\\u00532Fma2E\\u003d\"}]}",
        "t; 0 null #4b61666b61",
    ),
];

#[test]
fn reads_the_records_of_a_body(rt: HostRuntime) -> Result<(), Fail> {
    bodies_read_as(&rt, rt.alloc(), PRODUCE, &READABLE)
}

const PRODUCE_TO: (&str, &str, &str) = ("POST", "/topics/t/partitions/7", BINARY);

const READABLE_THERE: [(&[u8], &str); 2] = [
    (ONE_RECORD, "t; 7 null #4b61666b61"),
    (
        b"{\"records\":[{\"key\":\"YWJj\"},{\"partition\":\"x\"},{\"partition\":2147483648}]}",
        "t; 7 #616263 null; 7 null null; 7 null null",
    ),
];

#[test]
fn a_partition_that_is_named_is_ignored_at_another(rt: HostRuntime) -> Result<(), Fail> {
    bodies_read_as(&rt, rt.alloc(), PRODUCE_TO, &READABLE_THERE)
}

const UNREADABLE: [&[u8]; 20] = [
    b"",
    b"null",
    b"[]",
    b"{}",
    b"[{\"partition\":0}]",
    b"\"records\"",
    b"{\"records\":[]}",
    b"{\"records\":null}",
    b"{\"records\":{\"partition\":0}}",
    b"{\"records\":[null]}",
    b"{\"records\":[[{\"partition\":0}]]}",
    b"{\"Records\":[{\"partition\":0}]}",
    b"{\"records\":[{\"partition\":0}],\"records\":[]}",
    b"{\"records\":[{\"partition\":0}]}x",
    b"{\"records\":[{\"partition\":0}]}{}",
    b"{\"records\":[{\"partition\":0},]}",
    b"{\"records\":[{\"partition\":0}]",
    b"\xef\xbb\xbf{\"records\":[{\"partition\":0}]}",
    b"{\"records\":[{\"partition\":0}],\"a\":\"\xff\"}",
    b"{\"records\":[{\"partition\":0}],\"a\":\"\\ud800\"}",
];

#[test]
fn refuses_a_body_without_records(rt: HostRuntime) -> Result<(), Fail> {
    bodies_all_read_as(&rt, rt.alloc(), PRODUCE, &UNREADABLE, UNREAD)
}

const BAD_MEMBERS: [&[u8]; 22] = [
    b"{\"records\":[{\"partition\":0},5]}",
    b"{\"records\":[{\"partition\":0},\"partition\"]}",
    b"{\"records\":[{\"partition\":0},{\"partition\":-1}]}",
    b"{\"records\":[{\"partition\":0},{\"partition\":2147483648}]}",
    b"{\"records\":[{\"partition\":0},{\"partition\":4294967296}]}",
    b"{\"records\":[{\"partition\":0},{\"partition\":18446744073709551616}]}",
    b"{\"records\":[{\"partition\":0},{\"partition\":0.0}]}",
    b"{\"records\":[{\"partition\":0},{\"partition\":1e0}]}",
    b"{\"records\":[{\"partition\":0},{\"partition\":\"0\"}]}",
    b"{\"records\":[{\"partition\":0},{\"partition\":[0]}]}",
    b"{\"records\":[{\"partition\":0},{\"partition\":true}]}",
    b"{\"records\":[{\"partition\":0},{\"partition\":0,\"value\":\"S2F\"}]}",
    b"{\"records\":[{\"partition\":0},{\"partition\":0,\"value\":\"S2Fma2E\"}]}",
    b"{\"records\":[{\"partition\":0},{\"partition\":0,\"value\":\"S2Fma2F=\"}]}",
    b"{\"records\":[{\"partition\":0},{\"partition\":0,\"value\":\"S2Fma2E==\"}]}",
    b"{\"records\":[{\"partition\":0},{\"partition\":0,\"value\":\"S2Fm a2E=\"}]}",
    b"{\"records\":[{\"partition\":0},{\"partition\":0,\"value\":\"-_8=\"}]}",
    b"{\"records\":[{\"partition\":0},{\"partition\":0,\"value\":5}]}",
    b"{\"records\":[{\"partition\":0},{\"partition\":0,\"value\":false}]}",
    b"{\"records\":[{\"partition\":0},{\"partition\":0,\"key\":[]}]}",
    b"{\"records\":[{\"partition\":0},{\"partition\":0,\"key\":{}}]}",
    b"{\"records\":[{\"partition\":0},{\"partition\":0,\"key\":\"=\"}]}",
];

#[test]
fn refuses_a_record_that_does_not_read(rt: HostRuntime) -> Result<(), Fail> {
    bodies_all_read_as(&rt, rt.alloc(), PRODUCE, &BAD_MEMBERS, UNREAD)
}

/// A body with a member of so many arrays in one another.
fn nested(alloc: Global, arrays: usize) -> Result<String, AllocError> {
    let mut body = String::from_str(alloc, "{\"records\":[{\"partition\":0}],\"a\":")?;
    for _ in 0..arrays {
        body.push_str("[")?;
    }
    for _ in 0..arrays {
        body.push_str("]")?;
    }
    body.push_str("}")?;
    Ok(body)
}

/// Each body with so many arrays in one another reads so.
fn nested_read_as(rt: &impl Abort, alloc: Global, cases: &[(usize, &str)]) -> Result<(), Fail> {
    for (arrays, want) in cases {
        let body = nested(alloc, *arrays)?;
        let text = told(alloc, PRODUCE, "", body.as_bytes())?;
        assert_eq!(rt; text.as_str(), *want, "{arrays} arrays");
    }
    Ok(())
}

const NESTED: [(usize, &str); 3] = [(126, "t; 0 null null"), (127, UNREAD), (5000, UNREAD)];

#[test]
fn takes_a_body_that_nests_up_to_127_levels(rt: HostRuntime) -> Result<(), Fail> {
    nested_read_as(&rt, rt.alloc(), &NESTED)
}
