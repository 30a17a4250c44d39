use crate::shown::{bodies_all_read_as, bodies_read_as, told};
use std::alloc::{AllocError, Global};
use std::process::Abort;
use std::test::Fail;

const PRODUCE: (&str, &str, &str) = ("POST", "/topics/t", "application/vnd.kafka.json.v2+json");

const PRODUCE_TO: (&str, &str, &str) = (
    "POST",
    "/topics/t/partitions/7",
    "Application/VND.Kafka.JSON.v2+json ; charset=utf-8",
);

const UNREAD: &str = "422 Body does not read.";

// A key or a value is stored as it is spelled, without the white space between its tokens. The bytes
// are those of coreutils' `od`.
const READABLE: [(&[u8], &str); 8] = [
    (
        b"{\"records\":[{\"key\":\"k\",\"value\":{\"a\":1}},{\"value\":[],\"partition\":1}]}",
        "t; - #226b22 #7b2261223a317d; 1 null #5b5d",
    ),
    (
        b"{\"records\":[{\"key\":true,\"value\":false},{\"key\":-0,\"value\":1.50E+1}]}",
        "t; - #74727565 #66616c7365; - #2d30 #312e3530452b31",
    ),
    (
        b"{\"records\":[{\"key\":null,\"value\":null},{\"key\":\"\",\"value\":\"null\"}]}",
        "t; - null null; - #2222 #226e756c6c22",
    ),
    (
        b"{\"records\":[{\"value\":\"S2Fma2E=\"},{\"value\":\"\\u0041\xc3\xa9\"}]}",
        "t; - null #225332466d6132453d22; - null #225c7530303431c3a922",
    ),
    (
        b"{\"records\":[ { \"value\" : { \"a\" :\r\n[ 1 ,\t\"b c\" ] } } ] }",
        "t; - null #7b2261223a5b312c22622063225d7d",
    ),
    (
        b"{\"records\":[{\"value\":{\"a\":1,\"a\":[null]}}]}",
        "t; - null #7b2261223a312c2261223a5b6e756c6c5d7d",
    ),
    (
        b"{\"records\":[{\"value\":1,\"value\":2,\"key\":3,\"key\":null}]}",
        "t; - null #32",
    ),
    (b"{\"records\":[{}]}", "t; - null null"),
];

#[test]
fn reads_records_in_the_json_format(rt: HostRuntime) -> Result<(), Fail> {
    bodies_read_as(&rt, rt.alloc(), PRODUCE, &READABLE)
}

const READABLE_THERE: [(&[u8], &str); 1] = [(
    b"{\"records\":[{\"value\":5,\"partition\":\"x\"},{\"key\":\"k\"}]}",
    "t; 7 null #35; 7 #226b22 null",
)];

#[test]
fn reads_records_in_the_json_format_for_a_partition(rt: HostRuntime) -> Result<(), Fail> {
    bodies_read_as(&rt, rt.alloc(), PRODUCE_TO, &READABLE_THERE)
}

const UNREADABLE: [&[u8]; 6] = [
    b"{\"records\":[]}",
    b"{\"records\":[{},5]}",
    b"{\"records\":[{\"value\":01}]}",
    b"{\"records\":[{\"value\":}]}",
    b"{\"records\":[{\"value\":\"\xff\"}]}",
    b"{\"records\":[{\"value\":0,\"partition\":-1}]}",
];

#[test]
fn refuses_records_that_do_not_read_in_the_json_format(rt: HostRuntime) -> Result<(), Fail> {
    bodies_all_read_as(&rt, rt.alloc(), PRODUCE, &UNREADABLE, UNREAD)
}

fn put_times(out: &mut String, text: &str, times: usize) -> Result<(), AllocError> {
    for _ in 0..times {
        out.push_str(text)?;
    }
    Ok(())
}

/// A body whose one value is so many arrays in one another.
fn nested(alloc: Global, arrays: usize) -> Result<String, AllocError> {
    let mut body = String::from_str(alloc, "{\"records\":[{\"value\":")?;
    put_times(&mut body, "[", arrays)?;
    put_times(&mut body, "]", arrays)?;
    body.push_str("}]}")?;
    Ok(body)
}

/// What it reads as.
fn nested_record(alloc: Global, arrays: usize) -> Result<String, AllocError> {
    let mut text = String::from_str(alloc, "t; - null #")?;
    put_times(&mut text, "5b", arrays)?;
    put_times(&mut text, "5d", arrays)?;
    Ok(text)
}

// A body has 127 levels at most, and a value stands in three of them.
#[test]
fn takes_a_value_that_nests_up_to_124_levels(rt: HostRuntime) -> Result<(), Fail> {
    let body = nested(rt.alloc(), 124)?;
    let text = told(rt.alloc(), PRODUCE, "", body.as_bytes())?;
    let want = nested_record(rt.alloc(), 124)?;
    assert_eq!(rt; text.as_str(), want.as_str());

    let body = nested(rt.alloc(), 125)?;
    let text = told(rt.alloc(), PRODUCE, "", body.as_bytes())?;
    assert_eq!(rt; text.as_str(), UNREAD);
    Ok(())
}
