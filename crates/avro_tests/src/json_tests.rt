//! Data as JSON and as bytes, by hand from the Apache Avro specification, "JSON Encoding" and "Binary Encoding".
use crate::schemas::*;
use crate::told::Given::Json;
use crate::told::{repeated, told_so};
use std::alloc::Global;
use std::process::Abort;
use std::test::Fail;

const DATA: [(&str, &str, &str); 83] = [
    (NULL, "null", "="),
    (BOOLEAN, "true", "01="),
    (BOOLEAN, " false ", "00=false"),
    (INT, "0", "00="),
    (INT, "-1", "01="),
    (INT, "1", "02="),
    (INT, "-2", "03="),
    (INT, "2", "04="),
    (INT, "-64", "7f="),
    (INT, "64", "8001="),
    (INT, "-0", "00=0"),
    (INT, "-2147483648", "ffffffff0f="),
    (INT, "2147483647", "feffffff0f="),
    (LONG, "64", "8001="),
    (LONG, "9223372036854775807", "feffffffffffffffff01="),
    (LONG, "-9223372036854775808", "ffffffffffffffffff01="),
    (BYTES, r#""""#, "00="),
    (BYTES, r#""\u00FF""#, r#"02ff="ÿ""#),
    (BYTES, r#""\u0000A\u0080""#, "06004180=\"\\u0000A\u{80}\""),
    (BYTES, r#""é\"\\""#, "06e9225c="),
    (STRING, r#""foo""#, "06666f6f="),
    (STRING, r#""""#, "00="),
    (STRING, r#""\u00e9""#, r#"04c3a9="é""#),
    (STRING, r#""\ud83d\ude00""#, r#"08f09f9880="😀""#),
    (
        STRING,
        r#""\/\"\\\n\u001f""#,
        r#"0a2f225c0a1f="/\"\\\n\u001f""#,
    ),
    (TWO, r#""\u0000\u00ff""#, r#"00ff="\u0000ÿ""#),
    (TWO, r#""ab""#, "6162="),
    (FOO, r#""A""#, "00="),
    (FOO, r#""D""#, "06="),
    (FOO, r#""\u0042""#, r#"02="B""#),
    (LETTERS, r#""B""#, "02="),
    (EMPTY_FIXED, r#""""#, "="),
    (TEST, r#"{"a":27,"b":"foo"}"#, "3606666f6f="),
    // members in another order
    (
        TEST,
        r#"{ "b" : "foo" , "a" : 27 }"#,
        r#"3606666f6f={"a":27,"b":"foo"}"#,
    ),
    // other members are ignored
    (
        TEST,
        r#"{"c":[1.5],"a":27,"b":"foo"}"#,
        r#"3606666f6f={"a":27,"b":"foo"}"#,
    ),
    // the last of several members of one name counts
    (
        TEST,
        r#"{"a":true,"b":"foo","\u0061":27}"#,
        r#"3606666f6f={"a":27,"b":"foo"}"#,
    ),
    (LINE, r#"{"n":-1}"#, "01="),
    (LONGS, "[3,27]", "04063600="),
    (LONGS, "[]", "00="),
    (INTS, "[1,2]", "04020400="),
    (NULL_LISTS, "[[],[null]]", "0400020000="),
    (MAP, r#"{"a":1}"#, "0202610200="),
    (MAP, "{}", "00="),
    // entries keep their order
    (MAP, r#"{"b":2,"a":1}"#, "0402620402610200="),
    (MAP, r#"{"\n":0,"":-1}"#, "04020a00000100="),
    (CHOICE, "null", "00="),
    (CHOICE, r#"{"string":"a"}"#, "020261="),
    (CHOICE, r#"{"string":"ab"}"#, "02046162="),
    (OTHER_CHOICE, "null", "02="),
    (
        OTHER_CHOICE,
        r#"{"\u0073tring":""}"#,
        r#"0000={"string":""}"#,
    ),
    (MANY, r#"{"boolean":true}"#, "0001="),
    (MANY, r#"{"int":1}"#, "0202="),
    (MANY, r#"{"array":[1]}"#, "04020200="),
    (MANY, r#"{"map":{"a":1}}"#, "060202610200="),
    // a named type stands by its fullname
    (MANY, r#"{"shop.F":"x"}"#, "0878="),
    (MANY, r#"{"E":"B"}"#, "0a02="),
    (MANY, r#"{"shop.Line":{"n":-1}}"#, "0c01="),
    (PERHAPS, r#"[null,{"int":5}]"#, "0400020a00="),
    (
        LIST,
        r#"{"value":1,"next":{"LongList":{"value":2,"next":null}}}"#,
        "02020400=",
    ),
    (
        LIST,
        r#"{"next":null,"value":64}"#,
        r#"800100={"value":64,"next":null}"#,
    ),
    (NO_FIELDS, r#"{"x":1}"#, "={}"),
    (
        MAYBE_BYTES,
        r#"{"k":{"bytes":"\u00ff"},"l":null}"#,
        r#"04026b0202ff026c0000={"k":{"bytes":"ÿ"},"l":null}"#,
    ),
    (BYTES, r#""a\u00ff""#, r#"0461ff="aÿ""#),
    (STRING, r#""a\u00ff""#, r#"0661c3bf="aÿ""#),
    (TWO, r#""a\u00ff""#, r#"61ff="aÿ""#),
    (PAIR, r#"{"b":"x","a":1}"#, r#"020278={"a":1,"b":"x"}"#),
    (
        PAIR,
        r#"{"b":"x","a":1,"c":null}"#,
        r#"020278={"a":1,"b":"x"}"#,
    ),
    (
        PAIR,
        r#"{"b":"x","a":true,"a":1}"#,
        r#"020278={"a":1,"b":"x"}"#,
    ),
    (TREE, r#"{"v":1,"n":{"T":{"v":2,"n":null}}}"#, "02020400="),
    (INTS, "[1,2,3]", "0602040600="),
    (INTS, "[]", "00="),
    (COUNTS, r#"{"a":1,"b":2}"#, "0402610202620400="),
    (COUNTS, r#"{"k":1,"j":2}"#, "04026b02026a0400="),
    (INT, "-5", "09="),
    (BYTES, r#""A\"""#, "044122="),
    (BYTES, r#""ÿ\u0000""#, "04ff00="),
    (STRING, r#""é""#, "04c3a9="),
    (TWO, "\"\\u0007\u{80}\"", "0780="),
    (LETTERS, r#""A""#, "00="),
    (CHOICE, r#"{"string":"x"}"#, "020278="),
    (BEHIND, r#"{"b":"x","a":7}"#, "02780e="),
    (BEHIND, r#"{"b":"x","a":27}"#, "027836="),
    (CELL, r#"{"next":{"n.Cell":{"next":null}}}"#, "0200="),
];

/// What refuses a text: the first node in preorder that isn't of its schema, or is an integer outside its type.
const REFUSED: [(&str, &str, &str); 63] = [
    (NULL, "0", "mismatch at 0"),
    (NULL, r#""null""#, "mismatch at 0"),
    (BOOLEAN, "1", "mismatch at 0"),
    (BOOLEAN, r#""true""#, "mismatch at 0"),
    (INT, "2147483648", "range at 0"),
    (INT, "-2147483649", "range at 0"),
    (INT, "4294967297", "range at 0"),
    (INT, "1.0", "mismatch at 0"),
    (INT, "1e2", "mismatch at 0"),
    (INT, r#""1""#, "mismatch at 0"),
    (INT, "null", "mismatch at 0"),
    (LONG, "9223372036854775808", "range at 0"),
    (LONG, "-9223372036854775809", "range at 0"),
    // 39 and 40 digits
    (
        LONG,
        "100000000000000000000000000000000000000",
        "range at 0",
    ),
    (
        LONG,
        "-1000000000000000000000000000000000000000",
        "range at 0",
    ),
    (
        LONG,
        "100000000000000000000000000000000000000.0",
        "mismatch at 0",
    ),
    (LONG, "1E400", "mismatch at 0"),
    (BYTES, r#""\u0100""#, "mismatch at 0"),
    (BYTES, "[1]", "mismatch at 0"),
    (STRING, "1", "mismatch at 0"),
    (STRING, "null", "mismatch at 0"),
    (TWO, r#""a""#, "mismatch at 0"),
    (TWO, r#""abc""#, "mismatch at 0"),
    (TWO, r#""\u20ac""#, "mismatch at 0"),
    (FOO, r#""E""#, "mismatch at 0"),
    (FOO, r#""a""#, "mismatch at 0"),
    (FOO, "0", "mismatch at 0"),
    (TEST, r#"{"a":27}"#, "mismatch at 0"),
    (TEST, r#"{"b":1}"#, "mismatch at 0"),
    (TEST, r#"[27,"foo"]"#, "mismatch at 0"),
    (TEST, r#"{"a":"27","b":1}"#, "mismatch at 1"),
    (TEST, r#"{"a":27,"b":"foo","b":1}"#, "mismatch at 2"),
    (LINE, r#"{"shop.Line":{"n":1}}"#, "mismatch at 0"),
    (LONGS, "{}", "mismatch at 0"),
    (LONGS, "[1,9223372036854775808]", "range at 2"),
    (INT_LISTS, "[[1],[true]]", "mismatch at 4"),
    (MAP, "[]", "mismatch at 0"),
    (MAP, r#"{"a":1,"b":true}"#, "mismatch at 2"),
    // a name twice
    (MAP, r#"{"a":1,"b":2,"a":1}"#, "mismatch at 0"),
    (MAP, r#"{"a":true,"\u0061":2}"#, "mismatch at 0"),
    (CHOICE, r#""ab""#, "mismatch at 0"),
    (CHOICE, r#"{"null":null}"#, "mismatch at 0"),
    (CHOICE, r#"{"int":1}"#, "mismatch at 0"),
    (CHOICE, r#"{"string":1}"#, "mismatch at 1"),
    (CHOICE, r#"{"string":"a","null":null}"#, "mismatch at 0"),
    (CHOICE, "{}", "mismatch at 0"),
    // a branch by its name alone, without its namespace
    (MANY, r#"{"Line":{"n":1}}"#, "mismatch at 0"),
    (MANY, "null", "mismatch at 0"),
    (NULL, "1", "mismatch at 0"),
    (BOOLEAN, "null", "mismatch at 0"),
    (
        INT,
        "1000000000000000000000000000000000000000000",
        "range at 0",
    ),
    (
        INT,
        "-1000000000000000000000000000000000000000000",
        "range at 0",
    ),
    (
        INT,
        "1000000000000000000000000000000000000000000.5",
        "mismatch at 0",
    ),
    (BYTES, r#""a\u0100""#, "mismatch at 0"),
    (LETTERS, r#""C""#, "mismatch at 0"),
    (CHOICE, r#""a""#, "mismatch at 0"),
    (CHOICE, r#"{"string":"a","string":"b"}"#, "mismatch at 0"),
    (PAIR, r#"{"b":"x","a":1,"a":true}"#, "mismatch at 1"),
    (PAIR, r#"{"b":1,"a":1}"#, "mismatch at 2"),
    (PAIR, r#"{"b":true}"#, "mismatch at 0"),
    (TREE, r#"{"v":1,"n":{"T":{"v":2,"n":{}}}}"#, "mismatch at 5"),
    (INTS, "[1,null,3]", "mismatch at 2"),
    (COUNTS, r#"{"a":1,"\u0061":2}"#, "mismatch at 0"),
];

/// A schema, a JSON text, and what is told of it.
fn texts_so(rt: &impl Abort, alloc: Global, rows: &[(&str, &str, &str)]) -> Result<(), Fail> {
    for (schema, json, wanted) in rows {
        told_so(rt, alloc, &[(*schema, Json(*json), *wanted)])?;
    }
    Ok(())
}

#[test]
fn data_both_ways(rt: HostRuntime) -> Result<(), Fail> {
    texts_so(&rt, rt.alloc(), &DATA)
}

#[test]
fn refuses_json_at_the_first_node(rt: HostRuntime) -> Result<(), Fail> {
    texts_so(&rt, rt.alloc(), &REFUSED)
}

/// The begin and the end of an object with so many other members between them, and what is told of it.
const LONG_RECORDS: [(&str, usize, &str, &str); 3] = [
    (
        r#"{"a":true,"b":"x""#,
        33,
        r#","a":1}"#,
        r#"020278={"a":1,"b":"x"}"#,
    ),
    (r#"{"a":1,"b":"x""#, 33, r#","a":true}"#, "mismatch at 1"),
    (r#"{"a":1"#, 33, r#","a":1}"#, "mismatch at 0"),
];

fn long_records_so(
    rt: &impl Abort,
    alloc: Global,
    rows: &[(&str, usize, &str, &str)],
) -> Result<(), Fail> {
    for (front, count, end, wanted) in rows {
        let text = repeated(alloc, front, r#","c":1"#, *count, end)?;
        told_so(rt, alloc, &[(PAIR, Json(text.as_str()), *wanted)])?;
    }
    Ok(())
}

// Above 32 members they are looked up by a map.
#[test]
fn the_last_of_many_members_counts(rt: HostRuntime) -> Result<(), Fail> {
    long_records_so(&rt, rt.alloc(), &LONG_RECORDS)
}

/// A cell and so many others in each other, each of which is a record and a union.
fn cells(alloc: Global, others: usize) -> Result<String, Fail> {
    let front = repeated(
        alloc,
        "",
        r#"{"value":0,"next":{"LongList":"#,
        others,
        r#"{"value":0,"next":null}"#,
    )?;
    repeated(alloc, front.as_str(), "}}", others, "")
}

/// A cell and so many others, whose bytes are these, or that are refused so.
fn nested_so(
    rt: &impl Abort,
    alloc: Global,
    others: usize,
    pairs: usize,
    end: &str,
) -> Result<(), Fail> {
    let text = cells(alloc, others)?;
    let wanted = repeated(alloc, "", "0002", pairs, end)?;
    told_so(rt, alloc, &[(LIST, Json(text.as_str()), wanted.as_str())])
}

// 32 cells have 64 levels.
#[test]
fn refuses_the_65th_level_of_json(rt: HostRuntime) -> Result<(), Fail> {
    nested_so(&rt, rt.alloc(), 31, 31, "0000=")?;
    nested_so(&rt, rt.alloc(), 32, 0, "too deep")
}

/// An array of a zero and so many more, whose bytes are these, or that is refused so.
fn zeros_so(
    rt: &impl Abort,
    alloc: Global,
    more: usize,
    front: &str,
    zeros: usize,
    end: &str,
) -> Result<(), Fail> {
    let text = repeated(alloc, "[0", ",0", more, "]")?;
    let wanted = repeated(alloc, front, "00", zeros, end)?;
    told_so(rt, alloc, &[(LONGS, Json(text.as_str()), wanted.as_str())])
}

#[test]
fn refuses_more_nodes_of_json_than_a_datum_may_have(rt: HostRuntime) -> Result<(), Fail> {
    zeros_so(&rt, rt.alloc(), 999_998, "fe887a", 1_000_000, "=")?;
    zeros_so(&rt, rt.alloc(), 999_999, "", 0, "too many")
}
