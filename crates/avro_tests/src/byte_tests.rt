//! Bytes that are read and data that are made, by hand from the Apache Avro specification, "Binary Encoding".
use crate::schemas::*;
use crate::told::Given::{Branch, Bytes, Cells, Fields, Items, Keys, Leaf, Nulls, Shown};
use crate::told::{Given, Leaf as Value, told_so};
use avro_codec::no_spelling_begins_another;
use std::alloc::Global;
use std::process::Abort;
use std::test::Fail;

/// Bytes, and the plain spelling of the same datum: a block with its size, several blocks, longer varints.
const SPELLINGS: [(&str, Given<'_>, &str); 8] = [
    (NULLS, Bytes(&[0xfe, 0x88, 0x7a, 0]), "plain"), // 999,999 nulls
    (INTS, Bytes(&[3, 4, 2, 4, 0]), "04020400"),
    (INTS, Bytes(&[2, 2, 2, 4, 0]), "04020400"),
    (INTS, Bytes(&[2, 2, 1, 2, 4, 0]), "04020400"),
    (INTS, Bytes(&[0x80, 0x00]), "00"),
    (INT, Bytes(&[0x82, 0x80, 0x00]), "02"),
    (MAP, Bytes(&[1, 6, 2, b'a', 2, 0]), "0202610200"),
    // A map that has a key twice has bytes and no JSON.
    (MAP, Shown(&[4, 2, b'a', 2, 2, b'a', 4, 0]), "mismatch at 0"),
];

/// Bytes, and the refusal at the first place at which reading stops.
const REFUSED: [(&str, Given<'_>, &str); 28] = [
    (NULL, Bytes(&[0]), "rest"),
    (BOOLEAN, Bytes(&[]), "short"),
    (BOOLEAN, Bytes(&[2]), "mismatch at 0"),
    (INT, Bytes(&[]), "short"),
    (INT, Bytes(&[0x80]), "short"),
    (INT, Bytes(b"\x80\x80\x80\x80\x80\x00"), "range at 0"),
    (INT, Bytes(b"\xff\xff\xff\xff\x1f"), "range at 0"),
    (INT, Bytes(&[2, 2]), "rest"),
    (BYTES, Bytes(&[1]), "mismatch at 0"),
    (BYTES, Bytes(&[4, 0]), "short"),
    (STRING, Bytes(&[2, 0xff]), "not UTF-8"),
    (TWO, Bytes(&[0]), "short"),
    (LETTERS, Bytes(&[4]), "mismatch at 0"),
    (LETTERS, Bytes(&[1]), "mismatch at 0"),
    (CHOICE, Bytes(&[4]), "mismatch at 0"),
    (CHOICE, Bytes(&[1]), "mismatch at 0"),
    (CHOICE, Bytes(&[2, 1]), "mismatch at 1"),
    (BEHIND, Bytes(&[2, b'x']), "short"),
    (BEHIND, Bytes(&[1, 0]), "mismatch at 1"),
    (TREE, Bytes(&[2, 4]), "mismatch at 2"),
    (INTS, Bytes(&[2, 2]), "short"),
    (INTS, Bytes(&[3, 6, 2, 4, 0]), "mismatch at 0"), // the block has 2 bytes
    (INTS, Bytes(&[1, 1, 2, 0]), "mismatch at 0"), // a size of -1
    (INTS, Bytes(&[4, 2, 0x80]), "short"),
    (MAP, Bytes(&[2, 1]), "mismatch at 0"), // a key's length of -1
    (MAP, Bytes(&[2, 2, 0xff, 2, 0]), "not UTF-8"),
    (MAP, Bytes(&[2, 0, 0x80]), "short"),
    (NULLS, Bytes(&[0x80, 0x89, 0x7a, 0]), "too many"), // 1,000,000 nulls
];

/// Data that aren't of the schema or are too many or too deep, refused as bytes and as JSON.
const MADE: [(&str, Given<'_>, &str); 15] = [
    (INT, Leaf(Value::Long), "mismatch at 0, mismatch at 0"),
    (LONG, Leaf(Value::Int), "mismatch at 0, mismatch at 0"),
    (BYTES, Leaf(Value::X), "mismatch at 0, mismatch at 0"),
    (TWO, Leaf(Value::Fixed), "mismatch at 0, mismatch at 0"),
    (
        LETTERS,
        Leaf(Value::Symbol(2)),
        "mismatch at 0, mismatch at 0",
    ),
    (
        CHOICE,
        Branch(2, Value::Null),
        "mismatch at 0, mismatch at 0",
    ),
    (
        CHOICE,
        Branch(1, Value::Null),
        "mismatch at 1, mismatch at 1",
    ),
    (CHOICE, Branch(0, Value::X), "mismatch at 1, mismatch at 1"),
    (BEHIND, Fields(&[Value::X]), "mismatch at 0, mismatch at 0"),
    (
        BEHIND,
        Fields(&[Value::X, Value::Null]),
        "mismatch at 2, mismatch at 2",
    ),
    (
        INTS,
        Items(&[Value::Int, Value::Null, Value::Null]),
        "mismatch at 2, mismatch at 2",
    ),
    (MAP, Keys(&["a"]), "mismatch at 1, mismatch at 1"),
    (
        COUNTS,
        Keys(&["k", "k"]),
        "0704026b02026b0200, mismatch at 0",
    ),
    (CELL, Cells(33), "too deep, too deep"),
    (NULLS, Nulls(1_000_000), "too many, too many"),
];

#[test]
fn other_spellings_read_as_the_same_data(rt: HostRuntime) -> Result<(), Fail> {
    law();
    told_so(&rt, rt.alloc(), &SPELLINGS)
}

#[test]
fn refuses_bytes_at_the_first_place(rt: HostRuntime) -> Result<(), Fail> {
    told_so(&rt, rt.alloc(), &REFUSED)
}

#[test]
fn refuses_data_that_are_not_of_the_schema(rt: HostRuntime) -> Result<(), Fail> {
    told_so(&rt, rt.alloc(), &MADE)
}

fn law() {
    no_spelling_begins_another();
}

/// The bytes of so many nested cells, each of which is a record and a union, read so.
fn nested_so(rt: &impl Abort, alloc: Global, count: usize, wanted: &str) -> Result<(), Fail> {
    let mut bytes = Vec::new(alloc);
    for _ in 1..count {
        bytes.extend_from_slice(&[0, 2])?;
    }
    bytes.extend_from_slice(&[0, 0])?;
    told_so(rt, alloc, &[(TREE, Bytes(bytes.as_slice()), wanted)])
}

// 32 cells have 64 levels.
#[test]
fn refuses_the_65th_level(rt: HostRuntime) -> Result<(), Fail> {
    nested_so(&rt, rt.alloc(), 32, "plain")?;
    nested_so(&rt, rt.alloc(), 33, "too deep")
}
