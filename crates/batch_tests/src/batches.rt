//! Vectors made by hand from the Kafka documentation's "Message Format".
use broker_link::{NewRecord, Stored};
use gate_io::Items;
use record_batch::{
    BatchFault, FirstBatch, first_batch, offsets_of_a_batch_rise, one_batch, read_batches,
    write_batch,
};
use std::alloc::{AllocError, Global};
use std::test::Fail;
use wire_prim::crc32c;

/// A row as it is wanted: offset, key and value.
type Wanted = (i64, Option<&'static [u8]>, Option<&'static [u8]>);

/// A label, the base offset, the count, the records' bytes, and the rows or the fault's place.
type Case = (
    &'static str,
    i64,
    i32,
    &'static [u8],
    Result<&'static [Wanted], usize>,
);

const CASES: [Case; 36] = [
    (
        "a null key",
        0,
        1,
        &[
            0x16, 0x00, 0x00, 0x00, 0x01, 0x0a, 0x4b, 0x61, 0x66, 0x6b, 0x61, 0x00,
        ],
        Ok(&[(0, None, Some(b"Kafka"))]),
    ),
    (
        "an empty value",
        0,
        1,
        &[0x0e, 0x00, 0x00, 0x00, 0x02, 0x6b, 0x00, 0x00],
        Ok(&[(0, Some(b"k"), Some(b""))]),
    ),
    (
        "a null value",
        0,
        1,
        &[0x0e, 0x00, 0x00, 0x00, 0x02, 0x6b, 0x01, 0x00],
        Ok(&[(0, Some(b"k"), None)]),
    ),
    (
        "an empty key and a null value",
        0,
        1,
        &[0x0c, 0x00, 0x00, 0x00, 0x00, 0x01, 0x00],
        Ok(&[(0, Some(b""), None)]),
    ),
    (
        "a header with a value",
        0,
        1,
        &[
            0x20, 0x00, 0x00, 0x00, 0x01, 0x0a, 0x4b, 0x61, 0x66, 0x6b, 0x61, 0x02, 0x02, 0x68,
            0x04, 0x78, 0x79,
        ],
        Ok(&[(0, None, Some(b"Kafka"))]),
    ),
    (
        "a header without a name and with a null value",
        0,
        1,
        &[
            0x1a, 0x00, 0x00, 0x00, 0x01, 0x0a, 0x4b, 0x61, 0x66, 0x6b, 0x61, 0x02, 0x00, 0x01,
        ],
        Ok(&[(0, None, Some(b"Kafka"))]),
    ),
    (
        "two headers",
        0,
        1,
        &[
            0x24, 0x00, 0x00, 0x00, 0x01, 0x0a, 0x4b, 0x61, 0x66, 0x6b, 0x61, 0x04, 0x02, 0x68,
            0x01, 0x04, 0xc3, 0xb6, 0x00,
        ],
        Ok(&[(0, None, Some(b"Kafka"))]),
    ),
    (
        "two records",
        0,
        2,
        &[
            0x0e, 0x00, 0x00, 0x00, 0x01, 0x02, 0x61, 0x00, 0x0e, 0x00, 0x00, 0x02, 0x01, 0x02,
            0x62, 0x00,
        ],
        Ok(&[(0, None, Some(b"a")), (1, None, Some(b"b"))]),
    ),
    (
        "a gap between offsets",
        0,
        2,
        &[
            0x0e, 0x00, 0x00, 0x00, 0x01, 0x02, 0x61, 0x00, 0x0e, 0x00, 0x00, 0x0a, 0x01, 0x02,
            0x62, 0x00,
        ],
        Ok(&[(0, None, Some(b"a")), (5, None, Some(b"b"))]),
    ),
    (
        "a base offset",
        7,
        2,
        &[
            0x0e, 0x00, 0x00, 0x00, 0x01, 0x02, 0x61, 0x00, 0x0e, 0x00, 0x00, 0x02, 0x01, 0x02,
            0x62, 0x00,
        ],
        Ok(&[(7, None, Some(b"a")), (8, None, Some(b"b"))]),
    ),
    (
        "the largest offset",
        9223372036854775806,
        1,
        &[0x0e, 0x00, 0x00, 0x00, 0x01, 0x02, 0x61, 0x00],
        Ok(&[(9223372036854775806, None, Some(b"a"))]),
    ),
    (
        "a base offset below 0",
        -1,
        1,
        &[0x0e, 0x00, 0x00, 0x02, 0x01, 0x02, 0x61, 0x00],
        Ok(&[(0, None, Some(b"a"))]),
    ),
    (
        "a timestamp of ten bytes",
        0,
        1,
        &[
            0x20, 0x00, 0xff, 0xff, 0xff, 0xff, 0xff, 0xff, 0xff, 0xff, 0xff, 0x01, 0x00, 0x01,
            0x02, 0x61, 0x00,
        ],
        Ok(&[(0, None, Some(b"a"))]),
    ),
    (
        "longer varints than needed",
        0,
        1,
        &[
            0xba, 0x80, 0x00, 0x00, 0x80, 0x80, 0x80, 0x80, 0x80, 0x80, 0x80, 0x80, 0x80, 0x00,
            0x80, 0x80, 0x80, 0x80, 0x00, 0x82, 0x80, 0x80, 0x00, 0x6b, 0x82, 0x00, 0x76, 0x80,
            0x80, 0x80, 0x80, 0x00,
        ],
        Ok(&[(0, Some(b"k"), Some(b"v"))]),
    ),
    ("no record", 0, 0, &[], Ok(&[])),
    (
        "an offset twice",
        0,
        2,
        &[
            0x16, 0x00, 0x00, 0x00, 0x01, 0x0a, 0x4b, 0x61, 0x66, 0x6b, 0x61, 0x00, 0x16, 0x00,
            0x00, 0x00, 0x01, 0x0a, 0x4b, 0x61, 0x66, 0x6b, 0x61, 0x00,
        ],
        Err(76),
    ),
    (
        "an offset below 0",
        0,
        1,
        &[
            0x16, 0x00, 0x00, 0x01, 0x01, 0x0a, 0x4b, 0x61, 0x66, 0x6b, 0x61, 0x00,
        ],
        Err(64),
    ),
    (
        "an offset of 2^63 - 1",
        9223372036854775807,
        1,
        &[
            0x16, 0x00, 0x00, 0x00, 0x01, 0x0a, 0x4b, 0x61, 0x66, 0x6b, 0x61, 0x00,
        ],
        Err(64),
    ),
    (
        "an offset past 2^63",
        9223372036854775807,
        1,
        &[
            0x16, 0x00, 0x00, 0x02, 0x01, 0x0a, 0x4b, 0x61, 0x66, 0x6b, 0x61, 0x00,
        ],
        Err(64),
    ),
    (
        "a key length below -1",
        0,
        1,
        &[0x0c, 0x00, 0x00, 0x00, 0x03, 0x01, 0x00],
        Err(65),
    ),
    (
        "a key past the record's end",
        0,
        1,
        &[0x0c, 0x00, 0x00, 0x00, 0x0a, 0x61, 0x62],
        Err(66),
    ),
    (
        "a value length below -1",
        0,
        1,
        &[0x0c, 0x00, 0x00, 0x00, 0x01, 0x03, 0x00],
        Err(66),
    ),
    (
        "a value past the record's end",
        0,
        1,
        &[0x0e, 0x00, 0x00, 0x00, 0x01, 0x0a, 0x61, 0x62],
        Err(67),
    ),
    (
        "a record past the batch's end",
        0,
        1,
        &[0x20, 0x00, 0x00, 0x00, 0x01, 0x0a],
        Err(61),
    ),
    ("a record length below 0", 0, 1, &[0x01], Err(61)),
    (
        "a record length of more than five bytes",
        0,
        1,
        &[0xff, 0xff, 0xff, 0xff, 0xff, 0x01],
        Err(61),
    ),
    ("a record without attributes", 0, 1, &[0x00], Err(62)),
    (
        "a record that ends before its offset",
        0,
        1,
        &[0x04, 0x00, 0x00],
        Err(64),
    ),
    (
        "a byte left over in a record",
        0,
        1,
        &[
            0x18, 0x00, 0x00, 0x00, 0x01, 0x0a, 0x4b, 0x61, 0x66, 0x6b, 0x61, 0x00, 0x07,
        ],
        Err(73),
    ),
    (
        "a byte left over behind the last record",
        0,
        1,
        &[
            0x16, 0x00, 0x00, 0x00, 0x01, 0x0a, 0x4b, 0x61, 0x66, 0x6b, 0x61, 0x00, 0x07,
        ],
        Err(73),
    ),
    (
        "fewer records than the count",
        0,
        2,
        &[
            0x16, 0x00, 0x00, 0x00, 0x01, 0x0a, 0x4b, 0x61, 0x66, 0x6b, 0x61, 0x00,
        ],
        Err(73),
    ),
    (
        "a count below 0",
        0,
        -1,
        &[
            0x16, 0x00, 0x00, 0x00, 0x01, 0x0a, 0x4b, 0x61, 0x66, 0x6b, 0x61, 0x00,
        ],
        Err(57),
    ),
    (
        "a header count below 0",
        0,
        1,
        &[
            0x16, 0x00, 0x00, 0x00, 0x01, 0x0a, 0x4b, 0x61, 0x66, 0x6b, 0x61, 0x01,
        ],
        Err(72),
    ),
    (
        "a header name that is not UTF-8",
        0,
        1,
        &[
            0x1c, 0x00, 0x00, 0x00, 0x01, 0x0a, 0x4b, 0x61, 0x66, 0x6b, 0x61, 0x02, 0x02, 0xff,
            0x01,
        ],
        Err(74),
    ),
    (
        "a header name length of -1",
        0,
        1,
        &[
            0x18, 0x00, 0x00, 0x00, 0x01, 0x0a, 0x4b, 0x61, 0x66, 0x6b, 0x61, 0x02, 0x01,
        ],
        Err(73),
    ),
    (
        "a header value length of -2",
        0,
        1,
        &[
            0x1c, 0x00, 0x00, 0x00, 0x01, 0x0a, 0x4b, 0x61, 0x66, 0x6b, 0x61, 0x02, 0x02, 0x68,
            0x03,
        ],
        Err(75),
    ),
];

/// The batch of one record with the value `Kafka`.
const KAFKA: [u8; 73] = [
    0, 0, 0, 0, 0, 0, 0, 0, // base offset
    0, 0, 0, 61, // length
    0xff, 0xff, 0xff, 0xff, // the leader's epoch
    2, // magic
    0xfe, 0x33, 0x29, 0x3a, // checksum
    0, 0, // attributes
    0, 0, 0, 0, // last offset delta
    0, 0, 0, 0, 0, 0, 0, 0, // base timestamp
    0, 0, 0, 0, 0, 0, 0, 0, // largest timestamp
    0xff, 0xff, 0xff, 0xff, 0xff, 0xff, 0xff, 0xff, // producer id
    0xff, 0xff, // producer epoch
    0xff, 0xff, 0xff, 0xff, // sequence
    0, 0, 0, 1, // count
    0x16, 0, 0, 0, 0x01, 0x0a, b'K', b'a', b'f', b'k', b'a', 0, // record
];

/// A batch of format 2 around the bytes of records.
fn batch(
    alloc: Global,
    base: i64,
    attributes: i16,
    count: i32,
    records: &[u8],
) -> Result<Vec<u8>, AllocError> {
    let mut summed = Vec::new(alloc);
    summed.extend_from_slice(&attributes.to_be_bytes())?;
    summed.extend_from_slice(&KAFKA[23..57])?;
    summed.extend_from_slice(&count.to_be_bytes())?;
    summed.extend_from_slice(records)?;
    let size = summed.len().wrapping_add(9) as u64 % 65_536;
    let mut out = Vec::new(alloc);
    out.extend_from_slice(&base.to_be_bytes())?;
    out.extend_from_slice(&(size as u32).to_be_bytes())?;
    out.extend_from_slice(&KAFKA[12..17])?;
    out.extend_from_slice(&crc32c(summed.as_slice()).to_be_bytes())?;
    out.extend_from_slice(summed.as_slice())?;
    Ok(out)
}

fn is_piece(piece: &Option<Items<u8>>, wanted: Option<&[u8]>) -> bool {
    match (piece, wanted) {
        (Some(piece), Some(wanted)) => piece.as_slice() == wanted,
        (None, None) => true,
        _ => false,
    }
}

fn are_rows(rows: &[Stored], wanted: &[Wanted]) -> bool {
    if rows.len() != wanted.len() {
        return false;
    }
    for (row, wanted) in rows.iter().zip(wanted) {
        let same = row.offset == wanted.0
            && is_piece(&row.key, wanted.1)
            && is_piece(&row.value, wanted.2);
        if !same {
            return false;
        }
    }
    true
}

fn answers(alloc: Global, bytes: &[u8], from: i64, wanted: Result<&[Wanted], BatchFault>) -> bool {
    match (read_batches(alloc, bytes, from), wanted) {
        (Ok(rows), Ok(wanted)) => are_rows(rows.as_slice(), wanted),
        (Err(fault), Err(wanted)) => fault == wanted,
        _ => false,
    }
}

// Whether the rows stand at the base offset, the next one, and so on.
fn follow(base: i64, rows: &[Wanted]) -> bool {
    for (delta, row) in rows.iter().enumerate() {
        if row.0 != base.wrapping_add(delta as i64) {
            return false;
        }
    }
    true
}

// Whether bytes that are one batch are judged as its rows or its fault say.
fn is_judged(bytes: &[u8], base: i64, wanted: Result<&[Wanted], BatchFault>) -> bool {
    let rows = match wanted {
        Ok(rows) => rows,
        Err(fault) => return first_batch(bytes) == Err(fault) && one_batch(bytes).is_none(),
    };
    let Ok(count) = u32::try_from(rows.len()) else {
        return false;
    };
    let first = FirstBatch {
        base,
        size: bytes.len(),
        count,
        contiguous: follow(base, rows),
    };
    let one = if first.contiguous && first.count > 0 {
        Some(first.count)
    } else {
        None
    };
    first_batch(bytes) == Ok(Some(first)) && one_batch(bytes) == one
}

// The label of the first case that is answered otherwise.
fn first_wrong(alloc: Global, cases: &[Case]) -> Result<Option<&'static str>, AllocError> {
    for (label, base, count, records, wanted) in cases {
        let bytes = batch(alloc, *base, 0, *count, records)?;
        let wanted = match wanted {
            Ok(rows) => Ok(*rows),
            Err(place) => Err(BatchFault::BadRecord(*place)),
        };
        let bytes = bytes.as_slice();
        if !answers(alloc, bytes, 0, wanted) || !is_judged(bytes, *base, wanted) {
            return Ok(Some(*label));
        }
    }
    Ok(None)
}

#[test]
fn reads_records_as_the_format_says(rt: HostRuntime) -> Result<(), Fail> {
    let wrong = first_wrong(rt.alloc(), CASES.as_slice())?;
    assert_eq!(rt; wrong, None);
    Ok(())
}

const ONE: [Wanted; 1] = [(0, None, Some(b"Kafka"))];

const TWO: [Wanted; 2] = [(0, None, Some(b"Kafka")), (0, None, Some(b"Kafka"))];

#[test]
fn reads_batches_in_turn_up_to_a_cut_one(rt: HostRuntime) -> Result<(), Fail> {
    let alloc = rt.alloc();
    let mut bytes = Vec::new(alloc);
    bytes.extend_from_slice(&KAFKA)?;
    bytes.extend_from_slice(&KAFKA)?;
    assert_eq!(rt; bytes.len(), 146);
    let bytes = bytes.as_slice();
    assert!(rt; answers(alloc, bytes, 0, Ok(&TWO)));
    for size in 73..146usize {
        assert!(rt;
            answers(alloc, &bytes[..size], 0, Ok(&ONE)),
            "cut at {size}"
        );
    }
    assert!(rt; answers(alloc, &KAFKA[..72], 0, Ok(&[])));
    assert!(rt; answers(alloc, &KAFKA, 1, Ok(&[])));
    assert!(rt; answers(alloc, b"", 0, Ok(&[])));
    Ok(())
}

#[test]
fn bytes_behind_a_batch_are_no_part_of_it(rt: HostRuntime) -> Result<(), Fail> {
    let mut bytes = [0u8; 146];
    bytes[..73].copy_from_slice(&KAFKA);
    bytes[73..].copy_from_slice(&KAFKA);
    let first = FirstBatch {
        base: 0,
        size: 73,
        count: 1,
        contiguous: true,
    };
    assert!(rt; one_batch(&KAFKA) == Some(1));
    for size in 74..147usize {
        assert!(rt;
            first_batch(&bytes[..size]) == Ok(Some(first)),
            "{size} bytes"
        );
        assert!(rt; one_batch(&bytes[..size]).is_none(), "{size} bytes");
    }
    for size in 0..73usize {
        assert!(rt; first_batch(&KAFKA[..size]) == Ok(None), "cut at {size}");
        assert!(rt; one_batch(&KAFKA[..size]).is_none(), "cut at {size}");
    }
    Ok(())
}

/// The byte of the second of two batches that is changed, its new value, and the fault.
const CHANGES: [(usize, u8, BatchFault); 6] = [
    (84, 48, BatchFault::BadRecord(81)),
    (81, 0xff, BatchFault::BadRecord(81)),
    (89, 1, BatchFault::BadMagic(1)),
    (
        93,
        0x3b,
        BatchFault::BadCrc {
            kept: 0xfe33_293b,
            computed: 0xfe33_293a,
        },
    ),
    (89, 0xff, BatchFault::BadMagic(-1)),
    (
        90,
        0xff,
        BatchFault::BadCrc {
            kept: 0xff33_293a,
            computed: 0xfe33_293a,
        },
    ),
];

#[test]
fn the_first_batch_at_fault_decides(rt: HostRuntime) -> Result<(), Fail> {
    let alloc = rt.alloc();
    for (place, value, fault) in &CHANGES {
        let mut bytes = [0u8; 146];
        bytes[..73].copy_from_slice(&KAFKA);
        bytes[73..].copy_from_slice(&KAFKA);
        if *place < 146 {
            bytes[*place] = *value;
        }
        assert!(rt;
            answers(alloc, &bytes, 0, Err(*fault)),
            "a change at {place}"
        );
    }
    // A length that is too small is a fault where the batch is cut, too.
    let cut = [0, 0, 0, 0, 0, 0, 0, 0, 0, 0, 0, 48];
    assert!(rt; answers(alloc, &cut, 0, Err(BatchFault::BadRecord(8))));
    assert!(rt; answers(alloc, &cut[..11], 0, Ok(&[])));
    Ok(())
}

/// Attributes, and what a batch of one record with them gives.
const ATTRIBUTES: [(i16, Result<&[Wanted], BatchFault>); 7] = [
    (0, Ok(&ONE)),
    (8, Ok(&ONE)),
    (1, Err(BatchFault::Codec(1))),
    (7, Err(BatchFault::Codec(7))),
    (16, Err(BatchFault::Control)),
    (32, Err(BatchFault::Control)),
    (20, Err(BatchFault::Codec(4))),
];

#[test]
fn tells_codecs_and_control_batches_by_the_attributes(rt: HostRuntime) -> Result<(), Fail> {
    let alloc = rt.alloc();
    for (attributes, wanted) in &ATTRIBUTES {
        let bytes = batch(alloc, 0, *attributes, 1, &KAFKA[61..])?;
        assert!(rt;
            answers(alloc, bytes.as_slice(), 0, *wanted),
            "attributes {attributes}"
        );
    }
    Ok(())
}

#[test]
fn writes_a_batch_of_one_record(rt: HostRuntime) -> Result<(), Fail> {
    let alloc = rt.alloc();
    let rows = [NewRecord {
        key: None,
        value: Some(Items::from_slice(alloc, b"Kafka")?),
    }];
    let bytes = write_batch(alloc, &rows, 0).ok().ok_or("no batch")?;
    assert_eq!(rt; bytes.as_slice(), KAFKA.as_slice());
    offsets_of_a_batch_rise();
    Ok(())
}
