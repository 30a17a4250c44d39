//! Vectors from the Kafka protocol guide, Protocol Buffers' encoding page and RFC 3720.
use std::test::Fail;
use wire_prim::{
    Cursor, PrimNo, crc32c, items_have_one_reading, put_bytes, put_count, put_int8, put_int16,
    put_int32, put_int64, put_nullable_bytes, put_nullable_count, put_nullable_string, put_string,
    put_varint, put_varlong, varints_have_one_reading,
};

/// RFC 3720, appendix B.4, and the check value of the CRC catalogue.
#[test]
fn sums_the_published_vectors(rt: HostRuntime) {
    let mut rising = [0u8; 32];
    let mut falling = [0u8; 32];
    for place in 0..32u8 {
        rising[place as usize] = place;
        falling[place as usize] = 31 - place;
    }
    assert_eq!(rt; crc32c(b"123456789"), 0xe306_9283);
    assert_eq!(rt; crc32c(&[0; 32]), 0x8a91_36aa);
    assert_eq!(rt; crc32c(&[0xff; 32]), 0x62a8_ab43);
    assert_eq!(rt; crc32c(&rising), 0x46dd_794e);
    assert_eq!(rt; crc32c(&falling), 0x113f_db5c);
    assert_eq!(rt; crc32c(b""), 0);
}

/// Bytes, and the integer or the refusal.
const VARINTS: [(&[u8], Result<i32, PrimNo>); 15] = [
    (&[0x00], Ok(0)),
    (&[0x01], Ok(-1)),
    (&[0x02], Ok(1)),
    (&[0x03], Ok(-2)),
    (&[0xd8, 0x04], Ok(300)),
    (&[0xfe, 0xff, 0xff, 0xff, 0x0f], Ok(2_147_483_647)),
    (&[0xff, 0xff, 0xff, 0xff, 0x0f], Ok(-2_147_483_648)),
    (&[0x80, 0x00], Ok(0)),
    (&[0x82, 0x80, 0x80, 0x80, 0x00], Ok(1)),
    (&[0xff, 0xff, 0xff, 0xff, 0xff, 0x01], Err(PrimNo::TooLong)),
    (&[0xff, 0xff, 0xff, 0xff, 0xff], Err(PrimNo::TooLong)),
    (&[0x80, 0x80, 0x80, 0x80, 0x10], Err(PrimNo::TooLong)),
    (&[0xff, 0xff, 0xff, 0xff], Err(PrimNo::Short)),
    (&[0x80], Err(PrimNo::Short)),
    (&[], Err(PrimNo::Short)),
];

#[test]
fn reads_varints_of_at_most_five_bytes(rt: HostRuntime) {
    for (bytes, wanted) in &VARINTS {
        let mut cursor = Cursor::new(bytes);
        assert_eq!(rt; cursor.varint(), *wanted);
        let place = if wanted.is_ok() { bytes.len() } else { 0 };
        assert_eq!(rt; cursor.place(), place);
    }
}

const VARLONGS: [(&[u8], Result<i64, PrimNo>); 7] = [
    (&[0xd8, 0x04], Ok(300)),
    (
        &[0xfe, 0xff, 0xff, 0xff, 0xff, 0xff, 0xff, 0xff, 0xff, 0x01],
        Ok(9_223_372_036_854_775_807),
    ),
    (
        &[0xff, 0xff, 0xff, 0xff, 0xff, 0xff, 0xff, 0xff, 0xff, 0x01],
        Ok(-9_223_372_036_854_775_808),
    ),
    (
        &[0x80, 0x80, 0x80, 0x80, 0x80, 0x80, 0x80, 0x80, 0x80, 0x00],
        Ok(0),
    ),
    (
        &[0x80, 0x80, 0x80, 0x80, 0x80, 0x80, 0x80, 0x80, 0x80, 0x02],
        Err(PrimNo::TooLong),
    ),
    (
        &[0x80, 0x80, 0x80, 0x80, 0x80, 0x80, 0x80, 0x80, 0x80, 0x80],
        Err(PrimNo::TooLong),
    ),
    (
        &[0x80, 0x80, 0x80, 0x80, 0x80, 0x80, 0x80, 0x80, 0x80],
        Err(PrimNo::Short),
    ),
];

#[test]
fn reads_varlongs_of_at_most_ten_bytes(rt: HostRuntime) {
    for (bytes, wanted) in &VARLONGS {
        let mut cursor = Cursor::new(bytes);
        assert_eq!(rt; cursor.varlong(), *wanted);
        let place = if wanted.is_ok() { bytes.len() } else { 0 };
        assert_eq!(rt; cursor.place(), place);
    }
}

const ITEMS: [u8; 51] = [
    0xfe, // int8 -2
    0xff, 0xfe, // int16 -2
    0x00, 0x00, 0x01, 0x2c, // int32 300
    0x80, 0, 0, 0, 0, 0, 0, 0, // int64, the least
    0, 3, b'o', 0xc3, 0xb6, // a string
    0xff, 0xff, // a null string
    0, 1, b'x', // a string where null may stand
    0, 0, 0, 2, 0, 255, // bytes
    0xff, 0xff, 0xff, 0xff, // null bytes
    0, 0, 0, 0, // no bytes where null may stand
    0, 0, 0, 7, // a count
    0xff, 0xff, 0xff, 0xff, // a null count
    0xd8, 0x04, // varint 300
    0xd7, 0x04, // varlong -300
];

#[test]
fn writes_each_item(rt: HostRuntime) -> Result<(), Fail> {
    let mut out = Vec::new(rt.alloc());
    let put = put_int8(&mut out, -2).is_ok()
        && put_int16(&mut out, -2).is_ok()
        && put_int32(&mut out, 300).is_ok()
        && put_int64(&mut out, -9_223_372_036_854_775_808).is_ok();
    assert!(rt; put);
    let put = put_string(&mut out, "o\u{f6}").is_ok()
        && put_nullable_string(&mut out, None).is_ok()
        && put_nullable_string(&mut out, Some("x")).is_ok();
    assert!(rt; put);
    let put = put_bytes(&mut out, &[0, 255]).is_ok()
        && put_nullable_bytes(&mut out, None).is_ok()
        && put_nullable_bytes(&mut out, Some(b"")).is_ok();
    assert!(rt; put);
    let put = put_count(&mut out, 7).is_ok()
        && put_nullable_count(&mut out, None).is_ok()
        && put_varint(&mut out, 300).is_ok()
        && put_varlong(&mut out, -300).is_ok();
    assert!(rt; put);
    assert_eq!(rt; out.as_slice(), ITEMS.as_slice());
    items_have_one_reading();
    varints_have_one_reading();
    Ok(())
}

#[test]
fn reads_each_item(rt: HostRuntime) -> Result<(), Fail> {
    let alloc = rt.alloc();
    let mut cursor = Cursor::new(&ITEMS);
    assert_eq!(rt; cursor.int8(), Ok(-2));
    assert_eq!(rt; cursor.int16(), Ok(-2));
    assert_eq!(rt; cursor.int32(), Ok(300));
    assert_eq!(rt; cursor.int64(), Ok(-9_223_372_036_854_775_808));
    let text = cursor.string(alloc).ok().ok_or("a string")?;
    assert_eq!(rt; text.as_str(), "o\u{f6}");
    let text = cursor.nullable_string(alloc).ok().ok_or("null")?;
    assert!(rt; text.is_none());
    let text = cursor.nullable_string(alloc).ok().ok_or("a string")?;
    assert_eq!(rt; text.ok_or("no null")?.as_str(), "x");
    let bytes = cursor.bytes(alloc).ok().ok_or("bytes")?;
    assert_eq!(rt; bytes.as_slice(), [0u8, 255].as_slice());
    let bytes = cursor.nullable_bytes(alloc).ok().ok_or("null")?;
    assert!(rt; bytes.is_none());
    let bytes = cursor.nullable_bytes(alloc).ok().ok_or("no bytes")?;
    assert_eq!(rt; bytes.ok_or("no null")?.len(), 0);
    assert_eq!(rt; cursor.count(), Ok(7));
    assert_eq!(rt; cursor.nullable_count(), Ok(None));
    assert_eq!(rt; cursor.varint(), Ok(300));
    assert_eq!(rt; cursor.varlong(), Ok(-300));
    assert_eq!(rt; cursor.place(), 51);
    assert_eq!(rt; cursor.left(), 0);
    Ok(())
}

#[test]
fn a_part_keeps_its_place(rt: HostRuntime) -> Result<(), Fail> {
    let mut cursor = Cursor::new(&[7, b'a', b'b', b'c', 8]);
    assert_eq!(rt; cursor.piece(1), Ok([7u8].as_slice()));
    let mut part = cursor.part(2).ok().ok_or("a part")?;
    assert_eq!(rt; part.text(2), Ok("ab"));
    assert_eq!(rt; part.place(), 3);
    assert_eq!(rt; part.int8(), Err(PrimNo::Short));
    assert_eq!(rt; cursor.copy().rest(), b"c\x08".as_slice());
    Ok(())
}

/// Bytes of a string, and why they don't read.
const STRINGS: [(&[u8], PrimNo); 5] = [
    (&[0], PrimNo::Short),
    (&[0, 2, b'a'], PrimNo::Short),
    (&[0, 2, 0xff], PrimNo::Short),
    (&[0xff, 0xfe, b'a'], PrimNo::Negative),
    (&[0, 1, 0xff], PrimNo::BadUtf8),
];

#[test]
fn a_refused_string_leaves_the_cursor(rt: HostRuntime) {
    for (bytes, wanted) in &STRINGS {
        let mut cursor = Cursor::new(bytes);
        assert_eq!(rt; cursor.string(rt.alloc()).err(), Some(*wanted));
        assert_eq!(rt; cursor.nullable_string(rt.alloc()).err(), Some(*wanted));
        assert_eq!(rt; cursor.place(), 0);
        assert_eq!(rt; cursor.left(), bytes.len());
    }
    let mut cursor = Cursor::new(&[0xff, 0xff]);
    assert_eq!(rt; cursor.string(rt.alloc()).err(), Some(PrimNo::Negative));
    let mut cursor = Cursor::new(&[0xff, 0xff, 0xff, 0xff]);
    assert_eq!(rt; cursor.bytes(rt.alloc()).err(), Some(PrimNo::Negative));
    assert_eq!(rt; cursor.count(), Err(PrimNo::Negative));
    let mut cursor = Cursor::new(&[0xff, 0xff, 0xff, 0xfe]);
    assert_eq!(rt;
        cursor.nullable_bytes(rt.alloc()).err(),
        Some(PrimNo::Negative)
    );
    assert_eq!(rt; cursor.nullable_count(), Err(PrimNo::Negative));
}
