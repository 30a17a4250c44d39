use json_span::{Format, JsonNo, Kind, read};
use std::test::Fail;

/// The answer as a number: 0 for a text that reads, 1 for `Cut`, 2 for `TooDeep`, 10 + n for `BadByte(n)`, 3 for `Want`.
fn answer(rt: &HostRuntime, text: &[u8]) -> usize {
    match read(rt.alloc(), text) {
        Ok(_) => 0,
        Err(JsonNo::Cut) => 1,
        Err(JsonNo::TooDeep) => 2,
        Err(JsonNo::Want) => 3,
        Err(JsonNo::BadByte(place)) => 10 + place,
    }
}

// Expected by hand from the productions of RFC 8259 and, for UTF-8, the table of RFC 3629.
static TEXTS: [(&[u8], usize); 66] = [
    // values
    (b"null", 0),
    (b"true", 0),
    (b"false", 0),
    (b" \t\r\n null \n", 0),
    (b"", 1),
    (b"  ", 1),
    (b"nul", 1),
    (b"nulx", 13),
    (b"nulll", 14),
    (b"True", 10),
    (b"tRue", 11),
    (b"falsy", 14),
    // numbers
    (b"0", 0),
    (b"-0", 0),
    (b"-", 1),
    (b"01", 11),
    (b"-01", 12),
    (b"+1", 10),
    (b"12.50", 0),
    (b"1.", 1),
    (b"1.x", 12),
    (b".5", 10),
    (b"1e5", 0),
    (b"1E+05", 0),
    (b"1e", 1),
    (b"1e+", 1),
    (b"1e+x", 13),
    (b"1.5.2", 13),
    (b"1-2", 11),
    (b"0x1", 11),
    // arrays
    (b"[]", 0),
    (b"[ ]", 0),
    (b"[1,2]", 0),
    (b"[1,", 1),
    (b"[1 2]", 13),
    (b"[,1]", 11),
    (b"[1,]", 13),
    (b"[1", 1),
    (b"]", 10),
    (b"[}", 11),
    (b"[] []", 13),
    // objects
    (b"{}", 0),
    (b"{\"a\":1}", 0),
    (b"{ \"a\" : 1 , \"a\" : 2 }", 0),
    (b"{\"a\"}", 14),
    (b"{\"a\":}", 15),
    (b"{\"a\":1,}", 17),
    (b"{a:1}", 11),
    (b"{1:1}", 11),
    (b"{\"a\":1 \"b\"", 17),
    (b"{\"a\"", 1),
    // strings
    (b"\"\"", 0),
    (b"\"a\\\"\\\\\\/\\b\\f\\n\\r\\t\"", 0),
    (b"\"a", 1),
    (b"\"\x01\"", 11),
    (b"\"\n\"", 11),
    (b"\"\\x\"", 12),
    (b"\"\\u12G4\"", 15),
    (b"\"\\ud83d\\ude00\"", 0),
    (b"\"\\ud83d\"", 17),
    (b"\"\\ud83dx\"", 17),
    (b"\"\\ud83d\\u0041\"", 19),
    (b"\"\\udc00\"", 14),
    (b"\"\xc3\xa9\"", 0),
    (b"\"\xc3\"", 12),
    (b"\"\xe0\x80\x80\"", 12),
];

#[test]
fn answers_each_text_by_the_grammar(rt: HostRuntime) {
    for (text, expected) in &TEXTS {
        assert_eq!(rt; answer(&rt, text), *expected);
    }
}

static BYTES: [(&[u8], usize); 12] = [
    (b"\"\x80\"", 11),
    (b"\"\xc1\x80\"", 11),
    (b"\"\xed\xa0\x80\"", 12),
    (b"\"\xed\x9f\xbf\"", 0),
    (b"\"\xf0\x8f\x80\x80\"", 12),
    (b"\"\xf0\x9f\x98\x80\"", 0),
    (b"\"\xf4\x90\x80\x80\"", 12),
    (b"\"\xf5\x80\x80\x80\"", 11),
    (b"\"\xe2\x82", 1),
    (b"\"\xe2\x82\"", 13),
    (b"\xff", 10),
    (b"\xef\xbb\xbf1", 10),
];

#[test]
fn refuses_bytes_that_are_no_utf8_at_their_place(rt: HostRuntime) {
    for (text, expected) in &BYTES {
        assert_eq!(rt; answer(&rt, text), *expected);
    }
}

#[test]
fn reads_127_levels_and_no_more(rt: HostRuntime) -> Result<(), Fail> {
    let mut text: Vec<u8> = Vec::new(rt.alloc());
    for _ in 0..127 {
        text.push(b'[')?;
    }
    assert_eq!(rt; answer(&rt, &text), 1);
    let mut whole: Vec<u8> = Vec::from_slice(rt.alloc(), &text)?;
    for _ in 0..127 {
        whole.push(b']')?;
    }
    assert_eq!(rt; answer(&rt, &whole), 0);
    text.push(b'{')?;
    assert_eq!(rt; answer(&rt, &text), 2);
    Ok(())
}

// The spelling without white space is that of the text, worked by hand.
static SHOWN: [(&str, &str); 5] = [
    ("{\"p\":1.50, \"a\":[ ]}", "{\"p\":1.50,\"a\":[]}"),
    (" [ 1 , 2.0e1 ,\n\"a b\" ] ", "[1,2.0e1,\"a b\"]"),
    ("\t{ } ", "{}"),
    ("\"\\u0041 \\n\"", "\"\\u0041 \\n\""),
    ("[[ ],{\"a\" :{\"b\": null}}]", "[[],{\"a\":{\"b\":null}}]"),
];

#[test]
fn shows_the_source_text_without_white_space(rt: HostRuntime) {
    for (text, shown) in &SHOWN {
        match read(rt.alloc(), text.as_bytes()) {
            Ok(tree) => assert_eq!(rt; tree.text_of(tree.root()), *shown),
            Err(_) => assert!(rt; false),
        }
    }
}

// Expected by hand from the escapes of RFC 8259, section 7.
static UNESCAPED: [(&str, &str); 5] = [
    ("\"plain\"", "plain"),
    ("\"\"", ""),
    ("\"\\\"\\\\\\/\\b\\f\\n\\r\\t\"", "\"\\/\u{8}\u{c}\n\r\t"),
    ("\"a\\u0041\\u00e9\\u20ACz\"", "aA\u{e9}\u{20ac}z"),
    ("\"\\uD83D\\ude00!\"", "\u{1f600}!"),
];

#[test]
fn unescapes_a_text(rt: HostRuntime) {
    for (text, shown) in &UNESCAPED {
        match read(rt.alloc(), text.as_bytes()) {
            Ok(tree) => match tree.kind(tree.root()) {
                Kind::Text => assert_eq!(rt; tree.string_of(tree.root()), *shown),
                _ => assert!(rt; false),
            },
            Err(_) => assert!(rt; false),
        }
    }
}

static INTEGERS: [(&str, Option<i128>); 8] = [
    ("0", Some(0)),
    ("-0", Some(0)),
    ("-12", Some(-12)),
    (
        "99999999999999999999999999999999999999",
        Some(99999999999999999999999999999999999999),
    ),
    (
        "-99999999999999999999999999999999999999",
        Some(-99999999999999999999999999999999999999),
    ),
    ("100000000000000000000000000000000000000", None),
    ("1.0", None),
    ("1e2", None),
];

#[test]
fn reads_integers_of_38_digits_and_no_others(rt: HostRuntime) {
    for (text, expected) in &INTEGERS {
        match read(rt.alloc(), text.as_bytes()) {
            Ok(tree) => match tree.kind(tree.root()) {
                Kind::Number => assert_eq!(rt; tree.int_of(tree.root()), *expected),
                _ => assert!(rt; false),
            },
            Err(_) => assert!(rt; false),
        }
    }
}

#[test]
fn keeps_repeated_members_and_their_names_in_order(rt: HostRuntime) {
    let Ok(tree) = read(rt.alloc(), b"{\"b\":1,\"\\u0061\":[2,3],\"b\":null}") else {
        assert!(rt; false);
        return;
    };
    let mut names = 0u32;
    if let Kind::Object = tree.kind(tree.root()) {
        for member in tree.members(tree.root()) {
            let expected = if names == 1 { "a" } else { "b" };
            assert_eq!(rt; member.name.as_str(), expected);
            names = names.wrapping_add(1);
        }
    }
    assert_eq!(rt; names, 3);
}

#[test]
fn counts_the_items_of_an_array(rt: HostRuntime) {
    let Ok(tree) = read(rt.alloc(), b"[null,[1],{}]") else {
        assert!(rt; false);
        return;
    };
    if let Kind::Array = tree.kind(tree.root()) {
        assert_eq!(rt; tree.items(tree.root()).len(), 3);
    }
    assert_eq!(rt; tree.kind(tree.root()), Kind::Array);
    assert_eq!(rt; Format::Json, Format::Json);
}

#[test]
fn finds_the_last_member_of_a_name(rt: HostRuntime) {
    let Ok(tree) = read(rt.alloc(), b"{\"a\":1,\"b\":\"x\\n\",\"\\u0061\":[2]}") else {
        assert!(rt; false);
        return;
    };
    if let Kind::Object = tree.kind(tree.root()) {
        assert_eq!(rt; tree.member(tree.root(), "c"), None);
        match tree.member(tree.root(), "b") {
            Some(text) => assert_eq!(rt; tree.as_text(text), Some("x\n")),
            None => assert!(rt; false),
        }
        match tree.member(tree.root(), "a") {
            Some(list) => assert_eq!(rt; tree.as_items(list).is_some(), true),
            None => assert!(rt; false),
        }
    }
    assert_eq!(rt; tree.as_text(tree.root()), None);
}
