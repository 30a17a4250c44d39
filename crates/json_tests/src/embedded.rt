use forms::{FormNo, Format, put_shown, to_stored};
use json_span::read;
use std::alloc::{AllocError, Global};
use std::str::from_utf8;
use std::test::Fail;

fn refused(alloc: Global, no: FormNo) -> Result<String, AllocError> {
    match no {
        FormNo::Base64 => String::from_str(alloc, "no base64"),
        FormNo::Json => String::from_str(alloc, "no JSON"),
        FormNo::Want => Err(AllocError),
    }
}

/// What a JSON text is stored as: `-` for nothing.
fn stored(alloc: Global, format: Format, text: &[u8]) -> Result<String, AllocError> {
    let Ok(tree) = read(alloc, text) else {
        return String::from_str(alloc, "unread");
    };
    match to_stored(alloc, format, &tree, tree.root()) {
        Ok(Some(bytes)) => match from_utf8(bytes.as_slice()) {
            Ok(text) => String::from_str(alloc, text),
            Err(_) => String::from_str(alloc, "bytes"),
        },
        Ok(None) => String::from_str(alloc, "-"),
        Err(no) => refused(alloc, no),
    }
}

// `Kafka` and its base64 are those of coreutils' `base64`.
static STORED: [(Format, &[u8], &str); 12] = [
    (
        Format::Json,
        b"{\"p\":1.50, \"a\":[ ]}",
        "{\"p\":1.50,\"a\":[]}",
    ),
    (Format::Json, b" \"\\u0041 b\" ", "\"\\u0041 b\""),
    (Format::Json, b"-0", "-0"),
    (Format::Json, b"false", "false"),
    (Format::Json, b"null", "-"),
    (Format::Binary, b"\"S2Fma2E=\"", "Kafka"),
    (Format::Binary, b"\"\\u00532Fma2E\\u003d\"", "Kafka"),
    (Format::Binary, b"\"\"", ""),
    (Format::Binary, b"null", "-"),
    (Format::Binary, b"\"S2Fma2E\"", "no base64"),
    (Format::Binary, b"5", "no base64"),
    (Format::Binary, b"[\"S2Fma2E=\"]", "no base64"),
];

#[test]
fn values_are_stored_as_their_format_has_them(rt: HostRuntime) -> Result<(), Fail> {
    for (place, (format, text, want)) in STORED.iter().enumerate() {
        let got = stored(rt.alloc(), *format, text)?;
        assert_eq!(rt; got.as_str(), *want, "case {place}");
    }
    Ok(())
}

fn shown(alloc: Global, format: Format, bytes: Option<&[u8]>) -> Result<String, AllocError> {
    let mut text = String::new(alloc);
    match put_shown(alloc, &mut text, format, bytes) {
        Ok(()) => Ok(text),
        Err(no) => refused(alloc, no),
    }
}

static SHOWN: [(Format, Option<&[u8]>, &str); 9] = [
    (Format::Json, Some(b"{\"a\": 1}"), "{\"a\":1}"),
    (Format::Json, Some(b"[1,"), "no JSON"),
    (Format::Json, Some(b""), "no JSON"),
    (Format::Json, Some(b"\"\xff\""), "no JSON"),
    (Format::Json, None, "null"),
    (Format::Binary, Some(b"Kafka"), "\"S2Fma2E=\""),
    (Format::Binary, Some(b"\xfb\xff"), "\"+/8=\""),
    (Format::Binary, Some(b""), "\"\""),
    (Format::Binary, None, "null"),
];

#[test]
fn stored_bytes_are_shown_as_their_format_has_them(rt: HostRuntime) -> Result<(), Fail> {
    for (place, (format, bytes, want)) in SHOWN.iter().enumerate() {
        let got = shown(rt.alloc(), *format, *bytes)?;
        assert_eq!(rt; got.as_str(), *want, "case {place}");
    }
    Ok(())
}
