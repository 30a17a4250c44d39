ghost use Rattle.std.specs.Prelude.{◌≡◌, ◌≤◌, ◌+◌, ◌++◌, ◌∷◌, [], ℕ, All, map, length, List, IsTrue, min, codes, IfOk, OnOk, true, false, ◌||◌};
ghost use Rattle.std.specs.List.{list_all, list_any};
ghost use Rattle.std.specs.Str.Parse.{digits_value};
ghost use Rattle.std.specs.Str.{bytes_eq};
ghost use Rattle.std.specs.Char.{to_ascii_lowercase, is_ascii_digit};
ghost use Rattle.httparse.specs.Spans.{header_bytes, IsHeaderWithin, IsWithin};
ghost use Rattle.http_head.specs.Fields.{values_of, is_absent, size_in, size_of, by_length, by_coding, framing_of, FramingFits, has_body, frame_of, is_encoding, is_hosted, is_interim, asks_interim, asks_close, joined, max_body};
ghost use Rattle.http_head.specs.Parts.{FoundIs, JoinedIs, found_absent, found_single, more_found};
ghost use Rattle.http_head.specs.Member.{has_member};

use crate::asked::is_served;
use crate::member::has_member;
use gate_io::Items;
use httparse::spans::{HeaderSpan, Span};
use std::alloc::{AllocError, Global};

const MAX_BODY: usize = 8_388_608;

const MAX_FIELDS: usize = 64;

/// How a body is framed: by its length, or as chunks (RFC 9112, section 6).
#[derive(Clone, Copy)]
pub enum Framing {
    Length(usize),
    Chunks,
}

impl Framing {
    /// The body isn't empty, or may not be: its length is above 0, or it comes in chunks.
    pub(crate) fn has_body(self) -> bool
        ensures { result ≡ has_body self }
    {
        match self {
            Framing::Length(size) => size > 0,
            Framing::Chunks => true,
        }
    }
}

/// The fields of one name.
#[derive(Clone, Copy)]
pub(crate) enum Found {
    Absent,
    One(Span),
    Several,
}

fn is_named(name: &[u8], other: &[u8]) -> bool
    ensures { result ≡ bytes_eq (map to_ascii_lowercase name.now) (map to_ascii_lowercase other.now) }
{
    name.eq_ignore_ascii_case(other)
}

impl Found {
    fn is_absent(self) -> bool
        ensures { result ≡ found_absent self }
    {
        matches!(self, Found::Absent)
    }

    fn is_single(self) -> bool
        ensures { result ≡ found_single self }
    {
        matches!(self, Found::One(_))
    }

    /// One more field of the name.
    fn more(self, span: Span) -> Found
        ensures { result ≡ more_found self span }
    {
        match self {
            Found::Absent => Found::One(span),
            Found::One(_) | Found::Several => Found::Several,
        }
    }
}

/// What is found with one more header.
fn noted(found: Found, buf: &[u8], header: HeaderSpan, name: &[u8]) -> Found
    requires { IsHeaderWithin (length buf.now) header }
    ensures { (values : List (List ℕ)) → FoundIs buf.now values found
        → FoundIs buf.now (values ++ values_of name.now (header_bytes buf.now header ∷ [])) result }
{
    if is_named(header.name.of(buf), name) {
        found.more(header.value)
    } else {
        found
    }
}

fn find_values(buf: &[u8], headers: &[HeaderSpan], name: &[u8]) -> Found
    requires { All (IsHeaderWithin (length buf.now)) headers.now }
    ensures { FoundIs buf.now (values_of name.now (map (header_bytes buf.now) headers.now)) result }
{
    let mut found = Found::Absent;
    for header in headers {
        found = noted(found, buf, *header, name);
    }
    found
}

/// The number that digits write, or one past the largest size where it is larger.
fn value_of(digits: &[u8]) -> usize
    requires { IsTrue (list_all is_ascii_digit digits.now) }
    ensures { result ≡ min (digits_value 10 digits.now) (max_body + 1) }
{
    let mut size = 0;
    for b in digits {
        size = (size * 10 + (*b).saturating_sub(48) as usize).min(MAX_BODY + 1);
    }
    size
}

fn is_digits(text: &[u8]) -> bool
    ensures { result ≡ list_all is_ascii_digit text.now }
{
    text.iter().all(|b| b.is_ascii_digit())
}

/// The size that digits tell, or its refusal.
fn decimal_size(digits: &[u8]) -> Result<usize, u32>
    ensures value { result ≡ size_in digits.now }
    ensures bound { IfOk result (λ n. n ≤ max_body) }
{
    if digits.is_empty() || !is_digits(digits) {
        return Err(400);
    }
    let size = value_of(digits);
    if size <= MAX_BODY { Ok(size) } else { Err(413) }
}

fn lacks(buf: &[u8], headers: &[HeaderSpan], name: &[u8]) -> bool
    requires { All (IsHeaderWithin (length buf.now)) headers.now }
    ensures { result ≡ is_absent (values_of name.now (map (header_bytes buf.now) headers.now)) }
{
    find_values(buf, headers, name).is_absent()
}

/// The hosts are as the version asks.
fn is_hosted(buf: &[u8], headers: &[HeaderSpan], version: u8) -> bool
    requires { All (IsHeaderWithin (length buf.now)) headers.now }
    ensures { result ≡ is_hosted version (map (header_bytes buf.now) headers.now) }
{
    version == 0 || find_values(buf, headers, b"host").is_single()
}

fn body_size(buf: &[u8], headers: &[HeaderSpan]) -> Result<usize, u32>
    requires { All (IsHeaderWithin (length buf.now)) headers.now }
    ensures bound { IfOk result (λ n. n ≤ max_body) }
    ensures value { result ≡ size_of (values_of (codes "content-length") (map (header_bytes buf.now) headers.now)) }
{
    match find_values(buf, headers, b"content-length") {
        Found::Absent => Ok(0),
        Found::One(span) => decimal_size(span.of(buf)),
        Found::Several => Err(400),
    }
}

/// The framing by a length.
fn by_length(buf: &[u8], headers: &[HeaderSpan]) -> Result<Framing, u32>
    requires { All (IsHeaderWithin (length buf.now)) headers.now }
    ensures fits { IfOk result FramingFits }
    ensures value { result ≡ by_length (size_of (values_of (codes "content-length") (map (header_bytes buf.now) headers.now))) }
{
    match body_size(buf, headers) {
        Ok(size) => Ok(Framing::Length(size)),
        Err(code) => Err(code),
    }
}

/// The framing by one transfer coding.
#[tactic(auto, unfolding(crate::specs::Fields::by_coding))]
fn by_coding(version: u8, coding: &[u8], is_alone: bool) -> Result<Framing, u32>
    ensures fits { IfOk result FramingFits }
    ensures value { result ≡ by_coding version coding.now is_alone }
{
    if version != 0 && is_named(coding, b"chunked") && is_alone {
        Ok(Framing::Chunks)
    } else {
        Err(400)
    }
}

/// The framing that the fields tell.
fn told_framing(buf: &[u8], headers: &[HeaderSpan], version: u8) -> Result<Framing, u32>
    requires { All (IsHeaderWithin (length buf.now)) headers.now }
    ensures fits { IfOk result FramingFits }
    ensures value { result ≡ framing_of version (values_of (codes "transfer-encoding") (map (header_bytes buf.now) headers.now)) (values_of (codes "content-length") (map (header_bytes buf.now) headers.now)) }
{
    match find_values(buf, headers, b"transfer-encoding") {
        Found::Absent => by_length(buf, headers),
        Found::One(span) => {
            let is_alone = lacks(buf, headers, b"content-length");
            by_coding(version, span.of(buf), is_alone)
        }
        Found::Several => Err(400),
    }
}

/// The framing of the body, or the status of the first test that the head fails.
#[tactic(auto, unfolding(crate::specs::Fields::frame_of))]
pub(crate) fn head_framing(
    buf: &[u8],
    headers: &[HeaderSpan],
    version: u8,
    target: &[u8],
) -> Result<Framing, u32>
    requires { All (IsHeaderWithin (length buf.now)) headers.now }
    ensures fits { IfOk result FramingFits }
    ensures value { result ≡ frame_of version target.now (map (header_bytes buf.now) headers.now) }
{
    if headers.len() > MAX_FIELDS {
        return Err(431);
    }
    if !is_hosted(buf, headers, version) {
        return Err(400);
    }
    if !is_served(target) {
        return Err(400);
    }
    told_framing(buf, headers, version)
}

/// Joins one more value to the text, behind a comma where one was found before.
fn append_value(text: &mut Vec<u8>, is_found: bool, value: &[u8]) -> Result<(), AllocError>
    ensures { OnOk result ((values : List (List ℕ)) → JoinedIs values is_found text.old.items
        → JoinedIs (values ++ value.now ∷ []) true text.new.items) }
{
    if is_found {
        text.extend_from_slice(b",")?;
        text.extend_from_slice(value)?;
        return Ok(());
    }
    text.extend_from_slice(value)?;
    Ok(())
}

/// The text with the value of a header of that name behind it, and whether one was found by then.
fn add_value(
    text: &mut Vec<u8>,
    is_found: bool,
    buf: &[u8],
    header: HeaderSpan,
    name: &[u8],
) -> Result<bool, AllocError>
    requires { IsHeaderWithin (length buf.now) header }
    ensures { IfOk result (λ now. (values : List (List ℕ)) → JoinedIs values is_found text.old.items
        → JoinedIs (values ++ values_of name.now (header_bytes buf.now header ∷ [])) now text.new.items) }
{
    if !is_named(header.name.of(buf), name) {
        return Ok(is_found);
    }
    append_value(text, is_found, header.value.of(buf))?;
    Ok(true)
}

/// The values of all fields of a name, joined by commas.
pub fn joined_values(
    alloc: Global,
    buf: &[u8],
    headers: &[HeaderSpan],
    name: &[u8],
) -> Result<Option<Items<u8>>, AllocError>
    requires { All (IsHeaderWithin (length buf.now)) headers.now }
    ensures { IfOk result (λ found. found ≡ joined (values_of name.now (map (header_bytes buf.now) headers.now))) }
{
    let mut text = Vec::new(alloc);
    let mut is_found = false;
    for header in headers {
        is_found = add_value(&mut text, is_found, buf, *header, name)?;
    }
    if is_found {
        Ok(Some(Items::from_vec(text)))
    } else {
        Ok(None)
    }
}

/// One more field: it names a coding of the body other than `identity`, or one before it did.
fn names_coding(found: bool, buf: &[u8], header: HeaderSpan) -> bool
    requires { IsHeaderWithin (length buf.now) header }
    ensures { result ≡ (found || list_any is_encoding (values_of (codes "content-encoding") (header_bytes buf.now header ∷ []))) }
{
    found
        || (is_named(header.name.of(buf), b"content-encoding")
            && !is_named(header.value.of(buf), b"identity"))
}

/// A field names a coding of the body other than `identity`.
pub fn is_encoded(buf: &[u8], headers: &[HeaderSpan]) -> bool
    requires { All (IsHeaderWithin (length buf.now)) headers.now }
    ensures { result ≡ list_any is_encoding (values_of (codes "content-encoding") (map (header_bytes buf.now) headers.now)) }
{
    let mut found = false;
    for header in headers {
        found = names_coding(found, buf, *header);
    }
    found
}

/// One more field: it expects the interim response, or one before it did.
fn names_expected(found: bool, buf: &[u8], header: HeaderSpan) -> bool
    requires { IsHeaderWithin (length buf.now) header }
    ensures { result ≡ (found || list_any is_interim (values_of (codes "expect") (header_bytes buf.now header ∷ []))) }
{
    found
        || (is_named(header.name.of(buf), b"expect")
            && is_named(header.value.of(buf), b"100-continue"))
}

/// A field expects the interim response.
fn is_expected(buf: &[u8], headers: &[HeaderSpan]) -> bool
    requires { All (IsHeaderWithin (length buf.now)) headers.now }
    ensures { result ≡ list_any is_interim (values_of (codes "expect") (map (header_bytes buf.now) headers.now)) }
{
    let mut found = false;
    for header in headers {
        found = names_expected(found, buf, *header);
    }
    found
}

/// An HTTP/1.1 request asks for the interim response before its body.
pub(crate) fn asks_interim(buf: &[u8], headers: &[HeaderSpan], version: u8) -> bool
    requires { All (IsHeaderWithin (length buf.now)) headers.now }
    ensures { result ≡ asks_interim version (map (header_bytes buf.now) headers.now) }
{
    version != 0 && is_expected(buf, headers)
}

/// One more field: it has the member `close`, or one before it did.
fn names_close(found: bool, buf: &[u8], header: HeaderSpan) -> bool
    requires { IsHeaderWithin (length buf.now) header }
    ensures { result ≡ (found || list_any (has_member (codes "close")) (values_of (codes "connection") (header_bytes buf.now header ∷ []))) }
{
    found
        || (is_named(header.name.of(buf), b"connection")
            && has_member(b"close", header.value.of(buf)))
}

/// A Connection field has the member `close`.
fn is_closing(buf: &[u8], headers: &[HeaderSpan]) -> bool
    requires { All (IsHeaderWithin (length buf.now)) headers.now }
    ensures { result ≡ list_any (has_member (codes "close")) (values_of (codes "connection") (map (header_bytes buf.now) headers.now)) }
{
    let mut found = false;
    for header in headers {
        found = names_close(found, buf, *header);
    }
    found
}

/// The client closes: by its version or by a member of a Connection field.
pub fn asks_close(buf: &[u8], headers: &[HeaderSpan], version: u8) -> bool
    requires { All (IsHeaderWithin (length buf.now)) headers.now }
    ensures { result ≡ asks_close version (map (header_bytes buf.now) headers.now) }
{
    version == 0 || is_closing(buf, headers)
}
