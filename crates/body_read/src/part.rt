ghost use Rattle.std.specs.Prelude.{◌≡◌, ◌≤◌, ◌<◌, length, drop};
ghost use Rattle.httparse.specs.Grammar.{ChunkLine, chunk_size};
ghost use Rattle.http_head.specs.Fields.{max_body};
ghost use Rattle.http_head.specs.Parts.{max_spans};
ghost use Rattle.body_read.specs.Chunks.{HasLine, after_content};
ghost use Rattle.body_read.specs.Found.{LineFound, LineIs, PartIs, ended_of, is_cut_part};

use crate::trailers::{End, end_of};
use httparse::spans::HeaderSpan;
use httparse::{Status, parse_chunk_size};

/// The longest chunk line, with its CR LF.
const MAX_LINE: usize = 256;

const MAX_BODY: usize = 8_388_608;

/// What stands where a chunk may begin: a chunk with content from one place to another and CR LF
/// behind it; the last chunk line and the trailers, in so many bytes; a place that is refused with
/// this status; or bytes that end inside one of these.
#[derive(Clone, Copy)]
pub enum Part {
    Chunk(usize, usize),
    Last(usize),
    Bad(u32),
    Cut,
}

impl Part {
    /// The bytes end inside it.
    pub fn is_cut(self) -> bool
        ensures { result ≡ is_cut_part self }
    {
        matches!(self, Part::Cut)
    }
}

/// A chunk line in so many bytes, with the size that it tells.
#[derive(Clone, Copy)]
pub(crate) enum Line {
    Whole(usize, u64),
    Bad,
    Cut,
}

/// Parses a chunk line.
fn parse_line(bytes: &[u8]) -> Line
    requires { length bytes.now ≤ 256 }
    ensures { LineFound bytes.now result }
{
    match parse_chunk_size(bytes) {
        Ok(Status::Complete((len, size))) => Line::Whole(len, size),
        Ok(Status::Partial) => Line::Cut,
        Err(_) => Line::Bad,
    }
}

/// The line where the bytes are fewer than it may have.
fn short_line(bytes: &[u8]) -> Line
    requires { length bytes.now < 256 }
    ensures { LineIs bytes.now result }
{
    parse_line(bytes)
}

/// The line where the bytes are as many as it may have.
fn full_line(bytes: &[u8]) -> Line
    requires { 256 ≤ length bytes.now }
    ensures { LineIs bytes.now result }
{
    match parse_line(&bytes[..MAX_LINE]) {
        Line::Whole(len, size) => Line::Whole(len, size),
        Line::Cut => Line::Bad,
        Line::Bad => Line::Bad,
    }
}

fn line_of(bytes: &[u8]) -> Line
    ensures { LineIs bytes.now result }
{
    if bytes.len() < MAX_LINE {
        short_line(bytes)
    } else {
        full_line(bytes)
    }
}

/// CR LF stands at the front. None where the bytes are too few to say.
fn is_ended(bytes: &[u8]) -> Option<bool>
    ensures { result ≡ ended_of (after_content bytes.now) }
{
    match bytes {
        [] => None,
        [first] => { if *first == 13 { None } else { Some(false) } }
        [first, second, ..] => Some(*first == 13 && *second == 10),
    }
}

fn behind(bytes: &[u8], place: usize) -> &[u8]
    ensures { result.now ≡ drop place bytes.now }
{
    if place < bytes.len() {
        &bytes[place..]
    } else {
        &[]
    }
}

/// The content behind a chunk line of so many bytes, which tells this size.
fn content_part(bytes: &[u8], len: usize, size: u64, sum: usize) -> Part
    requires line { (len ≤ length bytes.now) × (len ≤ 256) × (l : ChunkLine) × HasLine bytes.now l (drop len bytes.now) × (size ≡ chunk_size l) }
    requires some { 0 < size }
    requires sum { sum ≤ max_body }
    ensures { PartIs sum bytes.now result }
{
    if size > (MAX_BODY - sum) as u64 {
        return Part::Bad(413);
    }
    let end = len + size as usize;
    match is_ended(behind(bytes, end)) {
        Some(true) => Part::Chunk(len, end),
        Some(false) => Part::Bad(400),
        None => Part::Cut,
    }
}

/// The trailers behind a last chunk line of so many bytes.
fn last_part(bytes: &[u8], len: usize, sum: usize, headers: &mut [HeaderSpan]) -> Part
    requires line { (len ≤ length bytes.now) × (len ≤ 256) × (l : ChunkLine) × HasLine bytes.now l (drop len bytes.now) × (0 ≡ chunk_size l) }
    requires room { max_spans ≤ length headers.old }
    ensures { PartIs sum bytes.now result }
{
    match end_of(&bytes[len..], headers) {
        End::Whole(end) => Part::Last(len + end),
        End::Bad(code) => Part::Bad(code),
        End::Cut => Part::Cut,
    }
}

/// The part at the front of a body in chunks, behind so many bytes of content. There is room for the
/// fields of all trailers.
pub fn next_part(bytes: &[u8], sum: usize, headers: &mut [HeaderSpan]) -> Part
    requires sum { sum ≤ max_body }
    requires room { max_spans ≤ length headers.old }
    ensures { PartIs sum bytes.now result }
{
    match line_of(bytes) {
        Line::Whole(len, size) => {
            if size == 0 {
                last_part(bytes, len, sum, headers)
            } else {
                content_part(bytes, len, size, sum)
            }
        }
        Line::Bad => Part::Bad(400),
        Line::Cut => Part::Cut,
    }
}
