ghost use Rattle.std.specs.Prelude.{◌≤◌, ◌<◌, length};
ghost use Rattle.http_head.specs.Head.{max_head};
ghost use Rattle.http_head.specs.Parts.{max_spans};
ghost use Rattle.body_read.specs.Chunks.{HasNoTrailers, TrailersAre, Piece};
ghost use Rattle.body_read.specs.Found.{TrailersFound, EndIs};

use httparse::Status;
use httparse::spans::{HeaderSpan, parse_headers};

const MAX_TRAILERS: usize = 16_384;

/// The longest front that is shorter than the longest trailers.
const MAX_FRONT: usize = 16_383;

const MAX_FIELDS: usize = 64;

/// What the bytes behind a last chunk line are, as trailers.
#[derive(Clone, Copy)]
pub(crate) enum Trailers {
    Whole(usize),
    Many,
    Open,
    Lost,
}

/// What stands behind a last chunk line: trailers of so many bytes, what is refused with this
/// status, or bytes that end inside them.
#[derive(Clone, Copy)]
pub(crate) enum End {
    Whole(usize),
    Bad(u32),
    Cut,
}

/// Parses trailers. There is room for the fields of all that fit.
fn parse_trailers(bytes: &[u8], headers: &mut [HeaderSpan]) -> Trailers
    requires short { length bytes.now ≤ max_head }
    requires room { max_spans ≤ length headers.old }
    ensures { TrailersFound bytes.now result }
{
    match parse_headers(bytes, headers) {
        Ok(Status::Complete((len, count))) => {
            if count <= MAX_FIELDS {
                Trailers::Whole(len)
            } else {
                Trailers::Many
            }
        }
        Ok(Status::Partial) => Trailers::Open,
        Err(_) => Trailers::Lost,
    }
}

/// The status of bytes that are as many as trailers may have, and hold none: 400 where fewer of
/// them are lost already.
fn full_status(bytes: &[u8], headers: &mut [HeaderSpan]) -> u32
    requires long { max_head ≤ length bytes.now }
    requires none { HasNoTrailers bytes.now }
    requires room { max_spans ≤ length headers.old }
    ensures { TrailersAre bytes.now (Piece.Bad result) }
{
    match parse_trailers(&bytes[..MAX_FRONT], headers) {
        Trailers::Lost => 400,
        Trailers::Open => 431,
        Trailers::Whole(_len) => 431,
        Trailers::Many => 431,
    }
}

/// The trailers where the bytes are fewer than they may have.
fn short_end(bytes: &[u8], headers: &mut [HeaderSpan]) -> End
    requires short { length bytes.now < max_head }
    requires room { max_spans ≤ length headers.old }
    ensures { EndIs bytes.now result }
{
    match parse_trailers(bytes, headers) {
        Trailers::Whole(len) => End::Whole(len),
        Trailers::Many => End::Bad(431),
        Trailers::Open => End::Cut,
        Trailers::Lost => End::Bad(400),
    }
}

/// The trailers where the bytes are as many as they may have.
fn full_end(bytes: &[u8], headers: &mut [HeaderSpan]) -> End
    requires long { max_head ≤ length bytes.now }
    requires room { max_spans ≤ length headers.old }
    ensures { EndIs bytes.now result }
{
    match parse_trailers(&bytes[..MAX_TRAILERS], headers) {
        Trailers::Whole(len) => End::Whole(len),
        Trailers::Many => End::Bad(431),
        Trailers::Open => End::Bad(full_status(bytes, headers)),
        Trailers::Lost => End::Bad(full_status(bytes, headers)),
    }
}

/// The trailers behind a last chunk line.
pub(crate) fn end_of(bytes: &[u8], headers: &mut [HeaderSpan]) -> End
    requires { max_spans ≤ length headers.old }
    ensures { EndIs bytes.now result }
{
    if bytes.len() < MAX_TRAILERS {
        short_end(bytes, headers)
    } else {
        full_end(bytes, headers)
    }
}
