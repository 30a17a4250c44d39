ghost use Rattle.std.specs.Prelude.{◌≡◌, ℕ, List, IfOk};
ghost use Rattle.std.specs.List.{before_first, after_first};
ghost use Rattle.http_conn.specs.Stream.{Asks, is_mark};
ghost use Rattle.httparse.specs.Grammar.{RequestHead};
ghost use Rattle.http_head.specs.Head.{HasHead};
ghost use Rattle.http_head.specs.Parts.{IsHead};

use crate::Request;
use gate_io::{Items, Text};
use http::Method;
use http_head::{Head, asked_text, asks_close, awaits_interim, is_encoded, joined_values};
use httparse::spans::HeaderSpan;
use std::alloc::{AllocError, Global};

/// The path and the query of a target.
fn target_parts(target: &str) -> (&str, &str)
    ensures path { result.0.now ≡ before_first is_mark target.now }
    ensures query { result.1.now ≡ after_first is_mark target.now }
{
    match target.split_once('?') {
        Some((path, query)) => (path, query),
        None => (target, ""),
    }
}

/// The method of a head. A head's method is a token, so nothing but memory can be missing.
fn method_of(alloc: Global, bytes: &[u8]) -> Result<Method, AllocError>
    ensures { IfOk result (λ method. method ≡ bytes.now) }
{
    match Method::from_bytes(alloc, bytes) {
        Ok(method) => Ok(method),
        Err(_) => Err(AllocError),
    }
}

/// What a request takes of the head at the front of the bytes, with an empty body.
pub(crate) fn make_request(
    alloc: Global,
    buf: &[u8],
    headers: &[HeaderSpan],
    head: Head,
) -> Result<Request, AllocError>
    requires { IsHead buf.now headers.now head }
    ensures { IfOk result (λ request. (tree : RequestHead) (after : List ℕ) → HasHead buf.now tree after → Asks tree request) }
{
    let spans = head.spans;
    let fields = &headers[..spans.headers];
    let (path, query) = target_parts(asked_text(spans.path.of(buf)));
    let method = method_of(alloc, spans.method.of(buf))?;
    let path = Text::from_str(alloc, path)?;
    let query = Text::from_str(alloc, query)?;
    let accept = joined_values(alloc, buf, fields, b"accept")?;
    let content_type = joined_values(alloc, buf, fields, b"content-type")?;
    Ok(Request {
        method,
        path,
        query,
        accept,
        content_type,
        encoded: is_encoded(buf, fields),
        close: asks_close(buf, fields, spans.version),
        expects: awaits_interim(buf, headers, head),
        body: Items::from_vec(Vec::new(alloc)),
    })
}

impl Request {
    /// The same request with this body.
    pub(crate) fn with_body(self, body: Items<u8>) -> Request
        ensures asks { (tree : RequestHead) → Asks tree self → Asks tree result }
        ensures body { result.body ≡ body }
    {
        Request { body, ..self }
    }
}
