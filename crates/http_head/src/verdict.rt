ghost use Rattle.std.specs.Prelude.{◌≡◌, ◌≤◌, length, List, ℕ};
ghost use Rattle.httparse.specs.Grammar.{RequestHead};
ghost use Rattle.httparse.specs.Spans.{IsRequestWithin, IsRequestOf};
ghost use Rattle.http_head.specs.Head.{max_head, HasHead, awaits};
ghost use Rattle.http_head.specs.Parts.{IsHead, Judges, max_spans};

use crate::fields::{Framing, asks_interim, head_framing};
use crate::target::ends_in_target;
use httparse::Status;
use httparse::spans::{HeaderSpan, RequestSpans, parse_request};

/// Where the parts of a head are, and how its body is framed.
#[derive(Clone, Copy)]
pub struct Head {
    pub spans: RequestSpans,
    pub framing: Framing,
}

/// What the bytes at the front of a stream are.
#[derive(Clone, Copy)]
pub enum Verdict {
    Whole(Head),
    Unfinished,
    Refused(u32),
    Lost,
}

/// Judges a head that is whole.
fn judge_head(buf: &[u8], headers: &[HeaderSpan], spans: RequestSpans) -> Verdict
    requires short { length buf.now ≤ max_head }
    requires within { IsRequestWithin buf.now headers.now spans }
    requires head { IsRequestOf buf.now headers.now spans }
    ensures { Judges buf.now headers.now result }
{
    let fields = &headers[..spans.headers];
    match head_framing(buf, fields, spans.version, spans.path.of(buf)) {
        Ok(framing) => Verdict::Whole(Head { spans, framing }),
        Err(code) => Verdict::Refused(code),
    }
}

/// Judges the bytes at the front of a stream. There is room for the fields of every head.
pub fn judge(buf: &[u8], headers: &mut [HeaderSpan]) -> Verdict
    requires short { length buf.now ≤ max_head }
    requires room { max_spans ≤ length headers.old }
    ensures { Judges buf.now headers.new result }
{
    match parse_request(buf, headers) {
        Ok(Status::Complete(spans)) => judge_head(buf, headers, spans),
        Ok(Status::Partial) => Verdict::Unfinished,
        Err(_) => {
            if ends_in_target(buf) {
                Verdict::Unfinished
            } else {
                Verdict::Lost
            }
        }
    }
}

/// The client may wait for the interim response before it sends the body (RFC 9110, section 10.1.1).
pub fn awaits_interim(buf: &[u8], headers: &[HeaderSpan], head: Head) -> bool
    requires { IsHead buf.now headers.now head }
    ensures { (tree : RequestHead) (after : List ℕ) → HasHead buf.now tree after
        → result ≡ awaits tree }
{
    let fields = &headers[..head.spans.headers];
    asks_interim(buf, fields, head.spans.version) && head.framing.has_body()
}
