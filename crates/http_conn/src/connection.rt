ghost use Rattle.std.specs.Prelude.{◌≡◌, ◌<◌, ◌≤◌, ◌≢◌, ◌⊎◌, ◌++◌, [], ℕ, List, Option, Ok, Err, true, false, length, take, drop, IfOk, OnOk, OnErr, IfErr, nat_lt, if◌then◌else◌};
ghost use Rattle.std.specs.Io.KnownBytes.{IsAtEnd, Appends};
ghost use Rattle.gate_io.specs.Counts.{Rose};
ghost use Rattle.rest_codes.specs.Errors.{refusal_of};
ghost use Rattle.std.specs.List.{list_any};
ghost use Rattle.http_conn.specs.Told.{StillComes, LastRead, Reads};
ghost use Rattle.http_conn.specs.Next.{GivesSo, StandsSo, IsAtHand, IsHeadless, IsInHead, IsSettled, NeedsMore, is_line_end};
ghost use Rattle.http_conn.specs.Stream.{IsBadHead, IsDue, interim_bytes};
ghost use Rattle.http_head.specs.Head.{max_head, HasHead, HasNoHead};
ghost use Rattle.httparse.specs.Grammar.{RequestHead};
ghost use Rattle.http_head.specs.Parts.{IsHead, max_spans};
ghost use Rattle.http_conn.specs.Front.{FrontIs};

use crate::body::{Found, read_body};
use crate::buffer::Buffer;
use crate::whole::make_request;
use crate::{ConnNo, Next};
use gate_io::{Sink, Source, Want, write_all};
use http_head::{Head, Verdict, awaits_interim, judge};
use httparse::spans::{EMPTY_HEADER_SPAN, HeaderSpan};
use rest_codes::refusal;
use std::alloc::{AllocError, Global};
use std::marker::Model;

const MAX_HEAD: usize = 16_384;

/// The longest front that is shorter than the longest head.
const MAX_FRONT: usize = 16_383;

/// A field line has three bytes at least, so no head has more fields.
const MAX_SPANS: usize = 5_462;

/// The requests of a source of bytes, one after the other, in any pieces.
#[derive(Drop)]
pub struct Connection {
    held: Buffer,
    headers: Vec<HeaderSpan>,
    over: bool,
    continued: bool,
    ghost room: { max_spans ≤ length headers.items },
}

impl Model for Connection {
    ghost use Rattle.http_conn.specs.Told.{Conn};

    ghost Value = { Conn };

    ghost view = { λ c. record { held = c.held; over = c.over; continued = c.continued } };
}

/// What stands at the front: a head, or why there is none.
#[derive(Clone, Copy)]
pub(crate) enum Front {
    Whole(Head),
    Bad(u32),
    Cut,
    End,
}

/// The status of bytes that are as many as a head may have, and hold none: 400 where fewer of them
/// are lost already.
fn full_status(held: &[u8], headers: &mut [HeaderSpan]) -> u32
    requires long { max_head ≤ length held.now }
    requires none { HasNoHead held.now }
    requires room { max_spans ≤ length headers.old }
    ensures { IsBadHead held.now result }
{
    match judge(&held[..MAX_FRONT], headers) {
        Verdict::Lost => 400,
        Verdict::Unfinished => 431,
        Verdict::Whole(_head) => 431,
        Verdict::Refused(_code) => 431,
    }
}

/// Judges what is held, where that is as long as a head may be.
fn judge_full(held: &[u8], headers: &mut [HeaderSpan]) -> Front
    requires long { max_head ≤ length held.now }
    requires room { max_spans ≤ length headers.old }
    ensures { (left : Option (List ℕ)) → FrontIs held.now headers.new left result }
{
    match judge(&held[..MAX_HEAD], headers) {
        Verdict::Whole(head) => Front::Whole(head),
        Verdict::Refused(code) => Front::Bad(code),
        Verdict::Lost => Front::Bad(full_status(held, headers)),
        Verdict::Unfinished => Front::Bad(full_status(held, headers)),
    }
}

/// What there is where the input ended before a head was whole.
fn ended(held: &Buffer) -> Front
    ensures { result ≡ (if nat_lt 0 (length held.now) then Front.Cut else Front.End) }
{
    if held.len() > 0 {
        Front::Cut
    } else {
        Front::End
    }
}

/// What there is where a read failed: a front that is lost already, or the failure.
fn broken(held: &[u8], headers: &mut [HeaderSpan], no: ConnNo) -> Result<Front, ConnNo>
    requires short { no ≡ ConnNo.ReadFault → length held.now < max_head }
    requires room { max_spans ≤ length headers.old }
    ensures front { IfOk result (λ front. (left : Option (List ℕ))
        → FrontIs held.now headers.new left front) }
    ensures only { OnOk result (no ≡ ConnNo.ReadFault) }
    ensures same { IfErr result (λ e. e ≡ no) }
    ensures waits { result ≡ Err ConnNo.ReadFault → IsHeadless held.now }
{
    if no != ConnNo::ReadFault {
        return Err(no);
    }
    match judge(held, headers) {
        Verdict::Whole(head) => Ok(Front::Whole(head)),
        Verdict::Refused(code) => Ok(Front::Bad(code)),
        Verdict::Lost => Ok(Front::Bad(400)),
        Verdict::Unfinished => Err(no),
    }
}

fn has_line_end(bytes: &[u8]) -> bool
    ensures { result ≡ list_any is_line_end bytes.now }
{
    bytes.contains(&b'\n')
}

/// A line ends behind the place.
fn is_line_ended(held: &Buffer, place: usize) -> bool
    requires { place ≤ length held.now }
    ensures { result ≡ list_any is_line_end (drop place held.now) }
{
    has_line_end(&held.front()[place..])
}

/// Reads until a line ends in what is new, or the longest head is held. So a head that comes in
/// small pieces isn't parsed at each of them. False where the input had ended before.
fn fill_line<S: Source>(held: &mut Buffer, source: &mut S) -> Result<bool, ConnNo>
    requires { length held.old < max_head }
    ensures same { OnOk result (StillComes held.old (S.left source.old) held.new (S.left source.new)) }
    ensures grew { result ≡ Ok true → length held.old < length held.new }
    ensures end { result ≡ Ok false → (held.new ≡ held.old) × IsAtEnd (S.left source.new) }
    ensures patient { LastRead S.left S.asked held.old source.old source.new (IsInHead held.old) }
    ensures lost { result ≡ Err ConnNo.ReadFault → (length held.new < max_head)
        × (StillComes held.old (S.left source.old) held.new (S.left source.new)) }
    ensures cause { result ≡ Err ConnNo.ReadFault
        → Rose (S.faults source.old) (S.faults source.new) }
    ensures no_write { (n : ℕ) → result ≢ Err (ConnNo.WriteFault n) }
    ensures counts { S.faults source.old ≤ S.faults source.new }
    ensures beside { S.beside source.old source.new }
{
    let start = held.len();
    let mut seen = start;
    while held.len() < MAX_HEAD {
        if !held.fill(source)? {
            return Ok(seen > start);
        }
        if is_line_ended(held, seen) {
            return Ok(true);
        }
        seen = held.len();
    }
    Ok(true)
}

/// Reads until the front can be judged.
fn read_head<S: Source>(
    held: &mut Buffer,
    headers: &mut [HeaderSpan],
    source: &mut S,
) -> Result<Front, ConnNo>
    requires { max_spans ≤ length headers.old }
    ensures same { OnOk result (StillComes held.old (S.left source.old) held.new (S.left source.new)) }
    ensures front { IfOk result (λ front. FrontIs held.new headers.new (S.left source.new) front) }
    ensures prompt { (head : RequestHead) (after : List ℕ) → HasHead held.old head after
        → (source.new ≡ source.old) × (held.new ≡ held.old) }
    ensures patient { LastRead S.left S.asked held.old source.old source.new (NeedsMore false) }
    ensures lost { result ≡ Err ConnNo.ReadFault → IsHeadless held.new
        × (StillComes held.old (S.left source.old) held.new (S.left source.new)) }
    ensures cause { result ≡ Err ConnNo.ReadFault
        → Rose (S.faults source.old) (S.faults source.new) }
    ensures no_write { (n : ℕ) → result ≢ Err (ConnNo.WriteFault n) }
    ensures counts { S.faults source.old ≤ S.faults source.new }
    ensures beside { S.beside source.old source.new }
{
    while held.len() < MAX_HEAD {
        match judge(held.front(), headers) {
            Verdict::Whole(head) => return Ok(Front::Whole(head)),
            Verdict::Refused(code) => return Ok(Front::Bad(code)),
            Verdict::Lost => return Ok(Front::Bad(400)),
            Verdict::Unfinished => {}
        }
        match fill_line(held, source) {
            Ok(true) => {}
            Ok(false) => return Ok(ended(held)),
            Err(no) => return broken(held.front(), headers, no),
        }
    }
    Ok(judge_full(held.front(), headers))
}

/// The answer at a bad place.
fn bad(alloc: Global, code: u32) -> Result<Next, ConnNo>
    ensures value { IfOk result (λ next. next ≡ Next.Bad (refusal_of code)) }
    ensures fault { IfErr result (λ e. e ≡ ConnNo.Want) }
{
    match refusal(alloc, code) {
        Ok(reply) => Ok(Next::Bad(reply)),
        Err(Want) => Err(ConnNo::Want),
    }
}

/// The interim response is due for the request of this head, and `Continue` wasn't given for it.
fn is_owed(held: &[u8], headers: &[HeaderSpan], head: Head, continued: bool) -> bool
    requires { IsHead held.now headers.now head }
    ensures owed { result ≡ true → IsDue held.now × (continued ≡ false) }
    ensures settled { result ≡ false → IsSettled continued held.now }
{
    awaits_interim(held, headers, head) && !continued
}

/// Reads one request, or finds why there is none. Where the interim response is due and `Continue`
/// wasn't given, it is given before anything of the body is read.
fn read_request<S: Source>(
    alloc: Global,
    held: &mut Buffer,
    headers: &mut [HeaderSpan],
    continued: bool,
    source: &mut S,
) -> Result<Next, ConnNo>
    requires { max_spans ≤ length headers.old }
    ensures given { GivesSo continued held.old held.new (S.left source.old) (S.left source.new) result }
    ensures interim { result ≡ Ok Next.Continue → IsDue held.new × (continued ≡ false) }
    ensures prompt { IsAtHand continued held.old → source.new ≡ source.old }
    ensures patient { LastRead S.left S.asked held.old source.old source.new (NeedsMore continued) }
    ensures reads { Reads S.faults S.beside source.old source.new result }
{
    let head = match read_head(held, headers, source)? {
        Front::Whole(head) => head,
        Front::Bad(code) => return bad(alloc, code),
        Front::Cut => return Ok(Next::CutShort),
        Front::End => return Ok(Next::End),
    };
    if is_owed(held.front(), headers, head, continued) {
        return Ok(Next::Continue);
    }
    let request = make_request(alloc, held.front(), headers, head)?;
    match read_body(alloc, held, head, headers, source) {
        Ok(Found::Whole(body, end)) => {
            held.take(end);
            Ok(Next::Ready(request.with_body(body)))
        }
        Ok(Found::Bad(code)) => bad(alloc, code),
        Ok(Found::Cut) => Ok(Next::CutShort),
        Err(no) => Err(no),
    }
}

/// The bytes of the interim response, `HTTP/1.1 100 Continue` (RFC 9110, section 15.2.1).
pub fn interim_response() -> &'static [u8]
    ensures { result.now ≡ interim_bytes }
{
    b"HTTP/1.1 100 Continue\r\n\r\n"
}

impl Connection {
    pub fn new(alloc: Global) -> Result<Connection, Want>
        ensures { IfOk result (λ c. c ≡ record { held = []; over = false; continued = false }) }
    {
        match vec![in alloc; EMPTY_HEADER_SPAN; MAX_SPANS] {
            Ok(headers) => Ok(Connection {
                held: Buffer::new(alloc),
                headers,
                over: false,
                continued: false,
            }),
            Err(AllocError) => Err(Want),
        }
    }

    /// Reads the next request. `Continue` comes exactly once for a request that awaits the interim
    /// response, and before it is given nothing is read behind the head. After a request that closes,
    /// and anything but `Ready` and `Continue`, the connection is over.
    pub fn next<S: Source>(&mut self, alloc: Global, source: &mut S) -> Result<Next, ConnNo>
        ensures given { self.old.over ≡ false → GivesSo self.old.continued self.old.held
            self.new.held (S.left source.old) (S.left source.new) result }
        ensures interim { result ≡ Ok Next.Continue → IsDue self.new.held × (self.old.continued ≡ false) }
        ensures prompt { self.old.over ≡ false → IsAtHand self.old.continued self.old.held
            → source.new ≡ source.old }
        ensures patient { self.old.over ≡ false → LastRead S.left S.asked self.old.held source.old
            source.new (NeedsMore self.old.continued) }
        ensures stands { self.old.over ≡ false → StandsSo self.new result }
        ensures over { self.old.over ≡ true → (result ≡ Ok Next.End) × (source.new ≡ source.old)
            × (self.new ≡ self.old) }
        ensures reads { Reads S.faults S.beside source.old source.new result }
    {
        if self.over {
            return Ok(Next::End);
        }
        let continued = self.continued;
        self.over = true;
        self.continued = false;
        let next = read_request(
            alloc,
            &mut self.held,
            self.headers.as_mut_slice(),
            continued,
            source,
        )?;
        self.over = next.is_last();
        self.continued = next.is_continue();
        Ok(next)
    }

    /// The connection is over: `next` reads nothing any more, and answers `End`.
    pub fn is_over(&self) -> bool
        ensures { result ≡ self.now.over }
    {
        self.over
    }

    /// Writes a response. It takes no memory.
    pub fn send<K: Sink>(&mut self, sink: &mut K, bytes: &[u8]) -> Result<(), ConnNo>
        ensures same { self.new ≡ self.old }
        ensures ok { OnOk result (Appends (K.held sink.old) (K.held sink.new) bytes.now) }
        ensures cut { (n : ℕ) → result ≡ Err (ConnNo.WriteFault n) → (n < length bytes.now)
            × Appends (K.held sink.old) (K.held sink.new) (take n bytes.now) }
        ensures only { OnErr result ((n : ℕ) × (result ≡ Err (ConnNo.WriteFault n))) }
        ensures cause { OnErr result (Rose (K.faults sink.old) (K.faults sink.new)
            ⊎ Rose (K.stalls sink.old) (K.stalls sink.new)) }
        ensures counts { (K.faults sink.old ≤ K.faults sink.new)
            × (K.stalls sink.old ≤ K.stalls sink.new) }
        ensures beside { K.beside sink.old sink.new }
    {
        match write_all(sink, bytes) {
            Ok(()) => Ok(()),
            Err(cut) => Err(ConnNo::WriteFault(cut.written)),
        }
    }
}
