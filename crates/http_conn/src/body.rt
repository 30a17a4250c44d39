ghost use Rattle.std.specs.Prelude.{◌≡◌, ◌<◌, ◌≤◌, ◌≢◌, ◌⊎◌, ◌++◌, ◌+◌, ℕ, List, Ok, Err, true, false, length, drop, slice_range, IfOk, IfErr, OnOk};
ghost use Rattle.std.specs.Io.KnownBytes.{IsAtEnd};
ghost use Rattle.gate_io.specs.Counts.{Rose};
ghost use Rattle.http_head.specs.Fields.{max_body, FramingFits};
ghost use Rattle.http_head.specs.Parts.{max_spans};
ghost use Rattle.http_head.specs.declared.fields.Framing.TheVariants.{Length, Chunks};
ghost use Rattle.body_read.specs.Chunks.{Outcome, Piece, PieceAt};
ghost use Rattle.body_read.specs.Body.{BodyIs};
ghost use Rattle.body_read.specs.Found.{PartIs};
ghost use Rattle.http_conn.specs.Told.{StillComes, LastRead};
ghost use Rattle.http_conn.specs.Next.{IsShort};
ghost use Rattle.http_conn.specs.declared.body.Found.TheVariants as FoundOf;
ghost use Rattle.http_conn.specs.Body.{IsBehind, IsCutAt, EndsInPart, BodyFound, PartFound};

use crate::ConnNo;
use crate::buffer::Buffer;
use body_read::{Part, next_part};
use gate_io::{Items, Source};
use http_head::{Framing, Head};
use httparse::spans::HeaderSpan;
use std::alloc::Global;

/// What was found of a body: the whole, which ends at that place of what is held; what it is refused
/// with; or the end of the input inside it.
#[derive(Drop)]
pub(crate) enum Found {
    Whole(Items<u8>, usize),
    Bad(u32),
    Cut,
}

/// Reads until so many bytes are held. False where the input ends before.
fn fill_to<S: Source>(held: &mut Buffer, total: usize, source: &mut S) -> Result<bool, ConnNo>
    ensures same { OnOk result (StillComes held.old (S.left source.old) held.new (S.left source.new)) }
    ensures behind { OnOk result ((more : List ℕ) × (held.new ≡ held.old ++ more)) }
    ensures enough { result ≡ Ok true → total ≤ length held.new }
    ensures end { result ≡ Ok false → (length held.new < total) × IsAtEnd (S.left source.new) }
    ensures prompt { total ≤ length held.old → source.new ≡ source.old }
    ensures patient { LastRead S.left S.asked held.old source.old source.new (IsShort held.old total) }
    ensures lost { result ≡ Err ConnNo.ReadFault → ((more : List ℕ)
        × (held.new ≡ held.old ++ more)) × (length held.new < total)
        × (StillComes held.old (S.left source.old) held.new (S.left source.new)) }
    ensures cause { result ≡ Err ConnNo.ReadFault
        → Rose (S.faults source.old) (S.faults source.new) }
    ensures no_write { (n : ℕ) → result ≢ Err (ConnNo.WriteFault n) }
    ensures counts { S.faults source.old ≤ S.faults source.new }
    ensures beside { S.beside source.old source.new }
{
    held.make_room(total)?;
    while held.len() < total {
        if !held.fill(source)? {
            return Ok(false);
        }
    }
    Ok(true)
}

/// Reads a body of this size, which begins at the place.
fn read_length<S: Source>(
    alloc: Global,
    held: &mut Buffer,
    place: usize,
    size: usize,
    source: &mut S,
) -> Result<Found, ConnNo>
    requires place { place ≤ length held.old }
    requires fits { (place ≤ 16384) × (size ≤ max_body) }
    ensures same { OnOk result (StillComes held.old (S.left source.old) held.new (S.left source.new)) }
    ensures behind { OnOk result (IsBehind held.old held.new) }
    ensures found { IfOk result (λ found. BodyFound (Length size) place held.new (S.left source.new) found) }
    ensures prompt { (body rest : List ℕ) → BodyIs (Length size) (drop place held.old) (Outcome.Whole body rest)
        → source.new ≡ source.old }
    ensures patient { LastRead S.left S.asked held.old source.old source.new (IsCutAt (Length size) place held.old) }
    ensures lost { result ≡ Err ConnNo.ReadFault → IsCutAt (Length size) place held.old held.new
        × (StillComes held.old (S.left source.old) held.new (S.left source.new)) }
    ensures cause { result ≡ Err ConnNo.ReadFault
        → Rose (S.faults source.old) (S.faults source.new) }
    ensures no_write { (n : ℕ) → result ≢ Err (ConnNo.WriteFault n) }
    ensures counts { S.faults source.old ≤ S.faults source.new }
    ensures beside { S.beside source.old source.new }
{
    let total = place + size;
    if !fill_to(held, total, source)? {
        return Ok(Found::Cut);
    }
    let body = Items::from_slice(alloc, &held.front()[place..total])?;
    Ok(Found::Whole(body, total))
}

/// The part that begins at the place, as far as it is held.
fn part_at(held: &Buffer, place: usize, sum: usize, headers: &mut [HeaderSpan]) -> Part
    requires place { place ≤ length held.now }
    requires sum { sum ≤ max_body }
    requires room { max_spans ≤ length headers.old }
    ensures { PartIs sum (drop place held.now) result }
{
    next_part(&held.front()[place..], sum, headers)
}

/// Reads until the part that begins at the place is whole or refused. `Cut` where the input ends
/// before.
fn fill_part<S: Source>(
    held: &mut Buffer,
    place: usize,
    sum: usize,
    headers: &mut [HeaderSpan],
    source: &mut S,
) -> Result<Part, ConnNo>
    requires place { place ≤ length held.old }
    requires sum { sum ≤ max_body }
    requires room { max_spans ≤ length headers.old }
    ensures same { OnOk result (StillComes held.old (S.left source.old) held.new (S.left source.new)) }
    ensures behind { OnOk result (IsBehind held.old held.new) }
    ensures part { IfOk result (λ part. PartFound sum (drop place held.new) (S.left source.new) part) }
    ensures prompt { ((PieceAt sum (drop place held.old) Piece.Cut) → ⊥) → (source.new ≡ source.old) × (held.new ≡ held.old) }
    ensures patient { LastRead S.left S.asked held.old source.old source.new (EndsInPart sum place held.old) }
    ensures lost { result ≡ Err ConnNo.ReadFault → EndsInPart sum place held.old held.new
        × (StillComes held.old (S.left source.old) held.new (S.left source.new)) }
    ensures cause { result ≡ Err ConnNo.ReadFault
        → Rose (S.faults source.old) (S.faults source.new) }
    ensures no_write { (n : ℕ) → result ≢ Err (ConnNo.WriteFault n) }
    ensures counts { S.faults source.old ≤ S.faults source.new }
    ensures beside { S.beside source.old source.new }
{
    let mut part = part_at(held, place, sum, headers);
    while part.is_cut() {
        match held.fill(source) {
            Ok(true) => {}
            Ok(false) => return Ok(part),
            Err(no) => return Err(no),
        }
        part = part_at(held, place, sum, headers);
    }
    Ok(part)
}

/// Puts the content of the chunk that begins at the place behind what was gathered. What is behind the
/// chunk begins at the place that is returned.
fn gather(
    body: &mut Vec<u8>,
    held: &Buffer,
    place: usize,
    start: usize,
    end: usize,
) -> Result<usize, ConnNo>
    requires { (start < end) × (place + (end + 2) ≤ length held.now) }
    ensures place { IfOk result (λ next. next ≡ place + (end + 2)) }
    ensures value { OnOk result (body.new.items ≡ body.old.items ++ slice_range (drop place held.now) start end) }
    ensures fault { IfErr result (λ e. e ≡ ConnNo.Want) }
{
    let next = held.len() - (held.len() - place - end - 2);
    let rest = &held.front()[place..];
    body.extend_from_slice(&rest[start..end])?;
    Ok(next)
}

fn count(bytes: &Vec<u8>) -> usize
    ensures { result ≡ length bytes.now.items }
{
    bytes.len()
}

/// The body that was gathered, where so many bytes from the place on are the last of it.
fn whole(body: Vec<u8>, held: &Buffer, place: usize, size: usize) -> Found
    requires { place + size ≤ length held.now }
    ensures { result ≡ FoundOf.Whole body.items (place + size) }
{
    let end = held.len() - (held.len() - place - size);
    Found::Whole(Items::from_vec(body), end)
}

/// Reads a body in chunks, which begins at the place. Each content is copied once, and there is no
/// room for what a chunk line only tells.
fn read_chunks<S: Source>(
    alloc: Global,
    held: &mut Buffer,
    first: usize,
    headers: &mut [HeaderSpan],
    source: &mut S,
) -> Result<Found, ConnNo>
    requires place { first ≤ length held.old }
    requires room { max_spans ≤ length headers.old }
    ensures same { OnOk result (StillComes held.old (S.left source.old) held.new (S.left source.new)) }
    ensures behind { OnOk result (IsBehind held.old held.new) }
    ensures found { IfOk result (λ found. BodyFound Chunks first held.new (S.left source.new) found) }
    ensures prompt { (body rest : List ℕ) → BodyIs Chunks (drop first held.old) (Outcome.Whole body rest)
        → source.new ≡ source.old }
    ensures patient { LastRead S.left S.asked held.old source.old source.new (IsCutAt Chunks first held.old) }
    ensures lost { result ≡ Err ConnNo.ReadFault → IsCutAt Chunks first held.old held.new
        × (StillComes held.old (S.left source.old) held.new (S.left source.new)) }
    ensures cause { result ≡ Err ConnNo.ReadFault
        → Rose (S.faults source.old) (S.faults source.new) }
    ensures no_write { (n : ℕ) → result ≢ Err (ConnNo.WriteFault n) }
    ensures counts { S.faults source.old ≤ S.faults source.new }
    ensures beside { S.beside source.old source.new }
{
    let mut body = Vec::new(alloc);
    let mut place = first;
    'parts: loop {
        match fill_part(held, place, count(&body), headers, source) {
            Ok(Part::Chunk(start, end)) => {
                place = gather(&mut body, held, place, start, end)?;
            }
            Ok(Part::Last(size)) => return Ok(whole(body, held, place, size)),
            Ok(Part::Bad(code)) => return Ok(Found::Bad(code)),
            Ok(Part::Cut) => return Ok(Found::Cut),
            Err(no) => return Err(no),
        }
    }
}

/// Reads the body behind a head.
pub(crate) fn read_body<S: Source>(
    alloc: Global,
    held: &mut Buffer,
    head: Head,
    headers: &mut [HeaderSpan],
    source: &mut S,
) -> Result<Found, ConnNo>
    requires place { head.spans.len ≤ length held.old }
    requires fits { (head.spans.len ≤ 16384) × FramingFits head.framing }
    requires room { max_spans ≤ length headers.old }
    ensures same { OnOk result (StillComes held.old (S.left source.old) held.new (S.left source.new)) }
    ensures behind { OnOk result (IsBehind held.old held.new) }
    ensures found { IfOk result (λ found. BodyFound head.framing head.spans.len held.new (S.left source.new) found) }
    ensures prompt { (body rest : List ℕ) → BodyIs head.framing (drop head.spans.len held.old) (Outcome.Whole body rest)
        → source.new ≡ source.old }
    ensures patient { LastRead S.left S.asked held.old source.old source.new (IsCutAt head.framing head.spans.len held.old) }
    ensures lost { result ≡ Err ConnNo.ReadFault → IsCutAt head.framing head.spans.len held.old held.new
        × (StillComes held.old (S.left source.old) held.new (S.left source.new)) }
    ensures cause { result ≡ Err ConnNo.ReadFault
        → Rose (S.faults source.old) (S.faults source.new) }
    ensures no_write { (n : ℕ) → result ≢ Err (ConnNo.WriteFault n) }
    ensures counts { S.faults source.old ≤ S.faults source.new }
    ensures beside { S.beside source.old source.new }
{
    let place = head.spans.len;
    match head.framing {
        Framing::Length(size) => read_length(alloc, held, place, size, source),
        Framing::Chunks => read_chunks(alloc, held, place, headers, source),
    }
}
