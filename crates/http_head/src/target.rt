ghost use Rattle.std.specs.Prelude.{◌≡◌, ◌<◌, ◌≤◌, true, false, length, MatchOption};
ghost use Rattle.std.specs.List.{list_all};
ghost use Rattle.httparse.specs.Grammar.{EndsInTarget, is_token, is_token_byte, is_uri_byte};
ghost use Rattle.http_head.specs.Blank.{behind_blank, space_place, is_cut_line};

use httparse::{is_method_token, is_uri_token};

/// The bytes behind the line end at the front.
fn behind_line_end(buf: &[u8]) -> Option<&[u8]>
    ensures blank { MatchOption result (behind_blank buf.now ≡ buf.now) (λ rest. behind_blank buf.now ≡ behind_blank rest.now) }
    ensures shorter { MatchOption result (behind_blank buf.now ≡ buf.now) (λ rest. length rest.now < length buf.now) }
{
    match buf {
        [b'\n', rest @ ..] => Some(rest),
        [b'\r', b'\n', rest @ ..] => Some(rest),
        _ => None,
    }
}

/// The bytes behind the empty lines at the front.
fn behind_lines(buf: &[u8]) -> &[u8]
    ensures { result.now ≡ behind_blank buf.now }
{
    let mut line = buf;
    while let Some(rest) = behind_line_end(line) {
        line = rest;
    }
    line
}

fn are_token_bytes(bytes: &[u8]) -> bool
    ensures { result ≡ list_all is_token_byte bytes.now }
{
    bytes.iter().all(|b| is_method_token(*b))
}

fn is_method(bytes: &[u8]) -> bool
    ensures { result ≡ is_token bytes.now }
{
    if bytes.is_empty() {
        return false;
    }
    are_token_bytes(bytes)
}

fn is_target(bytes: &[u8]) -> bool
    ensures { result ≡ list_all is_uri_byte bytes.now }
{
    bytes.iter().all(|b| is_uri_token(*b))
}

/// The place of the first space, or the length.
fn first_space(line: &[u8]) -> usize
    ensures value { result ≡ space_place line.now }
    ensures bound { result ≤ length line.now }
{
    let mut place = 0;
    while place < line.len() {
        if line[place] == b' ' {
            return place;
        }
        place += 1;
    }
    place
}

/// A method, a space, and then bytes of a target alone.
fn is_cut(line: &[u8]) -> bool
    ensures { result ≡ is_cut_line line.now }
{
    let place = first_space(line);
    if place == line.len() {
        return false;
    }
    if !is_method(&line[..place]) {
        return false;
    }
    is_target(&line[place + 1..])
}

/// The bytes end inside a request target, behind empty lines, a method and a space.
#[tactic(auto, using(crate::proofs::TargetLemmas::cut_ends, crate::proofs::TargetLemmas::ends_cut))]
pub(crate) fn ends_in_target(buf: &[u8]) -> bool
    ensures ends { result ≡ true → EndsInTarget buf.now }
    ensures only { result ≡ false → EndsInTarget buf.now → ⊥ }
{
    is_cut(behind_lines(buf))
}
