ghost use Rattle.std.specs.Prelude.{◌≡◌, ◌≤◌, length, take, true, false};
ghost use Rattle.std.specs.List.{list_all};
ghost use Rattle.json_token.specs.Chars.{within, is_hex, is_d, is_c_to_f, is_8_to_b, is_short, after_lead, after_plain, next_inside, goes, is_plain, has_backslash, Leads};
ghost use Rattle.json_token.specs.Scans.{ScansChars, MarksEscapes};
ghost use Rattle.json_token.specs.declared.chars.Inside.{Inside};

use crate::scan::Scan;

/// Where the bytes between two quotes stand: what may come next (RFC 8259, section 7, and for UTF-8 RFC 3629, section 4).
#[derive(Clone, Copy, Debug, PartialEq, Eq)]
pub enum Inside {
    Plain,
    Tail1,
    Tail2,
    Tail3,
    AfterE0,
    AfterEd,
    AfterF0,
    AfterF4,
    Escape,
    Unit4,
    Unit3,
    Unit2,
    Unit1,
    UnitD,
    High2,
    High1,
    LowSlash,
    LowU,
    LowD,
    LowC,
}

fn within(low: u8, high: u8, byte: u8) -> bool
    ensures { result ≡ within low high byte }
{
    low <= byte && byte <= high
}

fn goes(test: bool, to: Inside) -> Option<Inside>
    ensures { result ≡ goes test to }
{
    if test { Some(to) } else { None }
}

fn is_hex(byte: u8) -> bool
    ensures { result ≡ is_hex byte }
{
    within(48, 57, byte) || within(65, 70, byte) || within(97, 102, byte)
}

fn is_d(byte: u8) -> bool
    ensures { result ≡ is_d byte }
{
    byte == 68 || byte == 100
}

fn is_c_to_f(byte: u8) -> bool
    ensures { result ≡ is_c_to_f byte }
{
    within(67, 70, byte) || within(99, 102, byte)
}

fn is_8_to_b(byte: u8) -> bool
    ensures { result ≡ is_8_to_b byte }
{
    within(56, 57, byte) || within(65, 66, byte) || within(97, 98, byte)
}

fn is_short(byte: u8) -> bool
    ensures { result ≡ is_short byte }
{
    matches!(byte, 34 | 92 | 47 | 98 | 102 | 110 | 114 | 116)
}

fn after_lead(byte: u8) -> Option<Inside>
    ensures { result ≡ after_lead byte }
{
    match byte {
        0..=193 => None,
        194..=223 => Some(Inside::Tail1),
        224 => Some(Inside::AfterE0),
        237 => Some(Inside::AfterEd),
        225..=239 => Some(Inside::Tail2),
        240 => Some(Inside::AfterF0),
        241..=243 => Some(Inside::Tail3),
        244 => Some(Inside::AfterF4),
        245..=255 => None,
    }
}

fn after_plain(byte: u8) -> Option<Inside>
    ensures { result ≡ after_plain byte }
{
    match byte {
        0..=31 | 34 => None,
        92 => Some(Inside::Escape),
        0..=127 => Some(Inside::Plain),
        _ => after_lead(byte),
    }
}

#[tactic(auto, unfolding(crate::specs::Chars::next_inside))]
fn next_inside(inside: Inside, byte: u8) -> Option<Inside>
    ensures { result ≡ next_inside inside byte }
{
    match inside {
        Inside::Plain => after_plain(byte),
        Inside::Tail1 => goes(within(128, 191, byte), Inside::Plain),
        Inside::Tail2 => goes(within(128, 191, byte), Inside::Tail1),
        Inside::Tail3 => goes(within(128, 191, byte), Inside::Tail2),
        Inside::AfterE0 => goes(within(160, 191, byte), Inside::Tail1),
        Inside::AfterEd => goes(within(128, 159, byte), Inside::Tail1),
        Inside::AfterF0 => goes(within(144, 191, byte), Inside::Tail2),
        Inside::AfterF4 => goes(within(128, 143, byte), Inside::Tail2),
        Inside::Escape if byte == 117 => Some(Inside::Unit4),
        Inside::Escape => goes(is_short(byte), Inside::Plain),
        Inside::Unit4 if is_d(byte) => Some(Inside::UnitD),
        Inside::Unit4 => goes(is_hex(byte), Inside::Unit3),
        Inside::Unit3 => goes(is_hex(byte), Inside::Unit2),
        Inside::Unit2 => goes(is_hex(byte), Inside::Unit1),
        Inside::Unit1 => goes(is_hex(byte), Inside::Plain),
        Inside::UnitD if within(48, 55, byte) => Some(Inside::Unit2),
        Inside::UnitD => goes(is_8_to_b(byte), Inside::High2),
        Inside::High2 => goes(is_hex(byte), Inside::High1),
        Inside::High1 => goes(is_hex(byte), Inside::LowSlash),
        Inside::LowSlash => goes(byte == 92, Inside::LowU),
        Inside::LowU => goes(byte == 117, Inside::LowD),
        Inside::LowD => goes(is_d(byte), Inside::LowC),
        Inside::LowC => goes(is_c_to_f(byte), Inside::Unit2),
    }
}

/// A byte that stands for itself: printable ASCII but the quote and the backslash.
fn is_plain(byte: u8) -> bool
    ensures { result ≡ is_plain byte }
{
    within(32, 33, byte) || within(35, 91, byte) || within(93, 127, byte)
}

/// Whether each byte is plain, without a branch for each.
fn are_plain(bytes: &[u8]) -> bool
    ensures { result ≡ list_all is_plain bytes.now }
{
    let mut plain = true;
    for byte in bytes {
        plain = plain & is_plain(*byte);
    }
    plain
}

/// How many bytes at the front are plain, by blocks of 16.
fn plain_blocks(bytes: &[u8]) -> usize
    ensures inside { result ≤ length bytes.now }
    ensures plain { list_all is_plain (take result bytes.now) ≡ true }
{
    let mut at = 0;
    while bytes.len() - at >= 16 && are_plain(&bytes[at..at + 16]) {
        at += 16;
    }
    at
}

/// How many bytes at the front are plain.
fn plain_count(bytes: &[u8]) -> usize
    ensures inside { result ≤ length bytes.now }
    ensures plain { list_all is_plain (take result bytes.now) ≡ true }
{
    let mut at = plain_blocks(bytes);
    while at < bytes.len() && is_plain(bytes[at]) {
        at += 1;
    }
    at
}

/// How many bytes at the front are plain, told at the first byte where it is none.
fn plain_run(bytes: &[u8]) -> usize
    ensures inside { result ≤ length bytes.now }
    ensures plain { list_all is_plain (take result bytes.now) ≡ true }
{
    if bytes.len() == 0 || !is_plain(bytes[0]) {
        return 0;
    }
    plain_count(bytes)
}

/// Passes over the plain bytes at the place, where one may come.
fn plain_end(inside: Inside, bytes: &[u8], place: usize) -> usize
    requires { place ≤ length bytes.now }
    ensures order { place ≤ result }
    ensures inside { result ≤ length bytes.now }
    ensures leads { (p : Inside) → Leads p (take place bytes.now) inside → Leads p (take result bytes.now) inside }
    ensures plain { has_backslash (take place bytes.now) ≡ false → has_backslash (take result bytes.now) ≡ false }
{
    if inside != Inside::Plain {
        return place;
    }
    place + plain_run(&bytes[place..])
}

/// How far the bytes of a string go, up to its closing quote, and whether a backslash may be among them.
pub(crate) fn chars_end(bytes: &[u8]) -> (Scan, bool)
    ensures scan { ScansChars bytes.now result.0 }
    ensures escapes { MarksEscapes bytes.now result.0 result.1 }
{
    let mut inside = Inside::Plain;
    let mut escapes = false;
    let mut at = plain_end(inside, bytes, 0);
    while at < bytes.len() {
        let byte = bytes[at];
        if byte == 34 && inside == Inside::Plain {
            return (Scan::End(at), escapes);
        }
        match next_inside(inside, byte) {
            Some(next) => inside = next,
            None => return (Scan::Bad(at), escapes),
        }
        escapes = escapes | (byte == 92);
        at = plain_end(inside, bytes, at + 1);
    }
    (Scan::Short, escapes)
}
