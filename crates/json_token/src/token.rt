ghost use Rattle.std.specs.Prelude.{◌≡◌, ◌+◌, ◌-◌, ◌<◌, ◌≤◌, length, take, drop};
ghost use Rattle.std.specs.Prelude.{get_or, IfOk, IfErr, true, false};
ghost use Rattle.json_token.specs.TokenEnds.{Skips, QuotedTo, QuotedFails, NumberTo, NumberFails, begins_number, WordTo, WordFails};
ghost use Rattle.json_token.specs.Tokens.{is_blank};
ghost use Rattle.json_token.specs.Chars.{has_backslash};

use crate::chars::chars_end;
use crate::error::JsonNo;
use crate::number::number_end;
use crate::scan::Scan;

fn is_blank(byte: u8) -> bool
    ensures { result ≡ is_blank byte }
{
    byte == 32 || byte == 10 || byte == 13 || byte == 9
}

/// The first place from `place` on that isn't white space (RFC 8259, section 2): space, tab, line feed, carriage return.
/// It is the end of the bytes where no other byte comes.
pub fn skip_blanks(bytes: &[u8], place: usize) -> usize
    requires { place ≤ length bytes.now }
    ensures { Skips bytes.now place result }
{
    let mut at = place;
    while at < bytes.len() && is_blank(bytes[at]) {
        at += 1;
    }
    at
}

/// Where the string whose opening quote stands at `place` ends, behind its closing quote (RFC 8259, section 7), and whether a
/// backslash may be in it. `BadByte` names the byte at which no string goes on, `Cut` says that more bytes are wanted.
pub fn string_end(bytes: &[u8], place: usize) -> Result<(usize, bool), JsonNo>
    requires inside { place < length bytes.now }
    requires quote { get_or bytes.now place 0 ≡ 34 }
    ensures ok { IfOk result (λ r. QuotedTo bytes.now place r.0) }
    ensures escapes { IfOk result (λ r. r.1 ≡ false
        → has_backslash (take (r.0 - 1 - (place + 1)) (drop (place + 1) bytes.now)) ≡ false) }
    ensures err { IfErr result (QuotedFails bytes.now place) }
{
    let start = place + 1;
    let (scan, escapes) = chars_end(&bytes[start..]);
    match scan {
        Scan::End(len) => Ok((start + len + 1, escapes)),
        Scan::Bad(len) => Err(JsonNo::BadByte(start + len)),
        Scan::Short => Err(JsonNo::Cut),
    }
}

/// Where the number that begins at `place` ends (RFC 8259, section 6): the longest that stands there. `BadByte` names the byte
/// at which no number goes on or may end, `Cut` says that more bytes are wanted.
pub fn numeral_end(bytes: &[u8], place: usize) -> Result<usize, JsonNo>
    requires inside { place < length bytes.now }
    requires begins { begins_number (get_or bytes.now place 0) ≡ true }
    ensures ok { IfOk result (NumberTo bytes.now place) }
    ensures err { IfErr result (NumberFails bytes.now place) }
{
    match number_end(&bytes[place..]) {
        Scan::End(len) => Ok(place + len),
        Scan::Bad(len) => Err(JsonNo::BadByte(place + len)),
        Scan::Short => Err(JsonNo::Cut),
    }
}

/// Where `word`, one of the literal names (RFC 8259, section 3), ends if it stands at `place`. `BadByte` names the first byte
/// that differs, `Cut` says that the bytes end inside the word.
pub fn word_end(bytes: &[u8], place: usize, word: &[u8]) -> Result<usize, JsonNo>
    requires inside { place ≤ length bytes.now }
    ensures ok { IfOk result (WordTo bytes.now word.now place) }
    ensures err { IfErr result (WordFails bytes.now word.now place) }
{
    for (i, expected) in word.iter().enumerate() {
        if bytes.len() - place <= i {
            return Err(JsonNo::Cut);
        }
        if bytes[place + i] != *expected {
            return Err(JsonNo::BadByte(place + i));
        }
    }
    Ok(place + word.len())
}

/// Whether a number may begin with this byte (RFC 8259, section 6): a minus or a digit.
pub fn begins_number(byte: u8) -> bool
    ensures { result ≡ begins_number byte }
{
    byte == 45 || (48 <= byte && byte < 58)
}
