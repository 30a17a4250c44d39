ghost use Rattle.std.specs.Prelude.{◌≡◌, ◌+◌, ◌-◌, ◌<◌, ◌≤◌, length, take, drop};
ghost use Rattle.json_token.specs.Number.{next_part, may_end, is_digit, is_leading, is_mark, after_minus, after_digits, after_whole};
ghost use Rattle.json_token.specs.Scans.{ScansNumber};

use crate::scan::Scan;

/// Where a number stands: what was read of it last (RFC 8259, section 6).
#[derive(Clone, Copy, Debug, PartialEq, Eq)]
pub enum Part {
    Start,
    Whole,
    Zero,
    Digits,
    Point,
    Fraction,
    Mark,
    Sign,
    Exponent,
}

fn is_digit(byte: u8) -> bool
    ensures { result ≡ is_digit byte }
{
    48 <= byte && byte < 58
}

fn is_leading(byte: u8) -> bool
    ensures { result ≡ is_leading byte }
{
    49 <= byte && byte < 58
}

fn is_mark(byte: u8) -> bool
    ensures { result ≡ is_mark byte }
{
    byte == 101 || byte == 69
}

fn after_minus(byte: u8) -> Option<Part>
    ensures { result ≡ after_minus byte }
{
    if byte == 48 {
        return Some(Part::Zero);
    }
    if is_leading(byte) {
        return Some(Part::Digits);
    }
    None
}

fn after_digits(byte: u8) -> Option<Part>
    ensures { result ≡ after_digits byte }
{
    if is_mark(byte) {
        return Some(Part::Mark);
    }
    None
}

fn after_whole(byte: u8) -> Option<Part>
    ensures { result ≡ after_whole byte }
{
    if byte == 46 {
        return Some(Part::Point);
    }
    after_digits(byte)
}

#[tactic(auto, unfolding(crate::specs::Number::next_part))]
fn next_part(part: Part, byte: u8) -> Option<Part>
    ensures { result ≡ next_part part byte }
{
    match part {
        Part::Start if byte == 45 => Some(Part::Whole),
        Part::Start | Part::Whole => after_minus(byte),
        Part::Zero => after_whole(byte),
        Part::Digits if is_digit(byte) => Some(Part::Digits),
        Part::Digits => after_whole(byte),
        Part::Point | Part::Fraction if is_digit(byte) => Some(Part::Fraction),
        Part::Point => None,
        Part::Fraction => after_digits(byte),
        Part::Mark if byte == 43 || byte == 45 => Some(Part::Sign),
        Part::Mark | Part::Sign | Part::Exponent if is_digit(byte) => Some(Part::Exponent),
        Part::Mark | Part::Sign | Part::Exponent => None,
    }
}

fn may_end(part: Part) -> bool
    ensures { result ≡ may_end part }
{
    match part {
        Part::Zero | Part::Digits | Part::Fraction | Part::Exponent => true,
        Part::Start | Part::Whole | Part::Point | Part::Mark | Part::Sign => false,
    }
}

/// How far the number at the front goes.
pub(crate) fn number_end(bytes: &[u8]) -> Scan
    ensures { ScansNumber bytes.now result }
{
    let mut part = Part::Start;
    for (i, byte) in bytes.iter().enumerate() {
        match next_part(part, *byte) {
            Some(next) => part = next,
            None if may_end(part) => return Scan::End(i),
            None => return Scan::Bad(i),
        }
    }
    if may_end(part) {
        Scan::End(bytes.len())
    } else {
        Scan::Short
    }
}
