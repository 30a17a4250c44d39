ghost use Rattle.std.specs.Prelude.{◌≡◌, ◌+◌, ◌-◌, ◌<◌, ◌≤◌, ◌++◌, length, take, drop, get_or, IfOk, IfErr, string_bytes};
ghost use Rattle.std.specs.Prelude.{IsTrue, [], ◌∷◌, false};
ghost use Rattle.json_token.specs.Chars.{Behind, backslash, letter_u, content, content_behind, short_escape, code_unit, pair_of, is_high, char_bytes, IsChars, has_backslash};
ghost use Rattle.std.specs.Char.{digit_value};

use crate::error::JsonNo;
use gate_io::Text;
use std::alloc::Global;

/// What a backslash and this byte stand for.
fn short_escape(byte: u8) -> u8
    ensures { result ≡ short_escape byte }
{
    match byte {
        98 => 8,
        102 => 12,
        110 => 10,
        114 => 13,
        116 => 9,
        _ => byte,
    }
}

fn digit_value(byte: u8) -> u32
    ensures value { result ≡ digit_value byte }
    ensures small { result ≤ 36 }
{
    match byte {
        48..=57 => u32::from(byte - 48),
        65..=90 => u32::from(byte - 55),
        97..=122 => u32::from(byte - 87),
        _ => 36,
    }
}

/// The code unit of four hexadecimal digits.
fn code_unit(a: u8, b: u8, c: u8, d: u8) -> u32
    ensures value { result ≡ code_unit a b c d }
    ensures small { result < 160000 }
{
    digit_value(a) * 4096 + digit_value(b) * 256 + digit_value(c) * 16 + digit_value(d)
}

/// Puts the character behind the bytes, if it is one.
fn push_char(code: u32, out: &mut Vec<u8>) -> Result<(), JsonNo>
    ensures ok { IfOk result (λ _. out.new.items ≡ out.old.items ++ char_bytes code) }
    ensures want { IfErr result (λ e. e ≡ JsonNo.Want) }
{
    let Some(char) = char::from_u32(code) else {
        return Ok(());
    };
    let mut buffer = [0; 4];
    let encoded = char.encode_utf8(&mut buffer);
    out.extend_from_slice(encoded.as_bytes())?;
    Ok(())
}

fn push_byte(byte: u8, out: &mut Vec<u8>) -> Result<(), JsonNo>
    ensures ok { IfOk result (λ _. out.new.items ≡ out.old.items ++ byte ∷ []) }
    ensures want { IfErr result (λ e. e ≡ JsonNo.Want) }
{
    out.push(byte)?;
    Ok(())
}

/// The second unit of a pair, behind the first: the bytes that were passed.
fn low(high: u32, rest: &[u8], out: &mut Vec<u8>) -> Result<usize, JsonNo>
    requires { IsTrue (is_high high) }
    ensures ok { IfOk result (λ n. out.new.items ++ content (drop n rest.now)
        ≡ out.old.items ++ content_behind (Behind.high high) rest.now) }
    ensures bound { IfOk result (λ n. n ≤ length rest.now) }
    ensures want { IfErr result (λ e. e ≡ JsonNo.Want) }
{
    if rest.len() < 6 {
        return Ok(rest.len());
    }
    let unit = code_unit(rest[2], rest[3], rest[4], rest[5]);
    let code = 0x10000 + (high - 0xd800) * 1024 + unit.saturating_sub(0xdc00);
    match push_char(code, out) {
        Ok(()) => Ok(6),
        Err(e) => Err(e),
    }
}

/// The unit behind `\u`, and the second one of a pair: the bytes that were passed.
fn unit(rest: &[u8], out: &mut Vec<u8>) -> Result<usize, JsonNo>
    ensures ok { IfOk result (λ n. out.new.items ++ content (drop n rest.now)
        ≡ out.old.items ++ content_behind letter_u rest.now) }
    ensures bound { IfOk result (λ n. n ≤ length rest.now) }
    ensures want { IfErr result (λ e. e ≡ JsonNo.Want) }
{
    if rest.len() < 4 {
        return Ok(rest.len());
    }
    let unit = code_unit(rest[0], rest[1], rest[2], rest[3]);
    if is_high(unit) {
        return match low(unit, &rest[4..], out) {
            Ok(n) => Ok(n + 4),
            Err(e) => Err(e),
        };
    }
    match push_char(unit, out) {
        Ok(()) => Ok(4),
        Err(e) => Err(e),
    }
}

fn is_high(unit: u32) -> bool
    ensures { result ≡ is_high unit }
{
    0xd800 <= unit && unit <= 0xdbff
}

/// What stands behind a backslash: the bytes that were passed.
fn escape(rest: &[u8], out: &mut Vec<u8>) -> Result<usize, JsonNo>
    ensures ok { IfOk result (λ n. out.new.items ++ content (drop n rest.now)
        ≡ out.old.items ++ content_behind backslash rest.now) }
    ensures bound { IfOk result (λ n. n ≤ length rest.now) }
    ensures want { IfErr result (λ e. e ≡ JsonNo.Want) }
{
    if rest.len() == 0 {
        return Ok(0);
    }
    if rest[0] == 117 {
        return match unit(&rest[1..], out) {
            Ok(n) => Ok(n + 1),
            Err(e) => Err(e),
        };
    }
    match push_byte(short_escape(rest[0]), out) {
        Ok(()) => Ok(1),
        Err(e) => Err(e),
    }
}

/// How many bytes stand before the first backslash.
fn own_count(bytes: &[u8]) -> usize
    ensures inside { result ≤ length bytes.now }
    ensures own { has_backslash (take result bytes.now) ≡ false }
    ensures stops { result < length bytes.now → get_or bytes.now result 0 ≡ 92 }
{
    for (i, byte) in bytes.iter().enumerate() {
        if *byte == 92 {
            return i;
        }
    }
    bytes.len()
}

/// The text that the bytes between the quotes of a string stand for (RFC 8259, section 7): each escape as its character, a pair of
/// surrogates as one, all else as it stands. `Want` is the only error.
pub fn unescape(alloc: Global, chars: &[u8]) -> Result<Text, JsonNo>
    requires { IsChars chars.now }
    ensures ok { IfOk result (λ t. t ≡ content chars.now) }
    ensures want { IfErr result (λ e. e ≡ JsonNo.Want) }
{
    let mut out = Vec::with_capacity(alloc, chars.len())?;
    let mut at = 0;
    loop {
        let run = own_count(&chars[at..]);
        out.extend_from_slice(&chars[at..at + run])?;
        at += run;
        if at == chars.len() {
            let text = unsafe { String::from_utf8_unchecked(out) };
            return Ok(Text::from_string(text));
        }
        at += 1;
        match escape(&chars[at..], &mut out) {
            Ok(n) => at += n,
            Err(e) => return Err(e),
        }
    }
}
