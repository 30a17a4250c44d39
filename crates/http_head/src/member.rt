ghost use Rattle.std.specs.Prelude.{◌≡◌, ◌<◌, ◌≤◌, ◌∷◌, [], ℕ, false, MatchOption, length, map, get_or};
ghost use Rattle.std.specs.List.{list_all, list_any, position_or_len, slice_split};
ghost use Rattle.std.specs.Str.{bytes_eq};
ghost use Rattle.std.specs.Char.{to_ascii_lowercase};
ghost use Rattle.httparse.specs.Grammar.{is_ows, skip_ows};
ghost use Rattle.http_head.specs.Member.{is_comma, is_word, has_member};

fn is_blank(byte: u8) -> bool
    ensures { result ≡ is_ows byte }
{
    byte == b' ' || byte == b'\t'
}

/// The bytes behind the blank at the front.
fn behind_blank(text: &[u8]) -> Option<&[u8]>
    ensures blank { MatchOption result (skip_ows text.now ≡ text.now) (λ rest. skip_ows text.now ≡ skip_ows rest.now) }
    ensures shorter { MatchOption result (skip_ows text.now ≡ text.now) (λ rest. length rest.now < length text.now) }
{
    match text {
        [first, rest @ ..] if is_blank(*first) => Some(rest),
        _ => None,
    }
}

/// The bytes behind the blanks at the front.
fn behind_blanks(text: &[u8]) -> &[u8]
    ensures { result.now ≡ skip_ows text.now }
{
    let mut line = text;
    while let Some(rest) = behind_blank(line) {
        line = rest;
    }
    line
}

fn are_blanks(bytes: &[u8]) -> bool
    ensures { result ≡ list_all is_ows bytes.now }
{
    bytes.iter().all(|b| is_blank(*b))
}

fn is_same(text: &[u8], word: &[u8]) -> bool
    ensures { result ≡ bytes_eq (map to_ascii_lowercase text.now) (map to_ascii_lowercase word.now) }
{
    text.eq_ignore_ascii_case(word)
}

/// The text is this word, between spaces and tabs.
pub fn is_word(word: &[u8], text: &[u8]) -> bool
    ensures { result ≡ is_word word.now text.now }
{
    let rest = behind_blanks(text);
    let end = word.len().min(rest.len());
    is_same(&rest[..end], word) && are_blanks(&rest[end..])
}

/// The place of the first comma, or the length.
fn comma_place(value: &[u8]) -> usize
    ensures value { result ≡ position_or_len is_comma value.now }
    ensures none { (k : ℕ) → k < result → is_comma (get_or value.now k 0) ≡ false }
    ensures bound { result ≤ length value.now }
{
    let mut place = 0;
    while place < value.len() {
        if value[place] == b',' {
            return place;
        }
        place += 1;
    }
    place
}

/// The first member and those behind its comma. None where there is no comma.
pub fn first_member(value: &[u8]) -> Option<(&[u8], &[u8])>
    ensures parts { MatchOption result (slice_split is_comma value.now ≡ value.now ∷ []) (λ p. slice_split is_comma value.now ≡ p.0.now ∷ slice_split is_comma p.1.now) }
    ensures shorter { MatchOption result (slice_split is_comma value.now ≡ value.now ∷ []) (λ p. length p.1.now < length value.now) }
{
    let place = comma_place(value);
    if place == value.len() {
        return None;
    }
    Some((&value[..place], &value[place + 1..]))
}

/// One of the members is the word.
pub(crate) fn has_member(word: &[u8], value: &[u8]) -> bool
    ensures { result ≡ has_member word.now value.now }
{
    let mut rest = value;
    while let Some((member, behind)) = first_member(rest) {
        if is_word(word, member) {
            return true;
        }
        rest = behind;
    }
    is_word(word, rest)
}
