ghost use Rattle.std.specs.Prelude.{◌≡◌, ◌<◌, ◌^◌, IfSome};
ghost use Rattle.json_token.specs.Integer.{magnitude_of, integer_of};

/// What digits alone spell, at most 38 of them.
fn magnitude(digits: &[u8]) -> Option<u128>
    ensures value { result ≡ magnitude_of digits.now }
    ensures small { IfSome result (λ n. n < 10 ^ 38) }
{
    if digits.len() > 38 {
        return None;
    }
    let mut value: u128 = 0;
    for digit in digits {
        if *digit < 48 || 57 < *digit {
            return None;
        }
        value = value * 10 + u128::from(*digit - 48);
    }
    Some(value)
}

/// The integer that the text of a number is; `None` where it has a fraction, an exponent, or more than 38 digits.
pub fn integer_of(text: &[u8]) -> Option<i128>
    ensures { result ≡ integer_of text.now }
{
    if text.len() == 0 {
        return None;
    }
    if text[0] == 45 {
        return match magnitude(&text[1..]) {
            Some(value) => Some(-(value as i128)),
            None => None,
        };
    }
    match magnitude(text) {
        Some(value) => Some(value as i128),
        None => None,
    }
}
