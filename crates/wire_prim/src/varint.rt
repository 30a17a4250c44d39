//! Integers of variable length: zigzag, in groups of seven bits.
ghost use Rattle.std.specs.Prelude.{◌≡◌, ◌<◌, ◌≤◌, ◌^◌, length, min};
ghost use Rattle.wire_prim.specs.Varint.{grouped, lead, unzigzag, varint_bytes, zigzag};

/// How many bytes at the front have the highest bit, at most so many.
pub fn lead(bytes: &[u8], limit: usize) -> usize
    ensures { result ≡ min limit (lead bytes.now) }
{
    let front = &bytes[..limit.min(bytes.len())];
    for (index, byte) in front.iter().enumerate() {
        if *byte < 128 {
            return index;
        }
    }
    front.len()
}

/// The number that at most nine groups make.
pub fn few_grouped(bytes: &[u8]) -> u64
    requires { length bytes.now ≤ 9 }
    ensures value { result ≡ grouped bytes.now }
    ensures bound { result < 128 ^ length bytes.now }
{
    match bytes {
        [] => 0,
        [byte, rest @ ..] => u64::from(*byte % 128) + 128 * few_grouped(rest),
    }
}

/// The number that the groups make.
pub fn grouped(bytes: &[u8]) -> u128
    requires { length bytes.now ≤ 10 }
    ensures value { result ≡ grouped bytes.now }
    ensures bound { result < 128 ^ length bytes.now }
{
    match bytes {
        [] => 0,
        [byte, rest @ ..] => u128::from(*byte % 128) + 128 * grouped(rest),
    }
}

/// The integer that a zigzag number stands for: 0, -1, 1, -2 and so on in turn.
pub fn unzigzag(number: u64) -> i64
    ensures { result ≡ unzigzag number }
{
    let half = (number / 2) as i64;
    if number % 2 == 0 { half } else { -half - 1 }
}

/// The zigzag number of an integer: twice it, or one less than twice its size below 0.
pub fn zigzag(value: i64) -> u64
    ensures { result ≡ zigzag value }
{
    if value < 0 {
        (value.unsigned_abs() - 1) * 2 + 1
    } else {
        value.unsigned_abs() * 2
    }
}

/// How many bytes the shortest spelling of a VARINT has: 1 to 5.
pub fn varint_len(value: i32) -> usize
    ensures value { result ≡ length (varint_bytes value) }
    ensures few { result ≤ 5 }
{
    match zigzag(i64::from(value)) {
        0..=0x7f => 1,
        0x80..=0x3fff => 2,
        0x4000..=0x1f_ffff => 3,
        0x20_0000..=0xfff_ffff => 4,
        _ => 5,
    }
}
