//! CRC-32C, eight bytes at a time.
ghost use Rattle.std.specs.Prelude.{◌≡◌, ◌<◌, ◌+◌, ◌-◌, ◌^◌, length, fold, bit_xor};
ghost use Rattle.wire_prim.specs.Crc.{byte_step, checksum, steps, zero_bytes};

use crate::tables::TABLES;

// What a byte does, with so many zero bytes behind it.
fn part(behind: usize, byte: u8) -> u32
    requires { behind < 8 }
    ensures { result ≡ zero_bytes (behind + 1) byte }
{
    TABLES[behind][byte as usize]
}

fn after_byte(crc: u32, byte: u8) -> u32
    ensures { result ≡ byte_step crc byte }
{
    (crc >> 8) ^ part(0, (crc % 256) as u8 ^ byte)
}

fn after_eight(crc: u32, bytes: &[u8; 8]) -> u32
    ensures { result ≡ fold byte_step crc bytes.now }
{
    let [a, b, c, d, e, f, g, h] = bytes;
    let low = crc ^ u32::from_le_bytes([*a, *b, *c, *d]);
    let first = part(7, (low % 256) as u8);
    let second = part(6, ((low >> 8) % 256) as u8);
    let third = part(5, ((low >> 16) % 256) as u8);
    let fourth = part(4, ((low >> 24) % 256) as u8);
    let rest = part(3, *e) ^ (part(2, *f) ^ (part(1, *g) ^ part(0, *h)));
    first ^ (second ^ (third ^ (fourth ^ rest)))
}

/// The checksum of a record batch, a CRC-32C (RFC 3720, section 12.1). Of no bytes it is 0.
#[tactic(auto, unfolding(crate::specs::Crc::checksum))]
pub fn crc32c(bytes: &[u8]) -> u32
    ensures { result ≡ checksum bytes.now }
{
    let mut crc = u32::MAX;
    let mut rest = bytes;
    while let Some((chunk, after)) = rest.split_first_chunk::<8>() {
        crc = after_eight(crc, chunk);
        rest = after;
    }
    for byte in rest {
        crc = after_byte(crc, *byte);
    }
    crc ^ u32::MAX
}
