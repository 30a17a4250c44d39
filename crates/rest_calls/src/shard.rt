ghost use Rattle.std.specs.Prelude.{◌≡◌};
ghost use Rattle.model.specs.state.Hashes.{fnv1a, shard_of};

/// FNV-1a of 64 bits.
fn fnv1a(bytes: &[u8]) -> u64
    ensures { result ≡ fnv1a bytes.now }
{
    let mut hash: u64 = 0xcbf2_9ce4_8422_2325;
    let mut rest = bytes;
    while let Some((byte, after)) = rest.split_first() {
        hash = (hash ^ u64::from(*byte)).wrapping_mul(0x100_0000_01b3);
        rest = after;
    }
    hash
}

/// The number of the shard, 0 to 15, that has the key with these bytes: their FNV-1a hash of 64 bits
/// (Fowler, Noll and Vo), modulo 16.
pub fn shard_of(key: &[u8]) -> u32
    ensures { result ≡ shard_of key.now }
{
    (fnv1a(key) % 16) as u32
}
