ghost use Rattle.std.specs.Prelude.{◌≡◌, ◌<◌, ◌++◌, ℕ, List, length, option_map};
ghost use Rattle.model.specs.state.Hashes.{mixed, murmur2, murmur_end, murmur_on, partition_of};

const TIMES: u32 = 0x5bd1_e995;

const SEED: u32 = 0x9747_b28c;

/// What four bytes bring to the hash.
fn mixed(four: u32) -> u32
    ensures { result ≡ mixed four }
{
    let k = four.wrapping_mul(TIMES);
    (k ^ (k >> 24)).wrapping_mul(TIMES)
}

/// The hash behind the one to three bytes that are left, or none.
fn behind_last(hash: u32, last: &[u8]) -> u32
    requires { length last.now < 4 }
    ensures { result ≡ murmur_on hash last.now }
{
    match last {
        [] => hash,
        [a] => (hash ^ u32::from(*a)).wrapping_mul(TIMES),
        [a, b] => (hash ^ (u32::from(*b) << 8) ^ u32::from(*a)).wrapping_mul(TIMES),
        [a, b, c, ..] => {
            (hash ^ (u32::from(*c) << 16) ^ (u32::from(*b) << 8) ^ u32::from(*a)).wrapping_mul(
                TIMES,
            )
        }
    }
}

/// The last stirring.
fn ended(hash: u32) -> u32
    ensures { result ≡ murmur_end hash }
{
    let hash = (hash ^ (hash >> 13)).wrapping_mul(TIMES);
    hash ^ (hash >> 15)
}

/// The hash behind four bytes.
fn behind_four(hash: u32, four: &[u8; 4]) -> u32
    ensures { (rest : List ℕ) → murmur_on result rest ≡ murmur_on hash (four.now ++ rest) }
{
    let [a, b, c, d] = four;
    hash.wrapping_mul(TIMES) ^ mixed(u32::from_le_bytes([*a, *b, *c, *d]))
}

/// The murmur2 hash of a key, as Kafka's clients have it.
fn murmur2(key: &[u8]) -> u32
    ensures { result ≡ murmur2 key.now }
{
    let mut hash = SEED ^ (key.len() % 0x1_0000_0000) as u32;
    let mut rest = key;
    while let Some((four, after)) = rest.split_first_chunk::<4>() {
        hash = behind_four(hash, four);
        rest = after;
    }
    ended(behind_last(hash, rest))
}

/// The partition, of `count`, of a record that names none: by its key's murmur2 hash without the sign
/// bit, as Kafka's default partitioner has it, or without a key by the record's index in its request.
pub fn partition_of(key: Option<&[u8]>, index: usize, count: u32) -> u32
    requires { 0 < count }
    ensures { result ≡ partition_of (option_map (λ k. k.now) key.entry) index count }
{
    match key {
        Some(key) => murmur2(key) % 0x8000_0000 % count,
        None => (index % count as usize) as u32,
    }
}
