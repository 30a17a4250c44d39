//! Hashes on worked values.

ghost use Rattle.std.specs.Prelude.{◌≡◌, ◌%◌, codes, [], Some, None};
ghost use Rattle.model.specs.state.Hashes.{murmur2, partition_of, shard_of};
ghost use Rattle.model.specs.state.World.{key_bytes};

/// The hash that chooses a record's partition is murmur2 as Kafka's clients have it: of `abc` it is
/// 479470107 without the sign bit, so partition 1 of 2, and Kafka's own tests have `21` at -973932308
/// and `foobar` at -790332482. Records without a key go round by their index.
pub fn partitions_are_those_of_kafka()
    ensures abc { murmur2 (codes "abc") % 2147483648 ≡ 479470107 }
    ensures abc_of_two { partition_of (Some (codes "abc")) 0 2 ≡ 1 }
    ensures two_bytes { murmur2 (codes "21") ≡ 3321034988 }
    ensures six_bytes { murmur2 (codes "foobar") ≡ 3504634814 }
    ensures keyless { partition_of None 0 2 ≡ 0 × partition_of None 1 2 ≡ 1 × partition_of None 2 2 ≡ 0 }
{}

/// A key's shard is its FNV-1a hash modulo 16: that of group `g` and instance `c1` is 6, that of
/// topic `orders` 12, that of no bytes 5.
pub fn shards_are_by_fnv()
    ensures consumer { shard_of (key_bytes (record { group = codes "g"; instance = codes "c1" })) ≡ 6 }
    ensures topic { shard_of (codes "orders") ≡ 12 }
    ensures none { shard_of [] ≡ 5 }
{}
