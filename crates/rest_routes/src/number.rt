ghost use Rattle.std.specs.Prelude.{◌≡◌, ◌<◌, ◌^◌, SomeIff, pos};

use std::marker::Model;

/// The number of a partition, up to 2147483647.
#[derive(Debug, Drop)]
pub struct PartitionNumber {
    value: u32,
    ghost whole: { value < 2 ^ 31 },
}

impl Model for PartitionNumber {
    ghost use Rattle.std.specs.Prelude.{ℕ};

    ghost Value = { ℕ };

    ghost view = { λ n. n.value };
}

impl PartitionNumber {
    pub(crate) fn new(value: u64) -> Option<PartitionNumber>
        ensures { SomeIff result (value < 2 ^ 31) value }
    {
        if value < 1 << 31 {
            Some(PartitionNumber {
                value: value as u32,
            })
        } else {
            None
        }
    }

    pub fn value(&self) -> i32
        ensures value { result ≡ pos self.now }
        ensures low { self.now < 2 ^ 31 }
    {
        self.value as i32
    }
}
