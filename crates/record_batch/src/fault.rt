//! Why record batches don't read.
ghost use Rattle.std.specs.Prelude.{◌≡◌};
ghost use Rattle.record_batch.specs.declared.fault.BatchFault.TheVariants.{Want};

use std::alloc::AllocError;

/// Why record batches don't read.
#[derive(Clone, Copy, Debug, PartialEq, Eq)]
pub enum BatchFault {
    /// A format other than 2.
    BadMagic(i8),
    /// The checksum that is kept isn't that of the bytes.
    BadCrc { kept: u32, computed: u32 },
    /// The batch is compressed, by this codec.
    Codec(u8),
    /// A batch of a transaction or of control records.
    Control,
    /// The place of an item that doesn't read or is out of its bounds, or of a byte left over.
    BadRecord(usize),
    /// There was no memory.
    Want,
}

impl From<AllocError> for BatchFault {
    ghost from_gives = { λ _ e. e ≡ Want };

    fn from(_: AllocError) -> Self {
        BatchFault::Want
    }
}
