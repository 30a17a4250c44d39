//! Why an item doesn't read.
ghost use Rattle.std.specs.Prelude.{◌≡◌};
ghost use Rattle.wire_prim.specs.declared.error.PrimNo.TheVariants.{Want};

use std::alloc::AllocError;

/// Why an item doesn't read.
#[derive(Clone, Copy, Debug, PartialEq, Eq)]
pub enum PrimNo {
    /// The bytes end inside the item.
    Short,
    /// A varint has more bytes than its type needs, or a value that its type doesn't hold.
    TooLong,
    /// A string isn't UTF-8.
    BadUtf8,
    /// A length is below 0, or below -1 where null may stand.
    Negative,
    /// There was no memory.
    Want,
}

impl From<AllocError> for PrimNo {
    ghost from_gives = { λ _ e. e ≡ Want };

    fn from(_: AllocError) -> Self {
        PrimNo::Want
    }
}
