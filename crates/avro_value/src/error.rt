//! Why a datum isn't read or written.
ghost use Rattle.std.specs.Prelude.{◌≡◌};
ghost use Rattle.avro_value.specs.declared.error.AvroNo.TheVariants.{Want};

use std::alloc::{AllocError, AllocFailed};

/// Why a datum isn't read or written. A number counts the datum's nodes in preorder, from 0.
#[derive(Clone, Copy, Debug, PartialEq, Eq)]
pub enum AvroNo {
    /// The node isn't of its schema.
    Mismatch(u32),
    /// The node is an integer outside its type.
    Range(u32),
    /// The bytes end inside the datum.
    Short,
    /// Bytes follow the datum.
    Rest,
    /// A text isn't UTF-8.
    BadUtf8,
    /// The datum nests more than 64 levels deep.
    TooDeep,
    /// The datum has more than 1,000,000 nodes.
    TooMany,
    /// There was no memory.
    Want,
}

impl From<AllocError> for AvroNo {
    ghost from_gives = { λ _ e. e ≡ Want };

    fn from(_: AllocError) -> Self {
        AvroNo::Want
    }
}

impl<T: Drop> From<AllocFailed<T>> for AvroNo {
    ghost from_gives = { λ _ e. e ≡ Want };

    fn from(_: AllocFailed<T>) -> Self {
        AvroNo::Want
    }
}

impl From<gate_io::Want> for AvroNo {
    ghost from_gives = { λ _ e. e ≡ Want };

    fn from(_: gate_io::Want) -> Self {
        AvroNo::Want
    }
}
