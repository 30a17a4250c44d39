use std::alloc::{AllocError, AllocFailed};

/// Why bytes are no JSON text that is read. Places count bytes from 0.
#[derive(Clone, Copy, Debug, PartialEq, Eq)]
pub enum JsonNo {
    /// At this byte no JSON text of any depth goes on; before it one does.
    BadByte(usize),
    /// The bytes end before a JSON text does: more of them may make one.
    Cut,
    /// An array or an object begins inside 127 others. Nothing is said of what stands behind it.
    TooDeep,
    /// Out of memory.
    Want,
}

impl From<AllocError> for JsonNo {
    ghost use Rattle.std.specs.Prelude.{◌≡◌};
    ghost use Rattle.json_token.specs.declared.error.JsonNo.TheVariants.{Want};

    ghost from_gives = { λ _ e. e ≡ Want };

    fn from(_: AllocError) -> JsonNo {
        JsonNo::Want
    }
}

impl<T: Drop> From<AllocFailed<T>> for JsonNo {
    ghost use Rattle.std.specs.Prelude.{◌≡◌};
    ghost use Rattle.json_token.specs.declared.error.JsonNo.TheVariants.{Want};

    ghost from_gives = { λ _ e. e ≡ Want };

    fn from(_: AllocFailed<T>) -> JsonNo {
        JsonNo::Want
    }
}
