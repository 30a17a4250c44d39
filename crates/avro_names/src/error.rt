use std::alloc::{AllocError, AllocFailed};

/// Why a text is no schema that is read.
#[derive(Clone, Copy, Debug, PartialEq, Eq)]
pub enum SchemaNo {
    /// The text is no JSON text.
    NotJson,
    /// A value has a shape that no schema has there.
    BadType,
    /// A name isn't that of a type, nor of one that was defined before.
    UnknownName,
    /// A type of this fullname was defined before.
    Redefined,
    /// A name isn't spelled as names are, or is taken.
    BadName,
    /// `float` or `double`.
    Float,
    /// JSON nests deeper than 127 levels, or types deeper than 64.
    TooDeep,
    /// The canonical form is longer than 65,536 bytes. It comes behind each other fault of the text.
    TooLong,
    /// There was no memory.
    Want,
}

impl From<AllocError> for SchemaNo {
    ghost use Rattle.std.specs.Prelude.{◌≡◌};
    ghost use Rattle.avro_names.specs.declared.error.SchemaNo.TheVariants.{Want};

    ghost from_gives = { λ _ e. e ≡ Want };

    fn from(_: AllocError) -> SchemaNo {
        SchemaNo::Want
    }
}

impl<T: Drop> From<AllocFailed<T>> for SchemaNo {
    ghost use Rattle.std.specs.Prelude.{◌≡◌};
    ghost use Rattle.avro_names.specs.declared.error.SchemaNo.TheVariants.{Want};

    ghost from_gives = { λ _ e. e ≡ Want };

    fn from(_: AllocFailed<T>) -> SchemaNo {
        SchemaNo::Want
    }
}
