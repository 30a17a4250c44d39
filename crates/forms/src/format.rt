ghost use Rattle.std.specs.Prelude.{◌≡◌};

use std::alloc::AllocError;

/// An embedded format: how a key or a value stands in the JSON of a request and of a reply.
#[derive(Clone, Copy, Debug, PartialEq, Eq)]
pub enum Format {
    /// A text of base64 (RFC 4648, section 4, with padding) is stored as the bytes that it stands for.
    Binary,
    /// A value is stored as its text without white space between tokens (RFC 8259).
    Json,
}

/// Why a value can't be stored, or stored bytes can't be shown. `Base64`: the value isn't a text of
/// base64. `Json`: the bytes aren't a JSON text, nested at most 127 levels deep. `Want`: there was no
/// memory.
#[derive(Clone, Copy, Debug, PartialEq, Eq)]
pub enum FormNo {
    Base64,
    Json,
    Want,
}

impl From<AllocError> for FormNo {
    ghost use Rattle.forms.specs.declared.format.FormNo.TheVariants.{Want};

    ghost from_gives = { λ _ e. e ≡ Want };

    fn from(_: AllocError) -> Self {
        FormNo::Want
    }
}
