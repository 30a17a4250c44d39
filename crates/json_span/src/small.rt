ghost use Rattle.std.specs.Prelude.{◌≡◌};
ghost use Rattle.json_span.specs.NodeList.{kind_kept};

use crate::tree::Kind;

/// What a node is, and where what it keeps besides its source text stands among the parts of its kind.
#[derive(Clone, Copy, Debug)]
pub(crate) enum Kept {
    Null,
    Bool(bool),
    Number,
    Plain,
    Escaped(u32),
    NoItems,
    Array(u32),
    NoMembers,
    Object(u32),
}

/// A node in 16 bytes.
#[derive(Clone, Copy, Debug)]
pub(crate) struct Small {
    pub(crate) start: u32,
    pub(crate) end: u32,
    pub(crate) kept: Kept,
}

/// What a node is of which this is kept.
pub(crate) fn kind_of(kept: Kept) -> Kind
    ensures { result ≡ kind_kept kept }
{
    match kept {
        Kept::Null => Kind::Null,
        Kept::Bool(value) => Kind::Bool(value),
        Kept::Number => Kind::Number,
        Kept::Plain | Kept::Escaped(_) => Kind::Text,
        Kept::NoItems | Kept::Array(_) => Kind::Array,
        Kept::NoMembers | Kept::Object(_) => Kind::Object,
    }
}
