//! Why a message doesn't read.
use wire_prim::PrimNo;

/// Why a message doesn't read.
#[derive(Clone, Copy, Debug, PartialEq, Eq)]
pub enum WireNo {
    /// An item doesn't read, but for want of memory.
    Prim(PrimNo),
    /// So many bytes follow the whole message.
    Rest(usize),
    /// There was no memory.
    Want,
}

/// A refusal with its place.
#[derive(Clone, Copy)]
pub struct Refusal {
    pub cause: WireNo,
    /// How many bytes stand before the item that doesn't read, or before the first byte left over.
    pub place: usize,
}
