use crate::tree::Member;
use gate_io::Text;

/// How many levels of arrays and objects a text may have, the outermost counted as 1 (RFC 8259, section 9, lets a reader set a limit).
pub(crate) const MAX_LEVELS: usize = 127;

/// An array or an object whose end is to come: where its source text begins, and what it has so far.
#[derive(Drop)]
pub(crate) enum Open {
    InArray(usize, Vec<u32>),
    InObject(usize, Vec<Member>, Text),
}

/// What the reader has to do next: read a value, or go on behind the node that it made.
#[derive(Clone, Copy)]
pub(crate) enum Next {
    Value(bool),
    After(u32),
}
