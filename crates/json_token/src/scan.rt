/// How far a token goes: its length, the place of a byte at which none goes on, or more bytes are wanted.
#[derive(Clone, Copy, Debug, PartialEq, Eq)]
pub(crate) enum Scan {
    End(usize),
    Bad(usize),
    Short,
}
