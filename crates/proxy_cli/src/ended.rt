/// Why a connection isn't served further, though nothing failed.
#[derive(Clone, Copy, Debug, PartialEq, Eq)]
pub enum EndWhy {
    /// The input ended between requests.
    End,
    /// It ended inside a request, which has had no answer and no effect.
    CutShort,
    /// No request can stand where the next one would: that was answered, and nothing behind it is.
    BadPlace,
    /// As many requests were answered as a connection may have.
    Limit,
    /// The last request closes, and its response said so.
    Closed,
}

/// How a connection ended where nothing failed: how many whole requests came, each of which was
/// answered, and why there is no further one.
#[derive(Clone, Copy, Debug, PartialEq, Eq)]
pub struct Ended {
    pub requests: u32,
    pub why: EndWhy,
}
