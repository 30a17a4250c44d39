/// Why a request gives no call: it doesn't read, what it says isn't allowed, or there was no memory.
#[derive(Clone, Copy, Debug, PartialEq, Eq)]
pub(crate) enum Unread {
    Unreadable,
    Invalid,
    Want,
}
