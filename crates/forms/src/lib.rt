//! What JSON values are stored as, and what stored bytes are shown as, in the embedded formats of the Confluent REST Proxy API v2.
#![tactic(auto)]

mod format;
mod shown;
mod stored;

pub use format::{FormNo, Format};
pub use shown::put_shown;
pub use stored::to_stored;
