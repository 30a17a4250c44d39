//! The commands of restgate.
#![tactic(auto)]

mod answer;
mod ended;
mod program;
mod session;

pub use ended::{EndWhy, Ended};
pub use program::{run, run_session};
pub use session::serve_stream;
