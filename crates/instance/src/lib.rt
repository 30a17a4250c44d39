//! One consumer instance: what each call does to it and answers, over a link.
#![tactic(auto)]

mod event;
mod fetching;
mod instance;
mod look;
mod moves;
mod resets;
mod walk;

pub use event::{Event, Outcome};
pub use instance::Instance;
