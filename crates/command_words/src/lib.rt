//! The words of the command line.
#![tactic(auto)]

mod app;
mod topic;
mod words;

pub use words::{Command, SessionWords, WordNo, read_words};
