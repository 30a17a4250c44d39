//! The tests of `turn_cell`, in a crate of their own, so that it is proved once.
#![tactic(auto)]

#[cfg(test)]
mod turns;
