//! The tests of `record_batch`, in a crate of their own, so that it is proved once.
#![tactic(auto)]

#[cfg(test)]
mod batches;
