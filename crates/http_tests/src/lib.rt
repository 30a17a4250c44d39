//! The tests of `http_head`, `body_read` and `http_conn`, in a crate of their own, so that each of those is proved once.
#![tactic(auto)]

#[cfg(test)]
mod chunk_tests;
#[cfg(test)]
mod stream_tests;
