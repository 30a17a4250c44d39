//! The tests of `json_span` and `forms`, in a crate of their own, so that these are proved once.
#![tactic(auto)]

#[cfg(test)]
mod embedded;
#[cfg(test)]
mod reading;
