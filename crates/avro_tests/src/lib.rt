//! The tests of the Avro crates, in a crate of their own, so that each of those is proved once.
#![tactic(auto)]

#[cfg(test)]
mod byte_tests;
#[cfg(test)]
mod json_tests;
#[cfg(test)]
mod schemas;
#[cfg(test)]
mod told;
