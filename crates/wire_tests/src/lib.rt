//! The tests of `wire_prim`, `wire_layout`, `wire_group` and `wire_data`, in a crate of their own, so that each of those is proved once.
#![tactic(auto)]

#[cfg(test)]
mod data_tests;
#[cfg(test)]
mod group_tests;
#[cfg(test)]
mod prim_tests;
#[cfg(test)]
mod told;
