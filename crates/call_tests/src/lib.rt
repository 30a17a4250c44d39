//! The tests of `rest_routes` and `rest_calls`, in a crate of their own, so that each of those is proved once.
#![tactic(auto)]

#[cfg(test)]
mod bodies;
#[cfg(test)]
mod json_records;
#[cfg(test)]
mod keys;
#[cfg(test)]
mod media;
#[cfg(test)]
mod places;
#[cfg(test)]
mod queries;
#[cfg(test)]
mod refusals;
#[cfg(test)]
mod sample;
#[cfg(test)]
mod seeks;
#[cfg(test)]
mod shown;
#[cfg(test)]
mod topic_names;
