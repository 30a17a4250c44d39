//! The tests of `avro_schema`, `schema_keeper` and `schema_table`, in a crate of their own, so that each of those is proved once.
#![tactic(auto)]

#[cfg(test)]
mod keeping;
#[cfg(test)]
mod reading;
#[cfg(test)]
mod table;
