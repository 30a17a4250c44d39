//! The limits of a datum.

/// How many levels of unions, records, arrays and maps a datum may have.
pub const MAX_LEVELS: u32 = 64;

/// How many nodes a datum may have.
pub const MAX_NODES: u32 = 1_000_000;
