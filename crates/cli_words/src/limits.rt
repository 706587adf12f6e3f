//! The limits of the numbers that stand only among words.

/// The greatest port of TCP; port 0 is none.
pub const GREATEST_PORT: u64 = 65_535;

/// The most connections that one command serves.
pub const MOST_CONNECTIONS: u64 = 1_000_000;

/// The most rounds of a node.
pub const MOST_ROUNDS: u64 = 1_000;

/// The most connections that a node serves at each of the five places of a round.
pub const MOST_BETWEEN: u64 = 100;

/// The most documents of a workload.
pub const MOST_WORKLOAD: u64 = 100_000;
