//! The limits of a value.

/// The most nodes that a value has.
pub const MOST_NODES: u32 = 4_096;

/// The greatest depth of a value, in levels.
pub const MOST_DEPTH: u32 = 64;
