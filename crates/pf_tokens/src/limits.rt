//! The limits of the grammar.

/// The most bytes that the name of an atom has.
pub const MOST_NAME_BYTES: usize = 255;

/// The greatest depth of a pattern and of an element of a body, in levels.
pub const MOST_TREE_DEPTH: u32 = 256;

/// The most characters that a string has: its list and they are 4,096 nodes, the most that a value has.
pub const MOST_TEXT_CHARACTERS: usize = 4_095;
