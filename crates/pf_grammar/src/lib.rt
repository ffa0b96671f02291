//! The grammar, as relations between a tree and its tokens, and what reading tokens from left to right gives.
#![tactic(auto)]

mod infix;
mod laws;

pub use infix::{Binding, Grouping, Infix, infix_of};
pub use laws::{one_tree, reading_is_complete, reading_is_sound};
