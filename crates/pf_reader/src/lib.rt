//! Reads the tokens of a source into the syntax tree of its module.
//!
//! `Grammar.antt` of `pf_grammar` has the rules as relations between a tree and its tokens, and `Parse.antt` what
//! reading from left to right gives. Each function here gives what the one of `Parse` gives, unless memory runs out.
#![tactic(auto)]

mod export;
mod expr;
mod expr_pattern;
mod fault;
mod function;
mod operator;
mod part;
mod pattern_alone;
mod read;
mod token;

pub use pattern_alone::{ReadPattern, read_pattern};
pub use read::{ParsedModule, read_tree};
