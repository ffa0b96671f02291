//! The checked module of a syntax tree: slots in place of names, and nodes by number.
#![tactic(auto)]

mod alone;
mod bodies;
mod build;
mod expressions;
mod function_table;
mod patterns;
mod put;
mod slots;
mod strings;

pub use alone::pattern_alone;
pub use build::module_of;
