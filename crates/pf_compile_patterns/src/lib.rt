//! Patterns and guards of a checked module compiled to instructions over registers, and the maker of instructions.
#![tactic(auto)]

mod guards;
mod maker;
mod operations;
mod plan;
mod scope;

pub use maker::Maker;
pub use operations::{binary_of, builtin_of, cons_of, negate_of, send_of, tuple_of};
pub use plan::{Plan, literal, number, register_after, slot_at};
pub use scope::{Exits, Scope};
