//! Operators on values, and the terms that the system builds around a value.
#![tactic(auto)]

mod answer;
mod arithmetic;
mod build;
mod builtins;
mod guards;
mod operators;
mod reasons;

pub use answer::{Computed, truth, truth_of};
pub use arithmetic::{negated, on_integers};
pub use build::{cons, tuple};
pub use builtins::compute;
pub use guards::holds;
pub use operators::apply;
pub use reasons::{ending_reason, tagged};
