//! The first static fault of a module, by its syntax tree.
#![tactic(auto)]

mod faults;
mod first;
mod names;
mod unlike;
mod variable_states;
mod walk;

pub use faults::first_fault;
