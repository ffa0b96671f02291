//! The static rules of a module, stated: which faults it has, and what its checked module is. With the names of
//! functions that they ask for: sets of those of a module.
#![tactic(auto)]

mod signatures;

pub use signatures::Signatures;
