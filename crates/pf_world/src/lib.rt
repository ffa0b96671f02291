//! Worlds: the desks of many projects and any number of workers, and the laws of them.
#![tactic(auto)]

pub mod laws;
