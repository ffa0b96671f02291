//! Strategies: how the seed of a run chooses who goes, and what a run by priorities is.
//! Choices by priorities: each of those who may go draws a priority of a seeded generator and keeps it until it goes,
//! and the one with the highest goes. By either a process may be the last, which goes only where nobody else may.
#![tactic(auto)]

pub mod laws;
mod strategy;

pub use strategy::{Sampling, SeedChoice, Strategy};

mod last;

pub use last::Others;

mod noted;

pub use noted::ChoicePoint;

mod priorities;

pub use priorities::Priorities;
