//! The profile of the language: what a source is read as, which property bytes are and a job's result, and the work of
//! `steps` by it.
#![tactic(auto)]

mod laws;
mod steps;

pub use laws::{profile_is_right, reports_are_of_the_language};
pub use steps::run_steps;
