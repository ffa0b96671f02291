//! What a module of the language means: the definitions of runs of many processes, and their laws.
#![tactic(auto)]

mod bond;
pub mod laws;
pub mod limits;
pub mod report;
mod signal;

pub use bond::Bond;
pub use signal::Signal;
