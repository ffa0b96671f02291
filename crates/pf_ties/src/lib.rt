//! Links, monitors, names and the end of processes.
#![tactic(auto)]

mod fate;
pub mod laws;
mod names;
mod process;
mod refusal;
mod ties;

pub use fate::Fate;
pub use refusal::BadArgument;
pub use ties::Ties;
