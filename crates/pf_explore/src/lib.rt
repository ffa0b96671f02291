//! Explorations: the runs of a job by each schedule that deviates from the first choice at most so often, until one
//! fails, none is left out, or so many were made.
#![tactic(auto)]

mod branch;
mod explored;
mod level;
mod pace;
mod runs;
mod search;

pub use branch::choices_of;
pub use explored::{Explored, Unseen};
pub use pace::Pace;
pub use runs::{MadeRun, ScheduledRuns};
pub use search::explore;
