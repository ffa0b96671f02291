//! What a source is answered with whose schedules are explored.
#![tactic(auto)]

mod answer;
mod exploration;
mod job_runs;
mod search;
mod writing;

pub use answer::answer_source;
pub use exploration::{Exploration, ExploreAnswer};
pub use writing::put_schedule_line;
