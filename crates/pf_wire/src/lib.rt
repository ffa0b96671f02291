//! The replies that `steps` writes, and its work between a reader and a writer.
#![tactic(auto)]

mod ending;
mod outcome;
mod reply;
mod reported;
mod steps;
mod stream;

pub use ending::{InputEnd, RefusedLine};
pub use outcome::{Requester, put_outcome};
pub use reported::{ReportedReport, WrittenAnswer};
pub use steps::{MOST_BYTES, WORKERS, put_no_command, run_steps};
pub use stream::{Gathered, Input};
