//! The scheduler: jobs, and their runs and shrinkings from start to end, whole or slice by slice.
#![tactic(auto)]

mod choices;
mod chooser;
mod evidence;
mod execution;
mod finished;
mod job;
mod last;
pub mod laws;
mod noted;
mod parked;
mod printing;
mod progress;
mod refusal;
mod result;
mod result_block;
mod run;
mod same;
mod scratch;
mod seeded;
mod shrinking;
mod slice;
mod trace;
mod whole;
mod with_last;

pub use finished::{Finished, JobEnd};
pub use job::Job;
pub use parked::{Parked, start};
pub use printing::{PrintedRun, print_run};
pub use progress::{Observer, ShrinkingProgress, Silent};
pub use refusal::JobRefusal;
pub use result::{JobResult, memory_report};
pub use result_block::Whole;
pub use scratch::Scratch;
pub use slice::{Slice, run_slice, run_to_end};
pub use whole::{Judged, judged_run, report_by_schedule, report_of_run};
pub use with_last::{NotedRun, noted_run};
