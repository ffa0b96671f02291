//! How the run of a job by a seed is judged by several properties, and why it fails.
#![tactic(auto)]

mod cause;
mod further;
mod judged;
pub mod laws;
mod others;
mod run;
mod seen;
mod watched;

pub use cause::{FailureCause, cause_of};
pub use further::further_properties;
pub use judged::JudgedSeed;
pub use run::judged_by;
pub use watched::{HuntAsked, WatchedJob, WorkerJobs, worker_jobs};
