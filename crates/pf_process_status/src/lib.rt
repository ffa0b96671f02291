//! The status of each process at the end of a run: in whose call it began, where it waits, and where it failed.
#![tactic(auto)]

mod ends;
mod failures;
mod follow;
mod known;
mod lines;
mod processes;
mod standing;

pub use known::KnownRun;
pub use lines::{put_function, put_standing};
pub use processes::{names, standings};
pub use standing::{ProcessFate, ProcessStatus};
