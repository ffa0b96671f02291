//! The turns of a process over code: all that it does up to and with its next action, message or end.
#![tactic(auto)]

mod ending;
mod laws;
mod process;
mod status;

pub use laws::processes_stay;
pub use process::Process;
pub use status::{Status, Stop};
