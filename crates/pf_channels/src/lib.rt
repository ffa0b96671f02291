//! The signals on their way between each pair of processes of a run.
#![tactic(auto)]

mod channels;
mod queue;
mod row;

pub use channels::Channels;
