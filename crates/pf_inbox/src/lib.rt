//! The messages of a process over code, and the selective `receive` that tests each of them at most once.
#![tactic(auto)]

mod flush;
mod inbox;
mod search;
mod testing;

pub use inbox::Inbox;
