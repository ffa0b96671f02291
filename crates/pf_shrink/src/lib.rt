//! The search for a small schedule that fails: which schedule is to be run next, and what it finds.
#![tactic(auto)]

mod hunt;
mod round;

pub use hunt::{MOST_RUNS, ShrinkingSearch};
