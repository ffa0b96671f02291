//! A machine that runs code over the words of a heap.
#![tactic(auto)]

mod answers;
mod build;
mod flow;
mod laws;
mod machine;
mod operations;
mod quick;
mod setting;
mod stack;

pub use answers::{Answer, computed, holds, negated, operated};
pub use flow::{Flow, Halt};
pub use laws::{cuts_are_steps, runs_reach, sound_code_goes_on};
pub use machine::{Machine, Waiting};
pub use setting::Setting;
pub use stack::Stack;
