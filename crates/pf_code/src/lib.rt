//! The functions of a checked module as instructions over registers: what an instruction does, when code is sound, and
//! that sound code makes the steps of the language.
#![tactic(auto)]

mod instruction;
mod laws;

pub use instruction::{Instruction, Operation, Source};
pub use laws::{
    calls_begin_at_entries, instructions_are_steps, messages_are_tested, none_is_tested,
    receives_go_on, runs_are_steps,
};
