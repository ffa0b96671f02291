//! Laws of the whole: what is true of each module that is read, and which bytes its texts have; and that the limits of
//! sources, values, runs and commands are the numbers that users are given. Functions with empty bodies, whose
//! contracts are the laws.
#![tactic(auto)]

mod commands;
mod printing;
mod read_modules;
mod runs;
mod sources;

pub use commands::{command_limits_are, farm_limits_are, steps_limits_are};
pub use printing::read_modules_print_visibly;
pub use read_modules::read_modules_are_closed;
pub use runs::{process_limits_are, run_limits_are};
pub use sources::{source_limits_are, value_limits_are};
