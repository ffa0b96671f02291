//! The system of processes of one run: turns, deliveries, and who may go.
#![tactic(auto)]

mod act;
mod deliver;
mod enabled;
mod ending;
mod exits;
mod flush;
mod links;
mod messages;
mod monitors;
mod names;
mod outcome;
mod point;
mod processes;
mod shared;
mod slot;
mod spare;
mod spawn;
mod system;
mod turn;

pub use enabled::Enabled;
pub use spare::Spare;
pub use system::System;
