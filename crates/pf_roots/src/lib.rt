//! The words of processes as the roots of a collection, and processes whose words were moved by one; and a collection
//! over a whole run.
#![tactic(auto)]

mod collector;
mod laws;
mod moving;
mod roots;

pub use collector::{Collector, collect};
pub use laws::{constants_move, kept_constants_are, processes_move, put_machines_are_kept};
pub use moving::move_machine;
pub use roots::{add_roots, move_words};
