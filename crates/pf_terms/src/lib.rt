//! Values of a run, their order, and the names of atoms.
#![tactic(auto)]

mod atom_numbers;
mod atoms;
mod build;
mod laws;
mod limits;
mod ordering;
mod packed;
mod sameness;
mod term;

pub use atom_numbers::AtomNumbers;
pub use atoms::{AtomId, AtomTable};
pub use build::{TooLarge, list_of, tuple_of};
pub use laws::{order_is_exact, order_is_total, same_is_equality};
pub use limits::{MOST_DEPTH, MOST_NODES};
pub use ordering::order;
pub use sameness::{equal, equal_lists};
pub use term::{Cell, Elements, List, Term, copy, depth, nodes};
