//! The places of nodes: the function and the line of the source at which each node of a checked module is.
#![tactic(auto)]

mod functions;
mod innermost;
mod patterns;
mod places;
mod sign;
mod spot;
mod trees;
mod written;

pub use places::{Position, Positions};
