//! JSON objects in place of the lines of a text.
#![tactic(auto)]

mod facts;
mod laws;
mod lines;
mod names;
mod objects;
mod parts;
mod place;
mod shapes;

pub use laws::{in_pieces, one_for_each};
pub use lines::JsonLines;
pub use place::LinePlace;
