//! The printed text of a value, written and read.
#![tactic(auto)]

mod atom_names;
mod bytes;
mod fault;
mod laws;
mod name;
mod number;
mod printing;
mod reading;
mod terms;

pub use atom_names::{is_plain_name, put_atom};
pub use fault::NoTerm;
pub use laws::{no_text_of_two, printed_is_read_back};
pub use printing::print;
pub use reading::read;
pub use terms::{put_pid, put_reference, put_term};
