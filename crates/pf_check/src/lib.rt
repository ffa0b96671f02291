//! The reading of a source as a whole: its tokens, its grammar, its static rules and its checked module.
//! Modules with the sources that they were read from.
#![tactic(auto)]

mod laws;
mod read_module;
mod read_source;
mod reading;
mod source;

pub use laws::{offsets_are_within, one_outcome, some_outcome};
pub use read_module::ReadModule;
pub use read_source::ReadSource;
pub use reading::read;
pub use source::Source;
