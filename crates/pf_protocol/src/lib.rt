//! The lines that `steps` reads: the commands that they are.
#![tactic(auto)]

mod client;
mod command;
mod complete;
mod line;
mod order;
mod split;
mod work;

pub use client::{ClientLine, read_client_line};
pub use command::{LineFault, NoCommand, read_command};
pub use complete::is_due;
pub use split::{SplitLine, first_line};
