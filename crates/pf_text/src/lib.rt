//! Texts that are written, and numbers in words that come in.
#![tactic(auto)]

mod numbers;
mod text;

pub use numbers::{is_numeral, long_number_of, number_of, put_schedule, schedule_of};
pub use text::{put, put_byte, put_number, put_signed};
