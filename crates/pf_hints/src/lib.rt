//! Which hint a refused source needs: the construct of Erlang that is there and that the language lacks, with how it is
//! written here.
//! What is reported of a source that is refused: its first refusal, and those of its other forms, in the order of the
//! text.
#![tactic(auto)]

mod advice;
mod around;
mod bytes;
mod cure;
mod fixing;
mod forms;
mod guards;
mod modules;
mod pieces;
mod place;
mod tokens;
mod undefined;
mod words;

pub use advice::advise;
pub use fixing::{fix, form_ends};

mod alone;
mod reporting;

pub use reporting::{MOST_REPORTED, faults};
