//! What is wrong with a source that is refused: where, in which line, and how to fix it.
#![tactic(auto)]

mod advice;
mod explanation;
mod position;
mod sentences;
mod shown;

pub use advice::{Advice, Rewrite, plain};
pub use explanation::{put_explanation, put_explanations};
pub use sentences::sentence;
pub use shown::MOST_SHOWN;
