//! What a call of a built-in function asks the system for, with the words of a heap.
#![tactic(auto)]

mod act;
mod calls;

pub use act::{Act, Asked};
pub use calls::asked;
