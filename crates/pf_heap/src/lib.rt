//! The values of one run as words, over a heap of pairs and tuples.
#![tactic(auto)]

mod build;
mod collection;
mod heap;
mod lifting;
mod lowering;
mod marking;
mod sameness;
mod word;

pub use heap::Heap;
pub use word::Word;
