//! Sorted sets and maps of few items, by key and by index.
#![tactic(auto)]

mod map;
mod set;

pub use map::SortedMap;
pub use set::SortedSet;
