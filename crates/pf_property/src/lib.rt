//! Properties: their texts, and whether they hold of what a run shows.
#![tactic(auto)]

mod laws;
mod lone_pattern;
mod property;
mod verdict;

pub use laws::{one_property, some_property};
pub use lone_pattern::LonePattern;
pub use property::Property;
