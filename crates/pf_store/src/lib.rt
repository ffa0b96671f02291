//! Modules by source, shared: each source is read once, and those who submit the same bytes share them and their
//! module.
#![tactic(auto)]

mod store;

pub use store::Store;
