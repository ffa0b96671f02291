//! A run as a page of HTML on which it is followed step by step.
#![tactic(auto)]

mod document;
mod events;
mod page;
mod script;
mod style;

pub use document::{print_page, put_page};
pub use page::{Page, PageEvent, PageRun};
