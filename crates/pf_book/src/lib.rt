//! The desks of all projects: modules that were submitted, trials that were ordered, and what was asked and answered.
#![tactic(auto)]

mod book;
mod change;
mod claimed;
mod desk;
mod entry;
mod job;
mod numbers;
mod plan;
mod queue;
mod refusal;
mod reply;
mod trial;

pub use book::Book;
pub use claimed::Claimed;
pub use refusal::CallRefusal;
pub use reply::Reply;
