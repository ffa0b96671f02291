//! What is reported of a run and of a shrinking, and its text.
#![tactic(auto)]

mod event_lines;
mod labels;
mod lines;
mod pieces;
mod printing;
mod report;
mod shrunk;

pub use event_lines::EventLines;
pub use labels::put_label;
pub use lines::{LinesSoFar, WrittenReport, put_written};
pub use pf_model::report::{Actor, Event, Label, Outcome, Report, Suffix};
pub use pieces::Pieces;
pub use printing::print_report;
pub use report::{put_last_lines, put_outcome, put_report};
pub use shrunk::put_found;

/// The turns and deliveries of a run, in their order.
pub type Events = Vec<Event>;
