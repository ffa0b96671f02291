//! Hunts over several sources and roots: which roots a source has, the result of each one's hunt, and what is reported
//! of them.
#![tactic(auto)]

mod end;
mod hunt;
mod lines;
mod roots;
mod source;
mod stage;
mod summary;

pub use end::{RootEnd, SuiteCounts};
pub use hunt::{RootHunt, request_for};
pub use lines::{line_of_refusal, line_of_root, line_of_rootless, root_name};
pub use source::{Hunted, read_hunted};
pub use stage::{OpenRoot, RootStage, open_root, seeds_after_round};
pub use summary::Suite;
