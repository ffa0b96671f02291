//! What the farm holds for projects and answers them: the definitions of a desk and of all desks, and their laws.
#![tactic(auto)]

pub mod laws;
mod mark;
mod stage;

pub use mark::FileMark;
pub use stage::TrialStage;
