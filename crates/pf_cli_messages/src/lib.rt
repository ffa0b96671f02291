//! Why a source, or what is asked for of it, is refused: found once more, and said in one sentence.
//! What `run --explain` says: a line for each process of the run that was asked for.
//! What the program says on standard error, and the progress of a hunt or a shrinking.
#![tactic(auto)]

mod finding;
mod lacking;
mod lines;
mod position;
mod wording;

pub use finding::{Reason, SourceRequest, find_reason};
pub use lacking::lacking_sentence;
pub use lines::{client_line_reason, line_reason};
pub use wording::sentence;

mod explained;

pub use explained::explain_run;

mod escape;
mod explain;
mod exploring;
mod messages;
mod progress;
mod reasons;
mod waiting;

pub use escape::ShownText;
pub use explain::say_processes;
pub use exploring::Exploring;
pub use messages::{REFUSED, end, failed, no_memory, notify, say};
pub use progress::{Clearing, ProgressLine, Runs, Seeds};
pub use reasons::{lacking_of, why, why_of_root};
pub use waiting::{WaitingProcesses, say_waiting};
