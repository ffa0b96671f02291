//! The clients of a running farm: what the lines of each one's file are answered, as they come.
#![tactic(auto)]

mod client;
mod end;
mod line;
mod replies;
mod reported;
mod run;
mod start;
mod streams;
mod watch;

pub use end::FileEnd;
pub use run::{FarmEnd, run_farm};
pub use streams::{ClientStreams, Source};
pub use watch::Watch;
