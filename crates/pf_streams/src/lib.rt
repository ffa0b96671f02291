//! Readers and writers that count their failed calls, and what fails at them.
#![tactic(auto)]

mod counted;
mod fail_at;
mod stream;

pub use counted::Counted;
pub use fail_at::FailAt;
pub use stream::StreamFault;
