//! What is asked for of the farm and of a module: steps, calls, orders, requests, and the jobs that requests result in.
#![tactic(auto)]

mod call;
mod choices;
mod request;
mod step;

pub use call::{Call, Order};
pub use choices::RunChoices;
pub use request::{Request, RequestKind, ShortBytes};
pub use step::{Chore, Step};
