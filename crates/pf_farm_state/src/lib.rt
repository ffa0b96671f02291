//! What is under the lock of a running farm: the book of all desks, and beside it the ledger of all claims.
#![tactic(auto)]

mod claimed;
mod client;
mod closing;
mod hall;
mod look;

pub use claimed::ClaimedTrial;
pub use client::{ClientSeat, ClosedSeat};
pub use closing::Closing;
pub use hall::{Hall, NewAccounts};
pub use look::TrialLook;
