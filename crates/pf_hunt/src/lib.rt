//! Hunts over seeds: the least seed whose run fails a property, or each outcome that is met, by as many workers as
//! there are.
#![tactic(auto)]

mod blocks;
mod failure;
mod hash;
pub mod laws;
mod leak;
mod observer;
mod pace;
mod places;
mod range;
mod row;
mod seeded;
mod tallied;
mod tally;
mod workers;

pub use blocks::{first_failing, tally_all};
pub use failure::{FailingSeed, Searched, first_in};
pub use hash::HashedOutcome;
pub use leak::Leak;
pub use observer::HuntObserver;
pub use pace::Pace;
pub use range::HuntRange;
pub use row::OutcomeRow;
pub use seeded::{Hunt, run_by_seed};
pub use tallied::{Tallied, tally_in};
pub use tally::Tally;
pub use workers::{Team, first_of_block, tally_of_block};
