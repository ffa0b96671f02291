//! The running farm: workers who claim trials, run them slice by slice, park runs in their own deques and steal from
//! one another's.
#![tactic(auto)]

mod farm;
mod floor;
mod gate;
mod held;
mod seat;
mod tally;
mod waiting;
mod workers;

pub use farm::{Blanks, Farm, MOST_SEATS, NoSeat, OpenFarm};
pub use floor::Floor;
pub use gate::{Direct, DueSlice, Gate};
pub use seat::WorkSeat;
pub use tally::WorkTally;
pub use workers::{work, work_all};

/// What a client has, what it sees that waits, and what is left when a farm is closed.
pub use pf_farm_state::{ClientSeat, ClosedSeat, Closing, TrialLook};
