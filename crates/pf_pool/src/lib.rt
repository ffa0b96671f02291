//! The farm's core: the desks of all projects, and workers who claim trials, run them in slices, park runs, take them
//! up or steal them, and file them or hand them back.
#![tactic(auto)]

mod claimed_run;
mod deque;
mod response;
mod world;

pub use response::Response;
pub use world::World;
