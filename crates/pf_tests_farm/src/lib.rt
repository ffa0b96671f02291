//! Tests of the running farm: trials that overlap, runs that are stolen, and what is left when a farm is closed.
#![tactic(auto)]

#[cfg(test)]
mod calls;
#[cfg(test)]
mod closed;
pub mod missed;
#[cfg(test)]
mod scene;
#[cfg(test)]
mod seats;
#[cfg(test)]
mod stolen;
#[cfg(test)]
mod together;
pub mod waiting;
