//! Tests of the program: what its words ask for, and its commands between a reader and a writer of which a call fails.
#![tactic(auto)]

#[cfg(test)]
mod commands;
#[cfg(test)]
mod defaults;
#[cfg(test)]
mod hunts;
#[cfg(test)]
mod readings;
#[cfg(test)]
mod streams;
#[cfg(test)]
mod values;
