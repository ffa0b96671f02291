//! Tests of the crates of the language: the points of a machine, one step of it, a process that is woken by what comes
//! into its mailbox, and a long pattern on a small stack.
#![tactic(auto)]

#[cfg(test)]
mod machine;
#[cfg(test)]
mod points;
#[cfg(test)]
mod stacks;
#[cfg(test)]
mod woken;
