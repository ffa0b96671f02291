//! Tests of jobs and of what hands them out: the scheduler, hunts over seeds by several workers, the book, the store,
//! and worlds.
#![tactic(auto)]

#[cfg(test)]
mod book;
#[cfg(test)]
mod hunts;
#[cfg(test)]
mod jobs;
#[cfg(test)]
mod sharing;
#[cfg(test)]
mod worked;
