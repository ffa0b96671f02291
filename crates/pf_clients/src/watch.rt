//! Who watches a farm.

use crate::end::FileEnd;
use pf_farm::WorkTally;
use std::io::Error;

/// Who watches a farm. Nothing that clients are answered depends on it.
pub trait Watch {
    /// A trial of a project was ordered.
    fn ordered(&self, project: u32);

    /// The lines of a project's file ended so. Each client reports it once, when they do.
    fn ended(&self, project: u32, end: &FileEnd);

    /// The farm isn't begun for this reason, and nothing is answered.
    fn not_begun(&self, reason: &Error);

    /// The farm has stopped, and this is what the worker of this number, counted from 0, did. Each worker is reported
    /// once, in order, before the answers of clients are written.
    fn worked(&self, worker: usize, tally: WorkTally);
}
