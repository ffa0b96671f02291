//! What a page shows.

use pf_model::report::{Event, Outcome};
use pf_terms::AtomTable;

/// An event of a run, and where its process was in it.
#[derive(Clone, Copy)]
pub struct PageEvent<'a> {
    pub event: &'a Event,
    /// The function in which the process was, as `counter/1`; empty where it isn't known.
    pub function: &'a [u8],
    /// The line of the source, counted from 1; 0 where it isn't known.
    pub line: u64,
}

/// A run.
#[derive(Clone, Copy)]
pub struct PageRun<'a> {
    pub events: &'a [PageEvent<'a>],
    pub outcome: &'a Outcome,
    /// Whether the property holds.
    pub verdict: Option<bool>,
    /// The event in which the run fails, counted from 1; 0 where the page is to look for it.
    pub failing: u64,
}

/// What a page shows.
#[derive(Clone, Copy)]
pub struct Page<'a> {
    /// The names of the atoms in both runs.
    pub atoms: &'a AtomTable,
    /// The root function.
    pub root: &'a [u8],
    /// By pid the function in whose call a process began, as `counter/1`; empty where it isn't known.
    pub names: &'a [Vec<u8>],
    /// The module's text.
    pub source: &'a [u8],
    pub run: PageRun<'a>,
    /// The nearest run for which the property holds, if one is known.
    pub nearest: Option<PageRun<'a>>,
}
