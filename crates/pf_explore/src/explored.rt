//! What an exploration finds.

use pf_model::report::Report;

/// Why an exploration ended before all schedules were seen.
#[derive(Drop, Clone, Copy)]
pub enum Unseen {
    /// As many runs were made as there may be.
    Budget,
    /// It was stopped.
    Stopped,
    /// Each run was made that deviates so often.
    Deviations,
}

/// What an exploration finds, with how many runs it made.
#[derive(Drop)]
pub enum Explored {
    /// No schedule fails: so many runs differ, and none has more steps than this.
    NoneFails {
        runs: u64,
        steps: u32,
    },
    /// The run of this report fails, by its own choices as a schedule.
    Fails {
        report: Report,
        runs: u64,
    },
    /// Not all schedules were seen, but none fails that deviates from the first choice at most so often, if it says how
    /// often; and why.
    NotAllSeen {
        within: Option<u32>,
        runs: u64,
        cause: Unseen,
    },
}
