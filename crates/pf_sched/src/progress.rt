//! The progress of a shrinking.

ghost use Rattle.std.specs.Prelude.{◌≡◌};

use pf_shrink::ShrinkingSearch;
use pf_trace::WrittenReport;

/// The progress of a shrinking: how many runs are over, and how many numbers its current schedule has.
#[derive(Clone, Copy, PartialEq, Eq, Debug)]
pub struct ShrinkingProgress {
    pub runs: u32,
    pub length: usize,
}

impl ShrinkingProgress {
    /// That before the first run.
    pub(crate) fn new(length: usize) -> ShrinkingProgress
        ensures { result ≡ record { runs = 0; length = length } }
    {
        ShrinkingProgress { runs: 0, length }
    }

    /// That after one run more, the one of the hunt's next schedule.
    pub(crate) fn further(
        self,
        hunt: &ShrinkingSearch,
        ended: &WrittenReport,
    ) -> ShrinkingProgress {
        let length = match hunt.next() {
            Some(next) if ended.verdict == Some(false) => next.len(),
            _ => self.length,
        };
        ShrinkingProgress {
            runs: self.runs.saturating_add(1),
            length,
        }
    }
}

/// Receives the progress of a shrinking. What it does makes no difference to the shrinking's result.
pub trait Observer {
    /// A slice of a shrinking was made, and more are to come.
    fn progress(&mut self, progress: ShrinkingProgress);
}

/// Ignores all progress.
#[derive(Drop)]
pub struct Silent;

impl Observer for Silent {
    fn progress(&mut self, _progress: ShrinkingProgress) {}
}
