//! The results of jobs.

ghost use Rattle.std.specs.Prelude.{◌≡◌, ℕ, List};
ghost use Rattle.pf_request.specs.Job as job;
ghost use Rattle.pf_trace.specs.Written.{AreWritten, report_in};

use pf_model::report::Outcome;
use pf_trace::{EventLines, WrittenReport};
use std::alloc::Global;

/// The result of a job.
#[derive(Drop)]
pub enum JobResult {
    /// The report of its run.
    Report(WrittenReport),
    /// Whether no candidate of the schedule that its shrinking found fails, the schedule, and the report of its run.
    /// The schedule's own words are in a block, so that no other result is larger for them.
    Shrunk {
        complete: bool,
        schedule: Box<Vec<u32>>,
        report: WrittenReport,
    },
    /// The schedule that was to be shrunk doesn't fail.
    NothingFails,
}

/// The report of a job for which memory ran out: no event, no step and no verdict. It takes no memory.
pub fn memory_report(alloc: Global) -> WrittenReport
    ensures report { report_in result ≡ job.memory_report }
    ensures lines { (name : ℕ → List ℕ) → AreWritten name result.lines }
{
    WrittenReport {
        lines: EventLines::new(alloc),
        outcome: Outcome::Memory,
        steps: 0,
        verdict: None,
    }
}
