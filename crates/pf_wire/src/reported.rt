//! What a command is answered with, in which the lines of a report's events stay where they were written.

ghost use Rattle.std.specs.Prelude.{◌≡◌, ◌++◌, OnOk};
ghost use Rattle.pf_desks.specs.Reported.{result_rest};
ghost use Rattle.pf_wire.specs.Whole.{result_end, result_events, whole_text};

use pf_errors::NoMemory;
use pf_sched::{Finished, JobResult, memory_report};
use std::alloc::Global;

/// A report in an answer: the lines of its events, which the job's result holds, and the lines that follow them.
#[derive(Drop)]
pub struct ReportedReport {
    finished: Finished,
    end: Vec<u8>,
}

/// What a command is answered with: the text that was put, and after it the lines of a report if there is one.
#[derive(Drop)]
pub struct WrittenAnswer {
    pub text: Vec<u8>,
    pub report: Option<ReportedReport>,
}

/// Puts the lines of a job's result that follow those of its events.
fn put_result_end(alloc: Global, out: &mut Vec<u8>, finished: &Finished) -> Result<(), NoMemory>
    ensures { OnOk result (out.new.items ≡ out.old.items
        ++ result_end finished.now.job.asked.code.atoms finished.now.result) }
{
    let atoms = finished.job().module().atoms();
    match finished.result() {
        Some(JobResult::Report(report) | JobResult::Shrunk { report, .. }) => {
            report.put_end(out, atoms)
        }
        Some(JobResult::NothingFails) => Ok(()),
        None => memory_report(alloc).put_end(out, atoms),
    }
}

impl ReportedReport {
    /// The lines of its events.
    pub fn events(&self) -> &[u8]
        ensures { result.now ≡ result_events self.now.finished.job.asked.code.atoms self.now.finished.result }
    {
        match self.finished.result() {
            Some(JobResult::Report(report) | JobResult::Shrunk { report, .. }) => {
                report.lines.as_bytes()
            }
            Some(JobResult::NothingFails) | None => &[],
        }
    }

    /// The lines that follow them.
    pub fn end(&self) -> &[u8]
        ensures { result.now ≡ self.now.end.items }
    {
        &self.end
    }
}

impl WrittenAnswer {
    /// Puts the lines of a job's result, in place of those of another.
    pub(crate) fn put_report(&mut self, alloc: Global, finished: Finished) -> Result<(), NoMemory>
        ensures { OnOk result (whole_text self.new ≡ self.old.text.items
            ++ result_rest finished.job.asked.code.atoms finished.result) }
    {
        let mut end = Vec::new(alloc);
        put_result_end(alloc, &mut end, &finished)?;
        self.report = Some(ReportedReport { finished, end });
        Ok(())
    }
}
