//! The runs of a job by its schedules, however they are made.

use pf_errors::NoMemory;
use pf_model::report::Report;
use pf_strategy::ChoicePoint;
use std::alloc::Global;

/// The report of a run, and the choices by which it came: each among those who might go, but for a process that goes
/// last and that others might go before.
#[derive(Drop)]
pub struct MadeRun {
    pub report: Report,
    pub points: Vec<ChoicePoint>,
}

/// What makes the runs of a job by schedules in place of its own choices.
pub trait ScheduledRuns {
    ghost use Rattle.std.specs.Prelude.{◌≡◌, IfOk};
    ghost use Rattle.pf_model.specs.Reports.{view_of_report};
    ghost use Rattle.pf_strategy.specs.Noted.{MakesChoices};
    ghost use Rattle.pf_explore.specs.Asked.{LastJob};

    /// The job, and the process that goes last, if one is named.
    ghost asked: { Self → LastJob };

    /// The run by a schedule; what ran before makes no difference.
    fn run(&mut self, alloc: Global, schedule: &[u32]) -> Result<MadeRun, NoMemory>
        ensures run { IfOk result (λ m. MakesChoices (asked self.old).last (asked self.old).job schedule.now
            m.points.items (view_of_report m.report)) }
        ensures same { asked self.new ≡ asked self.old };
}
