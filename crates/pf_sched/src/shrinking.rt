//! Shrinkings so far, run by run.

ghost use Rattle.std.specs.Prelude.{◌≡◌, ◌+◌, ◌-◌, ◌<◌, IfOk, IsNone, IsSome, OnOk, if◌then◌else◌};
ghost use Rattle.pf_terms.specs.Atoms.{name_of};
ghost use Rattle.pf_model.specs.Meaning as model;
ghost use Rattle.pf_model.specs.Shrinking.{is_failure};
ghost use Rattle.pf_shrink.specs.Hunts.{found_of, next_of, after_answer};
ghost use Rattle.pf_request.specs.Job as request;
ghost use Rattle.pf_sched.specs.Asked.{IsValid};
ghost use Rattle.pf_sched.specs.Parts.{IsHuntOf, IsShrinkingOf, KeepsReport, events_so_far, is_at};
ghost use Rattle.pf_sched.specs.Slices.{NextRunFollows, ShrinkingGoesOn, IsRunOver, OpensNext, RunAdvances};
ghost use Rattle.pf_sched.specs.Slices.{ReportsFound};
ghost use Rattle.pf_sched.specs.Slices.{runs_left};
ghost use Rattle.pf_sched.specs.Views.{IsWritten, result_of};

use crate::chooser::ActorChooser;
use crate::job::Job;
use crate::progress::ShrinkingProgress;
use crate::result::JobResult;
use crate::run::Run;
use crate::scratch::Scratch;
use pf_choice::Choices;
use pf_errors::NoMemory;
use pf_shrink::ShrinkingSearch;
use pf_trace::WrittenReport;
use std::alloc::Global;

/// A shrinking so far: its search, the run of the search's next schedule, the report of the search's current
/// schedule, which
/// is none before the first run that failed, the number of events of all runs before this one, and its progress for the
/// observer.
#[derive(Drop)]
pub(crate) struct Shrinking {
    pub hunt: ShrinkingSearch,
    pub run: Run,
    pub report: Option<WrittenReport>,
    pub before: u64,
    pub progress: ShrinkingProgress,
}

/// What a shrinking goes on to.
#[derive(Drop)]
pub(crate) enum ShrinkingAdvance {
    /// It has more events.
    More(Shrinking),
    /// It is over.
    Over(JobResult),
}

/// The choices of a search's next schedule; none at its end.
fn next_choices(alloc: Global, hunt: &ShrinkingSearch) -> Result<Option<Choices>, NoMemory>
    ensures { IfOk result (λ o. OpensNext (next_of hunt.now) o) }
{
    match hunt.next() {
        Some(numbers) => Ok(Some(Choices::schedule(Vec::from_slice(alloc, numbers)?))),
        None => Ok(None),
    }
}

/// What a search found, with the report of its schedule.
fn found(
    alloc: Global,
    hunt: &ShrinkingSearch,
    report: Option<WrittenReport>,
) -> Result<JobResult, NoMemory>
    requires ended { IsNone (next_of hunt.now) }
    requires report { IsSome (found_of hunt.now) → IsSome report }
    ensures reported { IfOk result (λ r. (j : request.Job) → KeepsReport j.asked (is_at hunt.now) report
        → ReportsFound j.asked (found_of hunt.now) (result_of r)) }
    ensures written { IfOk result (λ r. (j : request.Job) → KeepsReport j.asked (is_at hunt.now) report
        → IsWritten (name_of j.asked.code.atoms) r) }
{
    let Some((schedule, complete)) = hunt.found() else {
        return Ok(JobResult::NothingFails);
    };
    Ok(JobResult::Shrunk {
        complete,
        schedule: Box::new(alloc, Vec::from_slice(alloc, schedule)?)?,
        report: report.unwrap(),
    })
}

/// Answers a search whether its next schedule fails, by the report of its run; the report of the schedule that is the
/// search's current one then.
fn notify(
    hunt: &mut ShrinkingSearch,
    kept: Option<WrittenReport>,
    ended: WrittenReport,
) -> Option<WrittenReport>
    requires { IsSome (next_of hunt.old) }
    ensures reported { hunt.new ≡ after_answer (is_failure ended.verdict) hunt.old }
    ensures kept { result ≡ (if is_failure ended.verdict then Some ended else kept) }
{
    let fails = matches!(ended.verdict, Some(false));
    hunt.reported(fails);
    if fails { Some(ended) } else { kept }
}

/// The run of a search's next schedule, or what the search found, after n events.
fn begin(
    alloc: Global,
    job: &Job,
    hunt: ShrinkingSearch,
    report: Option<WrittenReport>,
    before: u64,
    progress: ShrinkingProgress,
) -> Result<ShrinkingAdvance, NoMemory>
    requires hunt { IsHuntOf job.now.asked hunt before }
    requires report { KeepsReport job.now.asked (is_at hunt) report }
    ensures { IfOk result (λ p. NextRunFollows job.now before (runs_left hunt) p) }
{
    match next_choices(alloc, &hunt)? {
        Some(choices) => Ok(ShrinkingAdvance::More(Shrinking {
            run: Run::new(alloc, job, ActorChooser::Choices(choices))?,
            hunt,
            report,
            before,
            progress,
        })),
        None => Ok(ShrinkingAdvance::Over(found(alloc, &hunt, report)?)),
    }
}

impl Shrinking {
    /// The shrinking of a schedule within n runs, before its first event.
    pub fn new(alloc: Global, job: &Job, schedule: &[u32], runs: u32) -> Result<Shrinking, NoMemory>
        requires runs { 0 < runs }
        requires job_runs { job.now.asked.runs ≡ runs }
        requires job_choices { job.now.asked.choices ≡ model.schedule schedule.now }
        ensures shrinking { IfOk result (λ s. IsShrinkingOf job.now s) }
        ensures first { IfOk result (λ s. events_so_far s ≡ 0) }
    {
        let choices = Choices::schedule(Vec::from_slice(alloc, schedule)?);
        Ok(Shrinking {
            hunt: ShrinkingSearch::new(Vec::from_slice(alloc, schedule)?, runs),
            run: Run::new(alloc, job, ActorChooser::Choices(choices))?,
            report: None,
            before: 0,
            progress: ShrinkingProgress::new(schedule.len()),
        })
    }

    /// Goes on with the run by n events, or fewer if the run is over before; whether it is over then.
    fn go(
        &mut self,
        alloc: Global,
        job: &Job,
        scratch: &mut Scratch,
        turns: u32,
    ) -> Result<bool, NoMemory>
        ensures run { IfOk result (RunAdvances job.now self.old.run self.new.run turns) }
        ensures rest { self.new ≡ record self.old { run = self.new.run } }
        ensures valid { OnOk result (IsValid job.now) }
    {
        self.run.go_on(alloc, job, scratch, turns)
    }

    /// What follows a run that is over: the search gets the answer whether it failed, and the report of one that did is
    /// kept.
    fn follow(self, alloc: Global, job: &Job) -> Result<ShrinkingAdvance, NoMemory>
        requires valid { IsValid job.now }
        requires shrinking { IsShrinkingOf job.now self }
        requires over { IsRunOver job.now.asked.limit self.run.execution }
        ensures { IfOk result (λ p. NextRunFollows job.now (events_so_far self) (runs_left self.hunt - 1) p) }
    {
        let Shrinking {
            mut hunt,
            run,
            report,
            before,
            progress,
        } = self;
        let after = before + run.len() as u64;
        let ended = run.report(alloc, job)?;
        let further = progress.further(&hunt, &ended);
        let kept = notify(&mut hunt, report, ended);
        begin(alloc, job, hunt, kept, after, further)
    }

    /// Goes on by n events, over as many runs as they take. It goes on if the shrinking has more; else it is over, with
    /// the job's result.
    pub fn advance(
        self,
        alloc: Global,
        job: &Job,
        scratch: &mut Scratch,
        turns: u32,
    ) -> Result<ShrinkingAdvance, NoMemory>
        requires { IsShrinkingOf job.now self }
        ensures { IfOk result (λ p. ShrinkingGoesOn job.now (events_so_far self + turns) p) }
    {
        let mut shrinking = self;
        let mut left = turns;
        loop {
            let had = shrinking.run.len();
            if !shrinking.go(alloc, job, scratch, left)? {
                return Ok(ShrinkingAdvance::More(shrinking));
            }
            left -= (shrinking.run.len() - had) as u32;
            match shrinking.follow(alloc, job)? {
                ShrinkingAdvance::More(next) => shrinking = next,
                ShrinkingAdvance::Over(result) => return Ok(ShrinkingAdvance::Over(result)),
            }
        }
    }
}
