//! The hunt of one root of a module, part by part.

ghost use Rattle.std.specs.Prelude.{◌≡◌, ◌≤◌, ◌<◌, ◌-◌, ◌*◌, max, IfOk, IfSome, Ok, OnErr, map};
ghost use Rattle.std.specs.Prelude.{option_map};
ghost use Rattle.pf_property.specs.Views.{property_of};
ghost use Rattle.pf_sched.specs.Asked.{Asks};
ghost use Rattle.pf_verdicts.specs.Watching.{AreJobsOf};
ghost use Rattle.pf_hunt.specs.Hunts.{SearchedTo};
ghost use Rattle.pf_hunt.specs.Notices.{CutNotices, HearsSome, has_none};
ghost use Rattle.pf_hunt.specs.Views.{failure_of};
ghost use Rattle.pf_cli.specs.Args.{view_of_hunt_args};
ghost use Rattle.pf_hunt_suite.specs.Ends.{request_for};
ghost use Rattle.pf_hunt_suite.specs.Stages.{EndsStopped, IsStageOf, Leads, LeadsBySeeds, PartNotices, next_of};
ghost use Rattle.pf_hunt_suite.specs.Stages.{part_end};

use crate::end::RootEnd;
use crate::hunt::{RootHunt, job_for, request_for};
use pf_errors::{NoMemory, OrNoMemory};
use pf_hunt::{Hunt, HuntObserver, HuntRange, Searched, first_failing};
use pf_property::Property;
use pf_sched::Job;
use pf_verdicts::{HuntAsked, WorkerJobs, cause_of, further_properties, worker_jobs};
use std::alloc::Global;
use std::thread::Threads;

/// A root with seeds that are still to be hunted, from the next on: no run by those before it fails.
#[derive(Drop)]
pub struct OpenRoot<'a> {
    hunted: RootHunt<'a>,
    hunt: Hunt,
    next: u64,
}

/// How far the hunt of a root is.
#[derive(Drop)]
pub enum RootStage<'a> {
    /// It has seeds that are still to be hunted.
    Open(OpenRoot<'a>),
    /// It is over, and ended so.
    Over(RootEnd),
}

/// By which jobs the workers of a root run its seeds: those that have any.
fn jobs_of(
    alloc: Global,
    hunted: &RootHunt,
    job: &Job,
    further: &[Property],
) -> Result<WorkerJobs, NoMemory>
    ensures { IfOk result (AreJobsOf job.now (map property_of further.now)) }
{
    let args = hunted.args;
    let request = request_for(alloc, args, hunted.root)?;
    let asked = HuntAsked {
        module: hunted.module,
        request: &request,
        further: args.further.as_slice(),
        workers: hunted.workers.min(args.end.saturating_sub(args.first)),
    };
    worker_jobs(alloc, job, further, &asked)
}

/// A root whose job is this one, before any of its seeds is hunted.
fn open_job<'a>(alloc: Global, hunted: RootHunt<'a>, job: Job) -> Result<RootStage<'a>, NoMemory>
    requires { Asks hunted.«module».now (view_of_hunt_args hunted.args.now).edition
        (request_for (view_of_hunt_args hunted.args.now) hunted.root.now) (Ok job) }
    ensures { IfOk result (IsStageOf hunted.entry) }
{
    let args = hunted.args;
    let further = match further_properties(alloc, hunted.module, args.further.as_slice()) {
        Ok(further) => further,
        Err(OrNoMemory::Fault(code)) => return Ok(RootStage::Over(RootEnd::Refused(code))),
        Err(OrNoMemory::NoMemory) => return Err(NoMemory),
    };
    if args.end <= args.first {
        return Ok(RootStage::Over(RootEnd::NoFailure { seeds: 0 }));
    }
    let jobs = jobs_of(alloc, &hunted, &job, further.as_slice())?;
    let hunt = Hunt {
        job,
        jobs,
        strategy: args.strategy,
        further,
        leaks: args.leaks,
    };
    let next = args.first;
    Ok(RootStage::Open(OpenRoot { hunted, hunt, next }))
}

/// A root before any of its seeds is hunted; or that what is asked for of it is refused.
pub fn open_root<'a>(alloc: Global, hunted: RootHunt<'a>) -> Result<RootStage<'a>, NoMemory>
    ensures { IfOk result (IsStageOf hunted.entry) }
{
    match job_for(alloc, hunted.args, hunted.module, hunted.root) {
        Ok(job) => open_job(alloc, hunted, job),
        Err(OrNoMemory::Fault(refusal)) => Ok(RootStage::Over(RootEnd::Refused(refusal.code()))),
        Err(OrNoMemory::NoMemory) => Err(NoMemory),
    }
}

impl<'a> OpenRoot<'a> {
    /// How many of its seeds were hunted.
    pub fn seeds(&self) -> u64
        ensures { result ≡ self.now.next - self.now.hunted.args.now.first }
    {
        self.next.saturating_sub(self.hunted.args.first)
    }

    /// How its hunt ends if its time is over now.
    pub fn stopped(&self) -> RootEnd
        ensures { EndsStopped self.now result }
    {
        RootEnd::Stopped {
            seeds: self.seeds(),
        }
    }

    /// How far its hunt is, given what is known of some seeds from the next on.
    fn after(self, searched: &Searched) -> RootStage<'a>
        ensures stage { LeadsBySeeds self.entry searched.now.end (option_map failure_of searched.now.failure) result }
        ensures next { IfSome (next_of result) (λ n. n ≡ searched.now.end) }
    {
        let OpenRoot { hunted, hunt, .. } = self;
        let (next, args) = (searched.end, hunted.args);
        match &searched.failure {
            Some(failure) => RootStage::Over(RootEnd::Fails {
                seed: failure.seed,
                cause: cause_of(&failure.report, hunt.further.as_slice()),
            }),
            None if next < args.end => RootStage::Open(OpenRoot { hunted, hunt, next }),
            None => RootStage::Over(RootEnd::NoFailure {
                seeds: args.end.saturating_sub(args.first),
            }),
        }
    }

    /// The end of a part that goes to before this seed, if that is past the next and before the end of all; else to
    /// that end.
    fn part_end(&self, to: u64) -> u64
        ensures end { result ≡ part_end self.now to }
        ensures past { self.now.next < self.now.hunted.args.now.end → self.now.next < result }
        ensures within { result ≤ self.now.hunted.args.now.end }
    {
        let end = self.hunted.args.end;
        if self.next < to && to < end { to } else { end }
    }

    /// Hunts the seeds from the next to before another, if there are such, else all that are left. How far the root is
    /// then, and what is reported to the observer on the way. If the hunt may stop, it does so once the observer says
    /// it, and never before a first block of seeds.
    pub fn hunt_to<T: Threads + Sync, O: HuntObserver>(
        self,
        rt: &T,
        alloc: Global,
        to: u64,
        may_stop: bool,
        observer: &mut O,
    ) -> Result<RootStage<'a>, NoMemory>
        ensures stage { IfOk result (Leads self.entry) }
        ensures reach { IfOk result (λ s.
            IfSome (next_of s) (SearchedTo may_stop self.entry.next (part_end self.entry to))) }
        ensures heard { IfOk result (λ s. HearsSome O.Heard observer.old
            (PartNotices self.entry may_stop (part_end self.entry to)) observer.new) }
        ensures cut { OnErr result (HearsSome O.Heard observer.old
            (CutNotices has_none may_stop self.entry.next (part_end self.entry to)) observer.new) }
    {
        let (first, end) = (self.next, self.part_end(to));
        let workers = self.hunted.workers;
        let range = HuntRange {
            first,
            end,
            may_stop,
            workers,
        };
        let searched = first_failing(rt, alloc, &self.hunt, range, observer)?;
        Ok(self.after(&searched))
    }
}

/// How many seeds more each root has in a round at most.
const MOST_MORE: u64 = 8_192;

/// How many seeds each root has had after a round, which had so many before it: so many as there are workers after the
/// first, and then no more than twice as many, so that no root has less than half of what another has whenever a hunt
/// stops.
pub fn seeds_after_round(before: u64, workers: u64) -> u64
    ensures first { before ≡ 0 → result ≡ max 1 workers }
    ensures fair { 0 < before → result ≤ 2 * before }
    ensures more { before < 18446744073709551615 → before < result }
{
    if before == 0 {
        workers.max(1)
    } else {
        before.saturating_add(before.min(MOST_MORE))
    }
}
