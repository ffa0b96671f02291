//! The jobs of the workers of a hunt.

ghost use Rattle.std.specs.Prelude.{◌≡◌, All, IfOk, IfSome, Ok, map, true};
ghost use Rattle.pf_model.specs.Limits.{IsEdition};
ghost use Rattle.pf_property.specs.Texts.{ReadsProperty};
ghost use Rattle.pf_property.specs.Views.{property_of};
ghost use Rattle.pf_request.specs.View.{view_of_request};
ghost use Rattle.pf_sched.specs.Asked.{Asks};
ghost use Rattle.pf_verdicts.specs.Watching.{AreJobsOf, IsSeen, Watches, by_property};

use crate::others::{MOST, other_jobs};
use crate::seen::reads_events;
use pf_check::ReadModule;
use pf_errors::{NoMemory, OrNoMemory};
use pf_property::Property;
use pf_request::{Request, ShortBytes};
use pf_sched::Job;
use std::alloc::Global;

/// The job of a hunt by the one of its properties that reads the events of a run, so that none is kept.
#[derive(Drop)]
pub struct WatchedJob {
    pub(crate) job: Job,
    /// The property of this job.
    pub(crate) property: Property,
    /// That of the hunt's job.
    pub(crate) first: Property,
}

/// By which jobs the workers of a hunt run its seeds, beside its own.
#[derive(Drop)]
pub struct WorkerJobs {
    /// The hunt's job over modules of their own, for each worker after the first.
    pub others: Vec<Job>,
    /// The job by the property that is watched, for each worker; none where several properties read events.
    pub watched: Vec<WatchedJob>,
}

impl WorkerJobs {
    ghost use Rattle.std.specs.Prelude.{List};
    ghost use Rattle.pf_model.specs.Properties as properties;
    ghost use Rattle.pf_request.specs.Job as request;
    ghost use Rattle.pf_verdicts.specs.Watching.{AreJobsOf};

    /// No job: all workers share that of the hunt.
    pub fn none(alloc: Global) -> WorkerJobs
        ensures { (j : request.Job) (ps : List properties.Property) → AreJobsOf j ps result }
    {
        WorkerJobs {
            others: Vec::new(alloc),
            watched: Vec::new(alloc),
        }
    }
}

/// What is hunted: a module, what is asked for of it, the texts of the further properties, and by how many workers.
#[derive(Clone, Copy)]
pub struct HuntAsked<'a> {
    pub module: &'a ReadModule,
    pub request: &'a Request,
    pub further: &'a [&'a str],
    pub workers: u64,
}

/// Whether a text begins as those of properties that read events. Where this is wrong, runs keep their events, and
/// nothing else changes.
fn seems_to_read(text: &[u8]) -> bool {
    text == b"nocrash".as_slice() || text.starts_with(b"never:")
}

/// The text of the property to watch: the first that seems to read events, or else that of the request.
fn text_to_watch<'a>(asked: &HuntAsked<'a>) -> &'a [u8] {
    let own = asked.request.property.as_slice();
    if seems_to_read(own) {
        return own;
    }
    for text in asked.further {
        if seems_to_read(text.as_bytes()) {
            return text.as_bytes();
        }
    }
    own
}

/// The same request by another property.
fn request_by(alloc: Global, request: &Request, property: &[u8]) -> Result<Request, NoMemory>
    ensures { IfOk result (λ r. view_of_request r
        ≡ record (view_of_request request.now) { property = property.now }) }
{
    Ok(Request {
        root: ShortBytes::from_slice(alloc, request.root.as_slice())?,
        property: ShortBytes::from_slice(alloc, property)?,
        kind: request.kind.share()?,
        limit: request.limit,
    })
}

/// The property of a text of a module, if it is one.
fn property_in(
    alloc: Global,
    module: &ReadModule,
    text: &[u8],
) -> Result<Option<Property>, NoMemory>
    ensures { IfOk result (λ o. IfSome o (λ p. ReadsProperty «module».now.code.atoms text.now (property_of p))) }
{
    match Property::read(alloc, text, module.module().atoms()) {
        Ok(property) => Ok(Some(property)),
        Err(OrNoMemory::NoMemory) => Err(NoMemory),
        Err(OrNoMemory::Fault(_)) => Ok(None),
    }
}

/// The job of a request of a module, if it isn't refused.
fn job_in(
    alloc: Global,
    module: &ReadModule,
    request: &Request,
    edition: u32,
) -> Result<Option<Job>, NoMemory>
    requires { IsEdition edition }
    ensures { IfOk result (λ o. IfSome o (λ j. Asks «module».now edition (view_of_request request.now) (Ok j))) }
{
    match Job::new(alloc, module.share()?, request, edition) {
        Ok(job) => Ok(Some(job)),
        Err(OrNoMemory::NoMemory) => Err(NoMemory),
        Err(OrNoMemory::Fault(_)) => Ok(None),
    }
}

/// Whether a job is that of a request of a module.
fn is_of(alloc: Global, job: &Job, module: &ReadModule, request: &Request) -> Result<bool, NoMemory>
    ensures { IfOk result (λ b. b ≡ true
        → Asks «module».now job.now.asked.edition (view_of_request request.now) (Ok job.now)) }
{
    match job_in(alloc, module, request, job.edition())? {
        Some(other) => Ok(other.same(job)),
        None => Ok(false),
    }
}

/// A job, which is that of a request, by the property of this text.
fn job_by(
    alloc: Global,
    job: &Job,
    module: &ReadModule,
    request: &Request,
    text: &[u8],
) -> Result<Option<WatchedJob>, NoMemory>
    requires { Asks «module».now job.now.asked.edition (view_of_request request.now) (Ok job.now) }
    ensures { IfOk result (λ o. IfSome o (λ w. (w.job ≡ by_property job.now (property_of w.property))
        × (property_of w.first ≡ job.now.asked.property))) }
{
    let by = request_by(alloc, request, text)?;
    let watched = job_in(alloc, module, &by, job.edition())?;
    let property = property_in(alloc, module, text)?;
    let first = property_in(alloc, module, request.property.as_slice())?;
    match (watched, property, first) {
        (Some(job), Some(property), Some(first)) => Ok(Some(WatchedJob {
            job,
            property,
            first,
        })),
        _ => Ok(None),
    }
}

/// Whether a property is seen where another is watched.
fn is_seen(watched: &Property, property: &Property) -> bool
    ensures { result ≡ true → IsSeen (property_of watched.now) (property_of property.now) }
{
    !reads_events(property) || property.same(watched)
}

/// Whether all of these properties are seen.
fn are_seen(watched: &Property, properties: &[Property]) -> bool
    ensures { result ≡ true → All (IsSeen (property_of watched.now)) (map property_of properties.now) }
{
    for property in properties {
        if !is_seen(watched, property) {
            return false;
        }
    }
    true
}

/// The job of a hunt with these further properties by the one that reads events, over this module; none where the job
/// is another, or where several properties read events.
fn watched_over(
    alloc: Global,
    job: &Job,
    module: &ReadModule,
    further: &[Property],
    asked: &HuntAsked,
) -> Result<Option<WatchedJob>, NoMemory>
    ensures { IfOk result (λ o. IfSome o (Watches job.now (map property_of further.now))) }
{
    if !is_of(alloc, job, module, asked.request)? {
        return Ok(None);
    }
    let Some(watched) = job_by(alloc, job, module, asked.request, text_to_watch(asked))? else {
        return Ok(None);
    };
    if is_seen(&watched.property, &watched.first) && are_seen(&watched.property, further) {
        Ok(Some(watched))
    } else {
        Ok(None)
    }
}

/// The module of a hunt for a worker: its own for the first, and for each other read once more, if it can be.
fn module_for(
    alloc: Global,
    module: &ReadModule,
    worker: u64,
) -> Result<Option<ReadModule>, NoMemory> {
    if worker == 0 {
        return Ok(Some(module.share()?));
    }
    match ReadModule::read(alloc, module.source()) {
        Ok(read) => Ok(Some(read)),
        Err(OrNoMemory::NoMemory) => Err(NoMemory),
        Err(OrNoMemory::Fault(_)) => Ok(None),
    }
}

/// That job for each worker, at most 64.
fn watched_jobs(
    alloc: Global,
    job: &Job,
    further: &[Property],
    asked: &HuntAsked,
) -> Result<Vec<WatchedJob>, NoMemory>
    ensures { IfOk result (λ v. All (Watches job.now (map property_of further.now)) v.items) }
{
    let mut jobs = Vec::new(alloc);
    if further.is_empty() {
        return Ok(jobs);
    }
    for worker in 0..asked.workers.min(MOST + 1) {
        let Some(module) = module_for(alloc, asked.module, worker)? else {
            return Ok(jobs);
        };
        let Some(watched) = watched_over(alloc, job, &module, further, asked)? else {
            return Ok(jobs);
        };
        jobs.push(watched)?;
    }
    Ok(jobs)
}

/// The jobs of the workers of a hunt with these further properties.
pub fn worker_jobs(
    alloc: Global,
    job: &Job,
    further: &[Property],
    asked: &HuntAsked,
) -> Result<WorkerJobs, NoMemory>
    ensures { IfOk result (AreJobsOf job.now (map property_of further.now)) }
{
    let watched = watched_jobs(alloc, job, further, asked)?;
    if !watched.is_empty() {
        let others = Vec::new(alloc);
        return Ok(WorkerJobs { others, watched });
    }
    let others = other_jobs(alloc, job, asked.module, asked.request, asked.workers)?;
    Ok(WorkerJobs { others, watched })
}
