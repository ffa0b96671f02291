//! The job of a hunt over modules of their own, one for each worker after the first.

ghost use Rattle.std.specs.Prelude.{◌≡◌, All, IfOk, IfSome};

use pf_check::ReadModule;
use pf_errors::{NoMemory, OrNoMemory};
use pf_request::Request;
use pf_sched::Job;
use std::alloc::Global;

/// How many jobs there are at most.
pub(crate) const MOST: u64 = 63;

/// The same job over its module read once more.
fn other(
    alloc: Global,
    job: &Job,
    module: &ReadModule,
    request: &Request,
) -> Result<Option<Job>, NoMemory>
    ensures { IfOk result (λ o. IfSome o (λ j. j ≡ job.now)) }
{
    let read = match ReadModule::read(alloc, module.source()) {
        Ok(read) => read,
        Err(OrNoMemory::NoMemory) => return Err(NoMemory),
        Err(OrNoMemory::Fault(_)) => return Ok(None),
    };
    match Job::new(alloc, read, request, job.edition()) {
        Ok(other) => Ok(if other.same(job) { Some(other) } else { None }),
        Err(OrNoMemory::NoMemory) => Err(NoMemory),
        Err(OrNoMemory::Fault(_)) => Ok(None),
    }
}

/// The job that a request of a module results in, once more for each worker after the first, at most 63, over a module
/// of its own.
pub(crate) fn other_jobs(
    alloc: Global,
    job: &Job,
    module: &ReadModule,
    request: &Request,
    workers: u64,
) -> Result<Vec<Job>, NoMemory>
    ensures { IfOk result (λ v. All (λ j. j ≡ job.now) v.items) }
{
    let mut others = Vec::new(alloc);
    for _ in 0..workers.saturating_sub(1).min(MOST) {
        if let Some(other) = other(alloc, job, module, request)? {
            others.push(other)?;
        }
    }
    Ok(others)
}
