//! What a hunt asks for of one root of a module.

ghost use Rattle.std.specs.Prelude.{◌≡◌, IfOk, Ok, MatchResult};
ghost use Rattle.pf_request.specs.View.{view_of_request};
ghost use Rattle.pf_sched.specs.Asked.{Asks, IsRefusal};
ghost use Rattle.pf_cli.specs.Args.{view_of_hunt_args};
ghost use Rattle.pf_hunt_suite.specs.Ends.{request_for};

use pf_check::ReadModule;
use pf_cli::HuntArgs;
use pf_errors::{NoMemory, OrNoMemory};
use pf_request::{Request, ShortBytes};
use pf_sched::{Job, JobRefusal};
use std::alloc::Global;

/// What a hunt asks for of a root.
pub fn request_for(alloc: Global, args: &HuntArgs, root: &[u8]) -> Result<Request, NoMemory>
    ensures { IfOk result (λ r. view_of_request r ≡ request_for (view_of_hunt_args args.now) root.now) }
{
    let HuntArgs { request, .. } = args;
    Ok(Request {
        root: ShortBytes::from_slice(alloc, root)?,
        property: ShortBytes::from_slice(alloc, request.property.as_slice())?,
        kind: request.kind.share()?,
        limit: request.limit,
    })
}

/// The job in whose place those of the seeds go.
pub(crate) fn job_for(
    alloc: Global,
    args: &HuntArgs,
    module: &ReadModule,
    root: &[u8],
) -> Result<Job, OrNoMemory<JobRefusal>>
    ensures { MatchResult result
        (λ job. Asks «module».now (view_of_hunt_args args.now).edition
        (request_for (view_of_hunt_args args.now) root.now) (Ok job))
        (IsRefusal (Asks «module».now (view_of_hunt_args args.now).edition
        (request_for (view_of_hunt_args args.now) root.now))) }
{
    let request = request_for(alloc, args, root)?;
    Job::new(alloc, module.share()?, &request, args.edition.number())
}

/// A root that is hunted: what the hunt asks for, the module and the name of the root, and how many workers share the
/// seeds.
#[derive(Clone, Copy)]
pub struct RootHunt<'a> {
    pub args: &'a HuntArgs<'a>,
    pub module: &'a ReadModule,
    pub root: &'a [u8],
    pub workers: u64,
}
