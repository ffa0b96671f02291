//! The text of the answer to a step.

ghost use Rattle.std.specs.Prelude.{◌≡◌, ◌++◌, None, OnOk, codes};
ghost use Rattle.std.specs.Fmt.{decimal};
ghost use Rattle.pf_errors.specs.Codes.{code_text, no_memory_text};
ghost use Rattle.pf_errors.specs.declared.code.Code.TheVariants as code;
ghost use Rattle.pf_desks.specs.Reported.{to_project};
ghost use Rattle.pf_world.specs.Steps.{WorldStep};
ghost use Rattle.pf_world.specs.Reported.{memory_text, step_text, to_worker};
ghost use Rattle.pf_world.specs.View.{view_of_step};
ghost use Rattle.pf_pool.specs.Responses.{response_in};
ghost use Rattle.pf_wire.specs.Outcomes.{project_in, requester_of, worker_in};
ghost use Rattle.pf_wire.specs.Whole.{whole_text};

use crate::reply::{put_code, put_project, put_reply};
use crate::reported::WrittenAnswer;
use pf_errors::{Code, NoMemory};
use pf_pool::Response;
use pf_request::Step;
use pf_text::{put, put_byte, put_number};
use std::alloc::Global;

/// Who did a step, and so is sent its answer: a client of a project, or a worker about a trial of a project.
#[derive(Clone, Copy, Debug, PartialEq, Eq)]
pub enum Requester {
    Client { project: u32 },
    Worker { worker: u32, project: u32 },
}

impl Requester {
    /// Who does a step.
    pub fn of(step: &Step) -> Requester
        ensures { result ≡ requester_of (view_of_step step.now) }
    {
        match step {
            Step::Call { project, .. } => Requester::Client { project: *project },
            Step::Chore {
                worker,
                project,
                ..
            } => Requester::Worker {
                worker: *worker,
                project: *project,
            },
        }
    }

    /// The project that the step names.
    fn project(self) -> u32
        ensures { result ≡ project_in self }
    {
        match self {
            Requester::Client { project } | Requester::Worker { project, .. } => project,
        }
    }

    /// The worker that the step names; 0 of a client's, which names none.
    fn worker(self) -> u32
        ensures { result ≡ worker_in self }
    {
        match self {
            Requester::Client { .. } => 0,
            Requester::Worker { worker, .. } => worker,
        }
    }
}

/// Puts that a line is for a worker.
fn put_worker(out: &mut Vec<u8>, worker: u32) -> Result<(), NoMemory>
    ensures { OnOk result (out.new.items ≡ out.old.items ++ (codes "w" ++ decimal worker ++ codes " ")) }
{
    put(out, b"w")?;
    put_number(out, u64::from(worker))?;
    put(out, b" ")
}

/// Puts that a chore is done.
fn put_done(out: &mut Vec<u8>, worker: u32) -> Result<(), NoMemory>
    ensures { OnOk result (out.new.items ≡ out.old.items ++ to_worker worker (codes "done")) }
{
    put_worker(out, worker)?;
    put(out, b"done")?;
    put_byte(out, b'\n')
}

/// Puts that a file or a hand-back is stray.
fn put_stray(alloc: Global, out: &mut Vec<u8>, worker: u32) -> Result<(), NoMemory>
    ensures { OnOk result (out.new.items ≡ out.old.items
        ++ to_worker worker (codes "stray " ++ code_text code.Stray)) }
{
    put_worker(out, worker)?;
    put(out, b"stray ")?;
    put_code(alloc, out, Code::Stray)?;
    put_byte(out, b'\n')
}

/// Puts that a chore can't be done now.
fn put_not_now(alloc: Global, out: &mut Vec<u8>, worker: u32) -> Result<(), NoMemory>
    ensures { OnOk result (out.new.items ≡ out.old.items
        ++ to_worker worker (codes "not now " ++ code_text code.NotNow)) }
{
    put_worker(out, worker)?;
    put(out, b"not now ")?;
    put_code(alloc, out, Code::NotNow)?;
    put_byte(out, b'\n')
}

/// Puts that an allocation failed in a client's call.
fn put_call_memory(out: &mut Vec<u8>, project: u32) -> Result<(), NoMemory>
    ensures { OnOk result (out.new.items ≡ out.old.items
        ++ to_project project (codes "refused " ++ no_memory_text)) }
{
    put_project(out, project)?;
    put(out, b"refused ")?;
    put(out, b"NoMemory")?;
    put_byte(out, b'\n')
}

/// Puts that an allocation failed in a worker's chore.
fn put_chore_memory(out: &mut Vec<u8>, worker: u32) -> Result<(), NoMemory>
    ensures { OnOk result (out.new.items ≡ out.old.items ++ to_worker worker (codes "no memory")) }
{
    put_worker(out, worker)?;
    put(out, b"no memory")?;
    put_byte(out, b'\n')
}

/// Puts that an allocation failed.
fn put_memory(out: &mut Vec<u8>, requester: Requester) -> Result<(), NoMemory>
    ensures { (s : WorldStep) → requester ≡ requester_of s
        → OnOk result (out.new.items ≡ out.old.items ++ memory_text s) }
{
    match requester {
        Requester::Client { project } => put_call_memory(out, project),
        Requester::Worker { worker, .. } => put_chore_memory(out, worker),
    }
}

/// Puts the text of the answer to a step. The lines of a report's events stay where they were written.
pub fn put_outcome(
    alloc: Global,
    reported: &mut WrittenAnswer,
    requester: Requester,
    outcome: Result<Response, NoMemory>,
) -> Result<(), NoMemory>
    requires { reported.old.report ≡ None }
    ensures { (s : WorldStep) → requester ≡ requester_of s
        → OnOk result (whole_text reported.new ≡ reported.old.text.items ++ step_text s (response_in outcome)) }
{
    match outcome {
        Ok(Response::Reply(reply)) => put_reply(alloc, reported, requester.project(), reply),
        Ok(Response::Done) => put_done(&mut reported.text, requester.worker()),
        Ok(Response::Stray) => put_stray(alloc, &mut reported.text, requester.worker()),
        Ok(Response::NotNow) => put_not_now(alloc, &mut reported.text, requester.worker()),
        Err(NoMemory) => put_memory(&mut reported.text, requester),
    }
}
