//! Why a command ended by a refusal.

ghost use Rattle.std.specs.Prelude.{ℕ, List, IfOk};
ghost use Rattle.pf_cli_messages.specs.Reasons.{IsReason};

use pf_check::{ReadModule, ReadSource};
use pf_errors::{NoMemory, OrNoMemory, SourceRefusal};
use pf_request::Request;
use pf_sched::{Job, JobRefusal};
use std::alloc::Global;

/// What a command asks for of a source: a request in an edition.
#[derive(Clone, Copy)]
pub struct SourceRequest<'a> {
    pub request: &'a Request,
    pub is_second_edition: bool,
    /// Within how many runs a hunt shrinks what it finds.
    pub shrinks: Option<u32>,
}

/// Why a command ended by a refusal.
#[derive(Drop)]
pub enum Reason {
    /// The source is refused.
    OfSource(SourceRefusal),
    /// What is asked for of this module is refused.
    OfRequest(ReadModule, JobRefusal),
    /// Neither is refused: the reason shows later, in what was run.
    Later,
}

/// Why a request of a module is refused, if it is.
fn reason_of_request(
    alloc: Global,
    module: &ReadModule,
    asked: SourceRequest<'_>,
) -> Result<Reason, NoMemory>
    ensures { IfOk result (λ r. (bytes : List ℕ) → IsReason bytes r) }
{
    let edition = if asked.is_second_edition { 2 } else { 1 };
    match Job::new(alloc, module.share()?, asked.request, edition) {
        Ok(_) => Ok(Reason::Later),
        Err(OrNoMemory::NoMemory) => Err(NoMemory),
        Err(OrNoMemory::Fault(refusal)) => Ok(Reason::OfRequest(module.share()?, refusal)),
    }
}

/// Why a module is refused for what is asked for of it; a check asks for nothing.
fn reason_of_module(
    alloc: Global,
    module: &ReadModule,
    asked: Option<SourceRequest<'_>>,
) -> Result<Reason, NoMemory>
    ensures { IfOk result (λ r. (bytes : List ℕ) → IsReason bytes r) }
{
    match asked {
        Some(asked) => reason_of_request(alloc, module, asked),
        None => Ok(Reason::Later),
    }
}

/// Why a source, or what is asked for of it, is refused; a check asks for nothing.
pub fn find_reason(
    alloc: Global,
    source: &ReadSource,
    asked: Option<SourceRequest<'_>>,
) -> Result<Reason, NoMemory>
    ensures { IfOk result (IsReason source.now) }
{
    match source.module() {
        Ok(module) => reason_of_module(alloc, module, asked),
        Err(refusal) => Ok(Reason::OfSource(refusal)),
    }
}
