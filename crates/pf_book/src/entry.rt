//! What a desk notes.

ghost use Rattle.std.specs.Prelude.{◌≡◌};
ghost use Rattle.pf_desks.specs.Desk as desk;
ghost use Rattle.pf_desks.specs.Work.{result_marked};
ghost use Rattle.pf_request.specs.Calls as calls;
ghost use Rattle.pf_book.specs.Profile.{ForRight};
ghost use Rattle.pf_book.specs.View.{mark_of, view_of_entry};

use crate::refusal::CallRefusal;
use pf_check::Source;
use pf_desks::{FileMark, TrialStage};
use pf_quota::Usage;
use pf_request::Order;
use pf_sched::{Finished, Job, JobEnd, Whole};
use std::sync::Arc;

/// The mark of a job's result.
pub(crate) fn mark_of(finished: &Finished) -> FileMark
    ensures mark { result ≡ mark_of finished.now.result }
    ensures puts { ForRight (λ p.
        result_marked p result finished.now.job ≡ finished.now.result) }
{
    if finished.is_whole() {
        FileMark::Whole
    } else {
        FileMark::Memory
    }
}

/// What a desk notes: a call with its reply, and that a worker claimed the trial of a ticket, filed its result, or
/// handed it back.
#[derive(Drop)]
pub(crate) enum Entry {
    /// A source was submitted, and given this number.
    Submitted(Source, u64),
    /// A source was submitted, and refused.
    SubmitRefused(Source, CallRefusal),
    /// A trial was ordered, and given this ticket.
    Ordered(Box<Order>, u64),
    /// A trial was ordered, and refused.
    OrderRefused(Box<Order>, CallRefusal),
    /// The whole result of the trial of a ticket was handed out.
    Fetched(u64, Whole),
    /// The reply was that memory ran out for the job of the trial of a ticket.
    ReportedMemory(u64, Arc<Job>),
    /// The result of the trial of a ticket was refused.
    FetchRefused(u64, CallRefusal),
    /// The trial of a ticket was at this stage.
    Stood(u64, TrialStage),
    /// How far the trial of a ticket is was refused.
    StatusRefused(u64, CallRefusal),
    /// The trial of a ticket was dropped.
    Dropped(u64),
    /// To drop the trial of a ticket was refused.
    DropRefused(u64, CallRefusal),
    /// The module of a number was withdrawn.
    Withdrawn(u64),
    /// To withdraw the module of a number was refused.
    WithdrawRefused(u64, CallRefusal),
    /// What the project uses was handed out.
    Used(Box<Usage>),
    /// How many calls were logged was handed out.
    Counted(u64),
    /// The desk has this edition.
    Moved(u32),
    /// This edition was refused.
    MoveRefused(u32, CallRefusal),
    Claimed(u64),
    /// The result of the trial of a ticket was filed under a mark.
    Filed(u64, FileMark),
    HandedBack(u64),
}

impl Entry {
    /// The note that the result of the trial of a ticket was handed out.
    pub fn fetched(ticket: u64, finished: Finished) -> Entry
        ensures { view_of_entry result
            ≡ desk.called (calls.fetch ticket) (desk.result finished.job.asked.code.atoms finished.result) }
    {
        match finished.into_ending() {
            JobEnd::Whole(whole) => Entry::Fetched(ticket, whole),
            JobEnd::Memory(job) => Entry::ReportedMemory(ticket, job),
        }
    }
}
