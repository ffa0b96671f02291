//! The result of a call, before anything is changed.

ghost use Rattle.std.specs.Prelude.{◌≡◌};

use crate::entry::Entry;
use crate::reply::Reply;
use pf_check::ReadModule;
use pf_quota::Usage;
use pf_sched::Job;
use std::sync::Arc;

/// What a call changes of what its desk holds.
#[derive(Drop)]
pub(crate) enum DeskChange {
    Nothing,
    /// One module more.
    Module(ReadModule),
    /// One trial more: of the module of a number, for a job.
    Trial(u64, Arc<Job>),
    /// The trial of a ticket is given up.
    DropTrial(u64),
    /// The module of a number is given up.
    Withdraw(u64),
    /// The desk has this edition.
    Edition(u32),
}

/// The result of a call: what it changes, what is noted of it, its reply, and what is used then.
#[derive(Drop)]
pub(crate) struct Plan {
    pub change: DeskChange,
    pub noted: Entry,
    pub reply: Reply,
    pub usage: Usage,
}

impl Plan {
    /// A note and a reply alone.
    pub fn reply_alone(noted: Entry, reply: Reply, usage: Usage) -> Plan
        ensures { result ≡ record { change = DeskChange.Nothing; noted = noted; reply = reply; usage = usage } }
    {
        Plan {
            change: DeskChange::Nothing,
            noted,
            reply,
            usage,
        }
    }
}
