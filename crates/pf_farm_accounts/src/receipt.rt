//! Receipts.

ghost use Rattle.std.specs.Prelude.{◌≡◌};
ghost use Rattle.pf_farm_accounts.specs.Receipts.{receipt_of};

use std::snapshot::Snapshot;

/// What a client keeps of a call that was logged: its project, its number in the project's log, counted from 1, and
/// what it asked and was answered. These two are known to proofs alone, and take no room.
#[derive(Drop)]
pub struct Receipt<C, A> {
    pub project: u32,
    pub number: u64,
    pub call: Snapshot<C>,
    pub reply: Snapshot<A>,
}

impl<C, A> Receipt<C, A> {
    /// The receipt of a project's call of this number, which was answered so.
    pub(crate) fn of(project: u32, number: u64, call: Snapshot<C>, reply: &A) -> Receipt<C, A>
        ensures { result ≡ receipt_of project number call.value reply.now }
    {
        Receipt {
            project,
            number,
            call,
            reply: Snapshot::of(reply),
        }
    }
}
