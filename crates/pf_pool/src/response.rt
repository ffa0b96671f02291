//! What is answered to the steps of a world.

use pf_book::Reply;

/// What is answered to a step.
#[derive(Drop)]
pub enum Response {
    /// The reply to a client's call.
    Reply(Reply),
    /// The chore is done.
    Done,
    /// The trial of what was filed or handed back isn't running; the worker holds nothing now.
    Stray,
    /// The chore can't be done now, and changed nothing.
    NotNow,
}
