//! What becomes of an exit signal.

use pf_terms::Term;

/// What becomes of an exit signal.
#[derive(Drop)]
pub enum Fate {
    Drop,
    /// It becomes a message of the mailbox.
    Message,
    /// The receiver ends with this reason.
    End(Term),
}
