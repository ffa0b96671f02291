//! Signals, as programs hold them.

use pf_terms::Term;

/// What one process sends another. A reference is a number; a reason may be any term.
#[derive(Drop)]
pub enum Signal {
    Message(Term),
    Link,
    Unlink,
    /// A reference is to watch the receiver.
    Monitor(u64),
    /// It is not to any more.
    Demonitor(u64),
    /// The process that a reference watches ended with this reason.
    Down(u64, Term),
    Exit { by_link: bool, reason: Term },
}
