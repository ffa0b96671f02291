//! The mailbox of a process over the mail list: a selective receive tests each message at most once.
#![tactic(auto)]

mod flush;
mod mailbox;
mod packed;
mod search;
mod testing;

pub use mailbox::Mailbox;
pub use packed::PackedMail;
