//! A doubly linked mail list over raw nodes, and the pool of its spare nodes.
//!
//! A list is seen as its items, first come first, and a mark among them. A selective receive tests each
//! item once from the mark on, and unlinks the first that it accepts (Erlang Reference Manual, "Receive").
#![tactic(auto)]

mod links;
mod mail;
mod raw;
mod spare;

pub use mail::MailList;
pub use spare::Pool;
