//! Where tokens that have no tree go wrong: at the first token that no rule allows after those before it, or at the
//! end; where all are allowed, at the first part that passes a limit. A contract says that it is a token or the end;
//! which one, tests do.
//!
//! The tokens are gone through once, with what is open around each on a stack of its own, so that no source is too deep
//! for it.
#![tactic(auto)]

mod after;
mod export;
mod expression;
mod frame;
mod head;
mod offset;
mod operand;
mod walk;

pub use offset::fault_offset;
