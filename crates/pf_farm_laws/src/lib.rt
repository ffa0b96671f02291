//! The ledger of claims beside the desks: what it says of claims is what their histories say.
//! Legal histories of desks in which no file bears the mark of memory, and the laws of them.
#![tactic(auto)]

pub mod laws;
pub mod ledger_laws;
