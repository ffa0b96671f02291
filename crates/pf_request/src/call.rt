//! What a client asks for.

use crate::request::Request;
use pf_check::Source;

/// What is requested of the module of a number.
#[derive(Drop)]
pub struct Order {
    pub module: u64,
    pub request: Request,
}

/// A call of a client.
#[derive(Drop)]
pub enum Call {
    /// A number for the module that this source is.
    Submit(Source),
    /// A ticket for a trial, which may be a shrinking.
    Order(Order),
    /// The result of the trial of a ticket.
    Fetch(u64),
    /// How far the trial of a ticket is.
    Status(u64),
    /// The trial of a ticket isn't wanted any more.
    DropTrial(u64),
    /// The module of a number isn't wanted any more.
    Withdraw(u64),
    /// What the project uses.
    Usage,
    /// How many calls the project logged.
    Log,
    /// The project's desk has this edition from now on.
    Edition(u32),
}
