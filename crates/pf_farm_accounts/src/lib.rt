//! A register of entries that lies under a lock, and tokens that carry places of it out of the lock and back.
//! One name for all that a running farm counts and registers.
//! The claims of all workers, in order, each with its one end.
//! Receipts of calls: which calls were logged, in order, and the seats of clients, which keep a receipt of each call of
//! theirs; and what they saw under the farm's lock.
//! The deque of a worker: it puts in and takes out itself, first in, first out, and one other worker steals.
#![tactic(auto)]

mod knowledge;
mod register;

pub use register::{NewRegister, Register, RegisterName, RegisterToken};

mod names;

pub use names::{
    CallLedger, ClaimRegister, EndedLedger, FarmNames, LookRegister, OpenedLedger, ReceiptRegister,
};

mod ledger;
mod row;

pub use ledger::{Ledger, OpenClaim};
pub use row::{Claim, ClaimEnd, ClaimRow};

mod gathering;
mod log;
mod receipt;
mod seat;

pub use gathering::{Gathering, SeatReceipts};
pub use log::CallLog;
pub use receipt::Receipt;
pub use seat::Seat;

mod looks;

pub use looks::{ClosedLooks, LookLog, SeatLooks};

mod deque;
mod deque_part;

pub use deque::{Owner, Thief, open_deque, open_deque_alone};
