//! The seats of clients.

ghost use Rattle.std.specs.Prelude.{◌≡◌, false};

use crate::look::TrialLook;
use pf_book::Reply;
use pf_farm_accounts::{ClosedLooks, FarmNames, Receipt, Seat, SeatLooks, SeatReceipts};
use pf_request::Call;
use std::marker::Model;

/// A client's seat: what its calls were answered, what it saw that waited, and whether the log of its project is full.
/// Contracts see its project, its receipts, its looks, and whether it is full: then it has seen as many calls of the
/// project as a log holds.
#[derive(Drop)]
pub struct ClientSeat<N: FarmNames> {
    pub(crate) seat: Seat<N, Call, Reply>,
    pub(crate) looks: SeatLooks<N, TrialLook>,
    pub(crate) is_full: bool,
}

impl<N: FarmNames> Model for ClientSeat<N> {
    ghost use Rattle.std.specs.Prelude.{◌≡◌, ◌≤◌, length, true};
    ghost use Rattle.pf_farm_accounts.specs.Receipts.{of_project};
    ghost use Rattle.pf_quota.specs.declared.refusals.TheConstants.{MOST_CALLS};
    ghost use Rattle.pf_farm_state.specs.Clients.{ClientView};
    ghost use Rattle.std.specs.Coded.{codes};
    ghost use Rattle.pf_sched.specs.Views.{coded_finished_view};

    ghost Value = { ClientView };

    ghost coded = { Prim.hlevel (codes, coded_finished_view) };

    ghost view = { λ c. record {
      project = c.seat.project;
      receipts = c.seat.receipts;
      looks = c.looks;
      is_full = c.is_full;
    } };

    ghost invariant = { λ c. c.is_full ≡ true → MOST_CALLS ≤ length (of_project c.seat.project c.seat.seen) };
}

impl<N: FarmNames> ClientSeat<N> {
    /// The seat with these receipts and looks, which isn't full.
    pub(crate) fn new(seat: Seat<N, Call, Reply>, looks: SeatLooks<N, TrialLook>) -> ClientSeat<N>
        ensures { result ≡ record {
          project = seat.project;
          receipts = seat.receipts;
          looks = looks;
          is_full = false;
        } }
    {
        ClientSeat {
            seat,
            looks,
            is_full: false,
        }
    }

    /// Its project.
    pub fn project(&self) -> u32
        ensures { result ≡ self.now.project }
    {
        self.seat.project()
    }

    /// What it was answered, call by call: each receipt has the number that the call has in the log of its project.
    pub fn receipts(&self) -> &[Receipt<Call, Reply>]
        ensures { result.now ≡ self.now.receipts }
    {
        self.seat.receipts()
    }

    /// Whether the log of its project is full, so that no call is logged any more.
    pub fn is_full(&self) -> bool
        ensures { result ≡ self.now.is_full }
    {
        self.is_full
    }
}

/// What is left of a client's seat that is closed.
#[derive(Drop)]
pub struct ClosedSeat {
    pub reported: SeatReceipts<Call, Reply>,
    /// What the client saw that waited, which is known to proofs alone.
    pub looks: ClosedLooks<TrialLook>,
    pub is_full: bool,
}
