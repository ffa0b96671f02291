//! The seats of clients.

ghost use Rattle.std.specs.Prelude.{◌≡◌, true, false, [], OnOk, OnErr};
ghost use Rattle.pf_farm_accounts.specs.Receipts.{empty_seat};

use crate::receipt::Receipt;
use crate::{CallLedger, FarmNames, ReceiptRegister, RegisterToken};
use pf_errors::NoMemory;
use std::alloc::Global;
use std::marker::Model;
use std::sync::ledger::Share;

/// A client's seat: its project, and a receipt of each of its calls that was logged, in order. Contracts see these, all
/// receipts of all seats that it has seen, and whether there is room for one more of its own.
#[derive(Drop)]
pub struct Seat<N: FarmNames, C, A> {
    pub(crate) project: u32,
    pub(crate) receipts: Vec<Receipt<C, A>>,
    pub(crate) has_room: bool,
    pub(crate) share: Share<CallLedger<N>>,
    pub(crate) token: RegisterToken<Receipt<C, A>, ReceiptRegister<N>>,
}

impl<N: FarmNames, C, A> Model for Seat<N, C, A> {
    ghost use Rattle.std.specs.Prelude.{◌≡◌, ◌<◌, true, length};
    ghost use Rattle.std.specs.Vec.{vec_len, vec_capacity};
    ghost use Rattle.pf_farm_accounts.specs.Receipts.{SeatView, IsSeat};

    ghost Value = { SeatView C A };

    ghost view = { λ s. record {
      project = s.project;
      receipts = s.receipts.items;
      seen = s.token.1;
      has_room = s.has_room;
    } };

    ghost invariant = { λ s. (s.share.parts ≡ 1)
        × (s.share.amount ≡ length s.receipts.items)
        × IsSeat s.token.0 s.token.1 s.project s.receipts.items
        × (s.has_room ≡ true → vec_len s.receipts < vec_capacity s.receipts) };
}

impl<N: FarmNames, C, A> Seat<N, C, A> {
    /// A seat of a project, with no receipt.
    pub(crate) fn new(
        alloc: Global,
        project: u32,
        share: Share<CallLedger<N>>,
        token: RegisterToken<Receipt<C, A>, ReceiptRegister<N>>,
    ) -> Seat<N, C, A>
        requires share { (share.parts ≡ 1) × (share.amount ≡ 0) }
        requires token { token ≡ ([], []) }
        ensures { result ≡ empty_seat project }
    {
        Seat {
            project,
            receipts: Vec::new(alloc),
            has_room: false,
            share,
            token,
        }
    }

    /// Its project.
    pub fn project(&self) -> u32
        ensures { result ≡ self.now.project }
    {
        self.project
    }

    /// Its receipts, in the order of the calls.
    pub fn receipts(&self) -> &[Receipt<C, A>]
        ensures { result.now ≡ self.now.receipts }
    {
        self.receipts.as_slice()
    }

    /// Makes room for one receipt more.
    pub fn make_room(&mut self) -> Result<(), NoMemory>
        ensures project { self.new.project ≡ self.old.project }
        ensures receipts { self.new.receipts ≡ self.old.receipts }
        ensures seen { self.new.seen ≡ self.old.seen }
        ensures room { OnOk result (self.new.has_room ≡ true) }
        ensures full { OnErr result (self.old.has_room ≡ false) }
    {
        self.has_room = false;
        self.receipts.reserve(1)?;
        self.has_room = true;
        Ok(())
    }
}
