//! Which calls were logged.

ghost use Rattle.std.specs.Prelude.{◌≡◌, ◌+◌, ◌<◌, true, false, [], ◌∷◌, ◌++◌, length, Some};
ghost use Rattle.pf_farm_accounts.specs.Places.{StartsWith};
ghost use Rattle.pf_farm_accounts.specs.Receipts.{empty_seat, gathering_of, of_project, receipt_of, seat_of};

use crate::gathering::Gathering;
use crate::receipt::Receipt;
use crate::seat::Seat;
use crate::{CallLedger, FarmNames, NewRegister, ReceiptRegister, Register};
use std::alloc::Global;
use std::marker::Model;
use std::snapshot::Snapshot;
use std::sync::ledger::{Book, Share};

/// Which calls of all seats were logged, in order: contracts see their receipts. It lies under the farm's lock, and
/// takes no memory.
#[derive(Drop)]
pub struct CallLog<N: FarmNames, C, A> {
    logged: Book<CallLedger<N>>,
    register: Register<Receipt<C, A>, ReceiptRegister<N>>,
}

impl<N: FarmNames, C, A> Model for CallLog<N, C, A> {
    ghost use Rattle.std.specs.Prelude.{◌≡◌, List, [], length};
    ghost use Rattle.pf_farm_accounts.specs.declared.receipt.Receipt.{Receipt};
    ghost use Rattle.pf_farm_accounts.specs.Receipts.{AreNumbered};

    ghost Value = { List (Receipt C A) };

    ghost view = { λ l. l.register.0 };

    ghost invariant = { λ l. (l.logged.total ≡ length l.register.0)
        × (l.register.1 ≡ [])
        × AreNumbered l.register.0 };
}

impl<N: FarmNames, C, A> CallLog<N, C, A> {
    /// No call was logged yet.
    pub fn new(
        logged: Book<CallLedger<N>>,
        register: NewRegister<Receipt<C, A>>,
    ) -> CallLog<N, C, A>
        requires none { logged.total ≡ 0 }
        requires name { N.receipts ≡ Some register }
        ensures { result ≡ [] }
    {
        CallLog {
            logged,
            register: register.named::<ReceiptRegister<N>>(),
        }
    }

    /// A seat of a project, with one part of the ledger of calls.
    pub fn seat(
        &mut self,
        alloc: Global,
        share: Share<CallLedger<N>>,
        project: u32,
    ) -> Seat<N, C, A>
        requires share { (share.parts ≡ 1) × (share.amount ≡ 0) }
        ensures seat { result ≡ empty_seat project }
        ensures same { self.new ≡ self.old }
    {
        let token = self.register.token();
        Seat::new(alloc, project, share, token)
    }

    /// Logs a call of a seat, which has a receipt of it then. It takes no memory, but the room that was made for it.
    pub fn log_call(&mut self, seat: &mut Seat<N, C, A>, number: u64, call: Snapshot<C>, reply: &A)
        requires room { seat.old.has_room ≡ true }
        requires number { number ≡ length (of_project seat.old.project self.old) + 1 }
        ensures log { self.new ≡ self.old ++ receipt_of seat.old.project number call.value reply.now ∷ [] }
        ensures seat { seat.new ≡ seat_of seat.old.project
            (seat.old.receipts ++ receipt_of seat.old.project number call.value reply.now ∷ []) self.new }
        ensures seen { StartsWith self.old seat.old.seen }
    {
        let receipt = Receipt::of(seat.project, number, call, reply);
        self.register.enter(&mut seat.token, &receipt);
        self.logged.add(&mut seat.share, 1);
        seat.has_room = false;
        seat.receipts.push_reserved(receipt);
    }

    /// Shows all receipts to a seat. It takes no memory.
    pub fn show(&mut self, seat: &mut Seat<N, C, A>)
        ensures project { seat.new.project ≡ seat.old.project }
        ensures receipts { seat.new.receipts ≡ seat.old.receipts }
        ensures seen { seat.new.seen ≡ self.old }
        ensures before { StartsWith self.old seat.old.seen }
        ensures same { self.new ≡ self.old }
    {
        self.register.show(&mut seat.token);
    }

    /// No call is logged from now on: the seats are gathered.
    pub fn gather(self, all: Share<CallLedger<N>>) -> Gathering<N, C, A>
        requires { all.amount ≡ 0 }
        ensures { result ≡ gathering_of self [] all.parts }
    {
        let CallLog { logged, register } = self;
        Gathering::new(logged, register, all)
    }
}
