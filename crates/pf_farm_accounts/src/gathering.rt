//! The seats of clients, gathered.

ghost use Rattle.std.specs.Prelude.{◌≡◌, ◌+◌, [], ◌++◌, length};
ghost use Rattle.pf_farm_accounts.specs.Places.{StartsWith};
ghost use Rattle.pf_farm_accounts.specs.Receipts.{AreNumbered, AreOf, AreRising, AreRising-prop, EachOnce};
ghost use Rattle.pf_farm_accounts.specs.Receipts.{gathering_of};

use crate::receipt::Receipt;
use crate::seat::Seat;
use crate::{CallLedger, FarmNames, ReceiptRegister, Register};
use std::marker::Model;
use std::sync::ledger::{Book, Share};

/// The receipts of a seat that is closed: they are of its project, and their numbers rise.
#[derive(Drop)]
pub struct SeatReceipts<C, A> {
    pub project: u32,
    pub receipts: Vec<Receipt<C, A>>,
    ghost of: { AreOf project receipts.items },
    ghost rising: { AreRising 0 receipts.items } by { AreRising-prop 0 receipts.items },
}

/// The seats that were gathered so far. Contracts see all calls that were logged, the receipts of these seats, and how
/// many parts of the ledger of calls are there.
#[derive(Drop)]
pub struct Gathering<N: FarmNames, C, A> {
    logged: Book<CallLedger<N>>,
    register: Register<Receipt<C, A>, ReceiptRegister<N>>,
    all: Share<CallLedger<N>>,
}

impl<N: FarmNames, C, A> Model for Gathering<N, C, A> {
    ghost use Rattle.std.specs.Prelude.{◌≡◌, length};
    ghost use Rattle.pf_farm_accounts.specs.Places.{standing_at, AreBelow};
    ghost use Rattle.pf_farm_accounts.specs.Receipts.{AreNumbered, GatheringView, gathering_of};

    ghost Value = { GatheringView C A };

    ghost view = { λ g. gathering_of g.register.0 (standing_at g.register.1 g.register.0) g.all.parts };

    ghost invariant = { λ g. (g.logged.total ≡ length g.register.0)
        × (g.all.amount ≡ length (standing_at g.register.1 g.register.0))
        × AreBelow g.register.1 (length g.register.0)
        × AreNumbered g.register.0 };
}

impl<N: FarmNames, C, A> Gathering<N, C, A> {
    /// No seat was gathered yet.
    pub(crate) fn new(
        logged: Book<CallLedger<N>>,
        register: Register<Receipt<C, A>, ReceiptRegister<N>>,
        all: Share<CallLedger<N>>,
    ) -> Gathering<N, C, A>
        requires total { logged.total ≡ length register.0 }
        requires none { (register.1 ≡ []) × (all.amount ≡ 0) }
        requires numbered { AreNumbered register.0 }
        ensures { result ≡ gathering_of register.0 [] all.parts }
    {
        Gathering {
            logged,
            register,
            all,
        }
    }

    /// Takes in a seat, of which its receipts are left.
    pub fn add(&mut self, seat: Seat<N, C, A>) -> SeatReceipts<C, A>
        ensures project { result.project ≡ seat.project }
        ensures receipts { result.receipts.items ≡ seat.receipts }
        ensures gathered { self.new ≡ gathering_of self.old.log (self.old.receipts ++ seat.receipts)
            (self.old.parts + 1) }
        ensures seen { StartsWith self.old.log seat.seen }
    {
        let Seat {
            project,
            receipts,
            has_room: _,
            share,
            token,
        } = seat;
        self.register.take_back(token);
        self.all.merge(share);
        SeatReceipts { project, receipts }
    }

    /// Where all seats were gathered, their receipts are those of all calls that were logged, each once.
    pub fn settle(self)
        requires { self.parts ≡ N.seats }
        ensures once { EachOnce self.receipts self.log }
        ensures numbered { AreNumbered self.log }
    {
        let Gathering {
            mut logged,
            register: _,
            mut all,
        } = self;
        logged.audit(&mut all);
    }
}
