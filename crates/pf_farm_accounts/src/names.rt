//! The name of a farm, and those of its ledgers and registers that follow from it.

use crate::RegisterName;
use std::marker::{Brand, PhantomData};
use std::sync::ledger::Ledger;

/// Which farm it is: the names of its three ledgers and the numbers of their parts, and where its three registers are.
/// One type parameter stands for all of them. Whoever makes a farm passes `Brand` for it, with the members that the new
/// ledgers and registers have.
pub trait FarmNames {
    ghost use Rattle.std.specs.Prelude.{ℕ, Option};
    ghost use Rattle.std.specs.Global.{Global};

    // The ledger of the calls that were logged, with one part for each seat.
    ghost calls: { ℕ };

    ghost seats: { ℕ };

    // The ledgers of the claims that were opened, and of those that have ended, with one part for each worker.
    ghost opened: { ℕ };

    ghost ended: { ℕ };

    ghost workers: { ℕ };

    // The registers of the receipts, of the claims, and of what clients saw that waited.
    ghost receipts: { Option ((ℕ × ℕ) × Global) };

    ghost claims: { Option ((ℕ × ℕ) × Global) };

    ghost looks: { Option ((ℕ × ℕ) × Global) };
}

impl FarmNames for Brand {
    ghost use Rattle.std.specs.Prelude.{None};

    ghost calls = { 0 };

    ghost seats = { 0 };

    ghost opened = { 0 };

    ghost ended = { 0 };

    ghost workers = { 0 };

    ghost receipts = { None };

    ghost claims = { None };

    ghost looks = { None };
}

/// The ledger of the calls that were logged: the amount of a seat's share is the number of its receipts.
pub struct CallLedger<N: FarmNames> {
    farm: PhantomData<N>,
}

impl<N: FarmNames> Ledger for CallLedger<N> {
    ghost name = { N.calls };

    ghost parts = { N.seats };
}

/// The ledger of the claims that were opened: the amount of a worker's share is the number of those that it opened.
pub struct OpenedLedger<N: FarmNames> {
    farm: PhantomData<N>,
}

impl<N: FarmNames> Ledger for OpenedLedger<N> {
    ghost name = { N.opened };

    ghost parts = { N.workers };
}

/// The ledger of the claims that have ended: the amount of a worker's share is the number of those that it ended.
pub struct EndedLedger<N: FarmNames> {
    farm: PhantomData<N>,
}

impl<N: FarmNames> Ledger for EndedLedger<N> {
    ghost name = { N.ended };

    ghost parts = { N.workers };
}

/// The register of the receipts, whose places the seats bear.
pub struct ReceiptRegister<N: FarmNames> {
    farm: PhantomData<N>,
}

impl<N: FarmNames> RegisterName for ReceiptRegister<N> {
    ghost home = { N.receipts };
}

/// The register of the claims, whose places the open claims bear.
pub struct ClaimRegister<N: FarmNames> {
    farm: PhantomData<N>,
}

impl<N: FarmNames> RegisterName for ClaimRegister<N> {
    ghost home = { N.claims };
}

/// The register of what clients saw, whose places their seats bear.
pub struct LookRegister<N: FarmNames> {
    farm: PhantomData<N>,
}

impl<N: FarmNames> RegisterName for LookRegister<N> {
    ghost home = { N.looks };
}
