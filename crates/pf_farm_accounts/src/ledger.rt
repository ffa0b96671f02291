//! The ledger of claims.

ghost use Rattle.std.specs.Prelude.{◌≡◌, ◌+◌, ◌<◌, [], ◌∷◌, ◌++◌, Some, None, true, false, length, slice_get};
ghost use Rattle.std.specs.Prelude.{slice_set, OnOk};
ghost use Rattle.pf_farm_accounts.specs.Rows.{claim_of, row_of, HaveEnded};

use crate::row::{Claim, ClaimEnd, ClaimRow};
use crate::{
    ClaimRegister, EndedLedger, FarmNames, NewRegister, OpenedLedger, Register, RegisterToken,
};
use pf_errors::NoMemory;
use std::alloc::Global;
use std::marker::Model;
use std::sync::ledger::{Book, Share};

/// All claims in the order in which they were opened, each with its end. Contracts see the rows, and whether there is
/// room for one more.
#[derive(Drop)]
pub struct Ledger<N: FarmNames, J> {
    rows: Vec<ClaimRow<J>>,
    has_room: bool,
    opened: Book<OpenedLedger<N>>,
    ended: Book<EndedLedger<N>>,
    register: Register<Claim<J>, ClaimRegister<N>>,
}

impl<N: FarmNames, J> Model for Ledger<N, J> {
    ghost use Rattle.std.specs.Prelude.{◌≡◌, ◌<◌, List, Bool, true, length};
    ghost use Rattle.std.specs.Vec.{vec_len, vec_capacity};
    ghost use Rattle.pf_farm_accounts.specs.declared.row.ClaimRow.{ClaimRow};
    ghost use Rattle.pf_farm_accounts.specs.Rows.{IsRegistered, count_ended};

    ghost Value = { List (ClaimRow J) × Bool };

    ghost view = { λ l. (l.rows.items, l.has_room) };

    ghost invariant = { λ l. IsRegistered l.rows.items l.register.0 l.register.1
        × (l.opened.total ≡ length l.rows.items)
        × (l.ended.total ≡ count_ended l.rows.items)
        × (l.has_room ≡ true → vec_len l.rows < vec_capacity l.rows) };
}

/// A claim that hasn't ended. Whoever holds it can end it, once. Contracts see the number of its row, and which claim
/// it is.
#[derive(Drop)]
pub struct OpenClaim<N: FarmNames, J> {
    number: usize,
    claim: Claim<J>,
    token: RegisterToken<Claim<J>, ClaimRegister<N>>,
}

impl<N: FarmNames, J> Model for OpenClaim<N, J> {
    ghost use Rattle.std.specs.Prelude.{◌≡◌, ℕ, [], ◌∷◌, Some, slice_get};
    ghost use Rattle.pf_farm_accounts.specs.declared.row.Claim.{Claim};

    ghost Value = { ℕ × Claim J };

    ghost view = { λ c. (c.number, c.claim) };

    ghost invariant = { λ c. (c.token.0 ≡ c.number ∷ []) × (slice_get c.token.1 c.number ≡ Some c.claim) };
}

impl<N: FarmNames, J> OpenClaim<N, J> {
    /// Which claim it is.
    pub fn claim(&self) -> &Claim<J>
        ensures { result.now ≡ self.now.1 }
    {
        &self.claim
    }
}

impl<N: FarmNames, J> Ledger<N, J> {
    /// A ledger with no claim.
    pub fn new(
        alloc: Global,
        opened: Book<OpenedLedger<N>>,
        ended: Book<EndedLedger<N>>,
        register: NewRegister<Claim<J>>,
    ) -> Ledger<N, J>
        requires none { (opened.total ≡ 0) × (ended.total ≡ 0) }
        requires name { N.claims ≡ Some register }
        ensures { result ≡ ([], false) }
    {
        Ledger {
            rows: Vec::new(alloc),
            has_room: false,
            opened,
            ended,
            register: register.named::<ClaimRegister<N>>(),
        }
    }

    /// Makes room for one claim more.
    pub fn make_room(&mut self) -> Result<(), NoMemory>
        ensures rows { self.new.0 ≡ self.old.0 }
        ensures room { OnOk result (self.new.1 ≡ true) }
    {
        self.has_room = false;
        self.rows.reserve(1)?;
        self.has_room = true;
        Ok(())
    }

    /// Opens a claim of the trial of a project's ticket, which is of this job. It takes no memory, but the room that
    /// was made for it.
    pub fn open(
        &mut self,
        share: &mut Share<OpenedLedger<N>>,
        project: u32,
        ticket: u64,
        job: &J,
    ) -> OpenClaim<N, J>
        requires room { self.old.1 ≡ true }
        requires parts { 0 < share.old.parts }
        ensures claim { result ≡ (length self.old.0, claim_of project ticket job.now) }
        ensures rows { self.new ≡ (self.old.0 ++ row_of (claim_of project ticket job.now) None ∷ [], false) }
        ensures amount { share.new.amount ≡ share.old.amount + 1 }
        ensures parts { share.new.parts ≡ share.old.parts }
    {
        let claim = Claim::of(project, ticket, job);
        let Ledger {
            rows,
            has_room,
            opened,
            ended: _,
            register,
        } = self;
        let number = rows.len();
        let mut token = register.token();
        register.enter(&mut token, &claim);
        opened.add(share, 1);
        *has_room = false;
        rows.push_reserved(ClaimRow {
            claim: Claim::of(project, ticket, job),
            end: None,
        });
        OpenClaim {
            number,
            claim,
            token,
        }
    }

    /// Ends a claim, which was open until now. It takes no memory.
    pub fn end(&mut self, share: &mut Share<EndedLedger<N>>, claim: OpenClaim<N, J>, end: ClaimEnd)
        requires { 0 < share.old.parts }
        ensures was { slice_get self.old.0 claim.0 ≡ Some (row_of claim.1 None) }
        ensures now { self.new ≡ (slice_set self.old.0 claim.0 (row_of claim.1 (Some end)), self.old.1) }
        ensures amount { share.new.amount ≡ share.old.amount + 1 }
        ensures parts { share.new.parts ≡ share.old.parts }
    {
        let OpenClaim {
            number,
            claim,
            token,
        } = claim;
        let Ledger {
            rows,
            has_room: _,
            opened: _,
            ended,
            register,
        } = self;
        register.take_back(token);
        rows[number] = ClaimRow {
            claim,
            end: Some(end),
        };
        ended.add(share, 1);
    }

    /// The rows of all claims. Where as many claims have ended as were opened, each has ended: whoever has all parts of
    /// both ledgers shows it.
    pub fn settle(
        self,
        opened: &mut Share<OpenedLedger<N>>,
        ended: &mut Share<EndedLedger<N>>,
    ) -> Vec<ClaimRow<J>>
        requires whole { (opened.old.parts ≡ N.workers) × (ended.old.parts ≡ N.workers) }
        requires even { opened.old.amount ≡ ended.old.amount }
        ensures rows { result.items ≡ self.0 }
        ensures ended { HaveEnded result.items }
    {
        let Ledger {
            rows,
            has_room: _,
            opened: mut all_opened,
            ended: mut all_ended,
            register: _,
        } = self;
        all_opened.audit(opened);
        all_ended.audit(ended);
        rows
    }
}
