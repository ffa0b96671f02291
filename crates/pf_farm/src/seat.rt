//! The seats of workers.

ghost use Rattle.std.specs.Prelude.{◌≡◌, ◌<◌, ◌∷◌, ◌++◌, [], true, false, length, is_some, IfSome, IfNone, IfOk, IfErr};
ghost use Rattle.std.specs.Prelude.{OnOk, OnErr};
ghost use Rattle.pf_farm_accounts.specs.declared.row.ClaimEnd.TheVariants.{Filed, HandedBack};
ghost use Rattle.pf_farm_accounts.specs.DequeViews.{FoundEmpty, TakesFirst, stolen_by};
ghost use Rattle.pf_farm.specs.Seats.{ClaimEndsAs, HasFiled, IsAsBefore, SameEnds, saturated};

use crate::held::HeldRun;
use crate::tally::WorkTally;
use pf_errors::NoMemory;
use pf_farm_accounts::{EndedLedger, FarmNames, OpenClaim, OpenedLedger, Owner, Thief};
use pf_farm_state::{ClaimedTrial, Hall};
use pf_sched::{Finished, Job};
use std::marker::Model;
use std::sync::ledger::Share;

/// How many runs more a worker pushes than it pops, at most, until a pop finds nothing.
const MOST_AHEAD: u32 = 64;

/// A worker's seat: its own deque, the stealer of the next worker's if there are others, its shares of the ledgers,
/// whether it holds a run, and how many runs it pushed more than it popped since it began or last found its deque
/// empty. Contracts see what went through the two ends, by the numbers of claims, whether it holds a run, and what it
/// counts: as many claims arrived at the seat as left it, but for the one that it holds.
#[derive(Drop)]
pub struct WorkSeat<N: FarmNames> {
    pub(crate) own: Owner<HeldRun<N>>,
    pub(crate) next: Option<Thief<HeldRun<N>>>,
    pub(crate) opened: Share<OpenedLedger<N>>,
    pub(crate) ended: Share<EndedLedger<N>>,
    pub(crate) busy: bool,
    pub(crate) ahead: u32,
    pub(crate) filed: u64,
    pub(crate) tally: WorkTally,
}

impl<N: FarmNames> Model for WorkSeat<N> {
    ghost use Rattle.std.specs.Prelude.{◌≡◌};
    ghost use Rattle.pf_farm.specs.Seats.{WorkSeatView, seat_of, CountsClaims, CountsSteals, IsBalanced};

    ghost Value = { WorkSeatView };

    ghost view = { λ s. seat_of s.own s.next s.busy s.filed s.tally };

    ghost invariant = { λ s. (s.opened.parts ≡ 1)
        × (s.ended.parts ≡ 1)
        × IsBalanced s.opened.amount s.ended.amount (seat_of s.own s.next s.busy s.filed s.tally)
        × CountsSteals (seat_of s.own s.next s.busy s.filed s.tally)
        × CountsClaims s.opened.amount s.ended.amount (seat_of s.own s.next s.busy s.filed s.tally) };
}

impl<N: FarmNames> WorkSeat<N> {
    /// What its worker did so far.
    pub fn tally(&self) -> WorkTally
        ensures all { result ≡ self.now.tally }
        ensures steals { result.steals ≡ saturated (length (stolen_by self.now.next)) }
        ensures parks { result.parks ≡ saturated (length self.now.own.pushed) }
    {
        self.tally
    }

    /// The first run of its own deque, if there is one.
    pub(crate) fn pop(&mut self) -> Option<HeldRun<N>>
        requires { self.old.busy ≡ false }
        ensures same { IsAsBefore self.old self.new }
        ensures busy { self.new.busy ≡ is_some result }
        ensures first { IfSome result (λ r. TakesFirst self.old.own r) }
        ensures none { IfNone result (FoundEmpty self.old.own) }
    {
        match self.own.pop() {
            Some(run) => {
                self.busy = true;
                self.ahead = self.ahead.saturating_sub(1);
                Some(run)
            }
            None => {
                self.ahead = 0;
                None
            }
        }
    }

    /// Whether it is known that no run is left in its deque.
    pub(crate) fn is_drained(&self) -> bool
        ensures { result ≡ self.now.own.drained }
    {
        self.own.is_drained()
    }

    /// Marks the end of its deque, if there is room: it parks no run from then on, and once it pops the mark none is
    /// left.
    pub(crate) fn mark(&mut self)
        ensures { self.new ≡ self.old }
    {
        self.own.mark();
    }

    /// The first run of the next worker's deque, if there is one.
    pub(crate) fn steal(&mut self) -> Option<HeldRun<N>>
        requires { self.old.busy ≡ false }
        ensures same { IsAsBefore self.old self.new }
        ensures busy { self.new.busy ≡ is_some result }
    {
        let Some(next) = &mut self.next else {
            return None;
        };
        match next.steal() {
            Some(run) => {
                self.busy = true;
                self.tally.steals = self.tally.steals.saturating_add(1);
                Some(run)
            }
            None => None,
        }
    }

    /// Parks the run that it holds, after all others of its own deque. One that is refused comes back, and so does one
    /// with which it would be too far ahead.
    pub(crate) fn park(&mut self, run: HeldRun<N>) -> Result<(), HeldRun<N>>
        requires { self.old.busy ≡ true }
        ensures ends { SameEnds self.old self.new }
        ensures ok { OnOk result ((self.new.busy ≡ false) × (self.new.own.pushed ≡ self.old.own.pushed ++ run ∷ [])) }
        ensures err { IfErr result (λ r. (r ≡ run) × (self.new.busy ≡ true)) }
    {
        if self.ahead >= MOST_AHEAD {
            return Err(run);
        }
        self.own.push(run)?;
        self.busy = false;
        self.ahead += 1;
        self.tally.parks = self.tally.parks.saturating_add(1);
        Ok(())
    }

    /// Claims some queued trial, if there is one.
    pub(crate) fn claim(&mut self, hall: &mut Hall<N>) -> Result<Option<ClaimedTrial<N>>, NoMemory>
        requires { self.old.busy ≡ false }
        ensures same { IsAsBefore self.old self.new }
        ensures busy { IfOk result (λ o. self.new.busy ≡ is_some o) }
        ensures err { OnErr result (self.new.busy ≡ false) }
    {
        match hall.claim(&mut self.opened)? {
            Some(claimed) => {
                self.busy = true;
                self.tally.claims = self.tally.claims.saturating_add(1);
                Ok(Some(claimed))
            }
            None => Ok(None),
        }
    }

    /// Files what came of the trial of the run that it held: its claim ends as filed, or as stray.
    pub(crate) fn file(&mut self, hall: &mut Hall<N>, claim: OpenClaim<N, Job>, finished: Finished)
        requires busy { self.old.busy ≡ true }
        requires job { claim.1.job.value ≡ finished.job }
        ensures row { ClaimEndsAs Filed claim hall.old.rows hall.new.rows }
        ensures filed { HasFiled self.old self.new }
        ensures idle { self.new.busy ≡ false }
    {
        hall.file(&mut self.ended, claim, finished);
        self.busy = false;
        self.filed = self.filed.saturating_add(1);
    }

    /// Hands back the trial of the run that it held: its claim ends as handed back, or as stray.
    pub(crate) fn hand_back(&mut self, hall: &mut Hall<N>, claim: OpenClaim<N, Job>)
        requires { self.old.busy ≡ true }
        ensures row { ClaimEndsAs HandedBack claim hall.old.rows hall.new.rows }
        ensures same { IsAsBefore self.old self.new }
        ensures idle { self.new.busy ≡ false }
    {
        hall.hand_back(&mut self.ended, claim);
        self.busy = false;
        self.tally.hand_backs = self.tally.hand_backs.saturating_add(1);
    }
}
