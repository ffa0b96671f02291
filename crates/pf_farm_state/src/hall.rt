//! The book of all desks, and beside it the ledger of all claims, the log of all calls, and what clients saw that
//! waited.

ghost use Rattle.std.specs.Prelude.{◌≡◌, ◌+◌, ◌<◌, ◌≤◌, ◌⊎◌, ◌++◌, [], ◌∷◌, true, false, length, map, slice_get};
ghost use Rattle.std.specs.Prelude.{slice_set, Some, None, Ok, IfOk, IfSome, IfNone, OnErr, option_map};
ghost use Rattle.std.specs.Bool.{OnFalse, OnTrue};
ghost use Rattle.pf_request.specs.View.{view_of_call};
ghost use Rattle.pf_quota.specs.declared.refusals.TheConstants.{MOST_CALLS};
ghost use Rattle.pf_desks.specs.Calls.{calls_in, stage_of};
ghost use Rattle.pf_desks.specs.Desk.{held_at};
ghost use Rattle.pf_desks.specs.Desks.{desk_at};
ghost use Rattle.pf_farm_accounts.specs.Rows.{row_of, HaveEnded};
ghost use Rattle.pf_book.specs.Answers.{SimulatesCall, ClaimsAt, SimulatesFile, SimulatesHandBack};
ghost use Rattle.pf_book.specs.Profile.{ForRight};
ghost use Rattle.pf_farm_laws.specs.Gone.{IsGone};
ghost use Rattle.pf_farm_laws.specs.Reported.{AgreesWithHistories};
ghost use Rattle.std.specs.Vec.{vec_len, vec_capacity};
ghost use Rattle.pf_farm_state.specs.Clients.{all_receipts, closed_as, empty_client, full_seat, AreFull, AreTheCalls};
ghost use Rattle.pf_farm_state.specs.Clients.{with_look, GetsReceipt, IsOneTooMany, SawTruly, StaysFull};
ghost use Rattle.pf_farm_state.specs.Hall.{no_hall, end_or_stray, look_at, stopped_hall, NoneIsQueued};

use crate::claimed::ClaimedTrial;
use crate::client::{ClientSeat, ClosedSeat};
use crate::closing::{Closing, close};
use crate::look::TrialLook;
use pf_book::{Book, Claimed, Reply};
use pf_desks::TrialStage;
use pf_errors::NoMemory;
use pf_farm_accounts::{
    CallLedger, CallLog, Claim, ClaimEnd, EndedLedger, FarmNames, Ledger, LookLog, NewRegister,
    OpenClaim, OpenedLedger, Receipt,
};
use pf_quota::MOST_CALLS;
use pf_request::Call;
use pf_sched::{Finished, Job};
use std::alloc::Global;
use std::hash::RandomState;
use std::marker::Model;
use std::snapshot::Snapshot;
use std::sync::ledger;
use std::sync::ledger::Share;

/// The desks of all projects, the claims of all workers with their ends, which calls of all clients were logged, what
/// clients saw that waited, and whether the farm was stopped. What the ledger says of claims and what receipts say of
/// calls is what the histories of the desks say, at each moment, and what clients saw was so. Contracts see the rows of
/// the ledger, the desks by project, and whether the farm was stopped.
#[derive(Drop)]
pub struct Hall<N: FarmNames> {
    pub(crate) book: Book,
    pub(crate) ledger: Ledger<N, Job>,
    pub(crate) calls: CallLog<N, Call, Reply>,
    pub(crate) looks: LookLog<N, TrialLook>,
    pub(crate) stopped: bool,
}

/// The books of a farm's ledgers, of which nothing was counted yet, and its registers.
#[derive(Drop)]
pub struct NewAccounts<N: FarmNames> {
    pub opened: ledger::Book<OpenedLedger<N>>,
    pub ended: ledger::Book<EndedLedger<N>>,
    pub logged: ledger::Book<CallLedger<N>>,
    pub claims: NewRegister<Claim<Job>>,
    pub receipts: NewRegister<Receipt<Call, Reply>>,
    pub looks: NewRegister<TrialLook>,
}

impl<N: FarmNames> Model for Hall<N> {
    ghost use Rattle.pf_book.specs.Profile.{ForRight};
    ghost use Rattle.pf_farm_state.specs.Hall as hall;
    ghost use Rattle.pf_farm_state.specs.Looks.{AreTrueLooks};

    ghost Value = { hall.Hall };

    ghost coded = { hall.coded_hall };

    ghost view = { λ h. record { rows = h.ledger.0; desks = h.book; stopped = h.stopped } };

    ghost invariant = { λ h. hall.IsSound h.ledger.0 h.calls h.book
        × ForRight (λ p. AreTrueLooks p h.book h.stopped h.looks) };
}

impl<N: FarmNames> Hall<N> {
    /// The state with no desk and no claim, which hashes with these keys.
    pub fn new(alloc: Global, keys: RandomState, accounts: NewAccounts<N>) -> Hall<N>
        requires none { (accounts.opened.total ≡ 0) × (accounts.ended.total ≡ 0) × (accounts.logged.total ≡ 0) }
        requires claims { N.claims ≡ Some accounts.claims }
        requires receipts { N.receipts ≡ Some accounts.receipts }
        requires looks { N.looks ≡ Some accounts.looks }
        ensures { result ≡ no_hall }
    {
        let NewAccounts {
            opened,
            ended,
            logged,
            claims,
            receipts,
            looks,
        } = accounts;
        Hall {
            book: Book::new(alloc, keys),
            ledger: Ledger::new(alloc, opened, ended, claims),
            calls: CallLog::new(logged, receipts),
            looks: LookLog::new(looks),
            stopped: false,
        }
    }

    /// A seat for a client of a project, with one part of the ledger of calls.
    pub fn seat(
        &mut self,
        alloc: Global,
        share: Share<CallLedger<N>>,
        project: u32,
    ) -> ClientSeat<N>
        requires share { (share.parts ≡ 1) × (share.amount ≡ 0) }
        ensures seat { result ≡ empty_client project }
        ensures same { self.new ≡ self.old }
    {
        let receipts = self.calls.seat(alloc, share, project);
        ClientSeat::new(receipts, self.looks.seat())
    }

    /// How far the trial of a project's ticket is, if it is held.
    pub fn stage(&self, project: u32, ticket: u64) -> Option<TrialStage>
        ensures { result
            ≡ option_map (λ t. stage_of t.state) (held_at (desk_at project self.now.desks).trials ticket) }
    {
        self.book.stage(project, ticket)
    }

    /// Whether the farm was stopped.
    pub fn is_stopped(&self) -> bool
        ensures { result ≡ self.now.stopped }
    {
        self.stopped
    }

    /// The farm is stopped from now on.
    pub fn stop(&mut self)
        ensures { self.new ≡ stopped_hall self.old }
    {
        self.stopped = true;
    }

    /// What a client sees now that waits for the trial of a ticket of its seat's project, of which the seat keeps note.
    /// It takes no memory.
    pub fn look(&mut self, seat: &mut ClientSeat<N>, ticket: u64) -> TrialLook
        ensures look { result ≡ look_at self.old seat.old.project ticket }
        ensures seat { seat.new ≡ with_look seat.old result }
        ensures same { self.new ≡ self.old }
    {
        let project = seat.project();
        let look = TrialLook {
            project,
            ticket,
            notes: self.book.note_count(project),
            stage: self.book.stage(project, ticket),
            stops: self.stopped,
        };
        self.looks.look(&mut seat.looks, &look);
        look
    }

    /// Answers a client's call on the desk of its seat's project, and notes it there with its reply, of which the seat
    /// has a receipt then. A call for which the log has no room is refused and not noted, and the seat is full: from
    /// then on each call of it is refused, and memory doesn't run out. Where it does nothing has changed.
    pub fn call(
        &mut self,
        alloc: Global,
        seat: &mut ClientSeat<N>,
        call: Call,
    ) -> Result<Reply, NoMemory>
        ensures answer { SimulatesCall self.old.desks seat.old.project (view_of_call call) result self.new.desks }
        ensures rows { self.new.rows ≡ self.old.rows }
        ensures stopped { self.new.stopped ≡ self.old.stopped }
        ensures project { seat.new.project ≡ seat.old.project }
        ensures receipt { IfOk result (λ r. GetsReceipt call r seat.old seat.new) }
        ensures full { StaysFull seat.old seat.new result }
        ensures err { OnErr result (seat.new ≡ seat.old) }
    {
        if !self.has_room(seat) {
            return self.call_full(alloc, seat, call);
        }
        let project = seat.project();
        seat.seat.make_room()?;
        let asked = Snapshot::of(&call);
        let reply = self.book.call(alloc, project, call)?;
        let number = self.book.call_count(project);
        self.calls.log_call(&mut seat.seat, number, asked, &reply);
        Ok(reply)
    }

    /// Whether the log of a seat's project has room for one call more. A seat that is full knows that it hasn't.
    fn has_room(&self, seat: &ClientSeat<N>) -> bool
        ensures room { OnTrue result ((seat.now.is_full ≡ false)
            × (calls_in (desk_at seat.now.project self.now.desks).history < MOST_CALLS)) }
        ensures full { OnFalse result ((seat.now.is_full ≡ true)
            ⊎ (MOST_CALLS ≤ calls_in (desk_at seat.now.project self.now.desks).history)) }
    {
        !seat.is_full && self.book.call_count(seat.project()) < MOST_CALLS
    }

    /// The same where the log of the project has no room.
    fn call_full(
        &mut self,
        alloc: Global,
        seat: &mut ClientSeat<N>,
        call: Call,
    ) -> Result<Reply, NoMemory>
        requires { (seat.old.is_full ≡ true)
            ⊎ (MOST_CALLS ≤ calls_in (desk_at seat.old.project self.old.desks).history) }
        ensures answer { SimulatesCall self.old.desks seat.old.project (view_of_call call) result self.new.desks }
        ensures rows { self.new.rows ≡ self.old.rows }
        ensures stopped { self.new.stopped ≡ self.old.stopped }
        ensures seat { seat.new ≡ full_seat seat.old }
        ensures reply { IsOneTooMany result }
    {
        let project = seat.project();
        self.calls.show(&mut seat.seat);
        seat.is_full = true;
        self.book.call(alloc, project, call)
    }

    /// Claims some trial that is queued, which is running then; none only if no trial of any desk is queued. After
    /// running out of memory nothing has changed and nothing is noted.
    pub fn claim(
        &mut self,
        share: &mut Share<OpenedLedger<N>>,
    ) -> Result<Option<ClaimedTrial<N>>, NoMemory>
        requires { 0 < share.old.parts }
        ensures trial { IfOk result (λ o. IfSome o (λ c.
            ClaimsAt self.old.desks c.claim.1.project c.claim.1.ticket (Ok (Some c.job)) self.new.desks)) }
        ensures row { IfOk result (λ o. IfSome o (λ c.
            (c.claim.0 ≡ length self.old.rows) × (self.new.rows ≡ self.old.rows ++ row_of c.claim.1 None ∷ []))) }
        ensures stopped { self.new.stopped ≡ self.old.stopped }
        ensures opened { IfOk result (λ o. IfSome o (λ _. share.new.amount ≡ share.old.amount + 1)) }
        ensures none { IfOk result (λ o. IfNone o (NoneIsQueued self.old.desks × (self.new ≡ self.old))) }
        ensures same { IfOk result (λ o. IfNone o (share.new.amount ≡ share.old.amount)) }
        ensures err { OnErr result ((self.new ≡ self.old) × (share.new.amount ≡ share.old.amount)) }
        ensures parts { share.new.parts ≡ share.old.parts }
    {
        self.ledger.make_room()?;
        match self.book.claim()? {
            Some(
                Claimed {
                    project,
                    ticket,
                    job,
                },
            ) => {
                let claim = self.ledger.open(share, project, ticket, &*job);
                Ok(Some(ClaimedTrial { claim, job }))
            }
            None => Ok(None),
        }
    }

    /// Ends a claim by filing its trial's result; says false if the trial was dropped: then the claim is stray, and no
    /// desk has changed. It takes no memory.
    pub fn file(
        &mut self,
        share: &mut Share<EndedLedger<N>>,
        claim: OpenClaim<N, Job>,
        finished: Finished,
    ) -> bool
        requires job { claim.1.job.value ≡ finished.job }
        requires parts { 0 < share.old.parts }
        ensures file { SimulatesFile self.old.desks claim.1.project claim.1.ticket finished result self.new.desks }
        ensures was { slice_get self.old.rows claim.0 ≡ Some (row_of claim.1 None) }
        ensures row { self.new.rows
            ≡ slice_set self.old.rows claim.0 (row_of claim.1 (Some (end_or_stray result ClaimEnd.Filed))) }
        ensures stopped { self.new.stopped ≡ self.old.stopped }
        ensures gone { OnFalse result (ForRight (λ p. IsGone (desk_at claim.1.project self.old.desks) claim.1.ticket)) }
        ensures ended { share.new.amount ≡ share.old.amount + 1 }
        ensures parts { share.new.parts ≡ share.old.parts }
    {
        let project = claim.claim().project;
        let ticket = claim.claim().ticket;
        let filed = self.book.file(project, ticket, finished);
        self.ledger
            .end(share, claim, end_or_stray(filed, ClaimEnd::Filed));
        filed
    }

    /// Ends a claim by handing its trial back, which is queued again; says false if the trial was dropped: then the
    /// claim is stray, and no desk has changed. It takes no memory.
    pub fn hand_back(&mut self, share: &mut Share<EndedLedger<N>>, claim: OpenClaim<N, Job>) -> bool
        requires { 0 < share.old.parts }
        ensures back { SimulatesHandBack self.old.desks claim.1.project claim.1.ticket result self.new.desks }
        ensures was { slice_get self.old.rows claim.0 ≡ Some (row_of claim.1 None) }
        ensures row { self.new.rows
            ≡ slice_set self.old.rows claim.0 (row_of claim.1 (Some (end_or_stray result ClaimEnd.HandedBack))) }
        ensures stopped { self.new.stopped ≡ self.old.stopped }
        ensures gone { OnFalse result (ForRight (λ p. IsGone (desk_at claim.1.project self.old.desks) claim.1.ticket)) }
        ensures ended { share.new.amount ≡ share.old.amount + 1 }
        ensures parts { share.new.parts ≡ share.old.parts }
    {
        let project = claim.claim().project;
        let ticket = claim.claim().ticket;
        let taken = self.book.hand_back(project, ticket);
        self.ledger
            .end(share, claim, end_or_stray(taken, ClaimEnd::HandedBack));
        taken
    }

    /// The seats of all clients, the rows of the ledger, and the book. Where as many claims have ended as were opened,
    /// each has ended. Where all parts of the ledger of calls are there, the receipts of the seats are those of all
    /// calls that the histories note, each once. What each client saw that waited was so.
    pub fn settle(
        self,
        opened: &mut Share<OpenedLedger<N>>,
        ended: &mut Share<EndedLedger<N>>,
        calls: Share<CallLedger<N>>,
        clients: Vec<ClientSeat<N>>,
        closed: Vec<ClosedSeat>,
    ) -> Closing
        requires whole { (opened.old.parts ≡ N.workers) × (ended.old.parts ≡ N.workers) }
        requires even { opened.old.amount ≡ ended.old.amount }
        requires seats { (calls.amount ≡ 0) × (calls.parts + vec_len clients ≡ N.seats) }
        requires room { (closed.items ≡ []) × (vec_len clients ≤ vec_capacity closed) }
        ensures rows { result.rows.items ≡ self.rows }
        ensures book { result.book ≡ self.desks }
        ensures seats { map closed_as result.seats.items ≡ clients.items }
        ensures ended { HaveEnded result.rows.items }
        ensures reported { ForRight (λ p. AgreesWithHistories result.rows.items result.book) }
        ensures receipts { ForRight (λ p. AreTheCalls (all_receipts result.seats.items) result.book) }
        ensures full { ForRight (λ p. AreFull result.seats.items result.book) }
        ensures looks { ForRight (λ p. SawTruly p result.seats.items result.book result.stopped) }
        ensures stopped { result.stopped ≡ self.stopped }
    {
        let Hall {
            book,
            ledger,
            calls: log,
            mut looks,
            stopped,
        } = self;
        let mut gathering = log.gather(calls);
        let seats = close(&book, &mut gathering, &mut looks, clients, closed);
        gathering.settle();
        Closing {
            seats,
            rows: ledger.settle(opened, ended),
            book,
            stopped,
        }
    }
}

/// How a claim ends: so, if that could be done, or else as stray.
fn end_or_stray(done: bool, end: ClaimEnd) -> ClaimEnd
    ensures { result ≡ end_or_stray done end }
{
    if done { end } else { ClaimEnd::Stray }
}
