//! A farm from its opening to its end.

ghost use Rattle.std.specs.Prelude.{◌≡◌, ◌+◌, ◌<◌, ◌≤◌, [], Some, false, length, map, vec_len, IfOk, IfErr};
ghost use Rattle.pf_farm_accounts.specs.Rows.{HaveEnded};
ghost use Rattle.pf_book.specs.Profile.{ForRight};
ghost use Rattle.pf_farm_laws.specs.Reported.{AgreesWithHistories};
ghost use Rattle.pf_farm_state.specs.Clients.{all_receipts, closed_as, empty_client, AreFull, AreTheCalls};
ghost use Rattle.pf_farm_state.specs.Clients.{SawTruly};
ghost use Rattle.pf_farm_accounts.specs.DequeViews.{stolen_by};
ghost use Rattle.pf_farm.specs.Farms.{opened_farm, LacksSeat};
ghost use Rattle.pf_farm.specs.Seats.{IsRing, AllIdle, IsSpent, seat_at};

use crate::floor::Floor;
use crate::held::HeldRun;
use crate::seat::WorkSeat;
use crate::tally::WorkTally;
use pf_book::Reply;
use pf_errors::{NoMemory, OrNoMemory};
use pf_farm_accounts::{
    CallLedger, Claim, EndedLedger, FarmNames, NewRegister, OpenedLedger, Owner, Receipt, Thief,
    open_deque, open_deque_alone,
};
use pf_farm_state::{ClientSeat, ClosedSeat, Closing, Hall, NewAccounts, TrialLook};
use pf_request::Call;
use pf_sched::Job;
use std::alloc::Global;
use std::hash::RandomState;
use std::marker::Model;
use std::sync::ledger::{Blank, Share};

/// How many runs a deque has room for at first.
const FIRST_ROOM: usize = 64;

/// The most seats for clients that a farm gives.
pub const MOST_SEATS: usize = 4_096;

/// What a farm is opened with: unused ledgers and unused registers, by which its name is picked.
#[derive(Drop)]
pub struct Blanks {
    pub opened: Blank,
    pub ended: Blank,
    pub calls: Blank,
    pub claims: NewRegister<Claim<Job>>,
    pub receipts: NewRegister<Receipt<Call, Reply>>,
    pub looks: NewRegister<TrialLook>,
}

/// A farm has given as many seats as it may: `F1`.
#[derive(Clone, Copy, Debug, PartialEq, Eq)]
pub struct NoSeat;

/// A farm that was opened, with what its threads share, and the seats of its workers.
#[derive(Drop)]
pub struct OpenFarm<N: FarmNames> {
    pub farm: Farm<N>,
    pub floor: Floor<N>,
    pub seats: Vec<WorkSeat<N>>,
}

/// What a farm keeps while its threads work. Contracts see how many workers it has, and how many seats it gave to
/// clients.
#[derive(Drop)]
pub struct Farm<N: FarmNames> {
    opened: Share<OpenedLedger<N>>,
    ended: Share<EndedLedger<N>>,
    calls: Share<CallLedger<N>>,
    workers: usize,
    given: usize,
    /// Room for what is left of the clients' seats.
    closed: Vec<ClosedSeat>,
}

impl<N: FarmNames> Model for Farm<N> {
    ghost use Rattle.std.specs.Prelude.{◌≡◌, ◌+◌, ◌<◌, ◌≤◌, []};
    ghost use Rattle.std.specs.Vec.{vec_capacity};
    ghost use Rattle.pf_farm.specs.declared.farm.TheConstants.{MOST_SEATS};
    ghost use Rattle.pf_farm.specs.Farms.{FarmView, opened_farm};

    ghost Value = { FarmView };

    ghost view = { λ f. opened_farm f.workers f.given };

    ghost invariant = { λ f. (f.opened.parts + f.workers ≡ N.workers)
        × (f.ended.parts + f.workers ≡ N.workers)
        × (f.calls.parts + f.given ≡ N.seats)
        × (f.opened.amount ≡ 0)
        × (f.ended.amount ≡ 0)
        × (f.calls.amount ≡ 0)
        × (0 < f.ended.parts)
        × (0 < f.workers)
        × (f.given ≤ MOST_SEATS)
        × (MOST_SEATS < N.seats)
        × (f.closed.items ≡ [])
        × (f.given ≤ vec_capacity f.closed) };
}

impl<N: FarmNames> Farm<N> {
    /// A farm of so many workers, with a seat for each: each steals from the next one's deque, and the last from the
    /// first one's; one alone steals from nobody. It hashes with these keys, and has given no seat to a client.
    pub fn open(
        alloc: Global,
        keys: RandomState,
        blanks: Blanks,
        workers: usize,
    ) -> Result<OpenFarm<N>, NoMemory>
        requires opened { (blanks.opened.name ≡ N.opened) × (blanks.opened.parts ≡ N.workers) }
        requires ended { (blanks.ended.name ≡ N.ended) × (blanks.ended.parts ≡ N.workers) }
        requires calls { (blanks.calls.name ≡ N.calls) × (blanks.calls.parts ≡ N.seats) }
        requires claims { N.claims ≡ Some blanks.claims }
        requires receipts { N.receipts ≡ Some blanks.receipts }
        requires looks { N.looks ≡ Some blanks.looks }
        requires workers { (0 < workers) × (workers < N.workers) }
        requires seats { MOST_SEATS < N.seats }
        ensures workers { IfOk result (λ r. (r.farm ≡ opened_farm workers 0) × (vec_len r.seats ≡ workers)) }
        ensures ring { IfOk result (λ r. IsRing r.seats.items) }
        ensures idle { IfOk result (λ r. AllIdle r.seats.items) }
    {
        let Blanks {
            opened,
            ended,
            calls,
            claims,
            receipts,
            looks,
        } = blanks;
        let (all_opened, mut opened) = opened.open::<OpenedLedger<N>>();
        let (all_ended, mut ended) = ended.open::<EndedLedger<N>>();
        let (logged, calls) = calls.open::<CallLedger<N>>();
        let seats = all_seats(alloc, &mut opened, &mut ended, workers)?;
        let accounts = NewAccounts {
            opened: all_opened,
            ended: all_ended,
            logged,
            claims,
            receipts,
            looks,
        };
        let hall = Hall::new(alloc, keys, accounts);
        let farm = Farm {
            opened,
            ended,
            calls,
            workers,
            given: 0,
            closed: Vec::new(alloc),
        };
        Ok(OpenFarm {
            farm,
            floor: Floor::new(hall),
            seats,
        })
    }

    /// A seat for a client of a project, unless as many were given as may be. Several seats may have one project.
    pub fn seat(
        &mut self,
        floor: &mut Floor<N>,
        alloc: Global,
        project: u32,
    ) -> Result<ClientSeat<N>, OrNoMemory<NoSeat>>
        ensures seat { IfOk result (λ s. (s ≡ empty_client project)
            × (self.new ≡ opened_farm self.old.workers (self.old.given + 1))) }
        ensures err { IfErr result (λ e. LacksSeat e self.old × (self.new ≡ self.old)) }
    {
        if self.given >= MOST_SEATS {
            return Err(OrNoMemory::Fault(NoSeat));
        }
        if self.closed.reserve(self.given + 1).is_err() {
            return Err(OrNoMemory::NoMemory);
        }
        let share = self.calls.split_off(1, 0);
        self.given += 1;
        let shared = floor.shared.get_mut();
        Ok(shared.hall.seat(alloc, share, project))
    }

    /// How many seats it gave to clients.
    pub fn given(&self) -> usize
        ensures { result ≡ self.now.given }
    {
        self.given
    }

    /// Closes the farm, with the seats of all its clients and of all its workers, each of which has returned. No claim
    /// is open then, the ledger agrees with the histories, and what was pushed to a deque was popped or stolen,
    /// each in order and so as often. The receipts of the clients are those of all calls that the histories note, each
    /// once. What each client saw that waited was so, at that point of its project's history, and the farm was stopped
    /// where one saw that.
    pub fn close(
        self,
        floor: Floor<N>,
        clients: Vec<ClientSeat<N>>,
        seats: Vec<WorkSeat<N>>,
    ) -> Closing
        requires clients { vec_len clients ≡ self.given }
        requires all { vec_len seats ≡ self.workers }
        requires ring { IsRing seats.items }
        requires idle { AllIdle seats.items }
        ensures seats { map closed_as result.seats.items ≡ clients.items }
        ensures receipts { ForRight (λ p. AreTheCalls (all_receipts result.seats.items) result.book) }
        ensures full { ForRight (λ p. AreFull result.seats.items result.book) }
        ensures looks { ForRight (λ p. SawTruly p result.seats.items result.book result.stopped) }
        ensures ended { HaveEnded result.rows.items }
        ensures reported { ForRight (λ p. AgreesWithHistories result.rows.items result.book) }
        ensures spent { IsSpent seats.items }
    {
        let Farm {
            mut opened,
            mut ended,
            calls,
            workers: _,
            given: _,
            closed,
        } = self;
        gather(&mut opened, &mut ended, seats);
        floor
            .into_hall()
            .settle(&mut opened, &mut ended, calls, clients, closed)
    }
}

/// The idle seats of so many workers, each with a part of each ledger.
fn all_seats<N: FarmNames>(
    alloc: Global,
    opened: &mut Share<OpenedLedger<N>>,
    ended: &mut Share<EndedLedger<N>>,
    workers: usize,
) -> Result<Vec<WorkSeat<N>>, NoMemory>
    requires some { 0 < workers }
    requires parts { (workers < opened.old.parts) × (workers < ended.old.parts) }
    ensures len { IfOk result (λ v. vec_len v ≡ workers) }
    ensures ring { IfOk result (λ v. IsRing v.items) }
    ensures idle { IfOk result (λ v. AllIdle v.items) }
    ensures opened { IfOk result (λ _. (opened.new.parts + workers ≡ opened.old.parts)
        × (opened.new.amount ≡ opened.old.amount)) }
    ensures ended { IfOk result (λ _. (ended.new.parts + workers ≡ ended.old.parts)
        × (ended.new.amount ≡ ended.old.amount)) }
{
    if workers > 1 {
        return ring_of_seats(alloc, opened, ended, workers);
    }
    let own = open_deque_alone(alloc, FIRST_ROOM)?;
    let mut seats = Vec::new(alloc);
    seats.push(seat(opened, ended, own, None))?;
    Ok(seats)
}

/// A ring of idle seats, of two at least, each with a part of each ledger.
fn ring_of_seats<N: FarmNames>(
    alloc: Global,
    opened: &mut Share<OpenedLedger<N>>,
    ended: &mut Share<EndedLedger<N>>,
    workers: usize,
) -> Result<Vec<WorkSeat<N>>, NoMemory>
    requires some { 1 < workers }
    requires parts { (workers < opened.old.parts) × (workers < ended.old.parts) }
    ensures len { IfOk result (λ v. vec_len v ≡ workers) }
    ensures ring { IfOk result (λ v. IsRing v.items) }
    ensures idle { IfOk result (λ v. AllIdle v.items) }
    ensures opened { IfOk result (λ _. (opened.new.parts + workers ≡ opened.old.parts)
        × (opened.new.amount ≡ opened.old.amount)) }
    ensures ended { IfOk result (λ _. (ended.new.parts + workers ≡ ended.old.parts)
        × (ended.new.amount ≡ ended.old.amount)) }
{
    let mut seats = Vec::new(alloc);
    let (mut owner, first) = open_deque(alloc, FIRST_ROOM)?;
    for i in 1..workers {
        let (own, next) = open_deque(alloc, FIRST_ROOM)?;
        seats.push(seat(opened, ended, owner, Some(next)))?;
        owner = own;
    }
    seats.push(seat(opened, ended, owner, Some(first)))?;
    Ok(seats)
}

/// An idle seat with these ends, through which nothing went yet.
fn seat<N: FarmNames>(
    opened: &mut Share<OpenedLedger<N>>,
    ended: &mut Share<EndedLedger<N>>,
    own: Owner<HeldRun<N>>,
    next: Option<Thief<HeldRun<N>>>,
) -> WorkSeat<N>
    requires parts { (1 < opened.old.parts) × (1 < ended.old.parts) }
    requires none { (own.pushed ≡ []) × (own.popped ≡ []) × (stolen_by next ≡ []) }
    ensures seat { result ≡ seat_at own next }
    ensures opened { (opened.new.parts + 1 ≡ opened.old.parts) × (opened.new.amount ≡ opened.old.amount) }
    ensures ended { (ended.new.parts + 1 ≡ ended.old.parts) × (ended.new.amount ≡ ended.old.amount) }
{
    WorkSeat {
        own,
        next,
        opened: opened.split_off(1, 0),
        ended: ended.split_off(1, 0),
        busy: false,
        ahead: 0,
        filed: 0,
        tally: WorkTally::default(),
    }
}

/// Takes in all seats from the last to the first, and gives up their deques, in which nothing is left.
fn gather<N: FarmNames>(
    opened: &mut Share<OpenedLedger<N>>,
    ended: &mut Share<EndedLedger<N>>,
    seats: Vec<WorkSeat<N>>,
)
    requires some { 0 < vec_len seats }
    requires ring { IsRing seats.items }
    requires idle { AllIdle seats.items }
    ensures opened { opened.new.parts ≡ opened.old.parts + vec_len seats }
    ensures ended { ended.new.parts ≡ ended.old.parts + vec_len seats }
    ensures even { opened.new.amount + ended.old.amount ≡ ended.new.amount + opened.old.amount }
    ensures spent { IsSpent seats.items }
{
    let mut seats = seats;
    if let Some(last) = seats.pop() {
        let (mut owner, thief) = take_in(last, opened, ended);
        'seats: while let Some(seat) = seats.pop() {
            let (own, next) = take_in(seat, opened, ended);
            owner.close(next);
            owner = own;
        }
        owner.close(thief);
    }
}

/// Takes in a seat's shares. Its ends are left.
fn take_in<N: FarmNames>(
    seat: WorkSeat<N>,
    opened: &mut Share<OpenedLedger<N>>,
    ended: &mut Share<EndedLedger<N>>,
) -> (Owner<HeldRun<N>>, Option<Thief<HeldRun<N>>>)
    requires { seat.busy ≡ false }
    ensures ends { result ≡ (seat.own, seat.next) }
    ensures opened { opened.new.parts ≡ opened.old.parts + 1 }
    ensures ended { ended.new.parts ≡ ended.old.parts + 1 }
    ensures amounts { opened.new.amount + ended.old.amount + length seat.own.popped + length (stolen_by seat.next)
        ≡ ended.new.amount + opened.old.amount + length seat.own.pushed }
{
    let WorkSeat {
        own,
        next,
        opened: more,
        ended: less,
        busy: _,
        ahead: _,
        filed: _,
        tally: _,
    } = seat;
    opened.merge(more);
    ended.merge(less);
    (own, next)
}
