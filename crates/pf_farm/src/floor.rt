//! What all threads of a farm share.

ghost use Rattle.std.specs.Prelude.{◌≡◌, true, false, is_some, IfOk, OnErr};
ghost use Rattle.pf_desks.specs.Desks.{desk_at};
ghost use Rattle.pf_farm_laws.specs.Stages.{stage_at};
ghost use Rattle.pf_farm_state.specs.Clients.{with_look, GetsReceipt, StaysFull};
ghost use Rattle.pf_farm.specs.Floors.{must_wait, IsTrialOver};
ghost use Rattle.pf_farm.specs.Seats.{HasFiled, IsAsBefore};

use crate::seat::WorkSeat;
use crate::waiting::{SLOTS, WaitingClients, slot_of};
use pf_book::Reply;
use pf_desks::TrialStage;
use pf_errors::NoMemory;
use pf_farm_accounts::{FarmNames, OpenClaim};
use pf_farm_state::{ClaimedTrial, ClientSeat, Hall, TrialLook};
use pf_request::Call;
use pf_sched::{Finished, Job};
use std::alloc::Global;
use std::array::from_fn;
use std::sync::atomic::{AtomicBool, Ordering};
use std::sync::{Condvar, Mutex, Wait};

/// What lies under the lock: book, ledgers, calls and whether the farm was stopped (`Hall`), how often something came
/// for which a worker may wait, how many workers wait, and which clients do.
#[derive(Drop)]
pub(crate) struct SharedState<N: FarmNames> {
    pub hall: Hall<N>,
    moves: u64,
    idle: u32,
    clients: WaitingClients,
}

impl<N: FarmNames> SharedState<N> {
    /// Something came for which a worker may wait.
    fn moved(&mut self)
        ensures { self.new.hall ≡ self.old.hall }
    {
        self.moves = self.moves.wrapping_add(1);
    }

    /// Whether the trial of a project's ticket waits for a worker, or one has it, while the farm goes on.
    fn is_undone(&self, project: u32, ticket: u64) -> bool
        ensures { result
            ≡ must_wait (stage_at (desk_at project self.now.hall.desks) ticket) self.now.hall.stopped }
    {
        let stage = self.hall.stage(project, ticket);
        !self.hall.is_stopped() && matches!(stage, Some(TrialStage::Queued | TrialStage::Running))
    }
}

/// What all threads share: the state under its lock, and what they wait for. Workers wait for trials that are queued
/// and runs that are parked, and clients for trials that are done or dropped.
#[derive(Drop)]
pub struct Floor<N: FarmNames> {
    pub(crate) shared: Mutex<SharedState<N>>,
    work: Condvar,
    done: [Condvar; SLOTS],
    /// Whether the farm was stopped, for workers between two slices.
    stopping: AtomicBool,
}

impl<N: FarmNames> Floor<N> {
    /// The floor of such a state.
    pub(crate) fn new(hall: Hall<N>) -> Floor<N> {
        let shared = SharedState {
            hall,
            moves: 0,
            idle: 0,
            clients: WaitingClients::new(),
        };
        Floor {
            shared: Mutex::new(shared),
            work: Condvar::new(),
            done: from_fn(|_| Condvar::new()),
            stopping: AtomicBool::new(false),
        }
    }

    /// Its state, when no thread is on it any more.
    pub(crate) fn into_hall(self) -> Hall<N> {
        let Floor {
            shared,
            work: _,
            done: _,
            stopping: _,
        } = self;
        let SharedState {
            hall,
            moves: _,
            idle: _,
            clients: _,
        } = shared.into_inner();
        hall
    }

    /// Answers a client's call at its seat, in one hold of the lock. A call that is logged has a receipt then, with the
    /// reply that is answered. One for which the log has no room is refused, and each call of a seat that is full is.
    /// After running out of memory nothing has changed.
    pub fn call<R: Wait>(
        &self,
        alloc: Global,
        rt: &R,
        seat: &mut ClientSeat<N>,
        call: Call,
    ) -> Result<Reply, NoMemory>
        ensures project { seat.new.project ≡ seat.old.project }
        ensures receipt { IfOk result (λ r. GetsReceipt call r seat.old seat.new) }
        ensures full { StaysFull seat.old seat.new result }
        ensures err { OnErr result (seat.new ≡ seat.old) }
    {
        let mut shared = self.shared.lock(rt);
        let dropped = match &call {
            Call::DropTrial(ticket) => Some(*ticket),
            _ => None,
        };
        let reply = shared.hall.call(alloc, seat, call)?;
        if let Reply::Ticket(_) = &reply {
            self.wake_one(&mut shared);
        }
        if let Some(ticket) = dropped {
            self.notify_done(&shared, seat.project(), ticket);
        }
        Ok(reply)
    }

    /// Waits until the trial of a ticket of the seat's project is done, or isn't held; or until the farm stops.
    /// Returns what it saw last, which the seat keeps: at the close of the farm that turns out to have been so.
    pub fn wait_done<R: Wait>(&self, rt: &R, seat: &mut ClientSeat<N>, ticket: u64) -> TrialLook
        ensures seat { seat.new ≡ with_look seat.old result }
        ensures own { (result.project ≡ seat.old.project) × (result.ticket ≡ ticket) }
        ensures over { result.stops ≡ false → IsTrialOver result.stage }
    {
        let project = seat.project();
        let slot = slot_of(project);
        let mut shared = self.shared.lock(rt);
        shared.clients.enter(slot, ticket);
        let mut shared = self.done[slot].wait_while(
            rt,
            shared,
            |shared| shared.is_undone(project, ticket),
        );
        shared.clients.leave(slot);
        shared.hall.look(seat, ticket)
    }

    /// Has all workers return, once their runs are filed or handed back.
    pub fn stop<R: Wait>(&self, rt: &R) {
        let mut shared = self.shared.lock(rt);
        shared.hall.stop();
        self.stopping.store(true, Ordering::SeqCst);
        self.work.notify_all();
        for done in &self.done {
            done.notify_all();
        }
    }

    /// Wakes a worker that waits, for a trial that is queued now.
    fn wake_one(&self, shared: &mut SharedState<N>)
        ensures { shared.new.hall ≡ shared.old.hall }
    {
        shared.moved();
        if shared.idle > 0 {
            self.work.notify_one();
        }
    }

    /// Wakes the clients that may wait for a trial which is done now, or dropped.
    fn notify_done(&self, shared: &SharedState<N>, project: u32, ticket: u64) {
        let slot = slot_of(project);
        if shared.clients.is_awaited(slot, ticket) {
            self.done[slot].notify_all();
        }
    }

    /// Claims some queued trial for a seat.
    pub(crate) fn claim<R: Wait>(
        &self,
        rt: &R,
        seat: &mut WorkSeat<N>,
    ) -> Result<Option<ClaimedTrial<N>>, NoMemory>
        requires { seat.old.busy ≡ false }
        ensures same { IsAsBefore seat.old seat.new }
        ensures busy { IfOk result (λ o. seat.new.busy ≡ is_some o) }
        ensures err { OnErr result (seat.new.busy ≡ false) }
    {
        let mut shared = self.shared.lock(rt);
        seat.claim(&mut shared.hall)
    }

    /// The same after a park, of which it notifies those who wait.
    pub(crate) fn claim_after_park<R: Wait>(
        &self,
        rt: &R,
        seat: &mut WorkSeat<N>,
    ) -> Result<Option<ClaimedTrial<N>>, NoMemory>
        requires { seat.old.busy ≡ false }
        ensures same { IsAsBefore seat.old seat.new }
        ensures busy { IfOk result (λ o. seat.new.busy ≡ is_some o) }
        ensures err { OnErr result (seat.new.busy ≡ false) }
    {
        let mut shared = self.shared.lock(rt);
        shared.moved();
        if shared.idle > 0 {
            self.work.notify_all();
        }
        seat.claim(&mut shared.hall)
    }

    /// Files what came of a seat's trial.
    pub(crate) fn file<R: Wait>(
        &self,
        rt: &R,
        seat: &mut WorkSeat<N>,
        claim: OpenClaim<N, Job>,
        finished: Finished,
    )
        requires busy { seat.old.busy ≡ true }
        requires job { claim.1.job.value ≡ finished.job }
        ensures filed { HasFiled seat.old seat.new }
        ensures idle { seat.new.busy ≡ false }
    {
        let project = claim.claim().project;
        let ticket = claim.claim().ticket;
        let mut shared = self.shared.lock(rt);
        seat.file(&mut shared.hall, claim, finished);
        self.notify_done(&shared, project, ticket);
    }

    /// Hands a seat's trial back.
    pub(crate) fn hand_back<R: Wait>(
        &self,
        rt: &R,
        seat: &mut WorkSeat<N>,
        claim: OpenClaim<N, Job>,
    )
        requires { seat.old.busy ≡ true }
        ensures same { IsAsBefore seat.old seat.new }
        ensures idle { seat.new.busy ≡ false }
    {
        let mut shared = self.shared.lock(rt);
        seat.hand_back(&mut shared.hall, claim);
        self.wake_one(&mut shared);
    }

    /// Whether the farm stops.
    pub(crate) fn is_stopping(&self) -> bool {
        self.stopping.load(Ordering::SeqCst)
    }

    /// How often something came for which a worker may wait.
    pub(crate) fn moves<R: Wait>(&self, rt: &R) -> u64 {
        self.shared.lock(rt).moves
    }

    /// Waits until something more comes, or the farm stops.
    pub(crate) fn wait_past<R: Wait>(&self, rt: &R, seen: u64) {
        let mut shared = self.shared.lock(rt);
        shared.idle = shared.idle.wrapping_add(1);
        let mut shared = self.work.wait_while(rt, shared, |shared| {
            shared.moves == seen && !shared.hall.is_stopped()
        });
        shared.idle = shared.idle.wrapping_sub(1);
    }
}
