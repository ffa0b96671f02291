//! The world: the desks of all projects, and workers beside them.

ghost use Rattle.std.specs.Prelude.{◌≡◌, ◌<◌, ◌≤◌, true, slice_get, IfOk, IfSome, Ok};
ghost use Rattle.pf_request.specs.View.{view_of_call};
ghost use Rattle.pf_world.specs.Chores.{is_going};
ghost use Rattle.pf_request.specs.declared.step.Chore.TheVariants as chores;
ghost use Rattle.pf_world.specs.Steps.{client_calls, worker_does};
ghost use Rattle.pf_world.specs.World.{new_world};
ghost use Rattle.pf_world.specs.View.{view_of_step};
ghost use Rattle.pf_pool.specs.Hands as held;
ghost use Rattle.pf_pool.specs.Hands.{held_of_worker, HoldsSameTrial, SlicesHand, TakesUpRun, TakesFinished};
ghost use Rattle.pf_pool.specs.Responses.{SimulatesStep, view_of_response, work_response};

use crate::claimed_run::{ClaimedRun, RunProgress};
use crate::deque::Deque;
use crate::response::Response;
use pf_book::Book;
use pf_errors::NoMemory;
use pf_request::{Call, Chore, Step};
use pf_sched::{Finished, Scratch};
use std::alloc::Global;
use std::hash::RandomState;
use std::marker::Model;
use std::sync::Arc;

/// How many workers a world may have.
pub const MOST_WORKERS: u32 = 64;

/// The desks of all projects, and by worker what it holds and what it parked. The workers share one scratch, since only
/// one step is done at a time; what is in it makes no difference.
#[derive(Drop)]
pub struct World {
    book: Book,
    hands: Vec<Option<ClaimedRun>>,
    deques: Vec<Deque>,
    scratch: Scratch,
}

impl Model for World {
    ghost use Rattle.pf_world.specs.World as world;
    ghost use Rattle.pf_world.specs.Encoding.{coded_world};
    ghost use Rattle.pf_pool.specs.Sound.{IsSound, world_in};

    ghost Value = { world.World };

    ghost coded = { coded_world };

    ghost view = { world_in };

    // Each worker has a hand and a deque, and each run is of the job of its trial.
    ghost invariant = { λ s. IsSound (world_in s) };
}

impl World {
    /// A world of 1 to 64 workers, in which no desk is open and no worker has a run. Its book hashes with these
    /// keys.
    pub fn new(alloc: Global, keys: RandomState, workers: u32) -> Result<World, NoMemory>
        requires some { 1 ≤ workers }
        requires most { workers ≤ 64 }
        ensures { IfOk result (λ s. s ≡ new_world workers) }
    {
        let mut hands = Vec::with_capacity(alloc, workers as usize)?;
        let mut deques = Vec::with_capacity(alloc, workers as usize)?;
        for _index in 0..workers {
            hands.push(None)?;
            deques.push(Deque::new(alloc))?;
        }
        Ok(World {
            book: Book::new(alloc, keys),
            hands,
            deques,
            scratch: Scratch::new(alloc),
        })
    }

    /// Does a step. After running out of memory a run that was sliced is over, and all else is as it was.
    pub fn step(&mut self, alloc: Global, step: Step) -> Result<Response, NoMemory>
        ensures { SimulatesStep self.old (view_of_step step) result self.new }
    {
        match step {
            Step::Call { project, call } => self.call(alloc, project, call),
            Step::Chore {
                worker,
                project,
                ticket,
                chore,
            } => self.chore(alloc, worker, project, ticket, chore),
        }
    }

    /// Answers a client's call.
    pub fn call(&mut self, alloc: Global, project: u32, call: Call) -> Result<Response, NoMemory>
        ensures { SimulatesStep self.old (client_calls project (view_of_call call)) result self.new }
    {
        Ok(Response::Reply(self.book.call(alloc, project, call)?))
    }

    /// Has a worker do a chore about the trial of a project's ticket.
    pub fn chore(
        &mut self,
        alloc: Global,
        worker: u32,
        project: u32,
        ticket: u64,
        chore: Chore,
    ) -> Result<Response, NoMemory>
        ensures { SimulatesStep self.old (worker_does worker project ticket chore) result self.new }
    {
        match chore {
            Chore::Claim => self.claim(alloc, worker, project, ticket),
            Chore::Slice { turns } => self.slice(alloc, worker, project, ticket, turns),
            Chore::Park => self.park(worker, project, ticket),
            Chore::TakeUp => Ok(self.take_up(worker, project, ticket)),
            Chore::Steal { from } => Ok(self.steal(worker, from, project, ticket)),
            Chore::File => Ok(self.file(worker, project, ticket)),
            Chore::HandBack => Ok(self.hand_back(worker, project, ticket)),
        }
    }

    /// A free worker claims a trial that is queued, and holds its run, of which no event is made yet. The run begins
    /// before the claim is noted.
    pub fn claim(
        &mut self,
        alloc: Global,
        worker: u32,
        project: u32,
        ticket: u64,
    ) -> Result<Response, NoMemory>
        ensures { SimulatesStep self.old (worker_does worker project ticket chores.Claim) result self.new }
    {
        if !is_free(&self.hands, worker) {
            return Ok(Response::NotNow);
        }
        let Some(job) = self.book.queued(project, ticket) else {
            return Ok(Response::NotNow);
        };
        let run = ClaimedRun::new(alloc, project, ticket, Arc::try_clone(job)?)?;
        self.book.claim_at(project, ticket)?;
        self.hands[worker as usize] = Some(run);
        Ok(Response::Done)
    }

    /// A worker makes events of a run that it holds, as many as turns: the run goes on if it has more, and else it is
    /// over. If an allocation fails it is over too.
    pub fn slice(
        &mut self,
        alloc: Global,
        worker: u32,
        project: u32,
        ticket: u64,
        turns: u32,
    ) -> Result<Response, NoMemory>
        ensures { SimulatesStep self.old (worker_does worker project ticket (chores.Slice turns)) result self.new }
    {
        if turns == 0 || !holds_going(&self.hands, worker, project, ticket) {
            return Ok(Response::NotNow);
        }
        let hand = &mut self.hands[worker as usize];
        slice_hand(alloc, hand, &mut self.scratch, turns)
    }

    /// A worker parks a run that it holds and that isn't over, if fewer than 64 are parked.
    pub fn park(&mut self, worker: u32, project: u32, ticket: u64) -> Result<Response, NoMemory>
        ensures { SimulatesStep self.old (worker_does worker project ticket chores.Park) result self.new }
    {
        if !holds_going(&self.hands, worker, project, ticket) {
            return Ok(Response::NotNow);
        }
        if !self.deques[worker as usize].has_room() {
            return Ok(Response::NotNow);
        }
        self.deques[worker as usize].park(&mut self.hands[worker as usize])?;
        Ok(Response::Done)
    }

    /// A free worker takes up the oldest run that it parked, if it is that of the ticket.
    pub fn take_up(&mut self, worker: u32, project: u32, ticket: u64) -> Response
        ensures { SimulatesStep self.old (worker_does worker project ticket chores.TakeUp) (Ok result) self.new }
    {
        self.take(worker, worker, project, ticket)
    }

    /// A free worker steals the oldest run that another parked, if it is that of the ticket.
    pub fn steal(&mut self, worker: u32, from: u32, project: u32, ticket: u64) -> Response
        ensures { SimulatesStep self.old (worker_does worker project ticket (chores.Steal from)) (Ok result) self.new }
    {
        if worker == from {
            return Response::NotNow;
        }
        self.take(worker, from, project, ticket)
    }

    /// A worker files a run that it holds and that is over. It takes no memory.
    pub fn file(&mut self, worker: u32, project: u32, ticket: u64) -> Response
        ensures { SimulatesStep self.old (worker_does worker project ticket chores.File) (Ok result) self.new }
    {
        let Some(finished) = take_finished(&mut self.hands, worker, project, ticket) else {
            return Response::NotNow;
        };
        emptied(self.book.file(project, ticket, finished))
    }

    /// A worker hands back a run that it holds, however far it is; its trial is queued again. It takes no memory.
    pub fn hand_back(&mut self, worker: u32, project: u32, ticket: u64) -> Response
        ensures { SimulatesStep self.old (worker_does worker project ticket chores.HandBack) (Ok result) self.new }
    {
        if !holds(&self.hands, worker, project, ticket) {
            return Response::NotNow;
        }
        self.hands[worker as usize] = None;
        emptied(self.book.hand_back(project, ticket))
    }

    /// A free worker takes the oldest run of a deque, which is its own or another's, if it is that of the ticket.
    fn take(&mut self, worker: u32, owner: u32, project: u32, ticket: u64) -> Response
        ensures { TakesUpRun worker owner project ticket self.old result self.new }
    {
        if !is_free(&self.hands, worker) {
            return Response::NotNow;
        }
        let Some(deque) = self.deques.get_mut(owner as usize) else {
            return Response::NotNow;
        };
        let Some(run) = deque.take_oldest(project, ticket) else {
            return Response::NotNow;
        };
        self.hands[worker as usize] = Some(run);
        Response::Done
    }
}

/// Whether a worker is there, and holds no run.
fn is_free(hands: &[Option<ClaimedRun>], worker: u32) -> bool
    ensures { result ≡ held.is_free (slice_get hands.now worker) }
{
    matches!(hands.get(worker as usize), Some(None))
}

/// Whether a worker holds the run of the trial of a project's ticket.
fn holds(hands: &[Option<ClaimedRun>], worker: u32, project: u32, ticket: u64) -> bool
    ensures { result ≡ held.hand_holds project ticket (held_of_worker hands.now worker) }
{
    match hands.get(worker as usize) {
        Some(Some(run)) => run.is_of(project, ticket),
        _ => false,
    }
}

/// Whether a worker holds that run, and it isn't over.
fn holds_going(hands: &[Option<ClaimedRun>], worker: u32, project: u32, ticket: u64) -> bool
    ensures { result ≡ held.holds_going project ticket (held_of_worker hands.now worker) }
{
    match hands.get(worker as usize) {
        Some(Some(run)) => run.is_of(project, ticket) && run.is_going(),
        _ => false,
    }
}

/// Makes events of the run of a hand, which isn't over, as many as turns.
fn slice_hand(
    alloc: Global,
    hand: &mut Option<ClaimedRun>,
    scratch: &mut Scratch,
    turns: u32,
) -> Result<Response, NoMemory>
    requires turns { 0 < turns }
    requires going { IfSome hand.old (λ r. is_going r.progress ≡ true) }
    ensures trial { HoldsSameTrial hand.old hand.new }
    ensures slice { SlicesHand turns hand.old result hand.new }
{
    let Some(run) = hand.take() else {
        return Ok(Response::NotNow);
    };
    let run = run.sliced(alloc, scratch, turns);
    let refused = run.is_out_of_memory();
    *hand = Some(run);
    if refused {
        Err(NoMemory)
    } else {
        Ok(Response::Done)
    }
}

/// Takes the result of a run from a worker's hand, if it holds the run of a project's ticket and that is over.
fn take_finished(
    hands: &mut Vec<Option<ClaimedRun>>,
    worker: u32,
    project: u32,
    ticket: u64,
) -> Option<Finished>
    ensures { TakesFinished worker project ticket hands.old.items result hands.new.items }
{
    if !holds(hands, worker, project, ticket) || holds_going(hands, worker, project, ticket) {
        return None;
    }
    match hands[worker as usize].take()?.progress {
        RunProgress::Over(finished) => Some(finished),
        RunProgress::Going(_) => None,
    }
}

/// What is answered when a hand was emptied: whether the trial was running.
fn emptied(was_running: bool) -> Response
    ensures { view_of_response result ≡ work_response was_running }
{
    if was_running {
        Response::Done
    } else {
        Response::Stray
    }
}
