//! The desks of all projects.

ghost use Rattle.std.specs.Prelude.{◌≡◌, ◌<◌, [], length, nat_eq, option_map, IfSome};
ghost use Rattle.std.specs.Bool.{OnTrue};
ghost use Rattle.indexmap.specs.IndexMap.{index_map_len, index_of};
ghost use Rattle.pf_request.specs.Calls as calls;
ghost use Rattle.pf_desks.specs.Desk as desk;
ghost use Rattle.pf_desks.specs.Calls.{calls_in, stage_of};
ghost use Rattle.pf_desks.specs.Desk.{held_at};
ghost use Rattle.pf_desks.specs.History.{IsLegalDesk};
ghost use Rattle.pf_desks.specs.Jobs.{KeepsAllTickets};
ghost use Rattle.pf_desks.specs.Desks.{desk_at};
ghost use Rattle.pf_book.specs.Answers.{SimulatesCall, SimulatesClaim, ClaimsAt, ClaimsFirst, SimulatesFile};
ghost use Rattle.pf_book.specs.Answers.{SimulatesHandBack};
ghost use Rattle.pf_book.specs.Profile.{ForRight};
ghost use Rattle.pf_book.specs.Queued.{job_at};
ghost use Rattle.pf_book.specs.Queues.{FrontIsQueued, QueuesAll};
ghost use Rattle.pf_book.specs.Trials.{JobAt};
ghost use Rattle.pf_request.specs.View.{view_of_call, view_of_order};

use crate::claimed::Claimed;
use crate::desk::Desk;
use crate::queue::TrialQueue;
use crate::reply::Reply;
use indexmap::IndexMap;
use pf_check::Source;
use pf_desks::TrialStage;
use pf_errors::NoMemory;
use pf_request::{Call, Order};
use pf_sched::{Finished, Job};
use pf_store::Store;
use std::alloc::Global;
use std::hash::RandomState;
use std::marker::Model;
use std::sync::Arc;

/// The desks of all projects, each opened by the first call of its project, the store of what was submitted, from which
/// desks share the modules of equal sources, and the queue of the trials that wait for a worker. Contracts see the
/// desks by project, in the order in which they were opened; neither what is shared nor the queue is seen. No call of
/// one project reads or changes the desk of another. Random keys keep a look-up from being slow for projects or sources
/// that are chosen to be; no reply depends on them. The desk of the last call is looked at first, at its index, since a
/// hash by such keys takes as long as a small call.
#[derive(Drop)]
pub struct Book {
    desks: IndexMap<u32, Desk, RandomState>,
    last: usize,
    store: Store,
    queue: TrialQueue,
}

impl Model for Book {
    ghost use Rattle.pf_desks.specs.Desks.{Desks};
    ghost use Rattle.pf_desks.specs.Encoding.{coded_desks};

    ghost Value = { Desks };

    ghost coded = { coded_desks };

    ghost use Rattle.pf_book.specs.Kept.{CountsAll};
    ghost use Rattle.pf_book.specs.Queues.{QueuesAll};

    ghost view = { λ b. b.desks.entries };

    // The store counts the modules of all desks, and each trial that is queued at one of them waits in the queue.
    ghost invariant = { λ b. CountsAll b.store b.desks.entries × QueuesAll b.queue b.desks.entries };
}

impl Book {
    /// A book with no desk yet, which hashes with these keys.
    pub fn new(alloc: Global, keys: RandomState) -> Book
        ensures { result ≡ [] }
    {
        Book {
            desks: IndexMap::with_hasher(alloc, keys),
            last: 0,
            store: Store::new(alloc, keys),
            queue: TrialQueue::new(alloc),
        }
    }

    /// How many things the desk of a project noted. They are its whole history: replayed on an empty desk they give the
    /// desk, and their own replies.
    pub fn note_count(&self, project: u32) -> usize
        ensures count { result ≡ length (desk_at project self.now).history }
        ensures legal { ForRight (λ p. IsLegalDesk p (desk_at project self.now)) }
    {
        match self.desks.get(&project) {
            Some(desk) => desk.note_count(),
            None => 0,
        }
    }

    /// How many calls the desk of a project logged.
    pub fn call_count(&self, project: u32) -> u64
        ensures { result ≡ calls_in (desk_at project self.now).history }
    {
        match index_of(&self.desks, self.last, project) {
            Some(index) => self.desks[index].call_count(),
            None => 0,
        }
    }

    /// How far the trial of a project's ticket is, if it is held. Nothing is noted.
    pub fn stage(&self, project: u32, ticket: u64) -> Option<TrialStage>
        ensures { result
            ≡ option_map (λ t. stage_of t.state) (held_at (desk_at project self.now).trials ticket) }
    {
        match index_of(&self.desks, self.last, project) {
            Some(index) => self.desks[index].stage(ticket),
            None => None,
        }
    }

    /// Asks for a number for the module that a source is.
    pub fn submit(&mut self, alloc: Global, project: u32, source: Source) -> Result<Reply, NoMemory>
        ensures answer { SimulatesCall self.old project (calls.submit source) result self.new }
        ensures tickets { KeepsAllTickets self.old self.new }
    {
        self.call(alloc, project, Call::Submit(source))
    }

    /// Asks for a ticket for what is requested of a module: a trial, or a shrinking.
    pub fn order(&mut self, alloc: Global, project: u32, order: Order) -> Result<Reply, NoMemory>
        ensures answer { SimulatesCall self.old project (view_of_order order) result self.new }
        ensures tickets { KeepsAllTickets self.old self.new }
    {
        self.call(alloc, project, Call::Order(order))
    }

    /// Asks for the result of the trial of a ticket.
    pub fn fetch(&mut self, alloc: Global, project: u32, ticket: u64) -> Result<Reply, NoMemory>
        ensures answer { SimulatesCall self.old project (calls.fetch ticket) result self.new }
        ensures tickets { KeepsAllTickets self.old self.new }
    {
        self.call(alloc, project, Call::Fetch(ticket))
    }

    /// Asks how far the trial of a ticket is.
    pub fn status(&mut self, alloc: Global, project: u32, ticket: u64) -> Result<Reply, NoMemory>
        ensures answer { SimulatesCall self.old project (calls.status ticket) result self.new }
        ensures tickets { KeepsAllTickets self.old self.new }
    {
        self.call(alloc, project, Call::Status(ticket))
    }

    /// Drops the trial of a ticket, however far it is. Its steps no longer count.
    pub fn drop_trial(
        &mut self,
        alloc: Global,
        project: u32,
        ticket: u64,
    ) -> Result<Reply, NoMemory>
        ensures answer { SimulatesCall self.old project (calls.drop_trial ticket) result self.new }
        ensures tickets { KeepsAllTickets self.old self.new }
    {
        self.call(alloc, project, Call::DropTrial(ticket))
    }

    /// Withdraws the module of a number if no trial that the project holds uses it. Its bytes no longer count.
    pub fn withdraw(&mut self, alloc: Global, project: u32, number: u64) -> Result<Reply, NoMemory>
        ensures answer { SimulatesCall self.old project (calls.withdraw number) result self.new }
        ensures tickets { KeepsAllTickets self.old self.new }
    {
        self.call(alloc, project, Call::Withdraw(number))
    }

    /// Asks how many calls the project logged.
    pub fn log(&mut self, alloc: Global, project: u32) -> Result<Reply, NoMemory>
        ensures answer { SimulatesCall self.old project calls.log result self.new }
        ensures tickets { KeepsAllTickets self.old self.new }
    {
        self.call(alloc, project, Call::Log)
    }

    /// Asks for what the project uses.
    pub fn usage(&mut self, alloc: Global, project: u32) -> Result<Reply, NoMemory>
        ensures answer { SimulatesCall self.old project calls.usage result self.new }
        ensures tickets { KeepsAllTickets self.old self.new }
    {
        self.call(alloc, project, Call::Usage)
    }

    /// Asks that the project's desk has this edition from now on, which isn't below the one that it has. What the
    /// project holds stays.
    pub fn edition(&mut self, alloc: Global, project: u32, edition: u32) -> Result<Reply, NoMemory>
        ensures answer { SimulatesCall self.old project (calls.edition edition) result self.new }
        ensures tickets { KeepsAllTickets self.old self.new }
    {
        self.call(alloc, project, Call::Edition(edition))
    }

    /// Answers a client's call on the desk of its project, and notes it there with its reply. After running out of
    /// memory nothing has changed and nothing is noted. A new desk is put among the others before its first call, which
    /// the store then counts.
    pub fn call(&mut self, alloc: Global, project: u32, call: Call) -> Result<Reply, NoMemory>
        ensures answer { SimulatesCall self.old project (view_of_call call) result self.new }
        ensures tickets { KeepsAllTickets self.old self.new }
    {
        if let Some(index) = index_of(&self.desks, self.last, project) {
            self.last = index;
            let drops = matches!(call, Call::DropTrial(_));
            let reply = self.desks[index].call(
                alloc,
                &mut self.store,
                &mut self.queue,
                project,
                call,
            );
            if drops {
                let_pass(&self.desks, index, &mut self.queue);
            }
            return reply;
        }
        self.desks.reserve(1)?;
        let mut desk = Desk::new(alloc);
        let reply = desk.call(alloc, &mut self.store, &mut self.queue, project, call)?;
        self.last = self.desks.len();
        self.desks.insert(project, desk)?;
        Ok(reply)
    }

    /// Claims the first trial of the queue that is queued still, which is running then; none only if no trial of any
    /// desk is queued. A claim makes the room that the file or the hand-back needs. After running out of memory nothing
    /// has changed and nothing is noted.
    pub fn claim(&mut self) -> Result<Option<Claimed>, NoMemory>
        ensures { SimulatesClaim self.old result self.new }
    {
        claim_first(&mut self.desks, self.last, &mut self.queue)
    }

    /// Claims the trial of a project's ticket, if it is queued; it leaves the queue as soon as none waits before it.
    /// After running out of memory nothing has changed and nothing is noted.
    pub fn claim_at(&mut self, project: u32, ticket: u64) -> Result<Option<Arc<Job>>, NoMemory>
        ensures { ClaimsAt self.old project ticket result self.new }
    {
        if self.queued(project, ticket).is_none() {
            return Ok(None);
        }
        self.queue.make_room()?;
        let claimed = claim_in(&mut self.desks, self.last, project, ticket)?;
        if claimed.is_some() {
            self.queue.begin();
            let_pass(&self.desks, self.last, &mut self.queue);
        }
        Ok(claimed)
    }

    /// Files the result of the trial of a project's ticket; returns false if it isn't running or is of another job, and
    /// changes nothing then. It takes no memory.
    pub fn file(&mut self, project: u32, ticket: u64, finished: Finished) -> bool
        ensures file { SimulatesFile self.old project ticket finished result self.new }
        ensures own { OnTrue result (JobAt (desk_at project self.old).trials ticket finished.job) }
        ensures tickets { KeepsAllTickets self.old self.new }
    {
        let Some(index) = index_of(&self.desks, self.last, project) else {
            return false;
        };
        let filed = self.desks[index].file(ticket, finished);
        if filed {
            self.queue.end(1);
        }
        filed
    }

    /// Hands the trial of a project's ticket back, which is queued again; returns false if it isn't running, and
    /// changes nothing then. It takes no memory.
    pub fn hand_back(&mut self, project: u32, ticket: u64) -> bool
        ensures { SimulatesHandBack self.old project ticket result self.new }
    {
        let Some(index) = index_of(&self.desks, self.last, project) else {
            return false;
        };
        let taken = self.desks[index].hand_back(ticket);
        if taken {
            self.queue.end(1);
            self.queue.push(project, ticket);
        }
        taken
    }

    /// The job of the trial of a project's ticket, if it is queued.
    pub fn queued(&self, project: u32, ticket: u64) -> Option<&Arc<Job>>
        ensures { option_map (λ j. j.now.value) result ≡ job_at (desk_at project self.now).trials ticket }
    {
        queued_in(&self.desks, self.last, project, ticket)
    }
}

/// The index of the desk of a project. The one at `last` is looked at first.
fn index_of(desks: &IndexMap<u32, Desk, RandomState>, last: usize, project: u32) -> Option<usize>
    ensures index { result ≡ index_of nat_eq desks.now project }
    ensures within { IfSome result (λ i. i < index_map_len desks.now) }
{
    if let Some((key, _)) = desks.as_slice().get_index(last) {
        if *key == project {
            return Some(last);
        }
    }
    desks.get_index_of(&project)
}

/// The job of the trial of a project's ticket at its desk, if it is queued.
fn queued_in(
    desks: &IndexMap<u32, Desk, RandomState>,
    last: usize,
    project: u32,
    ticket: u64,
) -> Option<&Arc<Job>>
    ensures { option_map (λ j. j.now.value) result ≡ job_at (desk_at project desks.now.entries).trials ticket }
{
    let index = index_of(desks, last, project)?;
    desks[index].queued(ticket)
}

/// Claims the trial of a project's ticket at its desk, if it is queued.
fn claim_in(
    desks: &mut IndexMap<u32, Desk, RandomState>,
    last: usize,
    project: u32,
    ticket: u64,
) -> Result<Option<Arc<Job>>, NoMemory>
    ensures { ClaimsAt desks.old.entries project ticket result desks.new.entries }
{
    match index_of(desks, last, project) {
        Some(index) => desks[index].claim(ticket),
        None => Ok(None),
    }
}

/// Lets the front of the queue go as long as it isn't queued: a trial that was claimed by its ticket, or dropped. Each
/// leaves the queue once; those after one that is queued stay until it goes.
fn let_pass(desks: &IndexMap<u32, Desk, RandomState>, last: usize, queue: &mut TrialQueue)
    requires { QueuesAll queue.old desks.now.entries }
    ensures queue { QueuesAll queue.new desks.now.entries }
    ensures front { FrontIsQueued queue.new.waiting.items desks.now.entries }
{
    while let Some(&(project, ticket)) = queue.waiting.front() {
        if queued_in(desks, last, project, ticket).is_some() {
            return;
        }
        queue.waiting.pop_front();
    }
}

/// Claims the first trial of the queue that is still queued; those before it leave the queue.
fn claim_first(
    desks: &mut IndexMap<u32, Desk, RandomState>,
    last: usize,
    queue: &mut TrialQueue,
) -> Result<Option<Claimed>, NoMemory>
    requires { QueuesAll queue.old desks.old.entries }
    ensures claim { SimulatesClaim desks.old.entries result desks.new.entries }
    ensures first { ClaimsFirst desks.old.entries queue.old.waiting.items result queue.new.waiting.items }
    ensures queue { QueuesAll queue.new desks.new.entries }
{
    while let Some((project, ticket)) = queue.waiting.pop_front() {
        match claim_in(desks, last, project, ticket) {
            Ok(Some(job)) => {
                queue.begin();
                return Ok(Some(Claimed {
                    project,
                    ticket,
                    job,
                }));
            }
            Ok(None) => {}
            Err(NoMemory) => {
                queue.waiting.push_front_reserved((project, ticket));
                return Err(NoMemory);
            }
        }
    }
    Ok(None)
}
