//! The desk of one project.

ghost use Rattle.std.specs.Prelude.{◌≡◌, ◌<◌, ◌≤◌, ◌+◌, true, IfOk, IfSome, MatchBool, OnOk, length};
ghost use Rattle.std.specs.Bool.{OnTrue};
ghost use Rattle.std.specs.Option.{option_map};
ghost use Rattle.std.specs.Vec.{vec_len, vec_capacity};
ghost use Rattle.pf_model.specs.Limits.{IsEdition};
ghost use Rattle.pf_desks.specs.Desk as desk;
ghost use Rattle.pf_desks.specs.Desk.{no_desk, held_at};
ghost use Rattle.pf_desks.specs.Calls.{calls_in, stage_of};
ghost use Rattle.pf_desks.specs.Work.{is_running, with_state};
ghost use Rattle.pf_desks.specs.History.{IsLegalDesk};
ghost use Rattle.pf_desks.specs.Jobs.{KeepsTickets};
ghost use Rattle.pf_book.specs.Profile.{ForRight};
ghost use Rattle.pf_request.specs.View.{view_of_call};
ghost use Rattle.pf_book.specs.Answers.{DeskAnswers, DeskClaims, DeskFiles, DeskHandsBack};
ghost use Rattle.pf_book.specs.Kept.{Counts, FollowsDesk};
ghost use Rattle.pf_book.specs.Plans.{IsPlan, IsCharged, CanChange, FollowsPlan};
ghost use Rattle.pf_book.specs.Queued.{is_undone, job_at};
ghost use Rattle.pf_book.specs.Queues.{trials_dropped_by, FollowsQueue, HoldsRoom};
ghost use Rattle.pf_book.specs.Running.{running_in};
ghost use Rattle.pf_book.specs.Trials.{JobAt, IsStrayJob};
ghost use Rattle.pf_book.specs.View.{state_running};

mod planning;

use crate::change::carry_out;
use crate::entry::{Entry, mark_of};
use crate::numbers::{make_room, numbered};
use crate::plan::{DeskChange, Plan};
use crate::queue::TrialQueue;
use crate::refusal::CallRefusal;
use crate::reply::Reply;
use crate::trial::Trial;
use pf_check::ReadModule;
use pf_desks::TrialStage;
use pf_errors::NoMemory;
use pf_quota::{Charge, Usage};
use pf_request::Call;
use pf_sched::{Finished, Job};
use pf_store::Store;
use std::alloc::Global;
use std::marker::Model;
use std::sync::Arc;

/// The desk of one project: its edition, its modules and trials by number, with nothing at a number that was given up,
/// and what it noted; with the sums of what it uses, for each module the count of the held trials that use it, and how
/// many trials run. There is room to note the file or the hand-back of each of those. Contracts see a desk that is what
/// its history makes of an empty one.
#[derive(Drop)]
pub(crate) struct Desk {
    edition: u32,
    modules: Vec<Option<ReadModule>>,
    trials: Vec<Option<Trial>>,
    history: Vec<Entry>,
    users: Vec<u64>,
    usage: Usage,
    running: usize,
}

impl Model for Desk {
    ghost use Rattle.pf_desks.specs.Desk as desk;
    ghost use Rattle.pf_desks.specs.Encoding.{coded_desk};

    ghost Value = { desk.Desk };

    ghost coded = { coded_desk };

    ghost use Rattle.pf_book.specs.Kept.{desk_in, IsValid};

    ghost view = { desk_in };

    ghost invariant = { IsValid };
}

impl Desk {
    pub fn new(alloc: Global) -> Desk
        ensures { result ≡ no_desk }
    {
        Desk {
            edition: 1,
            modules: Vec::new(alloc),
            trials: Vec::new(alloc),
            history: Vec::new(alloc),
            users: Vec::new(alloc),
            usage: Usage::new(),
            running: 0,
        }
    }

    /// How many things were noted. They are the whole history: replayed on an empty desk they give this desk, and their
    /// own replies.
    pub fn note_count(&self) -> usize
        ensures count { result ≡ length self.now.history }
        ensures legal { ForRight (λ p. IsLegalDesk p self.now) }
    {
        self.history.len()
    }

    /// How many calls it logged.
    pub fn call_count(&self) -> u64
        ensures { result ≡ calls_in self.now.history }
    {
        self.usage.calls
    }

    /// How far the trial of a ticket is, if it is held.
    pub fn stage(&self, ticket: u64) -> Option<TrialStage>
        ensures { result
            ≡ option_map (λ t. stage_of t.state) (held_at self.now.trials ticket) }
    {
        match numbered(&self.trials, ticket) {
            Some(trial) => Some(trial.stage()),
            None => None,
        }
    }

    /// The edition, 1 or 2, whose limits what is submitted and ordered has.
    fn edition(&self) -> u32
        ensures edition { result ≡ self.now.edition }
        ensures kept { IsEdition self.now.edition }
    {
        self.edition
    }

    /// Answers a call and notes it with its reply; a trial that is ordered waits in the queue from then on. A call for
    /// which the log has no room is refused first of all, takes no memory, and isn't noted. A source that is in store
    /// isn't read again. After running out of memory nothing has changed.
    pub fn call(
        &mut self,
        alloc: Global,
        store: &mut Store,
        queue: &mut TrialQueue,
        project: u32,
        call: Call,
    ) -> Result<Reply, NoMemory>
        requires store { Counts store.old self.old }
        requires room { HoldsRoom queue.old 0 }
        requires running { running_in self.old ≤ queue.old.running }
        ensures answer { DeskAnswers self.old (view_of_call call) result self.new }
        ensures store { FollowsDesk store.old self.old store.new self.new }
        ensures queue { FollowsQueue project queue.old self.old queue.new self.new }
        ensures tickets { KeepsTickets self.old self.new }
    {
        let mut usage = self.usage;
        if let Err(limit) = usage.charge(self.edition, Charge::Call) {
            return Ok(Reply::Refused(CallRefusal::PastLimit(limit)));
        }
        queue.make_room()?;
        make_call_room(
            &mut self.history,
            self.running,
            &mut self.modules,
            &mut self.trials,
            &mut self.users,
        )?;
        let Plan {
            change,
            noted,
            reply,
            usage,
        } = self.plan(alloc, store, call, usage)?;
        let ended = ended_by(&self.trials, &change);
        let next = self.trials.len() as u64 + 1;
        queue.follow(project, next, ended, &change);
        self.running -= ended;
        carry_out(
            &mut self.edition,
            &mut self.modules,
            &mut self.trials,
            &mut self.users,
            change,
        );
        self.history.push_reserved(noted);
        self.usage = usage;
        Ok(reply)
    }

    /// The result of a call that is charged already.
    fn plan(
        &self,
        alloc: Global,
        store: &mut Store,
        call: Call,
        usage: Usage,
    ) -> Result<Plan, NoMemory>
        requires counts { Counts store.old self.now }
        requires charged { IsCharged self.now usage }
        ensures plan { IfOk result (λ p. IsPlan self.now (view_of_call call) p) }
        ensures can { IfOk result (λ p. CanChange self.now p.change) }
        ensures store { FollowsPlan store.old store.new self.now result }
    {
        match call {
            Call::Submit(source) => self.submission(alloc, store, source, usage),
            Call::Order(order) => self.ordering(alloc, order, usage),
            Call::Fetch(ticket) => self.fetching(ticket, usage),
            Call::Status(ticket) => Ok(self.standing(ticket, usage)),
            Call::DropTrial(ticket) => Ok(self.dropping(ticket, usage)),
            Call::Withdraw(number) => Ok(self.withdrawal(store, number, usage)),
            Call::Usage => self.using(alloc, usage),
            Call::Log => Ok(self.counting(usage)),
            Call::Edition(edition) => Ok(self.moving(edition, usage)),
        }
    }

    /// The job of the trial of a ticket, if it is queued.
    pub fn queued(&self, ticket: u64) -> Option<&Arc<Job>>
        ensures { option_map (λ j. j.now.value) result ≡ job_at self.now.trials ticket }
    {
        queued(&self.trials, ticket)
    }

    /// Claims the trial of a ticket, if it is queued, and makes room for the note of its claim and that of its end.
    /// After running out of memory nothing has changed.
    pub fn claim(&mut self, ticket: u64) -> Result<Option<Arc<Job>>, NoMemory>
        ensures claim { DeskClaims self.old ticket result self.new }
        ensures modules { self.new.modules ≡ self.old.modules }
    {
        let Some(job) = queued(&self.trials, ticket) else {
            return Ok(None);
        };
        let job = Arc::try_clone(job)?;
        make_room(&mut self.history, self.running + 2)?;
        set_running(&mut self.trials, ticket, true);
        self.running += 1;
        self.history.push_reserved(Entry::Claimed(ticket));
        Ok(Some(job))
    }

    /// Files the result of the job of the trial of a ticket, if it is running and of that job, by the room that its
    /// claim made.
    pub fn file(&mut self, ticket: u64, finished: Finished) -> bool
        ensures file { DeskFiles self.old ticket finished result self.new }
        ensures own { OnTrue result (JobAt self.old.trials ticket finished.job) }
        ensures modules { self.new.modules ≡ self.old.modules }
    {
        if !runs_job(&self.trials, ticket, finished.job()) {
            return false;
        }
        let mark = mark_of(&finished);
        file(&mut self.trials, ticket, finished);
        self.running -= 1;
        self.history.push_reserved(Entry::Filed(ticket, mark));
        true
    }

    /// Hands the trial of a ticket back, if it is running, by the room that its claim made: it waits again.
    pub fn hand_back(&mut self, ticket: u64) -> bool
        ensures back { DeskHandsBack self.old ticket result self.new }
        ensures modules { self.new.modules ≡ self.old.modules }
    {
        if !is_running(&self.trials, ticket) {
            return false;
        }
        set_running(&mut self.trials, ticket, false);
        self.running -= 1;
        self.history.push_reserved(Entry::HandedBack(ticket));
        true
    }
}

/// The job of the trial of a ticket, if it is queued.
fn queued(trials: &[Option<Trial>], ticket: u64) -> Option<&Arc<Job>>
    ensures { option_map (λ j. j.now.value) result ≡ job_at trials.now ticket }
{
    numbered(trials, ticket)?.queued()
}

/// Whether a worker has the trial of a ticket.
fn is_running(trials: &[Option<Trial>], ticket: u64) -> bool
    ensures { result ≡ is_running (held_at trials.now ticket) }
{
    match numbered(trials, ticket) {
        Some(trial) => trial.is_running(),
        None => false,
    }
}

/// Whether a worker has the trial of a ticket, and it is of this job.
fn runs_job(trials: &[Option<Trial>], ticket: u64, job: &Job) -> bool
    ensures { MatchBool result
        ((is_running (held_at trials.now ticket) ≡ true) × JobAt trials.now ticket job.now)
        (IsStrayJob trials.now ticket job.now) }
{
    let Some(trial) = numbered(trials, ticket) else {
        return false;
    };
    trial.is_running() && job.same(trial.job())
}

/// How many running trials a change gives up.
fn ended_by(trials: &[Option<Trial>], change: &DeskChange) -> usize
    ensures { result ≡ trials_dropped_by trials.now change.now }
{
    match change {
        DeskChange::DropTrial(ticket) => { if is_running(trials, *ticket) { 1 } else { 0 } }
        _ => 0,
    }
}

/// A worker has the trial of a ticket from now on, or it waits for one. It isn't done.
fn set_running(trials: &mut Vec<Option<Trial>>, ticket: u64, running: bool)
    requires { IfSome (held_at trials.old.items ticket) (λ t. is_undone t.state ≡ true) }
    ensures { trials.new.items ≡ with_state trials.old.items ticket (λ j. state_running running) }
{
    if ticket == 0 || ticket > trials.len() as u64 {
        return;
    }
    if let Some(trial) = &mut trials[ticket as usize - 1] {
        trial.set_running(running);
    }
}

/// Files the result of the job of the trial of a ticket.
fn file(trials: &mut Vec<Option<Trial>>, ticket: u64, finished: Finished)
    requires { JobAt trials.old.items ticket finished.job }
    ensures { trials.new.items ≡ with_state trials.old.items ticket (λ j. desk.done finished.result) }
{
    if ticket == 0 || ticket > trials.len() as u64 {
        return;
    }
    if let Some(trial) = &mut trials[ticket as usize - 1] {
        trial.file(finished);
    }
}

/// Makes room for one note beside those of the trials that run, one module with its count of users, and one trial.
fn make_call_room(
    history: &mut Vec<Entry>,
    running: usize,
    modules: &mut Vec<Option<ReadModule>>,
    trials: &mut Vec<Option<Trial>>,
    users: &mut Vec<u64>,
) -> Result<(), NoMemory>
    requires { vec_len history.old + running ≤ vec_capacity history.old }
    ensures history { history.new.items ≡ history.old.items }
    ensures modules { modules.new.items ≡ modules.old.items }
    ensures trials { trials.new.items ≡ trials.old.items }
    ensures users { users.new.items ≡ users.old.items }
    ensures kept { vec_len history.new + running ≤ vec_capacity history.new }
    ensures room { OnOk result ((vec_len history.new + running < vec_capacity history.new)
        × (vec_len modules.new < vec_capacity modules.new)
        × (vec_len trials.new < vec_capacity trials.new)
        × (vec_len users.new < vec_capacity users.new)) }
{
    make_room(history, running + 1)?;
    make_room(modules, 1)?;
    make_room(trials, 1)?;
    make_room(users, 1)
}
