//! The result of each call to a desk.

ghost use Rattle.std.specs.Prelude.{◌≡◌, ◌≤◌, IfOk, IsSome, MatchResult, OnErr, OnOk, Ok};
ghost use Rattle.pf_request.specs.Calls as calls;
ghost use Rattle.pf_desks.specs.Desk as desk;
ghost use Rattle.pf_desks.specs.Desk.{held_at};
ghost use Rattle.pf_desks.specs.Calls.{fetched, is_edition};
ghost use Rattle.pf_store.specs.Sources.{holders, HeldOnceLess};
ghost use Rattle.pf_request.specs.View.{view_of_order};
ghost use Rattle.pf_book.specs.View.{code_of};
ghost use Rattle.pf_book.specs.Kept.{Counts};
ghost use Rattle.pf_book.specs.Orders.{OrderAsksFor, IsRefusal};
ghost use Rattle.pf_book.specs.Plans.{IsPlan, IsCharged, CanChange, KeepsModules, FollowsPlan};

use crate::desk::Desk;
use crate::entry::Entry;
use crate::job::job_of;
use crate::numbers::numbered;
use crate::plan::{DeskChange, Plan};
use crate::refusal::CallRefusal;
use crate::reply::Reply;
use crate::trial::Trial;
use pf_check::{ReadModule, Source};
use pf_errors::{NoMemory, OrNoMemory};
use pf_quota::{Charge, Holding, Usage, trial_steps};
use pf_request::Order;
use pf_sched::{Finished, Job};
use pf_store::Store;
use std::alloc::Global;
use std::sync::Arc;

impl Desk {
    pub(super) fn submission(
        &self,
        alloc: Global,
        store: &mut Store,
        source: Source,
        usage: Usage,
    ) -> Result<Plan, NoMemory>
        requires charged { IsCharged self.now usage }
        ensures plan { IfOk result (λ p. IsPlan self.now (calls.submit source) p) }
        ensures can { IfOk result (λ p. CanChange self.now p.change) }
        ensures store { FollowsPlan store.old store.new self.now result }
    {
        let mut with_module = usage;
        let bytes = source.bytes().len() as u64;
        if let Err(limit) = with_module.charge(self.edition(), Charge::Module { bytes }) {
            return Ok(source_refused(source, CallRefusal::PastLimit(limit), usage));
        }
        match store.take_or_read(alloc, &source) {
            Ok(module) => {
                let number = self.modules.len() as u64 + 1;
                Ok(Plan {
                    noted: Entry::Submitted(source_held(store, &module)?, number),
                    change: DeskChange::Module(module),
                    reply: Reply::Module(number),
                    usage: with_module,
                })
            }
            Err(OrNoMemory::NoMemory) => Err(NoMemory),
            Err(OrNoMemory::Fault(refused)) => {
                Ok(source_refused(source, CallRefusal::Source(refused.code), usage))
            }
        }
    }

    pub(super) fn ordering(
        &self,
        alloc: Global,
        order: Order,
        usage: Usage,
    ) -> Result<Plan, NoMemory>
        requires charged { IsCharged self.now usage }
        ensures plan { IfOk result (λ p. IsPlan self.now (view_of_order order) p) }
        ensures can { IfOk result (λ p. CanChange self.now p.change) }
        ensures modules { IfOk result (λ p. KeepsModules p.change) }
    {
        let order = Box::new(alloc, order)?;
        match job_of(alloc, self.edition(), &self.modules, &order) {
            Ok(job) => Ok(self.ordered(order, job, usage)),
            Err(OrNoMemory::NoMemory) => Err(NoMemory),
            Err(OrNoMemory::Fault(refusal)) => {
                let noted = Entry::OrderRefused(order, refusal);
                Ok(Plan::reply_alone(noted, Reply::Refused(refusal), usage))
            }
        }
    }

    /// A job that was ordered, of a module that is held: one ticket more, if the project passes no limit with it.
    fn ordered(&self, order: Box<Order>, job: Arc<Job>, usage: Usage) -> Plan
        requires charged { IsCharged self.now usage }
        requires asked { OrderAsksFor self.now.edition self.now.modules order.value (Ok job.value) }
        requires held { IsSome (held_at self.now.modules order.value.module) }
        ensures plan { IsPlan self.now (view_of_order order.value) result }
        ensures can { CanChange self.now result.change }
        ensures modules { KeepsModules result.change }
    {
        let mut with_trial = usage;
        let steps = trial_steps(job.limit(), job.runs());
        if let Err(limit) = with_trial.charge(self.edition(), Charge::Trial { steps }) {
            let refusal = CallRefusal::PastLimit(limit);
            let noted = Entry::OrderRefused(order, refusal);
            return Plan::reply_alone(noted, Reply::Refused(refusal), usage);
        }
        let ticket = self.trials.len() as u64 + 1;
        Plan {
            change: DeskChange::Trial(order.module, job),
            noted: Entry::Ordered(order, ticket),
            reply: Reply::Ticket(ticket),
            usage: with_trial,
        }
    }

    pub(super) fn fetching(&self, ticket: u64, usage: Usage) -> Result<Plan, NoMemory>
        requires charged { IsCharged self.now usage }
        ensures plan { IfOk result (λ p. IsPlan self.now (calls.fetch ticket) p) }
        ensures nothing { IfOk result (λ p. p.change ≡ DeskChange.Nothing) }
    {
        match filed_result(&self.trials, ticket) {
            Ok(finished) => {
                let noted = Entry::fetched(ticket, finished.share()?);
                Ok(Plan::reply_alone(noted, Reply::Result(finished), usage))
            }
            Err(OrNoMemory::NoMemory) => Err(NoMemory),
            Err(OrNoMemory::Fault(refusal)) => {
                let noted = Entry::FetchRefused(ticket, refusal);
                Ok(Plan::reply_alone(noted, Reply::Refused(refusal), usage))
            }
        }
    }

    pub(super) fn standing(&self, ticket: u64, usage: Usage) -> Plan
        requires charged { IsCharged self.now usage }
        ensures plan { IsPlan self.now (calls.status ticket) result }
        ensures nothing { result.change ≡ DeskChange.Nothing }
    {
        match numbered(&self.trials, ticket) {
            Some(trial) => {
                let stage = trial.stage();
                Plan::reply_alone(Entry::Stood(ticket, stage), Reply::Stage(stage), usage)
            }
            None => {
                let refusal = CallRefusal::NoTrial;
                let noted = Entry::StatusRefused(ticket, refusal);
                Plan::reply_alone(noted, Reply::Refused(refusal), usage)
            }
        }
    }

    pub(super) fn dropping(&self, ticket: u64, usage: Usage) -> Plan
        requires charged { IsCharged self.now usage }
        ensures plan { IsPlan self.now (calls.drop_trial ticket) result }
        ensures can { CanChange self.now result.change }
        ensures modules { KeepsModules result.change }
    {
        let Some(trial) = numbered(&self.trials, ticket) else {
            let refusal = CallRefusal::NoTrial;
            let noted = Entry::DropRefused(ticket, refusal);
            return Plan::reply_alone(noted, Reply::Refused(refusal), usage);
        };
        let mut without = usage;
        without.refund(trial.held());
        Plan {
            change: DeskChange::DropTrial(ticket),
            noted: Entry::Dropped(ticket),
            reply: Reply::GivenUp,
            usage: without,
        }
    }

    pub(super) fn withdrawal(&self, store: &mut Store, number: u64, usage: Usage) -> Plan
        requires counts { Counts store.old self.now }
        requires charged { IsCharged self.now usage }
        ensures plan { IsPlan self.now (calls.withdraw number) result }
        ensures can { CanChange self.now result.change }
        ensures store { FollowsPlan store.old store.new self.now (Ok result) }
    {
        let Some(held) = numbered(&self.modules, number) else {
            return withdrawal_refused(number, CallRefusal::NoModule, usage);
        };
        if self.users[number as usize - 1] > 0 {
            return withdrawal_refused(number, CallRefusal::ModuleInUse, usage);
        }
        let mut without = usage;
        without.refund(Holding::Module {
            bytes: held.size() as u64,
        });
        store.give_up(held.source());
        Plan {
            change: DeskChange::Withdraw(number),
            noted: Entry::Withdrawn(number),
            reply: Reply::GivenUp,
            usage: without,
        }
    }

    pub(super) fn using(&self, alloc: Global, usage: Usage) -> Result<Plan, NoMemory>
        requires charged { IsCharged self.now usage }
        ensures plan { IfOk result (λ p. IsPlan self.now calls.usage p) }
        ensures nothing { IfOk result (λ p. p.change ≡ DeskChange.Nothing) }
    {
        let noted = Entry::Used(Box::new(alloc, self.usage)?);
        Ok(Plan::reply_alone(noted, Reply::Usage(self.usage), usage))
    }

    pub(super) fn counting(&self, usage: Usage) -> Plan
        requires charged { IsCharged self.now usage }
        ensures plan { IsPlan self.now calls.log result }
        ensures nothing { result.change ≡ DeskChange.Nothing }
    {
        let calls = self.usage.calls;
        Plan::reply_alone(Entry::Counted(calls), Reply::Logged(calls), usage)
    }

    pub(super) fn moving(&self, edition: u32, usage: Usage) -> Plan
        requires charged { IsCharged self.now usage }
        ensures plan { IsPlan self.now (calls.edition edition) result }
        ensures can { CanChange self.now result.change }
        ensures modules { KeepsModules result.change }
    {
        if !is_edition(edition) {
            return move_refused(edition, CallRefusal::NoEdition, usage);
        }
        let own = self.edition();
        if edition < own {
            return move_refused(edition, CallRefusal::EditionTooLow, usage);
        }
        Plan {
            change: DeskChange::Edition(edition),
            noted: Entry::Moved(edition),
            reply: Reply::HasEdition,
            usage,
        }
    }
}

/// The result of the trial of a ticket, if it is filed.
fn filed_result(trials: &[Option<Trial>], ticket: u64) -> Result<Finished, OrNoMemory<CallRefusal>>
    ensures { MatchResult result
        (λ f. fetched (held_at trials.now ticket) ≡ desk.result f.job.asked.code.atoms f.result)
        (IsRefusal (λ e. fetched (held_at trials.now ticket) ≡ desk.refused (code_of e))) }
{
    match numbered(trials, ticket) {
        Some(trial) => trial.filed(),
        None => Err(OrNoMemory::Fault(CallRefusal::NoTrial)),
    }
}

/// A source that is refused.
fn source_refused(source: Source, refusal: CallRefusal, usage: Usage) -> Plan
    ensures { result ≡ record {
      change = DeskChange.Nothing;
      noted = Entry.SubmitRefused source refusal;
      reply = Reply.Refused refusal;
      usage = usage;
    } }
{
    let noted = Entry::SubmitRefused(source, refusal);
    Plan::reply_alone(noted, Reply::Refused(refusal), usage)
}

/// To withdraw a module is refused.
fn withdrawal_refused(number: u64, refusal: CallRefusal, usage: Usage) -> Plan
    ensures { result ≡ record {
      change = DeskChange.Nothing;
      noted = Entry.WithdrawRefused number refusal;
      reply = Reply.Refused refusal;
      usage = usage;
    } }
{
    let noted = Entry::WithdrawRefused(number, refusal);
    Plan::reply_alone(noted, Reply::Refused(refusal), usage)
}

/// There are editions 1 and 2.
fn is_edition(edition: u32) -> bool
    ensures { result ≡ is_edition edition }
{
    edition == 1 || edition == 2
}

/// An edition is refused.
fn move_refused(edition: u32, refusal: CallRefusal, usage: Usage) -> Plan
    ensures { result ≡ record {
      change = DeskChange.Nothing;
      noted = Entry.MoveRefused edition refusal;
      reply = Reply.Refused refusal;
      usage = usage;
    } }
{
    let noted = Entry::MoveRefused(edition, refusal);
    Plan::reply_alone(noted, Reply::Refused(refusal), usage)
}

/// The bytes under which a module is kept that the store counts one holder more of. Where memory runs out it counts one
/// less again.
fn source_held(store: &mut Store, held: &ReadModule) -> Result<Source, NoMemory>
    requires { 1 ≤ holders store.old held.now.source }
    ensures source { IfOk result (λ s. s ≡ held.now.source) }
    ensures ok { OnOk result (store.new ≡ store.old) }
    ensures err { OnErr result (HeldOnceLess held.now.source store.old store.new) }
{
    let source = held.source().share();
    if source.is_err() {
        store.give_up(held.source());
    }
    source
}
