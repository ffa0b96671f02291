//! The messages of a process, and how far the `receive` at which it waits has tested them.

ghost use Rattle.std.specs.Prelude.{◌≡◌, ◌-◌, ◌^◌, ◌<◌, ◌≤◌, ◌==◌, if◌then◌else◌, is_some, length, IfOk};
ghost use Rattle.std.specs.Prelude.{IsOk, MatchOption, OnErr, OnOk, ◌+◌, min};
ghost use Rattle.std.specs.List.{list_any};
ghost use Rattle.pf_terms.specs.Term.{value_of};
ghost use Rattle.pf_model.specs.Flush.{reports_of};
ghost use Rattle.pf_heap.specs.Heap.{Keeps};
ghost use Rattle.pf_loop.specs.View.{AreWords};
ghost use Rattle.pf_inbox.specs.InboxView.{delivered, empty, flushed_of, unmarked};
ghost use Rattle.pf_inbox.specs.Received.{AtEachReceive, Receives};
ghost use Rattle.pf_inbox.specs.Tests.{FitsNoneBefore, TestsFromMark, TestsPassed, risen};

use crate::flush::take_reported;
use crate::search::search;
use pf_errors::NoMemory;
use pf_heap::Heap;
use pf_loop::Setting;
use pf_nodes::{MailList, Pool};
use pf_terms::Term;
use pf_turns::{Process, Status};
use std::alloc::Global;
use std::marker::Model;

/// The messages of a process, the oldest first, those before the mark tested by the `receive` at which it waits; and
/// how many tests there were in all.
#[derive(Drop)]
pub struct Inbox {
    list: MailList<Term>,
    tests: u64,
}

impl Model for Inbox {
    ghost use Rattle.pf_inbox.specs.InboxView.{InboxView, coded_inbox_view};

    ghost Value = { InboxView };

    ghost coded = { coded_inbox_view };

    ghost use Rattle.pf_inbox.specs.Inner.{inbox_seen};

    ghost view = { λ m. inbox_seen m.list m.tests };
}

/// A count with so many tests more.
fn counted(tests: u64, more: usize) -> u64
    ensures { result ≡ risen tests more }
{
    tests.saturating_add(more as u64)
}

impl Inbox {
    /// No message.
    pub fn new(alloc: Global) -> Inbox
        ensures { result ≡ empty }
    {
        Inbox {
            list: MailList::new(alloc),
            tests: 0,
        }
    }

    /// How many messages there are.
    pub fn len(&self) -> usize
        ensures { result ≡ length self.now.messages }
    {
        self.list.len()
    }

    /// Whether there is no message.
    pub fn is_empty(&self) -> bool
        ensures { result ≡ (length self.now.messages == 0) }
    {
        self.list.is_empty()
    }

    /// How many messages were tested by the `receive` at which the process waits.
    pub fn mark(&self) -> usize
        ensures position { result ≡ self.now.mark }
        ensures within { result ≤ length self.now.messages }
    {
        self.list.mark()
    }

    /// How many messages were tested in all, at most `u64::MAX`.
    pub fn tests(&self) -> u64
        ensures { result ≡ self.now.tests }
    {
        self.tests
    }

    /// Moves the mark to the front, as where the process reaches another `receive`.
    pub fn reset_mark(&mut self)
        ensures unmarked { self.new ≡ unmarked self.old }
        ensures before { (m : _) (own : _) (ks : _) → FitsNoneBefore m own ks self.new }
    {
        self.list.reset_mark();
    }

    /// Places a message after the others. It takes a spare node of the pool, and asks for memory only where the
    /// pool has none. What was true of the messages before the mark stays so.
    pub fn deliver(&mut self, pool: &mut Pool<Term>, message: Term) -> Result<(), NoMemory>
        ensures delivered { OnOk result (self.new ≡ delivered (value_of message) self.old) }
        ensures refused { OnErr result ((self.new ≡ self.old) × (pool.new ≡ pool.old)) }
        ensures before { (m : _) (own : _) (ks : _) → FitsNoneBefore m own ks self.old
            → FitsNoneBefore m own ks self.new }
        ensures spare { 0 < pool.old → length self.old.messages < 2 ^ 64 - 1 → IsOk result }
    {
        // Its contract says that the mark is within the messages.
        let _mark = self.list.mark();
        match self.list.push_back(pool, message) {
            Ok(()) => Ok(()),
            Err(_back) => Err(NoMemory),
        }
    }

    /// Takes out the oldest message about a reference, where there is one, and returns whether there was; the others
    /// stay in order. No message counts as tested, and no memory is taken.
    pub fn flush(&mut self, pool: &mut Pool<Term>, reference: u64) -> bool
        requires { self.old.mark ≡ 0 }
        ensures flushed { self.new ≡ flushed_of reference self.old }
        ensures reported { result ≡ list_any (reports_of reference) self.old.messages }
        ensures before { (m : _) (own : _) (ks : _) → FitsNoneBefore m own ks self.new }
    {
        take_reported(&mut self.list, pool, reference)
    }

    /// Drops all messages, as for another process. Their nodes go to the pool, or are freed once the pool is full.
    pub fn clear(&mut self, pool: &mut Pool<Term>)
        ensures emptied { self.new ≡ empty }
        ensures pooled { pool.new ≡ min 1024 (pool.old + length self.old.messages) }
    {
        self.list.drain_into(pool);
        self.tests = 0;
    }

    /// Takes the oldest message that some clause of the `receive` picks at which the process is, by the first such
    /// clause, in whose body the process is then; the others stay in order. Where no clause picks one, the process
    /// waits as before. The messages before the mark aren't tested: the caller shows that no clause picks one. Each
    /// other is tested at most once, and counted where it is tested. Where a message is taken the mark moves to the
    /// front, and its node goes to the pool; where none is, the mark moves to the end.
    pub fn receive(
        &mut self,
        pool: &mut Pool<Term>,
        process: &mut Process,
        heap: &mut Heap,
        setting: &Setting,
    ) -> Result<Option<Term>, NoMemory>
        requires words { AreWords heap.old process.old.machine.stack.words.items }
        requires constants { AreWords heap.old setting.now.constants.now }
        ensures words { AreWords heap.new process.new.machine.stack.words.items }
        ensures keeps { Keeps heap.old heap.new }
        ensures status { IfOk result (λ o. process.new.status
            ≡ (if is_some o then Status.Goes else process.old.status)) }
        ensures received { IfOk result (λ o. AtEachReceive heap.old setting.now process.old (λ m code d fs ks.
            FitsNoneBefore m setting.now.own ks self.old
            → Receives m setting.now.own code d fs ks self.old self.new heap.new process.new.machine o)) }
        ensures tests { OnOk result (AtEachReceive heap.old setting.now process.old (λ m code d fs ks.
            TestsFromMark m setting.now.own ks self.old self.new)) }
        ensures mark { IfOk result (λ o. MatchOption o (self.new.mark ≡ length self.new.messages)
            (λ _. self.new.mark ≡ 0)) }
        ensures passed { OnErr result (TestsPassed self.old self.new) }
        ensures err { OnErr result ((self.new.messages ≡ self.old.messages)
            × (process.new.status ≡ process.old.status)) }
    {
        let mut made = 0;
        let found = search(&mut self.list, &mut made, process, heap, setting);
        self.tests = counted(self.tests, made);
        let taken = found?;
        if taken {
            let message = self.list.take_marked(pool);
            self.list.reset_mark();
            return Ok(Some(message));
        }
        Ok(None)
    }
}
