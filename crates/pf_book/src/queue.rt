//! The trials that wait for a worker.

ghost use Rattle.std.specs.Prelude.{◌≡◌, ◌≤◌, ◌+◌, ◌++◌, [], ◌∷◌, OnOk};
ghost use Rattle.std.specs.VecDeque.{deque_len};
ghost use Rattle.pf_book.specs.Queues.{lined_up, HoldsRoom};

use crate::plan::DeskChange;
use pf_errors::NoMemory;
use std::alloc::Global;
use std::collections::VecDeque;

/// The trials that wait for a worker, each by its project and its ticket, in the order in which they were queued, and
/// how many trials run. There is room for those to wait again. A trial that was dropped, or claimed by its ticket, may
/// be here still, after one that is queued: it leaves once it is at the front.
#[derive(Drop)]
pub(crate) struct TrialQueue {
    pub waiting: VecDeque<(u32, u64)>,
    pub running: usize,
}

impl TrialQueue {
    pub fn new(alloc: Global) -> TrialQueue
        ensures waiting { result.waiting.items ≡ [] }
        ensures len { deque_len result.waiting ≡ 0 }
        ensures running { result.running ≡ 0 }
    {
        TrialQueue {
            waiting: VecDeque::new(alloc),
            running: 0,
        }
    }

    /// Makes room for one trial more to wait or to run.
    pub fn make_room(&mut self) -> Result<(), NoMemory>
        requires { HoldsRoom self.old 0 }
        ensures waiting { self.new.waiting.items ≡ self.old.waiting.items }
        ensures running { self.new.running ≡ self.old.running }
        ensures kept { HoldsRoom self.new 0 }
        ensures room { OnOk result (HoldsRoom self.new 1) }
    {
        self.waiting.reserve(self.running + 1)?;
        Ok(())
    }

    /// A trial waits from now on.
    pub fn push(&mut self, project: u32, ticket: u64)
        requires { HoldsRoom self.old 1 }
        ensures waiting { self.new.waiting.items ≡ self.old.waiting.items ++ (project, ticket) ∷ [] }
        ensures running { self.new.running ≡ self.old.running }
        ensures room { HoldsRoom self.new 0 }
    {
        self.waiting.push_back_reserved((project, ticket));
    }

    /// One trial more runs.
    pub fn begin(&mut self)
        requires { HoldsRoom self.old 1 }
        ensures waiting { self.new.waiting.items ≡ self.old.waiting.items }
        ensures running { self.new.running ≡ self.old.running + 1 }
        ensures room { HoldsRoom self.new 0 }
    {
        self.running += 1;
    }

    /// This number of trials no longer run, each of which leaves its room.
    pub fn end(&mut self, ended: usize)
        requires { ended ≤ self.old.running }
        ensures waiting { self.new.waiting.items ≡ self.old.waiting.items }
        ensures running { self.new.running + ended ≡ self.old.running }
        ensures room { HoldsRoom self.old 0 → HoldsRoom self.new ended }
    {
        self.running -= ended;
    }

    /// Follows the change of a project's desk whose next ticket is this, by which this number of running trials end.
    pub fn follow(&mut self, project: u32, next: u64, ended: usize, change: &DeskChange)
        requires room { HoldsRoom self.old 1 }
        requires ended { ended ≤ self.old.running }
        ensures waiting { self.new.waiting.items
            ≡ self.old.waiting.items ++ lined_up project next change.now }
        ensures running { self.new.running + ended ≡ self.old.running }
        ensures room { HoldsRoom self.new 0 }
    {
        self.running -= ended;
        if let DeskChange::Trial(_, _) = change {
            self.waiting.push_back_reserved((project, next));
        }
    }
}
