//! The runs that a worker parked.

ghost use Rattle.std.specs.Prelude.{◌≡◌, [], length, nat_lt};
ghost use Rattle.pf_world.specs.Chores.{MOST_PARKED};
ghost use Rattle.pf_pool.specs.Deques.{Parks, TakesOldest};

use crate::claimed_run::ClaimedRun;
use pf_errors::NoMemory;
use std::alloc::Global;
use std::collections::VecDeque;
use std::marker::Model;

/// How many runs a deque has room for.
const MOST_PARKED: usize = 64;

/// The runs that a worker parked, the oldest first.
#[derive(Drop)]
pub(crate) struct Deque {
    runs: VecDeque<ClaimedRun>,
}

impl Model for Deque {
    ghost use Rattle.pf_world.specs.World as world;
    ghost use Rattle.pf_world.specs.Encoding.{coded_deque};

    ghost Value = { world.Deque };

    ghost coded = { coded_deque };

    ghost view = { λ d. d.runs.items };
}

impl Deque {
    /// No run.
    pub fn new(alloc: Global) -> Deque
        ensures { result ≡ [] }
    {
        Deque {
            runs: VecDeque::new(alloc),
        }
    }

    /// Whether another run may be parked.
    pub fn has_room(&self) -> bool
        ensures { result ≡ nat_lt (length self.now) MOST_PARKED }
    {
        self.runs.len() < MOST_PARKED
    }

    /// Puts the run of a hand, if it holds one, after all others, and empties the hand. After running out of memory
    /// both are as they were.
    pub fn park(&mut self, hand: &mut Option<ClaimedRun>) -> Result<(), NoMemory>
        ensures { Parks self.old hand.old result self.new hand.new }
    {
        self.runs.reserve(1)?;
        if let Some(run) = hand.take() {
            self.runs.push_back_reserved(run);
        }
        Ok(())
    }

    /// Takes the oldest run, if it is that of the trial of a project's ticket.
    pub fn take_oldest(&mut self, project: u32, ticket: u64) -> Option<ClaimedRun>
        ensures { TakesOldest project ticket self.old result self.new }
    {
        match self.runs.front() {
            Some(run) if run.is_of(project, ticket) => self.runs.pop_front(),
            _ => None,
        }
    }
}
