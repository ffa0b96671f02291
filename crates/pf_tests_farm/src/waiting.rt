//! Marks that one thread sets and another waits for, up to some number of turns.

use crate::missed::Missed;
use std::sync::atomic::{AtomicU64, Ordering};
use std::thread;

/// How many turns a wait has at most.
const MOST_TURNS: u64 = 100_000_000;

/// How many turns of a rest have one yield.
const TURNS_A_YIELD: u64 = 100;

/// A mark.
#[derive(Drop)]
pub struct GateMark {
    count: AtomicU64,
}

impl GateMark {
    pub fn new() -> GateMark {
        GateMark {
            count: AtomicU64::new(0),
        }
    }

    /// Sets it once more; how often it was set before.
    pub fn set(&self) -> u64 {
        self.count.fetch_add(1, Ordering::SeqCst)
    }

    /// How often it was set.
    pub fn count(&self) -> u64 {
        self.count.load(Ordering::SeqCst)
    }

    /// Waits until it was set so often; whether it was.
    pub fn wait(&self, times: u64) -> bool {
        for _ in 0..MOST_TURNS {
            if self.count() >= times {
                return true;
            }
            thread::yield_now();
        }
        false
    }

    /// Waits at the gate until it was set. A slice goes on all the same where that lasts too long, so the wait is noted
    /// as late.
    pub fn hold(&self, late: &GateMark) {
        if !self.wait(1) {
            late.set();
        }
    }

    /// Waits until it was set, where it has to be.
    pub fn wait_for(&self, what: &'static str) -> Result<(), Missed> {
        if self.wait(1) {
            Ok(())
        } else {
            Err(Missed::that(what))
        }
    }
}

/// Lets other threads go on for so many turns. Where the processor has other work, a yield takes milliseconds, so few
/// of the turns yield.
pub fn rest(turns: u32) {
    let turn = GateMark::new();
    for _ in 0..turns {
        if turn.set() % TURNS_A_YIELD == 0 {
            thread::yield_now();
        }
    }
}
