//! Workers and clients begin together, or not at all.

use std::sync::{Condvar, Mutex, Wait};
use std::time::{Clock, Duration};

/// How many seconds the clients wait for the workers' thread.
const MOST_SECONDS: u64 = 10;

/// How far the start is.
#[derive(Clone, Copy, PartialEq, Eq)]
enum StartStage {
    /// The workers' thread hasn't begun.
    Awaited,
    Begun,
    /// The clients don't wait for it any more.
    GivenUp,
}

/// The start of a farm. Where the system starts no thread, two that ought to work side by side do so one after the
/// other, and each would wait for the other for ever: so the clients wait for the workers only for a time, and then
/// neither works.
#[derive(Drop)]
pub(crate) struct FarmStart {
    stage: Mutex<StartStage>,
    changed: Condvar,
}

impl FarmStart {
    pub(crate) fn new() -> FarmStart {
        FarmStart {
            stage: Mutex::new(StartStage::Awaited),
            changed: Condvar::new(),
        }
    }

    /// The workers begin, unless the clients have stopped early; whether they do.
    pub(crate) fn begin<T: Wait>(&self, rt: &T) -> bool {
        let mut stage = self.stage.lock(rt);
        if *stage == StartStage::GivenUp {
            return false;
        }
        *stage = StartStage::Begun;
        self.changed.notify_all();
        true
    }

    /// Waits until the workers have begun, but not for ever; whether they have.
    pub(crate) fn wait<T: Wait + Clock>(&self, rt: &T) -> bool {
        let longest = Duration::from_secs(MOST_SECONDS);
        let stage = self.stage.lock(rt);
        let (mut stage, _) = self
            .changed
            .wait_timeout_while(rt, stage, longest, |stage| *stage == StartStage::Awaited);
        if *stage == StartStage::Awaited {
            *stage = StartStage::GivenUp;
        }
        *stage == StartStage::Begun
    }
}
