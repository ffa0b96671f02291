//! The signals that are on their way, the oldest of each way first.

ghost use Rattle.std.specs.Prelude.{◌≡◌, ◌++◌, ◌∷◌, [], ℕ, OnOk, option_to_list};
ghost use Rattle.pf_chart.specs.Traffic.{KeepsOthers, waiting_signals};

use pf_errors::NoMemory;
use std::alloc::Global;
use std::collections::{BTreeMap, VecDeque};

/// From which column to which, and of which kind by its number.
pub(crate) type Way = (usize, usize, u8);

/// Signals by their numbers; each way has a queue.
#[derive(Drop)]
pub(crate) struct OnWay {
    alloc: Global,
    ways: BTreeMap<Way, VecDeque<usize>>,
}

impl OnWay {
    pub(crate) fn new(alloc: Global) -> OnWay
        ensures { (way : ℕ × ℕ × ℕ) → waiting_signals result way ≡ [] }
    {
        OnWay {
            alloc,
            ways: BTreeMap::new(alloc),
        }
    }

    /// The first signal of a way is sent.
    fn open(&mut self, way: Way, signal: usize) -> Result<(), NoMemory>
        ensures only { OnOk result (waiting_signals self.new way ≡ signal ∷ []) }
        ensures others { OnOk result (KeepsOthers way self.old self.new) }
    {
        let mut queue = VecDeque::new(self.alloc);
        queue.push_back(signal)?;
        self.ways.insert(way, queue)?;
        Ok(())
    }

    /// A signal is sent, after those of its way.
    pub(crate) fn put(&mut self, way: Way, signal: usize) -> Result<(), NoMemory>
        ensures last { OnOk result (waiting_signals self.new way ≡ waiting_signals self.old way ++ signal ∷ []) }
        ensures others { OnOk result (KeepsOthers way self.old self.new) }
    {
        match self.ways.get_mut(&way) {
            Some(queue) => {
                queue.push_back(signal)?;
                Ok(())
            }
            None => self.open(way, signal),
        }
    }

    /// The oldest signal of a way, if one waits, which goes.
    pub(crate) fn take(&mut self, way: Way) -> Option<usize>
        ensures first { waiting_signals self.old way ≡ option_to_list result ++ waiting_signals self.new way }
        ensures others { KeepsOthers way self.old self.new }
    {
        match self.ways.get_mut(&way) {
            Some(queue) => queue.pop_front(),
            None => None,
        }
    }
}
