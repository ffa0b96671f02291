//! What one process has on its way to others.

ghost use Rattle.std.specs.Prelude.{◌≡◌, ◌+◌, ◌<◌, ◌≤◌, ◌++◌, length, map, [], Some, None, slice_get, IfSome, IfNone};
ghost use Rattle.std.specs.Prelude.{OnOk, OnErr};
ghost use Rattle.pf_model.specs.Channels.{heads_of, with_last};
ghost use Rattle.pf_sorted.specs.Maps.{got, put};
ghost use Rattle.pf_model.specs.Signals.{signal_of};
ghost use Rattle.pf_channels.specs.Rows.{taken_in};

use crate::queue::Queue;
use pf_errors::NoMemory;
use pf_model::Signal;
use pf_sorted::SortedMap;
use std::alloc::Global;
use std::marker::Model;

/// The queues of one sender, by rising receiver; and a queue that was emptied, for the next, whose signals are none of
/// the row's.
#[derive(Drop)]
pub(crate) struct SenderRow {
    queues: SortedMap<Queue>,
    spare: Option<Queue>,
}

impl Model for SenderRow {
    ghost use Rattle.pf_model.specs.Channels.{SenderRow as Queues};
    ghost use Rattle.pf_channels.specs.Encoding.{coded_row};
    ghost use Rattle.pf_channels.specs.Rows.{AreReceivers};

    ghost Value = { Queues };

    ghost coded = { coded_row };

    ghost view = { λ r. r.queues };

    ghost invariant = { λ r. AreReceivers r.queues };
}

impl SenderRow {
    /// The row of a sender that has nothing on its way.
    pub(crate) fn new(alloc: Global) -> SenderRow
        ensures { result ≡ [] }
    {
        SenderRow {
            queues: SortedMap::new(alloc),
            spare: None,
        }
    }

    /// To how many receivers something is on its way.
    pub(crate) fn len(&self) -> usize
        ensures count { result ≡ length self.now }
    {
        self.queues.len()
    }

    /// The receiver of the queue at this index.
    pub(crate) fn receiver(&self, at: usize) -> u32
        requires { at < length self.now }
        ensures { slice_get (map (λ queue. queue.0) self.now) at ≡ Some result }
    {
        self.queues.as_slice()[at].0 as u32
    }

    /// Puts the sender with each of its receivers after other pairs.
    pub(crate) fn put_heads(&self, from: u32, pairs: &mut Vec<(u32, u32)>) -> Result<(), NoMemory>
        ensures { OnOk result (pairs.new.items ≡ pairs.old.items ++ heads_of from self.now) }
    {
        for at in 0..self.len() {
            pairs.push((from, self.receiver(at)))?;
        }
        Ok(())
    }

    /// Adds a signal as the youngest to a receiver.
    pub(crate) fn send(&mut self, alloc: Global, to: u32, signal: Signal) -> Result<(), NoMemory>
        ensures sent { OnOk result
            (self.new ≡ put to (with_last (got to self.old) (signal_of signal)) self.old) }
        ensures refused { OnErr result (self.new ≡ self.old) }
        ensures count { OnOk result (length self.old ≤ length self.new) }
        ensures one { OnOk result (length self.new ≤ length self.old + 1) }
    {
        let key = u64::from(to);
        match self.queues.index_of(key) {
            Ok(at) => self.queues.value_mut(at).push(signal),
            Err(at) => {
                let queue = Queue::new(alloc, &mut self.spare, signal)?;
                self.queues.insert_at(at, key, queue)
            }
        }
    }

    /// Takes the oldest signal to a receiver.
    pub(crate) fn take(&mut self, to: u32) -> Option<Signal>
        ensures taken { IfSome result
            (λ signal. taken_in to self.old (got to self.old) ≡ Some (signal_of signal, self.new)) }
        ensures nothing { IfNone result (taken_in to self.old (got to self.old) ≡ None) }
        ensures stays { IfNone result (self.new ≡ self.old) }
        ensures count { length self.new ≤ length self.old }
    {
        let Ok(at) = self.queues.index_of(u64::from(to)) else {
            return None;
        };
        match self.queues.value_mut(at).shift() {
            Some(signal) => Some(signal),
            None => Some(self.queues.remove_at(at).1.into_first(&mut self.spare)),
        }
    }
}
