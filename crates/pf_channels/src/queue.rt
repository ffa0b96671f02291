//! What is on its way in one channel.

ghost use Rattle.std.specs.Prelude.{◌≡◌, [], ◌∷◌, Some, None, IfOk, IfSome, IfNone, OnOk, OnErr};
ghost use Rattle.pf_model.specs.Channels.{with_last};
ghost use Rattle.pf_model.specs.Signals.{signal_of};

use pf_errors::NoMemory;
use pf_model::Signal;
use std::alloc::Global;
use std::collections::VecDeque;
use std::marker::Model;
use std::mem;

/// The most signals for which a queue has room that is kept as a spare one.
const MOST_SPARE: usize = 64;

/// Signals, the oldest first: never none. They are in a block of their own, so that a queue moves as a pointer where
/// others come and go beside it.
#[derive(Drop)]
pub(crate) struct Queue {
    waiting: Box<QueuedSignals>,
}

/// The oldest signal, and those after it. One signal alone takes no further memory.
#[derive(Drop)]
struct QueuedSignals {
    first: Signal,
    rest: VecDeque<Signal>,
}

impl Model for Queue {
    ghost use Rattle.std.specs.Prelude.{map};
    ghost use Rattle.pf_model.specs.Channels.{Queue as Signals};
    ghost use Rattle.pf_model.specs.Signals.{signal_of};
    ghost use Rattle.pf_channels.specs.Encoding.{coded_queue};

    ghost Value = { Signals };

    ghost coded = { coded_queue };

    ghost view = { λ q. record {
      first = signal_of q.waiting.value.first;
      rest =
          map signal_of q.waiting.value.rest.items;
    } };
}

impl Queue {
    /// The queue of one signal. If there is a spare queue it is this one, which takes no memory then.
    pub(crate) fn new(
        alloc: Global,
        spare: &mut Option<Queue>,
        signal: Signal,
    ) -> Result<Queue, NoMemory>
        ensures { IfOk result (λ q. q ≡ with_last None (signal_of signal)) }
    {
        if let Some(mut queue) = spare.take() {
            queue.waiting.first = signal;
            queue.waiting.rest.clear();
            return Ok(queue);
        }
        let alone = QueuedSignals {
            first: signal,
            rest: VecDeque::new(alloc),
        };
        Ok(Queue {
            waiting: Box::new(alloc, alone)?,
        })
    }

    /// Adds a signal as the youngest.
    pub(crate) fn push(&mut self, signal: Signal) -> Result<(), NoMemory>
        ensures pushed { OnOk result (self.new ≡ with_last (Some self.old) (signal_of signal)) }
        ensures refused { OnErr result (self.new ≡ self.old) }
    {
        self.waiting.rest.push_back(signal)?;
        Ok(())
    }

    /// Takes the oldest signal, unless it is the only one.
    pub(crate) fn shift(&mut self) -> Option<Signal>
        ensures oldest { IfSome result (λ signal. self.old.first ≡ signal_of signal) }
        ensures left { IfSome result (λ _. self.old.rest ≡ self.new.first ∷ self.new.rest) }
        ensures only { IfNone result (self.old.rest ≡ []) }
        ensures stays { IfNone result (self.new ≡ self.old) }
    {
        let next = self.waiting.rest.pop_front()?;
        Some(mem::replace(&mut self.waiting.first, next))
    }

    /// The oldest signal, without those after it. The queue becomes the spare one, unless it has room for many.
    pub(crate) fn into_first(mut self, spare: &mut Option<Queue>) -> Signal
        ensures { signal_of result ≡ self.first }
    {
        let first = mem::replace(&mut self.waiting.first, Signal::Link);
        if self.waiting.rest.capacity() <= MOST_SPARE {
            *spare = Some(self);
        }
        first
    }
}
