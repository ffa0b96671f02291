//! Who may go.

ghost use Rattle.std.specs.Prelude.{◌≡◌, ◌^◌, ◌<◌, ◌≤◌, OnOk, length, slice_get, Some};
ghost use Rattle.pf_model.specs.Channels.{heads};
ghost use Rattle.pf_model.specs.declared.limits.TheConstants.{MOST_PROCESSES};
ghost use Rattle.pf_system.specs.Steps.{noted_actors};

use pf_channels::Channels;
use pf_errors::NoMemory;
use pf_model::report::Actor;
use pf_sorted::SortedSet;

/// The enabled actors: the processes that neither ended nor wait, by number, and then the channels that aren't empty,
/// by sender and then by receiver.
#[derive(Drop)]
pub struct Enabled<'a> {
    pub(crate) ready: &'a SortedSet,
    pub(crate) channels: &'a Channels,
}

impl Enabled<'_> {
    /// How many there are.
    pub fn len(&self) -> usize
        ensures count { result ≡ length (noted_actors self.now) }
        ensures few { length self.now.ready.now ≤ MOST_PROCESSES → result < 2 ^ 32 }
    {
        self.ready.as_slice().len() + self.channels.len()
    }

    /// How many processes are among them.
    pub fn processes(&self) -> usize
        ensures { result ≡ length self.now.ready.now }
    {
        let pids = self.ready.as_slice();
        pids.len()
    }

    /// The processes among them, by number.
    pub fn pids(&self) -> &[u32]
        ensures { result.now ≡ self.now.ready.now }
    {
        self.ready.as_slice()
    }

    /// How many channels are among them.
    pub fn channels(&self) -> usize
        ensures { result ≡ length (heads self.now.channels.now) }
    {
        let lines = self.channels;
        lines.len()
    }

    /// The k-th of them, counted from 0.
    pub fn actor(&self, k: usize) -> Actor
        requires { k < length (noted_actors self.now) }
        ensures { slice_get (noted_actors self.now) k ≡ Some result }
    {
        let ready = self.ready.as_slice();
        if k < ready.len() {
            return Actor::Process(ready[k]);
        }
        let (from, to) = self.channels.head(k - ready.len());
        Actor::Channel { from, to }
    }

    /// Puts the sender and the receiver of each channel that isn't empty, in their order, in place of other pairs.
    pub fn put_channels(&self, pairs: &mut Vec<(u32, u32)>) -> Result<(), NoMemory>
        ensures { OnOk result (pairs.new.items ≡ heads self.now.channels.now) }
    {
        self.channels.put_heads(pairs)
    }
}
