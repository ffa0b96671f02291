//! How far a hunt got, for whoever observes it.

ghost use Rattle.std.specs.Prelude.{List, [], ◌∷◌};
ghost use Rattle.pf_hunt.specs.Notices.{Hears, Notice, leaked, seeds_run};

use crate::leak::Leak;
use crate::pace::Pace;

/// Receives the progress of a hunt, and answers how it goes on; and receives a leak. None of this makes a difference to
/// the results of the seeds.
pub trait HuntObserver {
    /// It received these notices, in their order, and answered as they say.
    ghost Heard: { Self → List Notice → Type 0 } = { λ _ _. Unit {0} };

    /// The runs of `done` seeds are over, and `failures` of them failed.
    fn progress(&mut self, done: u64, failures: u64) -> Pace
        ensures { Hears Heard self.old (seeds_run done failures result ∷ []) self.new };

    /// Of the seeds that were looked at this is the least whose root returned while processes still waited. It is
    /// reported once, at the end.
    fn leak(&mut self, leak: Leak)
        ensures { Hears Heard self.old (leaked leak.seed leak.processes ∷ []) self.new };
}
