//! What chooses who goes in a run.

ghost use Rattle.std.specs.Prelude.{◌≡◌, ◌<◌, IfOk, length};
ghost use Rattle.rand_pcg.specs.Pcg.{pcg32};
ghost use Rattle.pf_choice.specs.Choices.{Chooses};
ghost use Rattle.pf_model.specs.Channels.{heads};
ghost use Rattle.pf_model.specs.Configuration.{Configuration};
ghost use Rattle.pf_model.specs.Runs.{ready};
ghost use Rattle.pf_strategy.specs.Priorities.{first, state_of};
ghost use Rattle.pf_strategy.specs.Runs.{choose_by_priorities};
ghost use Rattle.pf_system.specs.Steps.{IsNoteOf, noted_actors};
ghost use Rattle.pf_sched.specs.Traces.{ChoosesFor, points_in};

use crate::last::LastChooser;
use pf_choice::Choices;
use pf_errors::NoMemory;
use pf_strategy::{ChoicePoint, Priorities};
use pf_system::Enabled;
use std::alloc::Global;

/// Priorities, and room for the channels among which they choose.
#[derive(Drop)]
pub(crate) struct ActorPriorities {
    priorities: Priorities,
    channels: Vec<(u32, u32)>,
}

impl ActorPriorities {
    /// Those of a seed.
    pub fn seed(alloc: Global, seed: u64) -> ActorPriorities
        ensures { state_of result.priorities ≡ first seed }
    {
        ActorPriorities {
            priorities: Priorities::seed(alloc, seed),
            channels: Vec::new(alloc),
        }
    }

    /// Which of those who may go has the highest, from 0 on. The allocation for one more priority may fail. It is not
    /// inlined, so that the loop of a run by choices has none of its code.
    #[inline(never)]
    fn choose(&mut self, enabled: &Enabled<'_>) -> Result<usize, NoMemory>
        requires { 0 < length (noted_actors enabled.now) }
        ensures chooses { IfOk result (λ i. (c : Configuration) → IsNoteOf enabled.now c
            → choose_by_priorities (state_of self.old.priorities) (ready c) (heads c.channels)
            ≡ (i, state_of self.new.priorities)) }
        ensures one { IfOk result (λ i. i < length (noted_actors enabled.now)) }
    {
        enabled.put_channels(&mut self.channels)?;
        self.priorities
            .choose(enabled.pids(), self.channels.as_slice())
    }
}

/// Which of those who may go the next word chooses, from 0 on. A word is drawn if there is but one, too.
fn next_choice(choices: &mut Choices, enabled: &Enabled<'_>) -> usize
    requires { 0 < length (noted_actors enabled.now) }
    ensures chooses { (c : Configuration) → IsNoteOf enabled.now c
        → Chooses pcg32 choices.old (length (ready c)) (length (heads c.channels)) result choices.new }
    ensures one { result < length (noted_actors enabled.now) }
{
    choices.next_of(enabled.processes(), enabled.channels())
}

/// What chooses who goes next.
#[derive(Drop)]
pub(crate) enum ActorChooser {
    /// Choices by how many processes and channels may go.
    Choices(Choices),
    /// The priorities of those who may go.
    Priorities(ActorPriorities),
    /// One of both, but for a process that goes last.
    Last(LastChooser),
}

impl ActorChooser {
    /// Which of those who may go goes, from 0 on.
    #[inline(always)]
    pub fn choose(&mut self, enabled: &Enabled<'_>) -> Result<usize, NoMemory>
        requires { 0 < length (noted_actors enabled.now) }
        ensures chooses { IfOk result (λ i. (c : Configuration) → IsNoteOf enabled.now c
            → ChoosesFor self.old c i self.new) }
        ensures one { IfOk result (λ i. i < length (noted_actors enabled.now)) }
    {
        match self {
            ActorChooser::Choices(choices) => Ok(next_choice(choices, enabled)),
            ActorChooser::Priorities(priorities) => priorities.choose(enabled),
            ActorChooser::Last(last) => last.choose(enabled),
        }
    }
    /// What is noted of its choices so far.
    pub fn take_points(&mut self, alloc: Global) -> Vec<ChoicePoint>
        ensures { result.items ≡ points_in self.old }
    {
        match self {
            ActorChooser::Choices(_) | ActorChooser::Priorities(_) => Vec::new(alloc),
            ActorChooser::Last(last) => last.take_points(alloc),
        }
    }
}
