//! What chooses where a process goes last.

ghost use Rattle.std.specs.Prelude.{◌≡◌, ◌+◌, ◌<◌, IfOk, length};
ghost use Rattle.rand_pcg.specs.Pcg.{pcg32};
ghost use Rattle.pf_choice.specs.Choices.{Chooses};
ghost use Rattle.pf_model.specs.Channels.{heads};
ghost use Rattle.pf_model.specs.Configuration.{Configuration};
ghost use Rattle.pf_model.specs.Runs.{ready};
ghost use Rattle.pf_system.specs.Steps.{IsNoteOf, noted_actors};
ghost use Rattle.pf_sched.specs.Traces.{ChoosesAmong, ChoosesLast, noted_by};

use crate::noted::NotedChoices;
use pf_choice::Choices;
use pf_errors::NoMemory;
use pf_strategy::{ChoicePoint, Others, Priorities};
use pf_system::Enabled;
use std::alloc::Global;

/// What chooses among any processes and channels.
#[derive(Drop)]
pub(crate) enum Sampler {
    /// Choices by how many there are.
    Choices(Choices),
    /// The priorities of each.
    Priorities(Priorities),
    /// Choices by how many there are, which are noted.
    Noted(NotedChoices),
}

/// Which of these the next word chooses, from 0 on, processes first.
fn next_among(choices: &mut Choices, pids: &[u32], channels: &[(u32, u32)]) -> usize
    requires { 0 < length pids.now + length channels.now }
    ensures chooses { Chooses pcg32 choices.old (length pids.now) (length channels.now) result choices.new }
    ensures one { result < length pids.now + length channels.now }
{
    choices.next_of(pids.len(), channels.len())
}

impl Sampler {
    /// Which of these is chosen, from 0 on, processes first. The allocation for one more priority, or for what is
    /// noted, may fail.
    fn choose(&mut self, pids: &[u32], channels: &[(u32, u32)]) -> Result<usize, NoMemory>
        requires { 0 < length pids.now + length channels.now }
        ensures chooses { IfOk result (λ i. ChoosesAmong self.old pids.now channels.now i self.new) }
        ensures one { IfOk result (λ i. i < length pids.now + length channels.now) }
    {
        match self {
            Sampler::Choices(choices) => Ok(next_among(choices, pids, channels)),
            Sampler::Priorities(priorities) => priorities.choose(pids, channels),
            Sampler::Noted(noted) => noted.choose(pids, channels),
        }
    }

    /// What is noted of its choices so far.
    fn take_points(&mut self, alloc: Global) -> Vec<ChoicePoint>
        ensures { result.items ≡ noted_by self.old }
    {
        match self {
            Sampler::Choices(_) | Sampler::Priorities(_) => Vec::new(alloc),
            Sampler::Noted(noted) => noted.take_points(alloc),
        }
    }
}

/// Which of these is chosen, from 0 on: one of the others, by a sampler, or where there are none one of all.
fn choose_last(
    others: &mut Others,
    by: &mut Sampler,
    pids: &[u32],
    channels: &[(u32, u32)],
) -> Result<usize, NoMemory>
    requires { 0 < length pids.now + length channels.now }
    ensures chooses { IfOk result (λ i. ChoosesLast others.old.last by.old pids.now channels.now i by.new) }
    ensures one { IfOk result (λ i. i < length pids.now + length channels.now) }
    ensures last { others.new.last ≡ others.old.last }
{
    others.gather(pids, channels)?;
    if !others.any() {
        return by.choose(pids, channels);
    }
    let number = by.choose(others.pids(), others.channels())?;
    Ok(others.place(number))
}

/// Chooses by a sampler among those who aren't the last process, and the last process only where nobody else may go.
#[derive(Drop)]
pub(crate) struct LastChooser {
    others: Others,
    by: Sampler,
    channels: Vec<(u32, u32)>,
}

impl LastChooser {
    /// Before its first choice.
    pub fn new(alloc: Global, last: u32, by: Sampler) -> LastChooser
        ensures last { result.others.last ≡ last }
        ensures by { result.by ≡ by }
    {
        LastChooser {
            others: Others::new(alloc, last),
            by,
            channels: Vec::new(alloc),
        }
    }

    /// Which of those who may go goes, from 0 on. The allocation for those among whom it chooses may fail.
    pub fn choose(&mut self, enabled: &Enabled<'_>) -> Result<usize, NoMemory>
        requires { 0 < length (noted_actors enabled.now) }
        ensures chooses { IfOk result (λ i. (c : Configuration) → IsNoteOf enabled.now c
            → ChoosesLast self.old.others.last self.old.by (ready c) (heads c.channels) i self.new.by) }
        ensures one { IfOk result (λ i. i < length (noted_actors enabled.now)) }
        ensures last { self.new.others.last ≡ self.old.others.last }
    {
        enabled.put_channels(&mut self.channels)?;
        choose_last(
            &mut self.others,
            &mut self.by,
            enabled.pids(),
            self.channels.as_slice(),
        )
    }
    /// What is noted of its choices so far.
    pub fn take_points(&mut self, alloc: Global) -> Vec<ChoicePoint>
        ensures { result.items ≡ noted_by self.old.by }
    {
        self.by.take_points(alloc)
    }
}
