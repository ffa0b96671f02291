//! Choices that are noted.

ghost use Rattle.std.specs.Prelude.{◌≡◌, ◌+◌, ◌<◌, [], IfOk, length};
ghost use Rattle.pf_strategy.specs.Noted.{point};
ghost use Rattle.pf_sched.specs.Traces.{NotesChoice};

use pf_choice::Choices;
use pf_errors::NoMemory;
use pf_strategy::ChoicePoint;
use std::alloc::Global;
use std::mem;

/// Choices by how many processes and channels there are, and which of how many each one was so far.
#[derive(Drop)]
pub(crate) struct NotedChoices {
    choices: Choices,
    points: Vec<ChoicePoint>,
}

/// A choice among so many processes and channels. There are too many for memory, if a word can't count them.
fn point_of(index: usize, pids: usize, channels: usize) -> Result<ChoicePoint, NoMemory>
    requires { index < pids + channels }
    ensures { IfOk result (λ p. p ≡ point index (pids + channels)) }
{
    let count = pids as u128 + channels as u128;
    if count > u128::from(u32::MAX) {
        return Err(NoMemory);
    }
    Ok(ChoicePoint {
        choice: index as u32,
        count: count as u32,
    })
}

impl NotedChoices {
    /// Before the first choice.
    pub fn new(alloc: Global, choices: Choices) -> NotedChoices
        ensures choices { result.choices ≡ choices }
        ensures none { result.points.items ≡ [] }
    {
        NotedChoices {
            choices,
            points: Vec::new(alloc),
        }
    }

    /// Which of these the next word chooses, from 0 on, processes first. The allocation for what is noted may fail.
    pub fn choose(&mut self, pids: &[u32], channels: &[(u32, u32)]) -> Result<usize, NoMemory>
        requires { 0 < length pids.now + length channels.now }
        ensures notes { IfOk result (λ i. NotesChoice self.old (length pids.now) (length channels.now) i self.new) }
        ensures one { IfOk result (λ i. i < length pids.now + length channels.now) }
    {
        let index = self.choices.next_of(pids.len(), channels.len());
        self.points
            .push(point_of(index, pids.len(), channels.len())?)?;
        Ok(index)
    }

    /// What is noted of the choices so far, which none is noted of afterwards.
    pub fn take_points(&mut self, alloc: Global) -> Vec<ChoicePoint>
        ensures { result.items ≡ self.old.points.items }
    {
        mem::replace(&mut self.points, Vec::new(alloc))
    }
}
