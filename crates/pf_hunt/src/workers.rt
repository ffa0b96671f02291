//! Seeds that are shared out among workers, each in a thread of its own. Their result is that of one worker.

ghost use Rattle.std.specs.Prelude.{◌≤◌, ◌<◌, ℕ, IfOk};
ghost use denote.Param.Send.{IsSync};
ghost use Rattle.pf_hunt.specs.Known.{TalliesAll, FindsFailure};
ghost use Rattle.pf_hunt.specs.declared.seeded.Hunt.{Hunt};

use crate::failure::{Searched, first_in};
use crate::leak::earlier;
use crate::seeded::Hunt;
use crate::tallied::{Tallied, tally_in};
use pf_errors::NoMemory;
use std::alloc::Global;
use std::thread::{Threads, join};

/// Workers that share seeds out: the first of them, counted from 0, and how many they are.
#[derive(Drop, Clone, Copy)]
pub struct Team {
    pub first: u64,
    pub size: u64,
}

impl Team {
    ghost use Rattle.std.specs.Prelude.{◌<◌};

    /// The first half of a team, and the others.
    fn halves(self) -> (Team, Team)
        requires { 1 < self.size }
        ensures fewer { (result.0.size < self.size) × (result.1.size < self.size) }
    {
        let size = self.size / 2;
        let front = Team {
            first: self.first,
            size,
        };
        let back = Team {
            first: self.first.saturating_add(size),
            size: self.size - size,
        };
        (front, back)
    }
}

/// Where the part of the first of the workers ends.
fn edge(from: u64, end: u64, first: u64, workers: u64) -> u64
    requires order { from ≤ end }
    requires workers { 0 < workers }
    ensures { (from ≤ result) × (result ≤ end) }
{
    let count = end - from;
    let part = (count / workers).saturating_mul(first);
    from + part.min(count)
}

/// What is known of the seeds to before an end, by those of a first part and, where none of them fails, by those after
/// it.
fn both_parts(
    front: Searched,
    back: Result<Searched, NoMemory>,
    end: u64,
) -> Result<Searched, NoMemory>
    ensures { (h : Hunt) (a c : ℕ) → a ≤ c → c ≤ end → FindsFailure h a c front
        → IfOk back (FindsFailure h c end) → IfOk result (FindsFailure h a end) }
{
    let Searched { failure, leak, .. } = front;
    if failure.is_some() {
        return Ok(Searched { failure, leak, end });
    }
    let back = back?;
    Ok(Searched {
        failure: back.failure,
        leak: earlier(leak, back.leak),
        end,
    })
}

/// The least seed from a first to before an end whose run fails, by a team of workers.
#[cycle(first)]
pub fn first_of_block<R: Threads + Sync>(
    rt: &R,
    alloc: Global,
    hunt: &Hunt,
    from: u64,
    end: u64,
    team: Team,
) -> Result<Searched, NoMemory>
    ensures { IfOk result (FindsFailure hunt.now from end) }
{
    if team.size < 2 || end <= from {
        return first_in(alloc, hunt, team.first, from, end);
    }
    let (front_team, back_team) = team.halves();
    let middle = edge(from, end, front_team.size, team.size);
    let front_part = move || -> Result<Searched, NoMemory>
        requires { IsSync R.row }
        ensures { IfOk result (FindsFailure hunt.entry.now from middle) }
    { first_of_block(rt, alloc, hunt, from, middle, front_team) };
    let back_part = move || -> Result<Searched, NoMemory>
        requires { IsSync R.row }
        ensures { IfOk result (FindsFailure hunt.entry.now middle end) }
    { first_of_block(rt, alloc, hunt, middle, end, back_team) };
    let (front, back) = join(rt, front_part, back_part);
    both_parts(front?, back, end)
}

/// The rows of the runs by the seeds from a first to before an end, by a team of workers.
#[cycle(tallied)]
pub fn tally_of_block<R: Threads + Sync>(
    rt: &R,
    alloc: Global,
    hunt: &Hunt,
    from: u64,
    end: u64,
    team: Team,
) -> Result<Tallied, NoMemory>
    ensures { IfOk result (TalliesAll hunt.now from end) }
{
    if team.size < 2 || end <= from {
        return tally_in(alloc, hunt, team.first, from, end);
    }
    let (front_team, back_team) = team.halves();
    let middle = edge(from, end, front_team.size, team.size);
    let front_part = move || -> Result<Tallied, NoMemory>
        requires { IsSync R.row }
        ensures { IfOk result (TalliesAll hunt.entry.now from middle) }
    { tally_of_block(rt, alloc, hunt, from, middle, front_team) };
    let back_part = move || -> Result<Tallied, NoMemory>
        requires { IsSync R.row }
        ensures { IfOk result (TalliesAll hunt.entry.now middle end) }
    { tally_of_block(rt, alloc, hunt, middle, end, back_team) };
    let (front, back) = join(rt, front_part, back_part);
    let front = front?;
    let back = back?;
    let mut tally = front.tally;
    tally.join(back.tally)?;
    let leak = earlier(front.leak, back.leak);
    Ok(Tallied { tally, leak, end })
}
