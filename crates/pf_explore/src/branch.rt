//! Which schedule comes after a run: the one that leaves the run as late as it can.

ghost use Rattle.std.specs.Prelude.{◌≡◌, ◌-◌, ◌==◌, zero, IfOk, if◌then◌else◌, map};
ghost use Rattle.pf_explore.specs.Branching.{IsNext, deviating, none_seen, seen, seen_all};

use pf_errors::NoMemory;
use pf_model::report::Event;
use pf_strategy::ChoicePoint;
use std::alloc::Global;

/// What is seen of the choices of a run up to one of them: how many deviations are left there, the last one in whose
/// place a later one may be made, by its index and that choice, and whether one may be made for which none was left.
#[derive(Clone, Copy)]
pub(crate) struct Seen {
    pub room: u32,
    pub branch: Option<(usize, u32)>,
    pub left_out: bool,
}

/// The schedule that comes after a run, if there is one, and whether a schedule was left out that deviates too often.
#[derive(Drop)]
pub(crate) struct Next {
    pub schedule: Option<Vec<u32>>,
    pub left_out: bool,
}

/// How many deviations are left after this choice.
fn room_after(room: u32, choice: u32) -> u32
    ensures { result ≡ (if choice == 0 then room else room - 1) }
{
    if choice == 0 {
        room
    } else {
        room.saturating_sub(1)
    }
}

impl Seen {
    /// No choice, with so many deviations left.
    fn none(room: u32) -> Seen
        ensures { result ≡ none_seen room }
    {
        Seen {
            room,
            branch: None,
            left_out: false,
        }
    }

    /// One choice more, of this index.
    fn see(self, index: usize, point: &ChoicePoint) -> Seen
        ensures { result ≡ seen self index point.now }
    {
        let (choice, count) = (point.choice, point.count);
        let room = room_after(self.room, choice);
        if choice >= count.saturating_sub(1) {
            return Seen { room, ..self };
        }
        if self.room == 0 {
            return Seen {
                room,
                branch: self.branch,
                left_out: true,
            };
        }
        Seen {
            room,
            branch: Some((index, choice + 1)),
            left_out: self.left_out,
        }
    }
}

/// What is seen of all choices of a run.
fn see_all(points: &[ChoicePoint], most: u32) -> Seen
    ensures { result ≡ seen_all (none_seen most) zero points.now }
{
    let mut so_far = Seen::none(most);
    for (index, point) in points.iter().enumerate() {
        so_far = so_far.see(index, point);
    }
    so_far
}

/// The choices of events: by them as a schedule a run goes so again.
pub fn choices_of(alloc: Global, events: &[Event]) -> Result<Vec<u32>, NoMemory>
    ensures { IfOk result (λ numbers. numbers.items ≡ map (λ e. e.choice) events.now) }
{
    let mut numbers = Vec::with_capacity(alloc, events.len())?;
    for event in events {
        numbers.push(event.choice)?;
    }
    Ok(numbers)
}

/// The choices, without among how many they are made.
fn numbers_of(alloc: Global, points: &[ChoicePoint]) -> Result<Vec<u32>, NoMemory>
    ensures { IfOk result (λ numbers. numbers.items ≡ map (λ e. e.choice) points.now) }
{
    let mut numbers = Vec::with_capacity(alloc, points.len())?;
    for point in points {
        numbers.push(point.choice)?;
    }
    Ok(numbers)
}

/// The choices before one, and then this one.
fn deviating(
    alloc: Global,
    points: &[ChoicePoint],
    index: usize,
    choice: u32,
) -> Result<Vec<u32>, NoMemory>
    ensures { IfOk result (λ numbers. numbers.items ≡ deviating points.now index choice) }
{
    let mut numbers = numbers_of(alloc, points)?;
    numbers.truncate(index);
    numbers.push(choice)?;
    Ok(numbers)
}

/// The schedule that comes after a run among those that deviate at most so often.
pub(crate) fn next_of(alloc: Global, points: &[ChoicePoint], most: u32) -> Result<Next, NoMemory>
    ensures { IfOk result (IsNext most points.now) }
{
    let seen = see_all(points, most);
    let schedule = match seen.branch {
        Some((index, choice)) => Some(deviating(alloc, points, index, choice)?),
        None => None,
    };
    Ok(Next {
        schedule,
        left_out: seen.left_out,
    })
}
