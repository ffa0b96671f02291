//! One round of a search: a schedule that fails, and those of its candidates that are left. The candidates
//! are made one from another, in the place of the schedule.

ghost use Rattle.std.specs.Prelude.{◌≡◌, ◌<◌, ◌≤◌, [], length, drop, option_map};
ghost use Rattle.pf_shrink.specs.Rounds.{round_begun, round_passed, round_taken, given_up, first_schedule};
ghost use Rattle.pf_shrink.specs.Rounds.{from_position};
ghost use Rattle.pf_shrink.specs.Kept.{schedule_in, candidates_left, IsPositionOf, round_kept};
ghost use Rattle.pf_model.specs.Shrinking.{halved};

use std::marker::Model;

/// Which candidate is next, and by what the numbers that are kept differ from the schedule.
#[derive(Clone, Copy)]
enum Position {
    /// By nothing. Next is the schedule without its last number.
    WithoutLast,
    /// The number of this position is at the end. Next are the numbers before it.
    Without(usize),
    /// The number of this position is halved, and was this one. Next are the numbers as they are kept.
    Halved(usize, u32),
    /// By nothing. No candidate is left.
    End,
}

/// One round of a search.
#[derive(Drop)]
pub(crate) struct Round {
    numbers: Vec<u32>,
    position: Position,
}

impl Model for Round {
    ghost use Rattle.pf_shrink.specs.Rounds.{Round};

    ghost Value = { Round };

    ghost use Rattle.pf_shrink.specs.Kept.{round_kept, IsPositionOf};

    ghost view = { λ r. round_kept r.numbers.items r.position };

    ghost invariant = { λ r. IsPositionOf r.numbers.items r.position };
}

impl Round {
    /// The round of this schedule before it has begun: no candidate is left.
    pub(crate) fn new(schedule: Vec<u32>) -> Round
        ensures { result ≡ record { schedule = schedule.items; left = [] } }
    {
        Round {
            numbers: schedule,
            position: Position::End,
        }
    }

    /// The schedule, where no candidate of it is left.
    pub(crate) fn schedule(&self) -> &[u32]
        requires { self.now.left ≡ [] }
        ensures { result.now ≡ self.now.schedule }
    {
        &self.numbers
    }

    /// The next candidate.
    pub(crate) fn next(&self) -> Option<&[u32]>
        ensures { option_map (λ s. s.now) result ≡ first_schedule self.now.left }
    {
        match self.position {
            Position::WithoutLast | Position::Without(_) => Some(
                &self.numbers[..self.numbers.len() - 1],
            ),
            Position::Halved(_, _) => Some(&self.numbers),
            Position::End => None,
        }
    }

    /// Passes over the next candidate.
    pub(crate) fn pass(&mut self)
        ensures { self.new ≡ round_passed self.old }
    {
        self.position = following(&mut self.numbers, self.position);
    }

    /// Takes the next candidate as the schedule, or the schedule itself where none is left. All its
    /// candidates are left then.
    pub(crate) fn take(&mut self)
        ensures { self.new ≡ round_taken self.old }
    {
        match self.position {
            Position::WithoutLast | Position::Without(_) => {
                self.numbers.pop();
            }
            Position::Halved(_, _) | Position::End => {}
        }
        self.position = first_position(&self.numbers);
    }

    /// Leaves no candidate to come.
    pub(crate) fn give_up(&mut self)
        ensures { self.new ≡ given_up self.old }
    {
        restore(&mut self.numbers, self.position);
        self.position = Position::End;
    }
}

// The position of the first candidate of a schedule.
fn first_position(schedule: &[u32]) -> Position
    ensures kept { IsPositionOf schedule.now result }
    ensures begun { round_kept schedule.now result ≡ round_begun schedule.now }
{
    if schedule.is_empty() {
        Position::End
    } else {
        Position::WithoutLast
    }
}

// Makes the next candidate from that of this position.
fn following(numbers: &mut [u32], position: Position) -> Position
    requires { IsPositionOf numbers.old position }
    ensures kept { IsPositionOf numbers.new result }
    ensures passed { round_kept numbers.new result ≡ round_passed (round_kept numbers.old position) }
{
    match position {
        Position::WithoutLast if numbers.len() > 1 => {
            numbers.rotate_left(1);
            Position::Without(0)
        }
        Position::WithoutLast => halved_from(numbers, 0),
        Position::Without(at) => {
            let last = numbers.len() - 1;
            numbers.swap(at, last);
            if at + 1 < last {
                Position::Without(at + 1)
            } else {
                halved_from(numbers, 0)
            }
        }
        Position::Halved(at, number) => {
            numbers[at] = number;
            halved_from(numbers, at + 1)
        }
        Position::End => Position::End,
    }
}

// Halves the first number above 0 at or after this position of a schedule.
fn halved_from(numbers: &mut [u32], start: usize) -> Position
    requires { start ≤ length numbers.old }
    ensures kept { IsPositionOf numbers.new result }
    ensures schedule { schedule_in numbers.new result ≡ numbers.old }
    ensures left { candidates_left numbers.new result ≡ from_position halved start numbers.old }
{
    for at in start..numbers.len() {
        let number = numbers[at];
        if number > 0 {
            numbers[at] = number / 2;
            return Position::Halved(at, number);
        }
    }
    Position::End
}

// Makes the schedule again from the candidate of this position.
fn restore(numbers: &mut [u32], position: Position)
    requires { IsPositionOf numbers.old position }
    ensures { numbers.new ≡ schedule_in numbers.old position }
{
    match position {
        Position::Without(at) => numbers[at..].rotate_right(1),
        Position::Halved(at, number) => numbers[at] = number,
        Position::WithoutLast | Position::End => {}
    }
}
