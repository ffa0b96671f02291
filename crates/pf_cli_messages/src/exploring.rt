//! The progress of an exploration, in a line of the terminal that standard error is, and how long it goes on.

ghost use Rattle.std.specs.Prelude.{◌≡◌};

use crate::progress::ProgressLine;
use pf_explore::Pace;
use std::fmt;
use std::time::{Clock, Duration, Instant};

/// How many runs an exploration made.
#[derive(Drop)]
struct RunsMade {
    runs: u64,
}

impl fmt::Display for RunsMade {
    fn fmt<W: fmt::Write>(&self, f: &mut fmt::Formatter<W>) -> fmt::Result {
        write!(f, "{} runs", self.runs)
    }
}

/// The least time, in milliseconds, for which what an exploration showed stays there.
const PAUSE: u128 = 100;

/// Who watches an exploration, and stops it after its time, if it has one.
#[derive(Drop)]
pub struct Exploring<'a, C> {
    line: &'a ProgressLine,
    clock: &'a C,
    /// For how many seconds it goes on at most, where that is asked for.
    limit: Option<u64>,
    /// When it began, if the clock can be read.
    start: Option<Instant>,
    /// How often it was asked.
    runs: u64,
    /// When it last showed its progress, counted from its start.
    reported: Duration,
}

impl<'a, C: Clock> Exploring<'a, C> {
    pub fn new(line: &'a ProgressLine, clock: &'a C, limit: Option<u64>) -> Exploring<'a, C>
        ensures { result.limit ≡ limit }
    {
        Exploring {
            line,
            clock,
            limit,
            start: Instant::now(clock).ok(),
            runs: 0,
            reported: Duration::ZERO,
        }
    }

    /// The time since its start, if the clock can be read.
    fn time(&self) -> Option<Duration> {
        self.start?.elapsed(self.clock).ok()
    }

    /// Shows its progress, unless it did so just now.
    fn notify(&mut self, now: Duration)
        ensures { self.new.limit ≡ self.old.limit }
    {
        if now.saturating_sub(self.reported).as_millis() < PAUSE {
            return;
        }
        self.reported = now;
        self.line.show(&RunsMade { runs: self.runs });
    }
}

impl<C: Clock> Pace for Exploring<'_, C> {
    ghost use Rattle.std.specs.Prelude.{is_some};

    ghost may_stop = { λ e. is_some e.limit };

    /// If the clock can't be read, an exploration for a time ends.
    fn goes_on(&mut self) -> bool {
        self.runs = self.runs.saturating_add(1);
        let time = self.time();
        if let Some(now) = time {
            self.notify(now);
        }
        match (self.limit, time) {
            (Some(limit), Some(now)) => now.as_secs() < limit,
            (Some(_), None) => false,
            (None, _) => true,
        }
    }
}
