//! The progress of a hunt or a shrinking, in a line of the terminal that standard error is.

ghost use Rattle.std.specs.Prelude.{◌≡◌, [], option_map};
ghost use Rattle.pf_cli_messages.specs.Notices.{HasHeard, waiting_by, waiting_view};

use crate::waiting::WaitingProcesses;
use pf_hunt::{HuntObserver, Leak, Pace};
use pf_sched::{Observer, ShrinkingProgress};
use std::cell::Cell;
use std::io::{IsTerminal, Stderr, Write};
use std::time::{Clock, Duration, Instant};
use std::{fmt, io};

/// A line of the terminal that standard error is, written over again and again; none if that is no terminal. Errors in
/// writing it are ignored.
#[derive(Drop)]
pub struct ProgressLine {
    terminal: Option<Stderr>,
    is_full: Cell<bool>,
}

impl ProgressLine {
    /// An empty line.
    pub fn new(stderr: Stderr) -> ProgressLine {
        let terminal = if stderr.is_terminal() {
            Some(stderr)
        } else {
            None
        };
        ProgressLine {
            terminal,
            is_full: Cell::new(false),
        }
    }

    /// Shows this in place of what it showed before.
    pub(crate) fn show(&self, reported: &impl fmt::Display) {
        let Some(terminal) = self.terminal else {
            return;
        };
        self.is_full.set(true);
        let _printed = eprint!(terminal; "\r{reported}\x1b[K");
    }

    /// Empties it.
    pub fn clear(&self) {
        let Some(terminal) = self.terminal else {
            return;
        };
        if self.is_full.replace(false) {
            let _printed = eprint!(terminal; "\r\x1b[K");
        }
    }
}

/// The progress of a shrinking of at most n runs.
#[derive(Drop)]
struct RunsDone {
    progress: ShrinkingProgress,
    most: u32,
}

impl fmt::Display for RunsDone {
    fn fmt<W: fmt::Write>(&self, f: &mut fmt::Formatter<W>) -> fmt::Result {
        let ShrinkingProgress { runs, length } = self.progress;
        write!(f, "{runs} of {} runs, {length} numbers", self.most)
    }
}

/// Who watches a shrinking of at most n runs.
#[derive(Drop)]
pub struct Runs<'a> {
    line: &'a ProgressLine,
    most: u32,
    /// The runs that it showed last.
    reported: Option<u32>,
}

impl<'a> Runs<'a> {
    pub fn new(line: &'a ProgressLine, most: u32) -> Runs<'a> {
        let reported = None;
        Runs {
            line,
            most,
            reported,
        }
    }
}

impl Observer for Runs<'_> {
    fn progress(&mut self, progress: ShrinkingProgress) {
        if self.reported != Some(progress.runs) {
            self.reported = Some(progress.runs);
            let most = self.most;
            self.line.show(&RunsDone { progress, most });
        }
    }
}

/// The progress of a hunt over n seeds, and in what time if that is known; and for how many seconds it goes on at most,
/// where that is asked for.
#[derive(Drop)]
struct SeedsDone {
    done: u64,
    seeds: u64,
    failures: u64,
    time: Option<Duration>,
    limit: Option<u64>,
}

impl SeedsDone {
    /// How many seeds it ran each second, and how many seconds are left, after so many milliseconds.
    fn pace(&self, milliseconds: u128) -> (u128, u128) {
        let (done, left) = (self.done, self.seeds.saturating_sub(self.done));
        let pace = u128::from(done).saturating_mul(1_000) / milliseconds.max(1);
        let rest = u128::from(left) / pace.max(1);
        let within = match self.limit {
            Some(limit) => u128::from(limit).saturating_sub(milliseconds / 1_000),
            None => rest,
        };
        (pace, rest.min(within))
    }
}

impl fmt::Display for SeedsDone {
    fn fmt<W: fmt::Write>(&self, f: &mut fmt::Formatter<W>) -> fmt::Result {
        write!(f, "{}", self.done)?;
        if self.limit.is_none() {
            write!(f, " of {}", self.seeds)?;
        }
        f.write_str(" seeds, ")?;
        if let Some(time) = self.time {
            let (pace, rest) = self.pace(time.as_millis());
            write!(f, "{pace} seeds/s, {rest} s left, ")?;
        }
        write!(f, "{} failures", self.failures)
    }
}

/// The least time, in milliseconds, for which what a hunt showed stays there.
const PAUSE: u128 = 100;

/// How many milliseconds a block of seeds takes at least before blocks grow no more.
const BLOCK: u128 = 50;

/// Who watches a hunt over n seeds.
#[derive(Drop)]
pub struct Seeds<'a, C> {
    line: &'a ProgressLine,
    clock: &'a C,
    seeds: u64,
    /// For how many seconds it goes on at most, where that is asked for.
    limit: Option<u64>,
    /// When it began, if the clock can be read.
    start: Option<Instant>,
    /// When it last showed its progress, counted from its start.
    reported: Option<Duration>,
    /// When its last block was over, counted from its start.
    over: Duration,
    /// The least seed whose root returned while processes still waited, once it is known.
    leak: Option<Leak>,
}

impl<'a, C: Clock> Seeds<'a, C> {
    pub fn new(line: &'a ProgressLine, clock: &'a C, seeds: u64, limit: Option<u64>) -> Seeds<'a, C>
        ensures { HasHeard result.leak [] }
    {
        Seeds {
            line,
            clock,
            seeds,
            limit,
            start: Instant::now(clock).ok(),
            reported: None,
            over: Duration::ZERO,
            leak: None,
        }
    }

    /// How many processes still wait although the root returned, if there are any.
    pub fn waiting(&self) -> Option<WaitingProcesses>
        ensures { option_map waiting_view result ≡ option_map waiting_by self.now.leak }
    {
        let Leak { seed, processes } = self.leak?;
        Some(WaitingProcesses {
            processes,
            seed: Some(seed),
        })
    }

    /// The time since its start, if the clock can be read.
    fn time(&self) -> Option<Duration> {
        self.start?.elapsed(self.clock).ok()
    }

    /// Shows its progress, unless it did so just now.
    fn notify(&mut self, time: Option<Duration>, done: u64, failures: u64)
        ensures { self.new.leak ≡ self.old.leak }
    {
        if let (Some(now), Some(reported)) = (time, self.reported) {
            if now.saturating_sub(reported).as_millis() < PAUSE {
                return;
            }
        }
        self.reported = time;
        let (seeds, limit) = (self.seeds, self.limit);
        self.line.show(&SeedsDone {
            done,
            seeds,
            failures,
            time,
            limit,
        });
    }

    /// How it goes on after this time. If the clock can't be read, a hunt for a time ends.
    fn pace(&mut self, time: Option<Duration>) -> Pace
        ensures { self.new.leak ≡ self.old.leak }
    {
        let Some(now) = time else {
            return if self.limit.is_some() {
                Pace::Stop
            } else {
                Pace::Longer
            };
        };
        if self.limit.is_some_and(|limit| now.as_secs() >= limit) {
            return Pace::Stop;
        }
        let took = now.saturating_sub(self.over).as_millis();
        self.over = now;
        if took < BLOCK {
            Pace::Longer
        } else {
            Pace::Same
        }
    }
}

impl<C: Clock> HuntObserver for Seeds<'_, C> {
    ghost use Rattle.pf_cli_messages.specs.Notices.{HasHeard};

    ghost Heard = { λ seeds notices. HasHeard seeds.leak notices };

    fn progress(&mut self, done: u64, failures: u64) -> Pace {
        let time = self.time();
        self.notify(time, done, failures);
        self.pace(time)
    }

    fn leak(&mut self, leak: Leak) {
        self.leak = Some(leak);
    }
}

/// A writer that empties the line before it writes.
#[derive(Drop)]
pub struct Clearing<'a, W> {
    pub line: &'a ProgressLine,
    pub inner: W,
}

impl<W: Write> Write for Clearing<'_, W> {
    ghost contents = { λ c. W.contents c.inner };

    fn write(&mut self, buf: &[u8]) -> io::Result<usize> {
        self.line.clear();
        self.inner.write(buf)
    }

    fn flush(&mut self) -> io::Result<()> {
        self.inner.flush()
    }
}
