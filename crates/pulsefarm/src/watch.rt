//! How far a farm came, on the terminal that standard error is, why a client's lines ended, and what its workers did.

ghost use Rattle.std.specs.Prelude.{◌≡◌, ◌<◌, ◌-◌, ◌⊎◌, IfNone, IfOk, IfSome, None, Some};
ghost use Rattle.std.specs.Prelude.{length, slice_get, vec_len};
ghost use Rattle.pf_sched.specs.Slices.{SimulatesSlice};

use pf_cli_messages::{client_line_reason, say};
use pf_clients::{FileEnd, Watch};
use pf_errors::NoMemory;
use pf_farm::{DueSlice, Gate, WorkTally};
use pf_sched::{Scratch, Slice, run_slice};
use pf_wire::RefusedLine;
use std::alloc::Global;
use std::fmt;
use std::io::{Error, IsTerminal, Stderr};
use std::sync::Wait;
use std::sync::atomic::{AtomicU64, Ordering};
use std::time::{Clock, Instant};

/// How many milliseconds what is shown stays at least.
const PAUSE: u64 = 100;

/// How many projects are shown.
const MOST_REPORTED: usize = 6;

/// How many trials of a project were ordered, and how many are done.
#[derive(Drop)]
struct Trials {
    ordered: AtomicU64,
    done: AtomicU64,
}

/// Who watches a farm.
#[derive(Drop)]
pub struct FarmWatch<'a, C> {
    clock: &'a C,
    alloc: Global,
    stderr: Stderr,
    is_shown: bool,
    /// The words that name the clients' files.
    names: &'a [&'a str],
    summary: bool,
    /// When it began, if the clock says.
    start: Option<Instant>,
    /// After how many milliseconds it showed progress last.
    reported: AtomicU64,
    /// By project, from the first on.
    trials: Vec<Trials>,
}

/// How far the trials of all projects are.
#[derive(Drop)]
struct ShownTrials<'a> {
    trials: &'a [Trials],
}

impl fmt::Display for ShownTrials<'_> {
    fn fmt<W: fmt::Write>(&self, f: &mut fmt::Formatter<W>) -> fmt::Result {
        f.write_str("trials done of ordered:")?;
        for (index, trials) in self.trials.iter().take(MOST_REPORTED).enumerate() {
            let done = trials.done.load(Ordering::SeqCst);
            // One may be done before its client has counted it.
            let ordered = trials.ordered.load(Ordering::SeqCst).max(done);
            write!(f, " p{} {done}/{ordered}", index.saturating_add(1))?;
        }
        if self.trials.len() > MOST_REPORTED {
            f.write_str(" ..")?;
        }
        Ok(())
    }
}

impl<'a, C: Clock> FarmWatch<'a, C> {
    /// Who watches the farm of the clients whose files these words name.
    pub fn new(
        clock: &'a C,
        alloc: Global,
        stderr: Stderr,
        names: &'a [&'a str],
        summary: bool,
    ) -> Result<FarmWatch<'a, C>, NoMemory>
        ensures { IfOk result (λ watch. vec_len watch.trials ≡ length names.now) }
    {
        let mut trials = Vec::new(alloc);
        for _project in 0..names.len() {
            trials.push(Trials {
                ordered: AtomicU64::new(0),
                done: AtomicU64::new(0),
            })?;
        }
        Ok(FarmWatch {
            clock,
            alloc,
            stderr,
            is_shown: stderr.is_terminal(),
            names,
            summary,
            start: Instant::now(clock).ok(),
            reported: AtomicU64::new(0),
            trials,
        })
    }

    /// The milliseconds since its start, if the clock says.
    fn milliseconds(&self) -> Option<u64>
        ensures { self.now.start ≡ None → result ≡ None }
    {
        let time = self.start?.elapsed(self.clock).ok()?;
        u64::try_from(time.as_millis()).ok()
    }

    /// The trials of a project, counted from 1.
    fn trials_of(&self, project: u32) -> Option<&Trials>
        ensures some { IfSome result (λ t. (0 < project)
            × (slice_get self.now.trials.items (project - 1) ≡ Some t.now)) }
        ensures none { IfNone result ((project ≡ 0) ⊎ (vec_len self.now.trials < project)) }
    {
        self.trials.get((project as usize).checked_sub(1)?)
    }

    /// The word that names a project's file.
    fn name_of(&self, project: u32) -> &str {
        let index = (project as usize).saturating_sub(1);
        match self.names.get(index) {
            Some(name) => name,
            None => "",
        }
    }

    /// Says on standard error why a project's lines ended.
    fn say_of(&self, project: u32, reason: Result<String, NoMemory>) {
        self.clear();
        let name = self.name_of(project);
        match reason.and_then(|reason| Ok(format!(in self.alloc; "{name}: {reason}")?)) {
            Ok(text) => say(&self.stderr, &text),
            Err(NoMemory) => say(&self.stderr, name),
        }
    }

    /// Why a project's line is refused.
    fn refusal(&self, project: u32, line: &RefusedLine) -> Result<String, NoMemory> {
        let number = line.number;
        let reason = client_line_reason(self.alloc, project, &line.text, line.is_whole)?;
        Ok(format!(in self.alloc;
            "command {number} is none: {reason}; those before it were answered, and nothing after it was read"
        )?)
    }

    /// Shows how far the trials are, unless it did just now.
    fn show(&self) {
        if !self.is_shown {
            return;
        }
        let Some(now) = self.milliseconds() else {
            return;
        };
        let reported = self.reported.load(Ordering::SeqCst);
        if now.saturating_sub(reported) < PAUSE {
            return;
        }
        self.reported.store(now, Ordering::SeqCst);
        let stderr = self.stderr;
        let shown = ShownTrials {
            trials: &self.trials,
        };
        let _printed = eprint!(stderr; "\r{shown}\x1b[K");
    }

    /// Empties the line.
    fn clear(&self) {
        if self.is_shown {
            let stderr = self.stderr;
            let _printed = eprint!(stderr; "\r\x1b[K");
        }
    }

    /// Prints how long it took, if a summary is asked for.
    pub fn end(&self) {
        if let (true, Some(time)) = (self.summary, self.milliseconds()) {
            let stderr = self.stderr;
            let _printed = eprintln!(stderr; "pulsefarm: {}.{:03} s", time / 1_000, time % 1_000);
        }
    }
}

impl<C: Clock> Watch for FarmWatch<'_, C> {
    fn ordered(&self, project: u32) {
        if let Some(trials) = self.trials_of(project) {
            trials.ordered.fetch_add(1, Ordering::SeqCst);
        }
        self.show();
    }

    fn ended(&self, project: u32, end: &FileEnd) {
        match end {
            FileEnd::NoCommand(line) => self.say_of(project, self.refusal(project, line)),
            FileEnd::Unread(error) => {
                self.say_of(
                    project,
                    format!(in self.alloc; "{error}").map_err(NoMemory::from),
                );
            }
            FileEnd::Unwritten(error) => {
                let reason = format!(in self.alloc; "its replies can't be written: {error}");
                self.say_of(project, reason.map_err(NoMemory::from));
            }
            FileEnd::Answered | FileEnd::NoMemory => {}
        }
    }

    fn not_begun(&self, reason: &Error) {
        match format!(in self.alloc; "{reason}") {
            Ok(text) => say(&self.stderr, &text),
            Err(_) => say(&self.stderr, "no farm can be run"),
        }
    }

    fn worked(&self, worker: usize, tally: WorkTally) {
        if worker == 0 {
            self.clear();
        }
        if self.summary {
            let WorkTally {
                claims,
                steals,
                parks,
                hand_backs,
            } = tally;
            let stderr = self.stderr;
            let _printed = eprintln!(stderr;
                "pulsefarm: worker {worker}: {claims} claims, {steals} steals, {parks} parks, {hand_backs} hand-backs"
            );
        }
    }
}

impl<C: Clock> Gate for FarmWatch<'_, C> {
    fn slice<R: Wait>(
        &self,
        alloc: Global,
        _rt: &R,
        due: DueSlice,
        scratch: &mut Scratch,
    ) -> Slice {
        let DueSlice {
            project,
            parked,
            turns,
            ..
        } = due;
        let slice = run_slice(alloc, parked, scratch, turns);
        if let Slice::Done(_) = &slice {
            if let Some(trials) = self.trials_of(project) {
                trials.done.fetch_add(1, Ordering::SeqCst);
            }
            self.show();
        }
        slice
    }
}
