//! How a hunt of a root ended.

use pf_errors::Code;
use pf_verdicts::FailureCause;
use std::fmt;

/// How the hunt of a root ended. It prints as it appears in the root's line.
#[derive(Clone, Copy, Debug, PartialEq, Eq)]
pub enum RootEnd {
    /// This is the least seed whose run fails, and why it does.
    Fails { seed: u64, cause: FailureCause },
    /// No run of so many seeds fails.
    NoFailure { seeds: u64 },
    /// Its time was over after so many seeds, and no run of these fails. If they are few, it was cut short.
    Stopped { seeds: u64 },
    /// What is asked for of it is refused.
    Refused(Code),
}

impl fmt::Display for RootEnd {
    ghost use Rattle.std.specs.Prelude.{Some};
    ghost use Rattle.pf_hunt_suite.specs.Lines.{root_end_text};

    ghost output = { λ e. Some (root_end_text e) };

    fn fmt<W: fmt::Write>(&self, f: &mut fmt::Formatter<W>) -> fmt::Result {
        match self {
            RootEnd::Fails { seed, .. } => write!(f, "seed {seed} fails"),
            RootEnd::NoFailure { seeds } => write!(f, "no failure in {seeds} seeds"),
            RootEnd::Stopped { seeds } if *seeds < 100 => {
                write!(f, "cut short after {seeds} seeds, no failure")
            }
            RootEnd::Stopped { seeds } => write!(f, "stopped after {seeds} seeds, no failure"),
            RootEnd::Refused(code) => write!(f, "{code}"),
        }
    }
}

/// What is counted of a hunt over several sources.
#[derive(Clone, Copy, Debug, PartialEq, Eq)]
pub enum SuiteCounts {
    /// A source can't be read, or is refused.
    Lost,
    /// A root was hunted.
    Root(RootEnd),
}
