//! What the program does with words.

ghost use Rattle.std.specs.Prelude.{◌≡◌, ◌≢◌, IfOk, IfSome, Some, map, option_map};
ghost use Rattle.pf_cli.specs.Args.{reading_of, status_of_kind, text_answered, view_of_reading};
ghost use Rattle.pf_cli.specs.Faults.{text_in};

use crate::args::CliCommand;
use crate::parse::{read_by, status_of_kind};
use clap::error::ErrorKind;
use pf_errors::NoMemory;
use std::alloc::Global;
use std::fmt::Display;

/// How words are read.
#[derive(Drop)]
pub enum ReadWords<'a> {
    /// They ask for this.
    Asked(CliCommand<'a>),
    /// They ask for work by the schedule in this file, `--schedule @FILE`: its text is read, and then the words once
    /// more with it.
    ScheduleIn(&'a str),
    /// They ask for no work: this text is printed, on the standard error where it reports a fault, and the program ends
    /// with this status.
    Text {
        text: String,
        status: u8,
        is_fault: bool,
    },
}

/// The text of words that ask for no work: what their error of this kind prints.
fn reported<'a, E: Display>(
    alloc: Global,
    kind: ErrorKind,
    error: &E,
) -> Result<ReadWords<'a>, NoMemory>
    ensures reported { IfOk result (λ r. view_of_reading r ≡ text_answered (status_of_kind kind)) }
    ensures text { IfOk result (λ r. IfSome (E.output error.now) (λ printed. text_in r ≡ Some printed)) }
    ensures memory { IfOk result (λ r. kind ≢ ErrorKind.OutOfMemory) }
{
    if matches!(kind, ErrorKind::OutOfMemory) {
        return Err(NoMemory);
    }
    let status = status_of_kind(kind);
    match format!(in alloc; "{error}") {
        Ok(text) => Ok(ReadWords::Text {
            text,
            status,
            is_fault: status != 0,
        }),
        Err(_) => Err(NoMemory),
    }
}

/// How the words are read, the first of which names the program. Where they name a file for their schedule, `schedule`
/// is the text that is in it, once that is read.
pub fn read<'a>(
    alloc: Global,
    words: &'a [&'a str],
    schedule: Option<&str>,
) -> Result<ReadWords<'a>, NoMemory>
    ensures { IfOk result (λ r. view_of_reading r
        ≡ reading_of (option_map (λ s. s.now) schedule.entry) (map (λ w. w.now) words.now)) }
{
    let text = match schedule {
        Some(text) => text,
        None => "none",
    };
    let found = match read_by(alloc, words, Some(text)) {
        Ok(found) => found,
        Err(error) => return reported(alloc, error.kind(), &error),
    };
    match (schedule, found.schedule) {
        (None, Some(file)) => Ok(ReadWords::ScheduleIn(file)),
        _ => Ok(ReadWords::Asked(found.asked)),
    }
}
