//! How words are read.

use crate::defaults::is_plain;
use crate::hunts::{Named, hunts};
use crate::values::is_named;
use pf_cli::{Args, CliCommand, ReadWords, read, read_args, status_of_kind};
use pf_request::{RequestKind, RunChoices};
use std::alloc::Global;

/// How words are to be read.
#[derive(Clone, Copy)]
pub enum WantedReading<'a> {
    /// The values that the words of each command name.
    Values,
    /// The defaults of a command.
    Defaults,
    /// A hunt that has what one word names.
    Hunt(Named),
    /// A run by the schedule 7, 0.
    Scheduled,
    /// The schedule in this file.
    ScheduleIn(&'a str),
    /// This text, and a status that says that there is a fault unless it is 0.
    Text(&'a str, u8),
}

/// Whether it is a run by the schedule 7, 0.
fn is_scheduled(args: &Args) -> bool {
    match args {
        Args::Run(run) => match &run.request.kind {
            RequestKind::Run(RunChoices::Schedule(given)) => given.as_slice() == [7, 0].as_slice(),
            _ => false,
        },
        _ => false,
    }
}

/// Whether this is asked for.
fn is_asked(asked: &CliCommand, wanted: WantedReading) -> bool {
    match wanted {
        WantedReading::Values => is_named(asked),
        WantedReading::Defaults => is_plain(asked),
        WantedReading::Hunt(named) => hunts(&asked.args, named),
        WantedReading::Scheduled => is_scheduled(&asked.args),
        _ => false,
    }
}

/// Whether it is a text with a status.
fn is_text(wanted: WantedReading, text: &str, status: u8, is_fault: bool) -> bool {
    match wanted {
        WantedReading::Text(reported, end) => text == reported
            && status == end
            && is_fault == (end != 0),
        _ => false,
    }
}

/// Whether it is what is wanted.
fn is_so(reading: &ReadWords, wanted: WantedReading) -> bool {
    match reading {
        ReadWords::Asked(asked) => is_asked(asked, wanted),
        ReadWords::ScheduleIn(file) =>
            matches!(wanted, WantedReading::ScheduleIn(name) if *file == name),
        ReadWords::Text {
            text,
            status,
            is_fault,
        } => is_text(wanted, text, *status, *is_fault),
    }
}

/// Whether these words, with this text for the schedule in a file if any is known, are read as is wanted.
fn come_with(alloc: Global, words: &[&str], schedule: Option<&str>, wanted: WantedReading) -> bool {
    match read(alloc, words, schedule) {
        Ok(reading) => is_so(&reading, wanted),
        Err(_) => false,
    }
}

/// Whether these words are read as is wanted.
pub fn come_to(alloc: Global, words: &[&str], wanted: WantedReading) -> bool {
    come_with(alloc, words, None, wanted)
}

/// The words of a run whose schedule is in a file.
const SCHEDULED: [&str; 5] = [
    "pulsefarm",
    "run",
    "--root=main",
    "--limit=5",
    "--schedule=@a b.txt",
];

#[test]
fn a_file_of_a_schedule_is_read_first(rt: HostRuntime) {
    let alloc = rt.alloc();
    assert!(rt; come_to(alloc, &SCHEDULED, WantedReading::ScheduleIn("a b.txt")));
    assert!(rt; come_with(alloc, &SCHEDULED, Some("7,0"), WantedReading::Scheduled));
}

/// Words without work.
const VERSION: [&str; 2] = ["pulsefarm", "--version"];

const TWO_FILES: [&str; 4] = ["pulsefarm", "steps", "a", "b"];

const REFUSED: &str =
    "error: unexpected argument 'b' found\n\nUsage: pulsefarm steps [FILE]\n\nFor more information, try '--help'.\n";

#[test]
fn words_without_work_come_to_a_text(rt: HostRuntime) {
    let alloc = rt.alloc();
    assert!(rt; come_to(alloc, &VERSION, WantedReading::Text("pulsefarm 0.1.0\n", 0)));
    assert!(rt; come_to(alloc, &TWO_FILES, WantedReading::Text(REFUSED, 2)));
}

/// The status that these words are refused with; none where they ask for work.
fn status_of(alloc: Global, words: &[&str]) -> Option<u8> {
    match read_args(alloc, words) {
        Ok(_) => None,
        Err(error) => Some(status_of_kind(error.kind())),
    }
}

#[test]
fn words_that_are_alone_ask_for_work_or_have_a_status(rt: HostRuntime) {
    let alloc = rt.alloc();
    assert_eq!(rt; status_of(alloc, &["pulsefarm", "steps", "a"]), None);
    assert_eq!(rt; status_of(alloc, &VERSION), Some(0));
    assert_eq!(rt; status_of(alloc, &TWO_FILES), Some(2));
}
