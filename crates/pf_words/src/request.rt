//! The request that words make. Where they name a file for their schedule, that is read first.

ghost use Rattle.std.specs.Prelude.{◌≡◌, ◌≤◌, ℕ, List, Option, false, true, IfOk, IfSome, map, codes, length};
ghost use Rattle.std.specs.Str.{bytes_eq};
ghost use Rattle.std.specs.String.{string_bytes};
ghost use Rattle.pf_cli.specs.Args.{named_file, view_of_command};
ghost use Rattle.pf_command.specs.Streams.{Streams, streams};
ghost use Rattle.pf_cli_messages.specs.Texts.{IsFailure};
ghost use Rattle.pf_words.specs.declared.words.Obeyed.{Obeyed};
ghost use Rattle.pf_words.specs.Words.{AsksFor, AskedIsDoneOrRefused, Obeys, ObeysBy, ObeysByFile, ObeysIn};
ghost use Rattle.pf_words.specs.Words.{RequestIsDone};

use crate::schedule::{is_schedule, schedule_in, text_of_file, whole_text};
use pf_cli::{CliCommand, ReadWords, read};
use pf_cli_messages::{REFUSED, failed, no_memory, say};
use pf_errors::NoMemory;
use pf_streams::{Counted, StreamFault};
use std::alloc::AllocGlobal;
use std::fs::Files;
use std::io::{self, Read};
use std::sync::ledger::Ledger;

/// What words ask for, once the file is read that they name for their schedule.
#[derive(Drop)]
pub(crate) enum WordsRequest<'a> {
    /// This, by the schedule in a file if they name one.
    Asked(CliCommand<'a>),
    /// No work: this text is printed, on the standard error where it reports a fault, and the program ends with this
    /// status.
    Text {
        text: String,
        status: u8,
        is_fault: bool,
    },
    /// Work by a schedule that they haven't: it was said why, and the program ends with this status.
    Refused(u8),
}

/// Says why the file of a schedule can't be read.
fn unread_file(rt: &(impl Print + Eprint), file: &str, error: io::Error) -> u8
    ensures { IsFailure result }
{
    if error.kind() == io::ErrorKind::OutOfMemory {
        return no_memory(rt);
    }
    failed(rt, Some(file), &StreamFault::Read(error))
}

/// What the file of a schedule holds; `-` names the standard input.
fn schedule_contents<R, I: Read, L: Ledger>(
    rt: &R,
    file: &str,
    stdin: &mut Counted<I, L>,
) -> io::Result<String>
where
    R: Files + AllocGlobal,
    R::File: Drop,
    ensures most { IfOk result (λ t. length (string_bytes t) ≤ 67108864) }
    ensures unread { bytes_eq file.now (codes "-") ≡ false → I.remaining stdin.new.inner ≡ I.remaining stdin.old.inner }
    ensures kept { bytes_eq file.now (codes "-") ≡ false → stdin.new.failures.total ≡ stdin.old.failures.total }
    ensures whole { bytes_eq file.now (codes "-") ≡ true
        → IfOk result (λ t. IfSome (I.remaining stdin.old.inner) (λ input. string_bytes t ≡ input)) }
{
    if file == "-" {
        whole_text(rt.alloc(), stdin, "it isn't text")
    } else {
        text_of_file(rt, file)
    }
}

/// A file of a schedule: its name, and what is read of it.
#[derive(Clone, Copy)]
struct ScheduleFile<'a> {
    name: &'a str,
    text: &'a str,
}

/// How many characters of a line are reported.
const MOST_REPORTED: usize = 60;

/// The beginning of a line.
fn beginning(line: &str) -> &str {
    match line.char_indices().nth(MOST_REPORTED) {
        Some((end, _)) => line.get(..end).unwrap_or(line),
        None => line,
    }
}

/// Says that a file has no schedule, with the beginning of its first line.
fn no_schedule(rt: &(impl Eprint + AllocGlobal), file: &str, contents: &str) -> Result<u8, NoMemory>
    ensures { IfOk result (λ status. status ≡ 2) }
{
    let first = beginning(contents.lines().next().unwrap_or(""));
    let text = format!(in rt.alloc();
        "the file {file} holds no schedule: its first line is `{first}`"
    )?;
    say(rt, &text);
    Ok(REFUSED)
}

/// What is asked for, by a schedule that a file has. The standard input is not both the file and the source.
fn asked_by<'a>(rt: &impl Eprint, asked: CliCommand<'a>, file: &str) -> WordsRequest<'a>
    ensures { (old : Streams) (new : Streams) (o : Obeyed) → RequestIsDone result old new o
        → AskedIsDoneOrRefused (view_of_command asked.entry) (named_file asked.entry.args) old new o }
{
    if file == "-" && asked.args.file().is_none() {
        say(
            rt,
            "the source and its schedule can't both be the standard input: name a file of one",
        );
        return WordsRequest::Refused(REFUSED);
    }
    WordsRequest::Asked(asked)
}

/// What words ask for by the schedule that this text of a file is.
fn request_by<'a>(
    rt: &(impl Eprint + AllocGlobal),
    words: &'a [&'a str],
    file: ScheduleFile<'_>,
) -> Result<WordsRequest<'a>, NoMemory>
    ensures { (old : Streams) → AsksFor (ObeysBy (map (λ w. w.now) words.now) file.entry.text.now old) old result }
{
    match read(rt.alloc(), words, Some(file.text))? {
        ReadWords::Asked(asked) => Ok(asked_by(rt, asked, file.name)),
        ReadWords::Text {
            text,
            status,
            is_fault,
        } => Ok(WordsRequest::Text {
            text,
            status,
            is_fault,
        }),
        ReadWords::ScheduleIn(_) => unreachable!(),
    }
}

/// What words ask for by the schedule in this text of a file.
fn request_in<'a>(
    rt: &(impl Eprint + AllocGlobal),
    words: &'a [&'a str],
    file: ScheduleFile<'_>,
) -> Result<WordsRequest<'a>, NoMemory>
    ensures { (old : Streams) → AsksFor (ObeysIn (map (λ w. w.now) words.now) file.entry.text.now old) old result }
{
    let ScheduleFile { name, text } = file;
    let schedule = schedule_in(text);
    if is_schedule(rt.alloc(), schedule)? {
        let file = ScheduleFile {
            name,
            text: schedule,
        };
        request_by(rt, words, file)
    } else {
        Ok(WordsRequest::Refused(no_schedule(rt, name, text)?))
    }
}

/// What words ask for by the schedule in a file.
fn request_by_file<'a, R, I: Read, L: Ledger>(
    rt: &R,
    words: &'a [&'a str],
    file: &str,
    stdin: &mut Counted<I, L>,
) -> Result<WordsRequest<'a>, NoMemory>
where
    R: Files + Print + Eprint + AllocGlobal,
    R::File: Drop,
    ensures { (written : Option (List ℕ)) (failed : ℕ) → AsksFor (ObeysByFile (map (λ w. w.now) words.now) file.now
        (streams (I.remaining stdin.old.inner) written stdin.old.failures.total failed))
        (streams (I.remaining stdin.new.inner) written stdin.new.failures.total failed) result }
{
    match schedule_contents(rt, file, stdin) {
        Ok(contents) => {
            let file = ScheduleFile {
                name: file,
                text: &contents,
            };
            request_in(rt, words, file)
        }
        Err(error) => Ok(WordsRequest::Refused(unread_file(rt, file, error))),
    }
}

/// What words ask for, the first of which names the program. Nothing is written for it, and of the standard input
/// only the schedule is read, where they say so.
pub(crate) fn request_of<'a, R, I: Read, L: Ledger>(
    rt: &R,
    words: &'a [&'a str],
    stdin: &mut Counted<I, L>,
) -> Result<WordsRequest<'a>, NoMemory>
where
    R: Files + Print + Eprint + AllocGlobal,
    R::File: Drop,
    ensures { (written : Option (List ℕ)) (failed : ℕ) → AsksFor (Obeys (map (λ w. w.now) words.now)
        (streams (I.remaining stdin.old.inner) written stdin.old.failures.total failed))
        (streams (I.remaining stdin.new.inner) written stdin.new.failures.total failed) result }
{
    match read(rt.alloc(), words, None)? {
        ReadWords::Asked(asked) => Ok(WordsRequest::Asked(asked)),
        ReadWords::Text {
            text,
            status,
            is_fault,
        } => Ok(WordsRequest::Text {
            text,
            status,
            is_fault,
        }),
        ReadWords::ScheduleIn(file) => request_by_file(rt, words, file, stdin),
    }
}
