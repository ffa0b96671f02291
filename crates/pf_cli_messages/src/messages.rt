//! What the program says of words that ask for no work, and of faults.

ghost use Rattle.std.specs.Prelude.{◌≡◌, false};
ghost use Rattle.pf_cli_messages.specs.Texts.{HasStatus, IsFailure, PrintsText};

use crate::escape::{ShownText, without_tip};
use pf_cli::Format;
use pf_errors::{NoMemory, OrNoMemory};
use pf_streams::{Counted, StreamFault};
use std::io::{self, Write};
use std::sync::ledger::Ledger;

/// The status if something is refused, can't be read or written, or memory runs out.
pub const REFUSED: u8 = 2;

/// Exit status on a broken pipe: 128 + SIGPIPE.
const BROKEN_PIPE: u8 = 128 + 13;

/// Says this on standard error, after the name of the program.
pub fn say(rt: &impl Eprint, text: &str) {
    let shown = ShownText {
        text,
        has_lines: false,
    };
    let _printed = eprintln!(rt; "pulsefarm: {shown}");
}

/// Says that memory ran out.
pub fn no_memory(rt: &(impl Print + Eprint)) -> u8
    ensures { result ≡ 2 }
{
    let _printed = println!(rt; "{NoMemory}");
    say(rt, "memory ran out");
    REFUSED
}

/// The same, in the form that is asked for.
fn no_memory_in(rt: &(impl Print + Eprint), format: Format) -> u8
    ensures { result ≡ 2 }
{
    if matches!(format, Format::Text) {
        return no_memory(rt);
    }
    let _printed = println!(rt; "{{\"{NoMemory}\":true}}");
    say(rt, "memory ran out");
    REFUSED
}

/// The same on standard error, for a command whose replies were written before.
fn no_more_memory(rt: &impl Eprint) -> u8
    ensures { result ≡ 2 }
{
    let _printed = eprintln!(rt; "pulsefarm: {NoMemory}");
    REFUSED
}

/// Says what failed, and why; a file by its name. If nobody reads the output any more, nothing is said.
pub fn failed(rt: &(impl Print + Eprint), file: Option<&str>, fault: &StreamFault) -> u8
    ensures { IsFailure result }
{
    let error = fault.error();
    if error.kind() == io::ErrorKind::BrokenPipe {
        return BROKEN_PIPE;
    }
    match (fault, file) {
        (StreamFault::Read(_), Some(text)) => {
            let shown = ShownText {
                text,
                has_lines: false,
            };
            let _printed = eprintln!(rt; "pulsefarm: {shown}: {error}");
        }
        _ => {
            let _printed = eprintln!(rt; "pulsefarm: {fault}: {error}");
        }
    }
    REFUSED
}

/// The status of a command, and what is said of its end. The answer to a source is written in a form; replies to
/// commands have none.
pub fn end(
    rt: &(impl Print + Eprint),
    file: Option<&str>,
    form: Option<Format>,
    answered: Result<u8, OrNoMemory<StreamFault>>,
) -> u8
    ensures { HasStatus answered result }
{
    match answered {
        Ok(status) => status,
        Err(OrNoMemory::Fault(fault)) if fault.error().kind() != io::ErrorKind::OutOfMemory => {
            failed(rt, file, &fault)
        }
        Err(_) => match form {
            Some(form) => no_memory_in(rt, form),
            None => no_more_memory(rt),
        },
    }
}

/// The number below 0 that words were refused for, and what follows, if that is why.
fn negative(text: &str) -> Option<(&str, &str)> {
    let (number, rest) = text
        .strip_prefix("unexpected argument '")?
        .split_once("' found")?;
    let digits = number.strip_prefix('-')?;
    if digits.starts_with(|c: char| c.is_ascii_digit()) {
        Some((number, rest))
    } else {
        None
    }
}

/// Writes a text that may have line ends.
fn write_lines(rt: &impl Eprint, text: &str) {
    let shown = ShownText {
        text,
        has_lines: true,
    };
    let _printed = eprint!(rt; "{shown}");
}

/// Says what is wrong with words.
fn write_fault(rt: &impl Eprint, text: &str) {
    let (front, back) = without_tip(text);
    let front = front.strip_prefix("error: ").unwrap_or(front);
    write_lines(rt, "pulsefarm: ");
    match negative(front) {
        Some((number, rest)) => {
            write_lines(rt, number);
            write_lines(rt, " is out of range: no number here is below 0");
            write_lines(rt, rest);
        }
        None => write_lines(rt, front),
    }
    write_lines(rt, back);
}

/// Prints a text; its status, unless it can't be written.
fn write_text<W: Write, M: Ledger>(
    rt: &(impl Print + Eprint),
    text: &str,
    status: u8,
    writer: &mut Counted<W, M>,
) -> u8
    ensures { PrintsText false status result
        (W.contents writer.old.inner) (W.contents writer.new.inner)
        writer.old.failures.total writer.new.failures.total }
{
    match writer.put(text.as_bytes()) {
        Ok(()) => status,
        Err(fault) => failed(rt, None, &fault),
    }
}

/// Prints the text of words that ask for no work, help, the version or what is wrong with them; their status.
pub fn notify<W: Write, M: Ledger>(
    rt: &(impl Print + Eprint),
    text: &str,
    status: u8,
    is_fault: bool,
    writer: &mut Counted<W, M>,
) -> u8
    ensures { PrintsText is_fault status result
        (W.contents writer.old.inner) (W.contents writer.new.inner)
        writer.old.failures.total writer.new.failures.total }
{
    if is_fault {
        write_fault(rt, text);
        return status;
    }
    write_text(rt, text, status, writer)
}
