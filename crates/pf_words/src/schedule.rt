//! Schedules in files, which words name with `@`.

ghost use Rattle.std.specs.Prelude.{◌≡◌, ◌<◌, ◌≤◌, IfOk, IfSome, is_some, length, option_map};
ghost use Rattle.std.specs.String.{string_bytes};
ghost use Rattle.pf_text.specs.Numbers.{schedule_of};
ghost use Rattle.pf_words.specs.Schedules.{schedule_in, reported_in};

use pf_errors::{NoMemory, OrNoMemory};
use pf_files::open;
use pf_streams::{Counted, StreamFault};
use pf_text::schedule_of;
use std::alloc::{AllocGlobal, Global};
use std::fs::Files;
use std::io::{self, ErrorKind, Read};
use std::marker::Brand;
use std::sync::ledger::{Blank, Ledger};

/// The most bytes that such a file has.
const MOST_BYTES: usize = 64 << 20;

/// What is said of a file that has more.
const TOO_LONG: &str = "the file of a schedule has at most 67,108,864 bytes";

/// All that a reader still holds, if it is text and not too long; it is never cut.
pub fn whole_text<R: Read, L: Ledger>(
    alloc: Global,
    reader: &mut Counted<R, L>,
    no_text: &'static str,
) -> io::Result<String>
    ensures whole { IfOk result (λ t. IfSome (R.remaining reader.old.inner) (λ input. string_bytes t ≡ input)) }
    ensures most { IfOk result (λ t. length (string_bytes t) ≤ 67108864) }
{
    let bytes = match reader.take_front(alloc, MOST_BYTES + 1) {
        Ok(bytes) => bytes,
        Err(OrNoMemory::Fault(StreamFault::Read(error))) => return Err(error),
        Err(_) => return Err(io::Error::from(ErrorKind::OutOfMemory)),
    };
    if bytes.len() > MOST_BYTES {
        return Err(io::Error::new(ErrorKind::InvalidData, TOO_LONG));
    }
    match String::from_utf8(bytes) {
        Ok(text) => Ok(text),
        Err(_) => Err(io::Error::new(ErrorKind::InvalidData, no_text)),
    }
}

/// All that an open file holds.
fn text_in<F: Read + Drop, L: Ledger>(alloc: Global, file: F, reads: Blank) -> io::Result<String>
where
    requires reads { reads.name ≡ L.name }
    requires read_parts { reads.parts ≡ L.parts }
    requires some_reads { 0 < reads.parts }
    ensures whole { IfOk result (λ t. IfSome (F.remaining file) (λ input. string_bytes t ≡ input)) }
    ensures most { IfOk result (λ t. length (string_bytes t) ≤ 67108864) }
{
    let mut reader = Counted::<F, L>::new(file, reads);
    whole_text(alloc, &mut reader, "stream did not contain valid UTF-8")
}

/// All that the file of this name holds.
pub fn text_of_file<R: Files + AllocGlobal>(rt: &R, name: &str) -> io::Result<String>
where
    R::File: Drop,
    ensures { IfOk result (λ t. length (string_bytes t) ≤ 67108864) }
{
    let file = open(rt, name)?;
    text_in::<R::File, Brand>(rt.alloc(), file, Blank::new(1))
}

/// Whether a text is a schedule.
pub fn is_schedule(alloc: Global, text: &str) -> Result<bool, NoMemory>
    ensures { IfOk result (λ is. is ≡ is_some (schedule_of text.now)) }
{
    Ok(schedule_of(alloc, text.as_bytes())?.is_some())
}

/// What a line has after `schedule `, if it begins so.
fn reported_in(line: &str) -> Option<&str>
    ensures { option_map (λ s. s.now) result ≡ reported_in line.now }
{
    line.strip_prefix("schedule ")
}

/// The text of the schedule in a text: after the last `schedule` at the beginning of a line, as in the answer of a hunt
/// or of a shrinking; if there is none, the whole, without the blanks at its end.
pub fn schedule_in(text: &str) -> &str
    ensures { result.now ≡ schedule_in text.now }
{
    let mut found = None;
    for line in text.lines() {
        if let Some(schedule) = reported_in(line) {
            found = Some(schedule);
        }
    }
    match found {
        Some(schedule) => schedule,
        None => text.trim_end(),
    }
}
