//! Where what a client is answered goes: its writer, or what is kept for the end.

ghost use Rattle.std.specs.Prelude.{◌≡◌, ◌++◌, None, IfErr, IfOk, OnErr, OnOk};
ghost use Rattle.std.specs.Bool.{OnTrue};
ghost use Rattle.std.specs.Io.KnownBytes.{Appends};
ghost use Rattle.pf_streams.specs.Streams.{AppendsFront};
ghost use Rattle.pf_wire.specs.Whole.{whole_text};
ghost use Rattle.pf_clients.specs.Replies.{LeavesBeginning};
ghost use Rattle.pf_clients.specs.Texts.{reported_text, EndsInText};

use crate::end::FileEnd;
use pf_errors::NoMemory;
use pf_wire::WrittenAnswer;
use std::io::{self, ErrorKind, Write};

/// How long a text of several replies gets, in bytes, before another is begun.
const MOST_TEXT: usize = 65_536;

/// Whether an answer may join the last text: neither has a report, and that text isn't long.
fn joins(all: &[WrittenAnswer], reported: &WrittenAnswer) -> bool
    ensures { OnTrue result ((reported.now.report ≡ None) × EndsInText all.now) }
{
    if reported.report.is_some() {
        return false;
    }
    match all.last() {
        Some(last) => last.report.is_none() && last.text.len() < MOST_TEXT,
        None => false,
    }
}

/// Adds an answer, to the last text where it may join that.
pub(crate) fn add(all: &mut Vec<WrittenAnswer>, reported: WrittenAnswer) -> Result<(), NoMemory>
    ensures added { OnOk result (reported_text all.new.items ≡ reported_text all.old.items ++ whole_text reported) }
    ensures err { OnErr result (reported_text all.new.items ≡ reported_text all.old.items) }
{
    if joins(all, &reported) {
        let last = all.len() - 1;
        all[last].text.extend_from_slice(&reported.text)?;
    } else {
        all.push(reported)?;
    }
    Ok(())
}

/// The whole text of an answer in one piece.
fn in_one(reported: WrittenAnswer) -> Result<Vec<u8>, NoMemory>
    ensures { IfOk result (λ text. text.items ≡ whole_text reported) }
{
    let WrittenAnswer { mut text, report } = reported;
    if let Some(report) = report {
        text.extend_from_slice(report.events())?;
        text.extend_from_slice(report.end())?;
    }
    Ok(text)
}

/// Writes a text, and has the writer hand it on. Where a call fails, a beginning of it was written.
fn write_out<W: Write>(writer: &mut W, text: &[u8]) -> io::Result<()>
    ensures written { OnOk result (Appends (W.contents writer.old) (W.contents writer.new) text.now) }
    ensures front { OnErr result (AppendsFront (W.contents writer.old) (W.contents writer.new) text.now) }
{
    let mut rest = text;
    'rest: while !rest.is_empty() {
        match writer.write(rest) {
            Ok(0) => return Err(ErrorKind::WriteZero.into()),
            Ok(n) => rest = rest.split_at(n).1,
            Err(error) => return Err(error),
        }
    }
    writer.flush()
}

/// Writes an answer; how its client's lines end, if it can't.
pub(crate) fn reply<W: Write>(writer: &mut W, reported: WrittenAnswer) -> Result<(), FileEnd>
    ensures written { OnOk result (Appends (W.contents writer.old) (W.contents writer.new) (whole_text reported)) }
    ensures front { IfErr result (λ end. LeavesBeginning end (W.contents writer.old) (W.contents writer.new)
        (whole_text reported)) }
{
    let text = match in_one(reported) {
        Ok(text) => text,
        Err(NoMemory) => return Err(FileEnd::NoMemory),
    };
    match write_out(writer, &text) {
        Ok(()) => Ok(()),
        Err(error) => Err(FileEnd::Unwritten(error)),
    }
}
