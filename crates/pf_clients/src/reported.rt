//! What was kept of what all clients were answered, file by file.

ghost use Rattle.std.specs.Prelude.{◌≡◌, map, None, Some, IfErr, IfOk, OnErr, OnOk};
ghost use Rattle.std.specs.Io.KnownBytes.{Appends};
ghost use Rattle.pf_streams.specs.Streams.{AppendsFront, CountsWrite};
ghost use Rattle.pf_clients.specs.Farms.{client_text, status_at, stop_at, Prints, PrintsInPart};
ghost use Rattle.pf_clients.specs.Faults.{CountsFault};
ghost use Rattle.pf_clients.specs.Texts.{reported_text};

use crate::end::FileEnd;
use pf_errors::OrNoMemory;
use pf_streams::{Counted, StreamFault};
use pf_wire::{Gathered, WrittenAnswer};
use std::alloc::Global;
use std::io::Write;
use std::sync::ledger::Ledger;

/// What was kept of what a client was answered, and how its file ended.
#[derive(Drop)]
pub(crate) struct ClientAnswers {
    pub reported: Vec<WrittenAnswer>,
    pub ended: FileEnd,
}

/// Writes what was kept of one client.
fn write_one<W: Write, M: Ledger>(
    alloc: Global,
    reported: &[WrittenAnswer],
    writer: &mut Counted<W, M>,
) -> Result<(), StreamFault>
    ensures written { OnOk result (Appends (W.contents writer.old.inner) (W.contents writer.new.inner)
        (reported_text reported.now)) }
    ensures front { OnErr result (AppendsFront (W.contents writer.old.inner) (W.contents writer.new.inner)
        (reported_text reported.now)) }
    ensures kept { OnOk result (writer.new.failures.total ≡ writer.old.failures.total) }
    ensures counted { IfErr result (λ e. CountsWrite e writer.old.failures.total writer.new.failures.total) }
{
    let mut gathered = Gathered::new(alloc);
    'replies: for reply in reported {
        gathered.add_reported(writer, reply)?;
    }
    gathered.send(writer)
}

/// The status after a file that ended so, where this is the status before it: 2 if a line was no command or a reply
/// can't be written. None after a file that can't be read or for which memory ran out.
fn next_status(status: u8, ended: FileEnd) -> Result<u8, OrNoMemory<StreamFault>>
    ensures next { IfOk result (λ n. (stop_at ended ≡ None) × (n ≡ status_at ended status)) }
    ensures stop { IfErr result (λ e. stop_at ended ≡ Some e) }
{
    match ended {
        FileEnd::Answered => Ok(status),
        FileEnd::NoCommand(_) | FileEnd::Unwritten(_) => Ok(2),
        FileEnd::Unread(error) => Err(OrNoMemory::Fault(StreamFault::Read(error))),
        FileEnd::NoMemory => Err(OrNoMemory::NoMemory),
    }
}

/// Writes what was kept of the clients, file by file, up to a file that can't be read or for which memory ran out; the
/// status, 2 if a line was no command or a reply can't be written, and else 0.
pub(crate) fn write_all<W: Write, M: Ledger>(
    alloc: Global,
    answers: Vec<ClientAnswers>,
    writer: &mut Counted<W, M>,
) -> Result<u8, OrNoMemory<StreamFault>>
    ensures printed { IfOk result (λ status. Prints (map client_text answers.items) status
        (W.contents writer.old.inner) (W.contents writer.new.inner)) }
    ensures in_part { IfErr result (λ e. PrintsInPart (map client_text answers.items) e
        (W.contents writer.old.inner) (W.contents writer.new.inner)
        writer.old.failures.total writer.new.failures.total) }
    ensures kept { OnOk result (writer.new.failures.total ≡ writer.old.failures.total) }
    ensures counted { IfErr result (λ e. CountsFault e writer.old.failures.total writer.new.failures.total) }
{
    let mut status = 0;
    'files: for answered in answers {
        let ClientAnswers { reported, ended } = answered;
        write_one(alloc, &reported, writer)?;
        status = next_status(status, ended)?;
    }
    Ok(status)
}
