//! Takes an input piece by piece, and gathers the output.

ghost use Rattle.std.specs.Prelude.{◌≡◌, ◌≤◌, ◌<◌, ◌+◌, ◌++◌, [], List, ℕ, length, false, true, IfErr, IfOk, OnErr};
ghost use Rattle.std.specs.Prelude.{OnOk};
ghost use Rattle.std.specs.Io.KnownBytes.{Appends, Consumes};
ghost use Rattle.pf_streams.specs.Streams.{AppendsFront, CountsWrite};
ghost use Rattle.pf_protocol.specs.Commands.{first_line};
ghost use Rattle.pf_wire.specs.Turns.{TakesPiece, PieceLeaves};
ghost use Rattle.pf_wire.specs.Whole.{report_lines, whole_text};
ghost use Rattle.pf_protocol.specs.Complete.{is_due};

use crate::reported::{ReportedReport, WrittenAnswer};
use crate::steps::MOST_BYTES;
use pf_errors::OrNoMemory;
use pf_protocol::{first_line, is_due};
use pf_streams::{Counted, StreamFault};
use std::alloc::Global;
use std::io::{Read, Write};
use std::sync::ledger::Ledger;

/// The most bytes of a piece, and of what is gathered.
pub(crate) const ROOM: usize = 65_536;

/// What was taken of an input and isn't answered yet.
#[derive(Drop)]
pub struct Input {
    pub bytes: Vec<u8>,
    /// How many bytes were taken in all.
    pub taken: usize,
    /// No line ends among the bytes, which needn't be looked through again.
    is_open: bool,
    ghost open: { is_open ≡ true → (first_line bytes.items).is_ended ≡ false },
}

impl Input {
    /// The input of which nothing was taken yet.
    pub fn new(alloc: Global) -> Input
        ensures bytes { result.bytes.items ≡ [] }
        ensures taken { result.taken ≡ 0 }
    {
        Input {
            bytes: Vec::new(alloc),
            taken: 0,
            is_open: true,
        }
    }

    /// Takes what the reader has at hand, up to the room in the piece and no more than may be read; whether the
    /// input is over.
    pub fn take_piece<R: Read, L: Ledger>(
        &mut self,
        reader: &mut Counted<R, L>,
        piece: &mut [u8],
    ) -> Result<bool, OrNoMemory<StreamFault>>
        requires more { self.old.taken < MOST_BYTES }
        requires room { 0 < length piece.old }
        ensures piece { IfOk result (λ over. TakesPiece
            (R.remaining reader.old.inner) (R.remaining reader.new.inner)
            self.old.bytes.items self.new.bytes.items self.old.taken self.new.taken over) }
        ensures taken { (bytes : List ℕ) × (self.old.taken + length bytes ≤ MOST_BYTES)
            × Consumes (R.remaining reader.old.inner) (R.remaining reader.new.inner) bytes }
        ensures kept { OnOk result (reader.new.failures.total ≡ reader.old.failures.total) }
        ensures fault { IfErr result (λ e. PieceLeaves e
            (R.remaining reader.old.inner) (R.remaining reader.new.inner)
            reader.old.failures.total reader.new.failures.total) }
    {
        let want = (MOST_BYTES - self.taken).min(piece.len());
        let n = reader.take_some(&mut piece[..want])?;
        let given = &piece[..n];
        let is_open = self.is_open && !first_line(given).is_ended;
        self.is_open = false;
        self.bytes.extend_from_slice(given)?;
        self.is_open = is_open;
        self.taken += n;
        Ok(n == 0 || self.taken == MOST_BYTES)
    }

    /// Whether the first command is answered now.
    pub fn is_due(&self, is_over: bool) -> bool
        ensures { result ≡ is_due is_over self.now.bytes.items }
    {
        if self.is_open && !is_over {
            return false;
        }
        is_due(&self.bytes, is_over)
    }

    /// Keeps no more than these bytes.
    pub fn keep(&mut self, rest: Vec<u8>)
        ensures bytes { self.new.bytes.items ≡ rest.items }
        ensures taken { self.new.taken ≡ self.old.taken }
    {
        self.is_open = false;
        self.bytes = rest;
        self.is_open = !first_line(&self.bytes).is_ended;
    }
}

/// What is to be written, gathered so that one write hands on many replies.
#[derive(Drop)]
pub struct Gathered {
    pub text: Vec<u8>,
}

impl Gathered {
    /// Nothing was gathered yet.
    pub fn new(alloc: Global) -> Gathered
        ensures { result.text.items ≡ [] }
    {
        Gathered {
            text: Vec::new(alloc),
        }
    }

    /// Writes what was gathered.
    pub fn send<W: Write, M: Ledger>(
        &mut self,
        writer: &mut Counted<W, M>,
    ) -> Result<(), StreamFault>
        ensures sent { OnOk result (Appends (W.contents writer.old.inner) (W.contents writer.new.inner)
            self.old.text.items × (self.new.text.items ≡ [])) }
        ensures front { OnErr result (AppendsFront (W.contents writer.old.inner) (W.contents writer.new.inner)
            self.old.text.items) }
        ensures kept { OnOk result (writer.new.failures.total ≡ writer.old.failures.total) }
        ensures counted { IfErr result (λ e.
            CountsWrite e writer.old.failures.total writer.new.failures.total) }
    {
        writer.put(&self.text)?;
        self.text.clear();
        Ok(())
    }

    /// Writes what was gathered, and then a text.
    fn send_with<W: Write, M: Ledger>(
        &mut self,
        writer: &mut Counted<W, M>,
        text: &[u8],
    ) -> Result<(), StreamFault>
        ensures sent { OnOk result (Appends (W.contents writer.old.inner) (W.contents writer.new.inner)
            (self.old.text.items ++ text.now) × (self.new.text.items ≡ [])) }
        ensures front { OnErr result (AppendsFront (W.contents writer.old.inner) (W.contents writer.new.inner)
            (self.old.text.items ++ text.now)) }
        ensures kept { OnOk result (writer.new.failures.total ≡ writer.old.failures.total) }
        ensures counted { IfErr result (λ e.
            CountsWrite e writer.old.failures.total writer.new.failures.total) }
    {
        self.send(writer)?;
        writer.put(text)
    }

    /// Adds a text, and writes all if there is no room for it.
    fn add<W: Write, M: Ledger>(
        &mut self,
        writer: &mut Counted<W, M>,
        text: &[u8],
    ) -> Result<(), StreamFault>
        ensures added { OnOk result ((out : List ℕ)
            × Appends (W.contents writer.old.inner) (W.contents writer.new.inner) out
            × (out ++ self.new.text.items ≡ self.old.text.items ++ text.now)) }
        ensures front { OnErr result (AppendsFront (W.contents writer.old.inner) (W.contents writer.new.inner)
            (self.old.text.items ++ text.now)) }
        ensures kept { OnOk result (writer.new.failures.total ≡ writer.old.failures.total) }
        ensures counted { IfErr result (λ e.
            CountsWrite e writer.old.failures.total writer.new.failures.total) }
    {
        if text.len() > ROOM.saturating_sub(self.text.len()) {
            return self.send_with(writer, text);
        }
        match self.text.extend_from_slice(text) {
            Ok(()) => Ok(()),
            Err(_) => self.send_with(writer, text),
        }
    }

    /// Adds the lines of a report. Those of its events are written from where they are if there is no room for them.
    fn add_report<W: Write, M: Ledger>(
        &mut self,
        writer: &mut Counted<W, M>,
        report: &ReportedReport,
    ) -> Result<(), StreamFault>
        ensures added { OnOk result ((out : List ℕ)
            × Appends (W.contents writer.old.inner) (W.contents writer.new.inner) out
            × (out ++ self.new.text.items ≡ self.old.text.items ++ report_lines report.now)) }
        ensures front { OnErr result (AppendsFront (W.contents writer.old.inner) (W.contents writer.new.inner)
            (self.old.text.items ++ report_lines report.now)) }
        ensures kept { OnOk result (writer.new.failures.total ≡ writer.old.failures.total) }
        ensures counted { IfErr result (λ e.
            CountsWrite e writer.old.failures.total writer.new.failures.total) }
    {
        self.add(writer, report.events())?;
        self.add(writer, report.end())
    }

    /// Adds what a command is answered with.
    pub fn add_reported<W: Write, M: Ledger>(
        &mut self,
        writer: &mut Counted<W, M>,
        reported: &WrittenAnswer,
    ) -> Result<(), StreamFault>
        ensures added { OnOk result ((out : List ℕ)
            × Appends (W.contents writer.old.inner) (W.contents writer.new.inner) out
            × (out ++ self.new.text.items ≡ self.old.text.items ++ whole_text reported.now)) }
        ensures front { OnErr result (AppendsFront (W.contents writer.old.inner) (W.contents writer.new.inner)
            (self.old.text.items ++ whole_text reported.now)) }
        ensures kept { OnOk result (writer.new.failures.total ≡ writer.old.failures.total) }
        ensures counted { IfErr result (λ e.
            CountsWrite e writer.old.failures.total writer.new.failures.total) }
    {
        self.add(writer, &reported.text)?;
        match &reported.report {
            Some(report) => self.add_report(writer, report),
            None => Ok(()),
        }
    }
}
