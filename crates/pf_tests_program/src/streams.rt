//! The work of a command between a reader and a writer in memory, of which a call may fail.

ghost use Rattle.std.specs.Prelude.{◌≡◌, ◌<◌};

use pf_cli::Args;
use pf_command::{Shrink, run_source, serve};
use pf_errors::OrNoMemory;
use pf_sched::Silent;
use pf_streams::{Counted, FailAt, StreamFault};
use pf_wire::{InputEnd, run_steps};
use std::alloc::Global;
use std::hash::RandomState;
use std::io;
use std::io::{ErrorKind, Write};
use std::marker::Brand;
use std::sync::ledger::{Blank, Ledger};

/// A writer that takes at most 7 bytes a call.
#[derive(Drop)]
struct Narrow {
    taken: Vec<u8>,
}

impl Write for Narrow {
    fn write(&mut self, buf: &[u8]) -> io::Result<usize> {
        let n = buf.len().min(7);
        if self.taken.extend_from_slice(&buf[..n]).is_err() {
            return Err(io::Error::from(ErrorKind::OutOfMemory));
        }
        Ok(n)
    }

    fn flush(&mut self) -> io::Result<()> {
        Ok(())
    }
}

/// How the work ended: with a status, or by a fault.
#[derive(Clone, Copy, PartialEq, Eq)]
pub enum WorkEnd {
    Status(u8),
    NotRead,
    NotWritten,
    NoMemory,
}

/// What was written, and how the work ended.
#[derive(Drop)]
pub struct Worked {
    pub out: Vec<u8>,
    pub ended: WorkEnd,
}

/// The calls of the reader and of the writer that fail, counted from 1, 0 for none.
#[derive(Clone, Copy)]
pub struct Failing {
    pub read: u64,
    pub write: u64,
}

fn end_of(answer: Result<u8, OrNoMemory<StreamFault>>) -> WorkEnd {
    match answer {
        Ok(status) => WorkEnd::Status(status),
        Err(OrNoMemory::Fault(StreamFault::Read(_))) => WorkEnd::NotRead,
        Err(OrNoMemory::Fault(StreamFault::Write(_))) => WorkEnd::NotWritten,
        Err(OrNoMemory::NoMemory) => WorkEnd::NoMemory,
    }
}

/// Answers what the reader gives as `run`, `shrink` or else `steps`.
fn answer<L: Ledger, M: Ledger>(
    alloc: Global,
    keys: RandomState,
    args: &Args,
    reader: &mut Counted<FailAt<&[u8]>, L>,
    writer: &mut Counted<FailAt<Narrow>, M>,
) -> Result<u8, OrNoMemory<StreamFault>> {
    match args {
        Args::Run(args) => run_source(alloc, reader, args, writer, &mut 0),
        Args::Shrink(args) => {
            let observer = Silent;
            serve(alloc, reader, Shrink { args, observer }, writer)
        }
        _ => run_steps(alloc, keys, reader, writer, &mut InputEnd::new()),
    }
}

fn carry_out_by<L: Ledger, M: Ledger>(
    alloc: Global,
    keys: RandomState,
    args: &Args,
    input: &[u8],
    failing: Failing,
    reads: Blank,
    writes: Blank,
) -> Worked
    requires reads { reads.name ≡ L.name }
    requires read_parts { reads.parts ≡ L.parts }
    requires some_reads { 0 < reads.parts }
    requires writes { writes.name ≡ M.name }
    requires write_parts { writes.parts ≡ M.parts }
    requires some_writes { 0 < writes.parts }
{
    let narrow = Narrow {
        taken: Vec::new(alloc),
    };
    let mut reader = Counted::<FailAt<&[u8]>, L>::new(FailAt::new(input, failing.read), reads);
    let mut writer = Counted::<FailAt<Narrow>, M>::new(FailAt::new(narrow, failing.write), writes);
    let ended = end_of(answer(alloc, keys, args, &mut reader, &mut writer));
    let Counted { inner, .. } = writer;
    let FailAt { inner: narrow, .. } = inner;
    let Narrow { taken: out } = narrow;
    Worked { out, ended }
}

/// Does what is asked for with an input in memory, and calls that fail.
pub fn carry_out(
    alloc: Global,
    keys: RandomState,
    args: &Args,
    input: &[u8],
    failing: Failing,
) -> Worked {
    let (reads, writes) = (Blank::new(1), Blank::new(1));
    carry_out_by::<Brand, Brand>(alloc, keys, args, input, failing, reads, writes)
}
