//! The work of a command between a reader and a writer: it reads, answers, and writes.

ghost use Rattle.pf_command.specs.Streams.{Sends, Serves, TakesBytes, streams};

use crate::answer::Output;
use crate::answers::{answer_by, print_answer};
use pf_check::ReadSource;
use pf_errors::{NoMemory, OrNoMemory};
use pf_sched::Silent;
use pf_streams::{Counted, StreamFault};
use pf_tokens::MOST_SOURCE_BYTES;
use std::alloc::Global;
use std::io::{Read, Write};
use std::sync::ledger::Ledger;

/// The most bytes that are read: one more than a source may have.
pub const MOST_BYTES: usize = MOST_SOURCE_BYTES + 1;

/// A command of a source. Its contract says which texts and statuses answer which bytes.
pub trait Answering {
    ghost use Rattle.std.specs.Prelude.{ℕ, List, IfOk};

    ghost answers: { Self → (bytes text : List ℕ) → ℕ → Type 0 };

    /// The answer to a source.
    fn answer(self, alloc: Global, source: &ReadSource) -> Result<Output, NoMemory>
        ensures { IfOk result (λ a. answers self source.now a.text.items a.status) };
}

/// Prints what a source is answered with by a command.
fn print_by<W: Write, M: Ledger, C: Answering + Drop>(
    alloc: Global,
    command: C,
    source: &ReadSource,
    writer: &mut Counted<W, M>,
) -> Result<u8, OrNoMemory<StreamFault>>
    ensures { Sends (C.answers command source.now)
        (W.contents writer.old.inner) (W.contents writer.new.inner)
        writer.old.failures.total writer.new.failures.total result }
{
    let answer = answer_by(alloc, command, source)?;
    Ok(print_answer(alloc, answer, &mut Silent, writer, &mut 0)?)
}

/// Answers a source by a command: reads at most one byte more than a source may have, writes a text and gives the
/// status.
pub fn serve<R: Read, W: Write, L: Ledger, M: Ledger, C: Answering + Drop>(
    alloc: Global,
    reader: &mut Counted<R, L>,
    command: C,
    writer: &mut Counted<W, M>,
) -> Result<u8, OrNoMemory<StreamFault>>
    ensures served { Serves (C.answers command)
        (streams (R.remaining reader.old.inner) (W.contents writer.old.inner)
        reader.old.failures.total writer.old.failures.total)
        (streams (R.remaining reader.new.inner) (W.contents writer.new.inner)
        reader.new.failures.total writer.new.failures.total) result }
    ensures taken { TakesBytes
        (streams (R.remaining reader.old.inner) (W.contents writer.old.inner)
        reader.old.failures.total writer.old.failures.total)
        (streams (R.remaining reader.new.inner) (W.contents writer.new.inner)
        reader.new.failures.total writer.new.failures.total) }
{
    let bytes = reader.take_front(alloc, MOST_BYTES)?;
    let source = ReadSource::new(alloc, bytes)?;
    print_by(alloc, command, &source, writer)
}
