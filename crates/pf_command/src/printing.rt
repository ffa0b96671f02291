//! The work of a run between a reader and a writer: its report is written while the run goes on, so that no more of it
//! is held than a piece.

ghost use Rattle.std.specs.Prelude.{IfOk};
ghost use Rattle.pf_cli.specs.Args.{view_of_run_args};
ghost use Rattle.pf_command.specs.Answers.{Counts, IsNoMemory, ReportsJob};
ghost use Rattle.pf_command.specs.AskedRuns.{RunAnswers, RunCounts, RunsAs};
ghost use Rattle.pf_request.specs.Job as request;
ghost use Rattle.pf_command.specs.Streams.{IsAnsweredSo, IsOutput, PrintsAnswer, Sends, Serves, TakesBytes, WentOut};
ghost use Rattle.pf_command.specs.Streams.{streams};

use crate::answer::{Output, REFUSED, run_status};
use crate::answers::print_answer;
use crate::one_run::RunToPrint;
use crate::run::answer_of_run;
use crate::serving::MOST_BYTES;
use pf_check::ReadSource;
use pf_cli::RunArgs;
use pf_errors::OrNoMemory;
use pf_sched::{Scratch, Silent, print_run};
use pf_streams::{Counted, StreamFault};
use std::alloc::Global;
use std::io::{Read, Write};
use std::sync::ledger::Ledger;

/// Writes what is reported of a run within which memory ran out, after the lines that were written. It takes no memory.
pub(crate) fn print_no_memory<W: Write, M: Ledger>(
    writer: &mut Counted<W, M>,
) -> Result<u8, StreamFault>
    ensures { PrintsAnswer IsNoMemory (W.contents writer.old.inner) (W.contents writer.new.inner)
        writer.old.failures.total writer.new.failures.total result }
{
    writer.put(b"memory\nsteps 0\nno verdict\n")?;
    Ok(REFUSED)
}

/// Writes an answer.
pub(crate) fn print_output<W: Write, M: Ledger>(
    answer: &Output,
    writer: &mut Counted<W, M>,
) -> Result<u8, StreamFault>
    ensures { PrintsAnswer (IsOutput answer.now) (W.contents writer.old.inner) (W.contents writer.new.inner)
        writer.old.failures.total writer.new.failures.total result }
{
    writer.put(&answer.text)?;
    Ok(answer.status)
}

/// Prints the report of the run of a job, by its own choices or by a seed, as the run goes, and
/// counts how many processes still wait though its root returned.
pub(crate) fn print_one_run<W: Write, M: Ledger>(
    alloc: Global,
    run: &RunToPrint,
    writer: &mut Counted<W, M>,
    waiting: &mut u32,
) -> Result<u8, StreamFault>
    ensures reported { (k : request.Job) × RunsAs run.now.by_seed run.now.job k
        × PrintsAnswer (ReportsJob k) (W.contents writer.old.inner) (W.contents writer.new.inner)
        writer.old.failures.total writer.new.failures.total result }
    ensures waits { (k : request.Job) × RunsAs run.now.by_seed run.now.job k
        × IfOk result (WentOut (Counts k waiting.old waiting.new)
        (W.contents writer.old.inner) (W.contents writer.new.inner)) }
{
    let RunToPrint { job, by_seed } = run;
    match print_run(alloc, job, *by_seed, &mut Scratch::new(alloc), writer) {
        Ok(printed) => {
            *waiting = printed.waiting;
            Ok(run_status(printed.verdict))
        }
        Err(OrNoMemory::Fault(fault)) => Err(fault),
        Err(OrNoMemory::NoMemory) => print_no_memory(writer),
    }
}

/// Prints the answer to a source of which a run is asked for. Where a report is printed, how many
/// processes still wait though the root returned is put in `waiting`.
fn print_source<W: Write, M: Ledger>(
    alloc: Global,
    args: &RunArgs,
    source: &ReadSource,
    writer: &mut Counted<W, M>,
    waiting: &mut u32,
) -> Result<u8, OrNoMemory<StreamFault>>
    ensures reported { Sends (RunAnswers (view_of_run_args args.now) source.now)
        (W.contents writer.old.inner) (W.contents writer.new.inner)
        writer.old.failures.total writer.new.failures.total result }
    ensures waits { IfOk result (WentOut (RunCounts (view_of_run_args args.now) waiting.old waiting.new source.now)
        (W.contents writer.old.inner) (W.contents writer.new.inner)) }
{
    let answer = answer_of_run(alloc, args, source)?;
    Ok(print_answer(alloc, answer, &mut Silent, writer, waiting)?)
}

/// Answers a source of which a run is asked for: reads at most one byte more than a source may have, writes the report
/// as the run goes, or why there is none, and gives the status. Where a report is printed, how many processes still
/// wait though the root returned is put in `waiting`.
pub fn run_source<R: Read, W: Write, L: Ledger, M: Ledger>(
    alloc: Global,
    reader: &mut Counted<R, L>,
    args: &RunArgs,
    writer: &mut Counted<W, M>,
    waiting: &mut u32,
) -> Result<u8, OrNoMemory<StreamFault>>
    ensures served { Serves (RunAnswers (view_of_run_args args.now))
        (streams (R.remaining reader.old.inner) (W.contents writer.old.inner)
        reader.old.failures.total writer.old.failures.total)
        (streams (R.remaining reader.new.inner) (W.contents writer.new.inner)
        reader.new.failures.total writer.new.failures.total) result }
    ensures waits { IfOk result (λ status. IsAnsweredSo (RunCounts (view_of_run_args args.now) waiting.old waiting.new)
        (streams (R.remaining reader.old.inner) (W.contents writer.old.inner)
        reader.old.failures.total writer.old.failures.total)
        (streams (R.remaining reader.new.inner) (W.contents writer.new.inner)
        reader.new.failures.total writer.new.failures.total) status) }
    ensures taken { TakesBytes
        (streams (R.remaining reader.old.inner) (W.contents writer.old.inner)
        reader.old.failures.total writer.old.failures.total)
        (streams (R.remaining reader.new.inner) (W.contents writer.new.inner)
        reader.new.failures.total writer.new.failures.total) }
{
    let bytes = reader.take_front(alloc, MOST_BYTES)?;
    let source = ReadSource::new(alloc, bytes)?;
    print_source(alloc, args, &source, writer, waiting)
}
