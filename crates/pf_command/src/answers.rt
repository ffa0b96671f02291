//! What a source is answered with, and how that is printed.

ghost use Rattle.std.specs.Prelude.{List, ℕ, IfOk};
ghost use Rattle.pf_hunt.specs.Notices.{Notice};
ghost use Rattle.pf_command.specs.Printed.{IsFound, IsAnswerTo, MaySay, WaitsAs};
ghost use Rattle.pf_command.specs.Streams.{PrintsAnswer};

use crate::answer::Output;
use crate::ending::{FailingRun, print_found};
use crate::one_run::RunToPrint;
use crate::printing::{print_one_run, print_output};
use crate::serving::Answering;
use pf_check::ReadSource;
use pf_errors::NoMemory;
use pf_sched::Observer;
use pf_streams::{Counted, StreamFault};
use std::alloc::Global;
use std::io::Write;
use std::sync::ledger::Ledger;

/// What a source is answered with.
#[derive(Drop)]
pub enum Answer<'a> {
    /// A refusal, or a report that is whole.
    Reported(Output),
    /// A run, whose report is printed as it runs.
    Run(RunToPrint),
    /// A run that fails by a seed: it is reported after its seed and its choices.
    Found(FailingRun<'a>),
}

/// What a source is answered with by a command.
pub fn answer_by<'a, C: Answering + Drop>(
    alloc: Global,
    command: C,
    source: &ReadSource,
) -> Result<Answer<'a>, NoMemory>
    ensures { IfOk result (IsAnswerTo (C.answers command) source.now) }
{
    let answer = command.answer(alloc, source)?;
    Ok(Answer::Reported(answer))
}

/// Prints what a source is answered with, and gives the status. Of a run whose report is printed, how many processes
/// still wait though the root returned is left in `waiting`. The observer receives the progress of a shrinking.
pub fn print_answer<W: Write, M: Ledger>(
    alloc: Global,
    answer: Answer<'_>,
    observer: &mut impl Observer,
    writer: &mut Counted<W, M>,
    waiting: &mut u32,
) -> Result<u8, StreamFault>
    ensures printed { (bytes : List ℕ) (ns : List Notice) → IsFound bytes ns answer.entry
        → PrintsAnswer (MaySay bytes ns answer.entry)
        (W.contents writer.old.inner) (W.contents writer.new.inner)
        writer.old.failures.total writer.new.failures.total result }
    ensures waits { IfOk result (WaitsAs answer.entry waiting.old waiting.new
        (W.contents writer.old.inner) (W.contents writer.new.inner)) }
{
    match answer {
        Answer::Reported(answer) => print_output(&answer, writer),
        Answer::Run(one) => print_one_run(alloc, &one, writer, waiting),
        Answer::Found(found) => print_found(alloc, found, observer, writer),
    }
}
