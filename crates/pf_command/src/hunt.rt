//! What a source is answered with whose runs by many seeds are asked for.

ghost use Rattle.std.specs.Prelude.{IfOk, Ok};
ghost use Rattle.pf_hunt.specs.Notices.{HearsSome};
ghost use Rattle.pf_cli.specs.Args.{view_of_hunt_args};
ghost use Rattle.pf_command.specs.Hunts.{HuntAnswers, HuntNotifies};
ghost use Rattle.pf_command.specs.Printed.{HuntEndsAs};
ghost use Rattle.pf_command.specs.Streams.{IsAnsweredSo, PrintsAnswer, Sends, Serves, TakesBytes, streams};

use crate::answers::{Answer, print_answer};
use crate::seek::{hunted_of, seek_failure, seek_outcomes};
use crate::serving::MOST_BYTES;
use pf_check::ReadSource;
use pf_cli::{HuntArgs, HuntGoal};
use pf_errors::{NoMemory, OrNoMemory};
use pf_hunt::HuntObserver;
use pf_sched::Observer;
use pf_streams::{Counted, StreamFault};
use std::alloc::{AllocGlobal, Global};
use std::io::{Read, Write};
use std::sync::ledger::Ledger;
use std::thread::Threads;

/// A hunt that is asked for, and how many workers share its seeds.
#[derive(Clone, Copy)]
pub struct HuntRequest<'a> {
    pub args: &'a HuntArgs<'a>,
    pub workers: u64,
}

/// The result for a source: an answer, or a run that fails, which is still to be printed.
pub fn answer_of_hunt<'a, T: Threads + Sync, S: HuntObserver>(
    rt: &T,
    alloc: Global,
    asked: &HuntRequest<'a>,
    source: &ReadSource,
    seeds: &mut S,
) -> Result<Answer<'a>, NoMemory>
    ensures { IfOk result (λ x. HearsSome S.Heard seeds.old (HuntEndsAs (view_of_hunt_args asked.now.args.now)
        (view_of_hunt_args asked.now.args.now).sought source.now x) seeds.new) }
{
    let hunted = match hunted_of(alloc, asked.args, source) {
        Ok(hunted) => hunted,
        Err(OrNoMemory::Fault(answer)) => return Ok(Answer::Reported(answer)),
        Err(OrNoMemory::NoMemory) => return Err(NoMemory),
    };
    match asked.args.sought {
        HuntGoal::Failure { runs } => seek_failure(rt, alloc, asked, hunted, runs, seeds),
        HuntGoal::Outcomes => {
            let answer = seek_outcomes(rt, alloc, asked, hunted, seeds)?;
            Ok(Answer::Reported(answer))
        }
    }
}

/// Prints what a source is answered with.
fn print_hunt<W: Write, M: Ledger, T: AllocGlobal + Threads + Sync, S: HuntObserver>(
    rt: &T,
    asked: &HuntRequest,
    source: &ReadSource,
    writer: &mut Counted<W, M>,
    seeds: &mut S,
    observer: &mut impl Observer,
) -> Result<u8, OrNoMemory<StreamFault>>
    ensures sent { Sends (HuntAnswers (view_of_hunt_args asked.now.args.now) source.now)
        (W.contents writer.old.inner) (W.contents writer.new.inner)
        writer.old.failures.total writer.new.failures.total result }
    ensures heard { IfOk result (λ status. HearsSome S.Heard seeds.old
        (λ ns. PrintsAnswer (HuntNotifies (view_of_hunt_args asked.now.args.now) ns source.now)
        (W.contents writer.old.inner) (W.contents writer.new.inner)
        writer.old.failures.total writer.new.failures.total (Ok status)) seeds.new) }
{
    let alloc = rt.alloc();
    let answer = answer_of_hunt(rt, alloc, asked, source, seeds)?;
    Ok(print_answer(alloc, answer, observer, writer, &mut 0)?)
}

/// Answers a source whose runs by many seeds are asked for: reads at most one byte more than a source may have, writes
/// a text and gives the status. The observer of the seeds receives how far the hunt came and the least leak, and
/// answers how it goes on; the other observer receives the progress of a shrinking.
pub fn hunt_source<R, W, L, M, T, S>(
    rt: &T,
    reader: &mut Counted<R, L>,
    asked: &HuntRequest,
    writer: &mut Counted<W, M>,
    seeds: &mut S,
    observer: &mut impl Observer,
) -> Result<u8, OrNoMemory<StreamFault>>
where
    R: Read,
    W: Write,
    L: Ledger,
    M: Ledger,
    T: AllocGlobal + Threads + Sync,
    S: HuntObserver,
    ensures served { Serves (HuntAnswers (view_of_hunt_args asked.now.args.now))
        (streams (R.remaining reader.old.inner) (W.contents writer.old.inner)
        reader.old.failures.total writer.old.failures.total)
        (streams (R.remaining reader.new.inner) (W.contents writer.new.inner)
        reader.new.failures.total writer.new.failures.total) result }
    ensures heard { IfOk result (λ status. HearsSome S.Heard seeds.old
        (λ ns. IsAnsweredSo (HuntNotifies (view_of_hunt_args asked.now.args.now) ns)
        (streams (R.remaining reader.old.inner) (W.contents writer.old.inner)
        reader.old.failures.total writer.old.failures.total)
        (streams (R.remaining reader.new.inner) (W.contents writer.new.inner)
        reader.new.failures.total writer.new.failures.total) status) seeds.new) }
    ensures taken { TakesBytes
        (streams (R.remaining reader.old.inner) (W.contents writer.old.inner)
        reader.old.failures.total writer.old.failures.total)
        (streams (R.remaining reader.new.inner) (W.contents writer.new.inner)
        reader.new.failures.total writer.new.failures.total) }
{
    let alloc = rt.alloc();
    let bytes = reader.take_front(alloc, MOST_BYTES)?;
    let source = ReadSource::new(alloc, bytes)?;
    print_hunt(rt, asked, &source, writer, seeds, observer)
}
