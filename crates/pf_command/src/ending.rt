//! How a run that fails is reported: its seed and its choices are written first, which takes no memory, so that they
//! are known whatever comes after.

ghost use Rattle.std.specs.Prelude.{◌≡◌, ◌++◌, List, ℕ, Some, OnErr, OnOk, IfErr, IfOk, codes, map, option_map};
ghost use Rattle.std.specs.Fmt.{decimal};
ghost use Rattle.std.specs.Io.KnownBytes.{Appends};
ghost use Rattle.pf_streams.specs.Streams.{AppendsFront, CountsWrite};
ghost use Rattle.pf_model.specs.Reports.{view_of_report};
ghost use Rattle.pf_text.specs.Schedules.{schedule_text};
ghost use Rattle.pf_hunt.specs.Notices.{Notice};
ghost use Rattle.pf_hunt.specs.Views.{failure_of, further_of};
ghost use Rattle.pf_cli.specs.Args.{view_of_hunt_args};
ghost use Rattle.pf_cli.specs.declared.args.HuntGoal.TheVariants.{Failure};
ghost use Rattle.pf_command.specs.Answers.{AnswersRun};
ghost use Rattle.pf_check.specs.Reading.{IsModuleOf};
ghost use Rattle.pf_command.specs.Hunts.{IsLeastFailure, PrintsReport, PrintsShrinking, PrintsSought};
ghost use Rattle.pf_command.specs.Hunts as hunts;
ghost use Rattle.pf_command.specs.Hunts.{choices_of, failed_text, reported_by, seed_lines, seed_text};
ghost use Rattle.pf_command.specs.Hunts.{shrinking_of, strategy_text};
ghost use Rattle.pf_command.specs.Streams.{PrintsAnswer};
ghost use Rattle.pf_command.specs.Waiting.{Adds, after_commas};

use crate::answer::{FAILED, Output};
use crate::printing::{print_no_memory, print_output};
use crate::seeds::choices_of;
use crate::seek::shrink;
use crate::waiting::{OutputBuffer, add, add_number};
use pf_check::ReadModule;
use pf_cli::HuntArgs;
use pf_errors::{NoMemory, OrNoMemory};
use pf_hunt::{FailingSeed, Hunt};
use pf_model::report::{Event, Report};
use pf_sched::{Job, Observer};
use pf_strategy::{Sampling, Strategy};
use pf_streams::{Counted, StreamFault};
use pf_trace::print_report;
use pf_verdicts::{FailureCause, cause_of};
use std::alloc::Global;
use std::io::Write;
use std::sync::ledger::Ledger;

/// A run that fails: what was asked for, the hunt that found it, the module, its seed and its report; and within how
/// many runs its schedule is to be shrunk, if it is.
#[derive(Drop)]
pub struct FailingRun<'a> {
    pub args: &'a HuntArgs<'a>,
    pub hunt: Hunt,
    pub module: ReadModule,
    pub failure: FailingSeed,
    pub runs: Option<u32>,
}

/// Adds a comma and a choice.
fn add_choice<W: Write, M: Ledger>(
    waiting: &mut OutputBuffer,
    choice: u32,
    writer: &mut Counted<W, M>,
) -> Result<(), StreamFault>
    ensures added { OnOk result (Adds waiting.old.items (codes "," ++ decimal choice)
        waiting.new.items (W.contents writer.old.inner) (W.contents writer.new.inner)) }
    ensures kept { OnOk result (writer.new.failures.total ≡ writer.old.failures.total) }
    ensures front { OnErr result (AppendsFront (W.contents writer.old.inner) (W.contents writer.new.inner)
        (waiting.old.items ++ (codes "," ++ decimal choice))) }
    ensures counted { IfErr result (λ e. CountsWrite e writer.old.failures.total writer.new.failures.total) }
{
    add(waiting, b",", writer)?;
    add_number(waiting, u64::from(choice), writer)
}

/// Adds the choices of events, each after a comma.
fn add_others<W: Write, M: Ledger>(
    waiting: &mut OutputBuffer,
    events: &[Event],
    writer: &mut Counted<W, M>,
) -> Result<(), StreamFault>
    ensures added { OnOk result (Adds waiting.old.items (after_commas (map (λ e. e.choice) events.now))
        waiting.new.items (W.contents writer.old.inner) (W.contents writer.new.inner)) }
    ensures kept { OnOk result (writer.new.failures.total ≡ writer.old.failures.total) }
    ensures front { OnErr result (AppendsFront (W.contents writer.old.inner) (W.contents writer.new.inner)
        (waiting.old.items ++ after_commas (map (λ e. e.choice) events.now))) }
    ensures counted { IfErr result (λ e. CountsWrite e writer.old.failures.total writer.new.failures.total) }
{
    for event in events {
        add_choice(waiting, event.choice, writer)?;
    }
    Ok(())
}

/// Adds the choices of events, with commas between them, or `none`.
fn add_choices<W: Write, M: Ledger>(
    waiting: &mut OutputBuffer,
    events: &[Event],
    writer: &mut Counted<W, M>,
) -> Result<(), StreamFault>
    ensures added { OnOk result (Adds waiting.old.items (schedule_text (map (λ e. e.choice) events.now))
        waiting.new.items (W.contents writer.old.inner) (W.contents writer.new.inner)) }
    ensures kept { OnOk result (writer.new.failures.total ≡ writer.old.failures.total) }
    ensures front { OnErr result (AppendsFront (W.contents writer.old.inner) (W.contents writer.new.inner)
        (waiting.old.items ++ schedule_text (map (λ e. e.choice) events.now))) }
    ensures counted { IfErr result (λ e. CountsWrite e writer.old.failures.total writer.new.failures.total) }
{
    match events.split_first() {
        None => add(waiting, b"none", writer),
        Some((first, others)) => {
            add_number(waiting, u64::from(first.choice), writer)?;
            add_others(waiting, others, writer)
        }
    }
}

/// The line that names a strategy, if it is the one by priorities.
fn strategy_line(strategy: Strategy) -> &'static [u8]
    ensures { result.now ≡ strategy_text strategy }
{
    match strategy.sampling {
        Sampling::Priorities => b"strategy pos\n",
        Sampling::Uniform => b"",
    }
}

/// Adds the line of a seed.
fn add_seed<W: Write, M: Ledger>(
    waiting: &mut OutputBuffer,
    seed: u64,
    writer: &mut Counted<W, M>,
) -> Result<(), StreamFault>
    ensures added { OnOk result (Adds waiting.old.items (codes "seed " ++ decimal seed ++ codes "\n")
        waiting.new.items (W.contents writer.old.inner) (W.contents writer.new.inner)) }
    ensures kept { OnOk result (writer.new.failures.total ≡ writer.old.failures.total) }
    ensures front { OnErr result (AppendsFront (W.contents writer.old.inner) (W.contents writer.new.inner)
        (waiting.old.items ++ (codes "seed " ++ decimal seed ++ codes "\n"))) }
    ensures counted { IfErr result (λ e. CountsWrite e writer.old.failures.total writer.new.failures.total) }
{
    add(waiting, b"seed ", writer)?;
    add_number(waiting, seed, writer)?;
    add(waiting, b"\n", writer)
}

/// The property that fails by this cause.
fn failed_property<'a>(args: &'a HuntArgs, cause: FailureCause) -> Option<&'a [u8]>
    ensures { option_map (λ s. s.now) result ≡ hunts.failed_property (view_of_hunt_args args.now) cause }
{
    match cause {
        FailureCause::Property => Some(args.request.property.as_slice()),
        FailureCause::Further(index) => match args.further.get(index) {
            Some(text) => Some(text.as_bytes()),
            None => None,
        },
        FailureCause::Leak => None,
    }
}

/// The property that a schedule is shrunk by: the one that fails, or else the first.
fn shrunk_property<'a>(args: &'a HuntArgs, cause: FailureCause) -> &'a [u8]
    ensures { result.now ≡ hunts.shrunk_property (view_of_hunt_args args.now) cause }
{
    match failed_property(args, cause) {
        Some(property) => property,
        None => args.request.property.as_slice(),
    }
}

/// The property that is named as the one that fails: where a hunt looks for several.
pub fn named_property<'a>(args: &'a HuntArgs, cause: FailureCause) -> Option<&'a [u8]>
    ensures { option_map (λ s. s.now) result ≡ hunts.named_property (view_of_hunt_args args.now) cause }
{
    if args.further.is_empty() {
        None
    } else {
        failed_property(args, cause)
    }
}

/// Adds the line of the property that fails, if it is named.
fn add_failed<W: Write, M: Ledger>(
    waiting: &mut OutputBuffer,
    property: Option<&[u8]>,
    writer: &mut Counted<W, M>,
) -> Result<(), StreamFault>
    ensures added { OnOk result (Adds waiting.old.items (failed_text (option_map (λ s. s.now) property.entry))
        waiting.new.items (W.contents writer.old.inner) (W.contents writer.new.inner)) }
    ensures kept { OnOk result (writer.new.failures.total ≡ writer.old.failures.total) }
    ensures front { OnErr result (AppendsFront (W.contents writer.old.inner) (W.contents writer.new.inner)
        (waiting.old.items ++ failed_text (option_map (λ s. s.now) property.entry))) }
    ensures counted { IfErr result (λ e. CountsWrite e writer.old.failures.total writer.new.failures.total) }
{
    let Some(property) = property else {
        return Ok(());
    };
    add(waiting, b"fails ", writer)?;
    add(waiting, property, writer)?;
    add(waiting, b"\n", writer)
}

/// Adds the line of a seed and that of the property that fails.
fn add_front<W: Write, M: Ledger>(
    waiting: &mut OutputBuffer,
    seed: u64,
    property: Option<&[u8]>,
    writer: &mut Counted<W, M>,
) -> Result<(), StreamFault>
    ensures added { OnOk result (Adds waiting.old.items (seed_lines seed (option_map (λ s. s.now) property.entry))
        waiting.new.items (W.contents writer.old.inner) (W.contents writer.new.inner)) }
    ensures kept { OnOk result (writer.new.failures.total ≡ writer.old.failures.total) }
    ensures front { OnErr result (AppendsFront (W.contents writer.old.inner) (W.contents writer.new.inner)
        (waiting.old.items ++ seed_lines seed (option_map (λ s. s.now) property.entry))) }
    ensures counted { IfErr result (λ e. CountsWrite e writer.old.failures.total writer.new.failures.total) }
{
    add_seed(waiting, seed, writer)?;
    add_failed(waiting, property, writer)
}

/// Writes the seed of a run that fails, the property that does, if it is named, the strategy and the choices, each on a
/// line. It takes no memory.
fn print_seed<W: Write, M: Ledger>(
    strategy: Strategy,
    property: Option<&[u8]>,
    failure: &FailingSeed,
    writer: &mut Counted<W, M>,
) -> Result<(), StreamFault>
    ensures written { OnOk result (Appends (W.contents writer.old.inner) (W.contents writer.new.inner)
        (seed_text failure.now.seed (option_map (λ s. s.now) property.entry) strategy (choices_of
        (view_of_report failure.now.report)))) }
    ensures kept { OnOk result (writer.new.failures.total ≡ writer.old.failures.total) }
    ensures front { OnErr result (AppendsFront (W.contents writer.old.inner) (W.contents writer.new.inner)
        (seed_text failure.now.seed (option_map (λ s. s.now) property.entry) strategy
        (choices_of (view_of_report failure.now.report)))) }
    ensures counted { IfErr result (λ e. CountsWrite e writer.old.failures.total writer.new.failures.total) }
{
    let mut waiting = OutputBuffer::new();
    add_front(&mut waiting, failure.seed, property, writer)?;
    add(&mut waiting, strategy_line(strategy), writer)?;
    add(&mut waiting, b"schedule ", writer)?;
    add_choices(&mut waiting, &failure.report.events, writer)?;
    add(&mut waiting, b"\n", writer)?;
    writer.put(waiting.as_slice())
}

/// The report of a run by the property that fails.
fn reported(mut report: Report, cause: FailureCause) -> Report
    ensures { view_of_report result ≡ reported_by cause (view_of_report report) }
{
    if matches!(cause, FailureCause::Further(_)) {
        report.verdict = Some(false);
    }
    report
}

/// Prints the report of a run that fails; if memory runs out within it, that it did.
fn print_failure<W: Write, M: Ledger>(
    alloc: Global,
    job: &Job,
    report: &Report,
    writer: &mut Counted<W, M>,
) -> Result<u8, StreamFault>
    ensures { PrintsAnswer (PrintsReport job.now (view_of_report report.now))
        (W.contents writer.old.inner) (W.contents writer.new.inner)
        writer.old.failures.total writer.new.failures.total result }
{
    match print_report(alloc, report, job.module().atoms(), writer) {
        Ok(()) => Ok(FAILED),
        Err(OrNoMemory::Fault(fault)) => Err(fault),
        Err(OrNoMemory::NoMemory) => print_no_memory(writer),
    }
}

/// A run whose choices are to be shrunk: its module, the property that fails, its report, and within how many runs.
#[derive(Drop)]
struct RunToShrink<'a> {
    module: ReadModule,
    property: &'a [u8],
    report: &'a Report,
    runs: u32,
}

/// What the shrinking of the choices of a run is answered with.
fn shrink_report(
    alloc: Global,
    args: &HuntArgs,
    run: RunToShrink<'_>,
    observer: &mut impl Observer,
) -> Result<Output, NoMemory>
    ensures { IfOk result (λ a. (bytes : List ℕ) → IsModuleOf bytes run.entry.«module»
        → AnswersRun (shrinking_of (view_of_hunt_args args.now) run.entry.property.now
        (choices_of (view_of_report run.entry.report.now)) run.entry.runs) bytes a.text.items a.status) }
{
    let RunToShrink {
        module,
        property,
        report,
        runs,
    } = run;
    let choices = choices_of(alloc, report)?;
    shrink(alloc, args, property, module, choices, runs, observer)
}

/// Prints what the shrinking of the choices of a run is answered with; if memory runs out within it, that it did.
fn print_shrunk<W: Write, M: Ledger>(
    alloc: Global,
    args: &HuntArgs,
    run: RunToShrink<'_>,
    observer: &mut impl Observer,
    writer: &mut Counted<W, M>,
) -> Result<u8, StreamFault>
    ensures { (bytes : List ℕ) → IsModuleOf bytes run.entry.«module»
        → PrintsAnswer (PrintsShrinking (view_of_hunt_args args.now) run.entry.property.now bytes
        (view_of_report run.entry.report.now) run.entry.runs) (W.contents writer.old.inner)
        (W.contents writer.new.inner)
        writer.old.failures.total writer.new.failures.total result }
{
    match shrink_report(alloc, args, run, observer) {
        Ok(answer) => print_output(&answer, writer),
        Err(NoMemory) => print_no_memory(writer),
    }
}

/// Prints a run that fails: its seed and its choices, and then its report, or what their shrinking is answered with.
pub(crate) fn print_found<W: Write, M: Ledger>(
    alloc: Global,
    found: FailingRun<'_>,
    observer: &mut impl Observer,
    writer: &mut Counted<W, M>,
) -> Result<u8, StreamFault>
    ensures { (bytes : List ℕ) (ns : List Notice) → IsModuleOf bytes found.entry.«module»
        → IsLeastFailure (view_of_hunt_args found.entry.args.now) found.entry.hunt.job (further_of found.entry.hunt) ns
        found.entry.args.now.end
        (Some (failure_of found.entry.failure))
        → PrintsAnswer (PrintsSought (view_of_hunt_args found.entry.args.now) bytes found.entry.hunt.job
        (further_of found.entry.hunt) ns (Failure found.entry.runs))
        (W.contents writer.old.inner) (W.contents writer.new.inner)
        writer.old.failures.total writer.new.failures.total result }
{
    let FailingRun {
        args,
        hunt,
        module,
        failure,
        runs,
    } = found;
    let cause = cause_of(&failure.report, hunt.further.as_slice());
    print_seed(args.strategy, named_property(args, cause), &failure, writer)?;
    match runs {
        Some(runs) => {
            let report = &failure.report;
            let property = shrunk_property(args, cause);
            let run = RunToShrink {
                module,
                property,
                report,
                runs,
            };
            print_shrunk(alloc, args, run, observer, writer)
        }
        None => print_failure(alloc, &hunt.job, &reported(failure.report, cause), writer),
    }
}
