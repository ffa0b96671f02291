//! Runs whose reports are written while they go on: no event is kept, and of the lines only those that aren't written
//! yet.

ghost use Rattle.std.specs.Prelude.{◌≡◌, ◌++◌, ◌∷◌, ◌<◌, [], List, ℕ, zero, IfErr, IfOk, IsNone, Option, OnOk};
ghost use Rattle.pf_model.specs.Meaning as model;
ghost use Rattle.pf_model.specs.Reports.{view_of_event, label_of};
ghost use Rattle.pf_request.specs.Job as request;
ghost use Rattle.pf_trace.specs.Written.{AreWrittenSoFar, gone_from};
ghost use Rattle.pf_sched.specs.Asked.{IsValid};
ghost use Rattle.pf_sched.specs.Choosing.{Choosing, choosing_of};
ghost use Rattle.pf_sched.specs.Parts.{Executes};
ghost use Rattle.pf_sched.specs.Printing.{CutsShort, HasPrinted, HasStopped, IsPrinted, PrintsRun, PrintsOn};
ghost use Rattle.pf_sched.specs.Printing.{atom_names_of};
ghost use Rattle.pf_sched.specs.Slices.{IsRunOver};
ghost use Rattle.pf_sched.specs.Reported.{event};
ghost use Rattle.pf_sched.specs.declared.printing.Printer.{Printer};

use crate::evidence::Evidence;
use crate::execution::{Chosen, Execution};
use crate::job::Job;
use crate::scratch::Scratch;
use crate::whole::{Judged, first_execution, judge};
use pf_errors::{NoMemory, OrNoMemory};
use pf_model::report::{Event, Label};
use pf_property::Property;
use pf_strategy::SeedChoice;
use pf_streams::{Counted, StreamFault};
use pf_terms::AtomTable;
use pf_trace::Pieces;
use std::alloc::Global;
use std::io::Write;
use std::mem;
use std::sync::ledger::Ledger;

/// Writes the lines of a run's events piece by piece, and keeps what a verdict needs of them.
#[derive(Drop)]
pub(crate) struct Printer<'a> {
    property: &'a Property,
    atoms: &'a AtomTable,
    pub pieces: Pieces,
    pub evidence: Evidence,
}

impl<'a> Printer<'a> {
    /// No event.
    pub fn new(alloc: Global, job: &'a Job) -> Printer<'a>
        ensures reported { PrintsRun result job.now.asked [] }
        ensures gone { gone_from result.pieces ≡ [] }
    {
        Printer {
            property: &job.property,
            atoms: job.module().atoms(),
            pieces: Pieces::new(alloc),
            evidence: Evidence::new(),
        }
    }

    /// Adds the line of an event, and keeps what a verdict needs of it.
    fn add(&mut self, reported: &Event) -> Result<(), NoMemory>
        ensures reported { OnOk result ((j : model.Job) (es : List model.Event) → PrintsRun self.old j es
            → PrintsRun self.new j (es ++ view_of_event reported.now ∷ [])) }
        ensures gone { self.new.pieces.gone ≡ self.old.pieces.gone }
    {
        self.pieces.add(self.atoms, reported)?;
        self.evidence.see(self.property, &reported.label);
        Ok(())
    }

    /// The same of an event that an actor showed, of which the label is taken.
    fn notify(&mut self, chosen: Chosen, shown: &mut Label) -> Result<(), NoMemory>
        ensures reported { OnOk result ((j : model.Job) (es : List model.Event) → PrintsRun self.old j es
            → PrintsRun self.new j (es ++ event chosen.index chosen.among chosen.actor (label_of shown.old) ∷ [])) }
        ensures gone { self.new.pieces.gone ≡ self.old.pieces.gone }
    {
        let label = mem::replace(shown, Label::Waits);
        let reported = Event {
            choice: chosen.index,
            count: chosen.among,
            actor: chosen.actor,
            label,
        };
        self.add(&reported)
    }
}

/// Goes on with a run by one event, whose line is printed with those before it if they make a piece; whether there was
/// one, since nobody may go else.
fn print_next<W: Write, M: Ledger>(
    alloc: Global,
    execution: &mut Execution,
    limit: u32,
    shown: &mut Label,
    printer: &mut Printer<'_>,
    writer: &mut Counted<W, M>,
) -> Result<bool, OrNoMemory<StreamFault>>
    requires { execution.old.system.steps < limit }
    ensures printed { IfOk result (λ went. (j : request.Job) (u : Choosing) (es : List model.Event)
        (w0 : Option (List ℕ)) → j.asked.limit ≡ limit
        → IsPrinted j u es execution.old printer.old w0 (W.contents writer.old.inner)
        → PrintsOn j u es execution.new printer.new w0 (W.contents writer.new.inner) went) }
    ensures kept { OnOk result (writer.new.failures.total ≡ writer.old.failures.total) }
    ensures fault { IfErr result (λ e. (j : request.Job) (u : Choosing) (es : List model.Event)
        (w0 : Option (List ℕ)) → j.asked.limit ≡ limit
        → IsPrinted j u es execution.old printer.old w0 (W.contents writer.old.inner)
        → CutsShort e j u w0 (W.contents writer.new.inner)
        writer.old.failures.total writer.new.failures.total) }
{
    let Some(chosen) = execution.pass_next(alloc, limit, shown)? else {
        return Ok(false);
    };
    printer.notify(chosen, shown)?;
    printer.pieces.print_full(writer)?;
    Ok(true)
}

/// Goes on with a run of a job from its first event to its end, and prints the lines of its events but for the last,
/// which wait.
fn print_events<W: Write, M: Ledger>(
    alloc: Global,
    job: &Job,
    limit: u32,
    execution: &mut Execution,
    printer: &mut Printer<'_>,
    writer: &mut Counted<W, M>,
) -> Result<(), OrNoMemory<StreamFault>>
    requires limit { job.now.asked.limit ≡ limit }
    requires reported { PrintsRun printer.old job.now.asked [] }
    requires gone { gone_from printer.old.pieces ≡ [] }
    ensures printed { OnOk result ((u : Choosing) → Executes job.now u [] execution.old
        → (es : List model.Event) × IsPrinted job.now u es
        execution.new printer.new (W.contents writer.old.inner) (W.contents writer.new.inner)
        × IsRunOver job.now.asked.limit execution.new) }
    ensures kept { OnOk result (writer.new.failures.total ≡ writer.old.failures.total) }
    ensures fault { IfErr result (λ e. (u : Choosing) → Executes job.now u [] execution.old → CutsShort e job.now u
        (W.contents writer.old.inner) (W.contents writer.new.inner)
        writer.old.failures.total writer.new.failures.total) }
{
    let mut shown = Label::Waits;
    for _ in 0..limit {
        if execution.system.steps() >= limit {
            return Ok(());
        }
        if !print_next(alloc, execution, limit, &mut shown, printer, writer)? {
            return Ok(());
        }
    }
    Ok(())
}

/// What is known of a run whose report was written: whether its property holds, and how many processes still wait at
/// its end, where its root returned; else none are reported.
#[derive(Drop, Clone, Copy)]
pub struct PrintedRun {
    pub verdict: Option<bool>,
    pub waiting: u32,
}

/// Prints what is left of the report of a run that is over, and returns what is known of it.
fn print_rest<W: Write, M: Ledger>(
    alloc: Global,
    job: &Job,
    execution: &Execution,
    pieces: Pieces,
    evidence: Evidence,
    writer: &mut Counted<W, M>,
) -> Result<PrintedRun, OrNoMemory<StreamFault>>
    requires valid { IsValid job.now }
    requires written { AreWrittenSoFar (atom_names_of job.now) pieces.lines }
    ensures printed { IfOk result (λ v. (u : Choosing) (es : List model.Event) (p : Printer)
        (w0 : Option (List ℕ)) → p.pieces ≡ pieces → p.evidence ≡ evidence
        → IsPrinted job.now u es execution.now p w0 (W.contents writer.old.inner)
        → IsRunOver job.now.asked.limit execution.now
        → HasPrinted job.now u v w0 (W.contents writer.new.inner)) }
    ensures kept { OnOk result (writer.new.failures.total ≡ writer.old.failures.total) }
    ensures fault { IfErr result (λ e. (u : Choosing) (es : List model.Event) (p : Printer)
        (w0 : Option (List ℕ)) → p.pieces ≡ pieces → p.evidence ≡ evidence
        → IsPrinted job.now u es execution.now p w0 (W.contents writer.old.inner)
        → IsRunOver job.now.asked.limit execution.now
        → CutsShort e job.now u w0 (W.contents writer.new.inner)
        writer.old.failures.total writer.new.failures.total) }
{
    let system = &execution.system;
    let Judged {
        outcome,
        verdict,
        waiting,
    } = judge(alloc, job, system, evidence)?;
    let atoms = job.module().atoms();
    pieces.print_end(atoms, &outcome, system.steps(), verdict, writer)?;
    Ok(PrintedRun { verdict, waiting })
}

/// Prints the report of a run from its first event on, as it goes.
fn print_execution<W: Write, M: Ledger>(
    alloc: Global,
    job: &Job,
    limit: u32,
    execution: &mut Execution,
    writer: &mut Counted<W, M>,
) -> Result<PrintedRun, OrNoMemory<StreamFault>>
    requires limit { job.now.asked.limit ≡ limit }
    requires valid { IsValid job.now }
    requires first { (u : Choosing) × Executes job.now u [] execution.old }
    ensures printed { IfOk result (λ p. (u : Choosing) → Executes job.now u [] execution.old
        → HasPrinted job.now u p (W.contents writer.old.inner) (W.contents writer.new.inner)) }
    ensures kept { OnOk result (writer.new.failures.total ≡ writer.old.failures.total) }
    ensures fault { IfErr result (λ e. (u : Choosing) → Executes job.now u [] execution.old
        → CutsShort e job.now u (W.contents writer.old.inner) (W.contents writer.new.inner)
        writer.old.failures.total writer.new.failures.total) }
{
    let mut printer = Printer::new(alloc, job);
    print_events(alloc, job, limit, execution, &mut printer, writer)?;
    let Printer {
        pieces,
        evidence,
        ..
    } = printer;
    let printed = print_rest(alloc, job, execution, pieces, evidence, writer)?;
    Ok(printed)
}

/// Prints the report of a job that is one run, by its own choices or by a seed in place of them, as the run goes, and
/// gives its verdict and how many processes still wait though its root returned. Where a write fails, a beginning of
/// the report was written; where memory runs out, the lines of its first events were. What is in the scratch makes no
/// difference.
pub fn print_run<W: Write, M: Ledger>(
    alloc: Global,
    job: &Job,
    by_seed: Option<SeedChoice>,
    scratch: &mut Scratch,
    writer: &mut Counted<W, M>,
) -> Result<PrintedRun, OrNoMemory<StreamFault>>
    requires { IsNone by_seed → job.now.asked.runs ≡ zero }
    ensures printed { IfOk result (λ p. HasPrinted job.now (choosing_of by_seed job.now.asked) p
        (W.contents writer.old.inner) (W.contents writer.new.inner)) }
    ensures kept { OnOk result (writer.new.failures.total ≡ writer.old.failures.total) }
    ensures fault { IfErr result (λ e. HasStopped e job.now (choosing_of by_seed job.now.asked)
        (W.contents writer.old.inner) (W.contents writer.new.inner)
        writer.old.failures.total writer.new.failures.total) }
{
    let limit = job.limit();
    let mut execution = first_execution(alloc, job, by_seed, scratch.take_spare(alloc))?;
    let printed = print_execution(alloc, job, limit, &mut execution, writer);
    scratch.put_spare(execution.system.into_spare());
    printed
}
