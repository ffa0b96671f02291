//! A run so far, with what is written of its events.

ghost use Rattle.std.specs.Prelude.{◌≡◌, IfOk, OnOk, length};
ghost use Rattle.pf_trace.specs.Written.{events_of};
ghost use Rattle.pf_sched.specs.Asked.{IsValid};
ghost use Rattle.pf_sched.specs.Choosing.{Choosing};
ghost use Rattle.pf_sched.specs.Parts.{IsRunBy, events_in};
ghost use Rattle.pf_sched.specs.Slices.{IsRunOver, IsReportBy, RunAdvances};
ghost use Rattle.pf_sched.specs.Traces.{IsFirst};

use crate::chooser::ActorChooser;
use crate::execution::Execution;
use crate::job::Job;
use crate::scratch::Scratch;
use crate::trace::{Writer, WrittenEvents};
use pf_errors::NoMemory;
use pf_system::Spare;
use pf_trace::WrittenReport;
use std::alloc::Global;
use std::mem;

/// A run so far, with what is written of its events.
#[derive(Drop)]
pub(crate) struct Run {
    pub execution: Execution,
    pub written: WrittenEvents,
}

impl Run {
    /// The run of a job where this chooses, before its first event.
    pub fn new(alloc: Global, job: &Job, chooser: ActorChooser) -> Result<Run, NoMemory>
        ensures run { (w : Choosing) → IsFirst w chooser
            → IfOk result (λ r. IsRunBy job.now w r) }
        ensures first { IfOk result (λ r. length (events_in r) ≡ 0) }
    {
        let execution = Execution::new(alloc, job, chooser, Spare::new(alloc))?;
        let written = WrittenEvents::new(alloc);
        Ok(Run { execution, written })
    }

    /// How many events it has so far.
    pub fn len(&self) -> usize
        ensures { result ≡ length (events_in self.now) }
    {
        self.written.lines.len()
    }

    /// Goes on by n events, or fewer if the run is over before; whether it is over then. What the scratch keeps is
    /// used, and what is spare then comes back to it.
    pub fn go_on(
        &mut self,
        alloc: Global,
        job: &Job,
        scratch: &mut Scratch,
        turns: u32,
    ) -> Result<bool, NoMemory>
        ensures run { IfOk result (RunAdvances job.now self.old self.new turns) }
        ensures valid { OnOk result (IsValid job.now) }
    {
        let written = mem::replace(&mut self.written, WrittenEvents::new(alloc));
        let mut writer = Writer::new(job, written);
        let went = self
            .execution
            .go_on(alloc, job.limit(), scratch, turns, &mut writer);
        self.written = writer.written;
        went
    }

    /// The report of a run that is over.
    pub fn report(self, alloc: Global, job: &Job) -> Result<WrittenReport, NoMemory>
        ensures { IfOk result (λ r. (w : Choosing) → IsRunBy job.now w self
            → IsRunOver job.now.asked.limit self.execution
            → IsReportBy job.now w r × (events_of r.lines ≡ events_in self)) }
    {
        let Run { execution, written } = self;
        let outcome = execution.system.outcome(alloc)?;
        let steps = execution.system.steps();
        let verdict = job.property.judge(written.ruled_out, &outcome);
        Ok(WrittenReport {
            lines: written.lines.finish(),
            outcome,
            steps,
            verdict,
        })
    }
}
