//! The actions of monitors and references.

ghost use Rattle.std.specs.Prelude.{◌≡◌, IfOk};
ghost use Rattle.pf_terms.specs.Term.{value_of};
ghost use Rattle.pf_model.specs.Contraction.{make_ref, monitor};
ghost use Rattle.pf_model.specs.Actions.{demonitored_so, monitored};
ghost use Rattle.pf_ties.specs.Laws.{ties_of};
ghost use Rattle.pf_system.specs.Acts.{CarriesOut, ActsAs, IsMember, answer};

use crate::shared::{Shared, giving_true, raising};
use pf_errors::NoMemory;
use pf_model::Signal;
use pf_model::report::Label;
use pf_terms::{AtomId, Term, equal};
use std::alloc::Global;

impl Shared {
    /// `monitor/2`.
    pub(crate) fn monitor(
        &mut self,
        alloc: Global,
        pid: u32,
        kind: Term,
        other: Term,
        shown: &mut Label,
    ) -> Result<Result<Term, Term>, NoMemory>
        requires { IsMember pid self.old }
        ensures { IfOk result (λ v. ActsAs pid (monitor (value_of kind) (value_of other))
            self.old (answer v shown.new) self.new) }
    {
        let Term::Pid(other) = other else {
            return Ok(raising(AtomId::BADARG, shown));
        };
        if !equal(&kind, &Term::Atom(AtomId::PROCESS)) {
            return Ok(raising(AtomId::BADARG, shown));
        }
        self.watch(alloc, pid, other, shown)
    }

    /// A new reference watches a process.
    fn watch(
        &mut self,
        alloc: Global,
        pid: u32,
        other: u32,
        shown: &mut Label,
    ) -> Result<Result<Term, Term>, NoMemory>
        requires { IsMember pid self.old }
        ensures { IfOk result (λ v. (c : _) → ties_of c ≡ self.old.ties
            → CarriesOut (monitored c pid other) pid self.old (answer v shown.new) self.new) }
    {
        if self.ties.next_reference() == u64::MAX {
            return Err(NoMemory);
        }
        let reference = self.ties.monitor(alloc, pid, other)?;
        self.channels
            .send(alloc, pid, other, Signal::Monitor(reference))?;
        *shown = Label::Monitors {
            reference,
            pid: other,
        };
        Ok(Ok(Term::Ref(reference)))
    }

    /// A reference no longer watches. A signal is sent where it was active.
    pub(crate) fn demonitor(
        &mut self,
        alloc: Global,
        pid: u32,
        reference: u64,
        flushes: bool,
        shown: &mut Label,
    ) -> Result<Result<Term, Term>, NoMemory>
        requires { IsMember pid self.old }
        ensures { IfOk result (λ v. (c : _) → ties_of c ≡ self.old.ties
            → CarriesOut (demonitored_so c pid reference flushes) pid
            self.old (answer v shown.new) self.new) }
    {
        if let Some(other) = self.ties.demonitor(pid, reference) {
            self.channels
                .send(alloc, pid, other, Signal::Demonitor(reference))?;
        }
        let label = Label::Demonitors { flushes, reference };
        Ok(giving_true(label, shown))
    }

    /// `make_ref/0`.
    pub(crate) fn make_reference(
        &mut self,
        pid: u32,
        shown: &mut Label,
    ) -> Result<Result<Term, Term>, NoMemory>
        ensures { IfOk result (λ v. ActsAs pid make_ref self.old (answer v shown.new) self.new) }
    {
        if self.ties.next_reference() == u64::MAX {
            return Err(NoMemory);
        }
        let reference = self.ties.make_reference();
        *shown = Label::MakesReference(reference);
        Ok(Ok(Term::Ref(reference)))
    }
}
