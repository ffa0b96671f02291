//! The actions of exits: the signal to another process, and the flag that traps them.

ghost use Rattle.std.specs.Prelude.{IfOk};
ghost use Rattle.pf_terms.specs.Term.{value_of};
ghost use Rattle.pf_model.specs.Contraction.{exit_other, set_flag};
ghost use Rattle.pf_system.specs.Acts.{ActsAs, IsMember, answer};

use crate::shared::{Shared, giving_true, raising};
use pf_errors::NoMemory;
use pf_model::Signal;
use pf_model::report::Label;
use pf_ops::{truth, truth_of};
use pf_terms::{AtomId, Term, copy, equal};
use std::alloc::Global;

impl Shared {
    /// `exit/2`.
    pub(crate) fn exit_other(
        &mut self,
        alloc: Global,
        pid: u32,
        other: Term,
        reason: Term,
        shown: &mut Label,
    ) -> Result<Result<Term, Term>, NoMemory>
        requires { IsMember pid self.old }
        ensures { IfOk result (λ v. ActsAs pid (exit_other (value_of other) (value_of reason))
            self.old (answer v shown.new) self.new) }
    {
        let Term::Pid(other) = other else {
            return Ok(raising(AtomId::BADARG, shown));
        };
        let signal = Signal::Exit {
            by_link: false,
            reason: copy(&reason)?,
        };
        self.channels.send(alloc, pid, other, signal)?;
        let label = Label::Exits { pid: other, reason };
        Ok(giving_true(label, shown))
    }

    /// `process_flag/2`, which returns what the flag was.
    pub(crate) fn set_flag(
        &mut self,
        pid: u32,
        flag: Term,
        setting: Term,
        shown: &mut Label,
    ) -> Result<Term, Term>
        requires { IsMember pid self.old }
        ensures { ActsAs pid (set_flag (value_of flag) (value_of setting))
            self.old (answer result shown.new) self.new }
    {
        let Some(traps) = truth_of(&setting) else {
            return raising(AtomId::BADARG, shown);
        };
        if !equal(&flag, &Term::Atom(AtomId::TRAP_EXIT)) {
            return raising(AtomId::BADARG, shown);
        }
        let was = self.ties.set_flag(pid, traps);
        *shown = Label::SetsFlag(traps);
        Ok(truth(was))
    }
}
