//! The actions of names.

ghost use Rattle.std.specs.Prelude.{IfOk};
ghost use Rattle.pf_terms.specs.Term.{value_of};
ghost use Rattle.pf_model.specs.Contraction.{register, unregister, whereis};
ghost use Rattle.pf_system.specs.Acts.{ActsAs, answer};

use crate::shared::{Shared, giving_true, raising};
use pf_errors::{NoMemory, OrNoMemory};
use pf_model::report::Label;
use pf_terms::{AtomId, Term};
use pf_ties::BadArgument;
use std::alloc::Global;

impl Shared {
    /// `register/2`.
    pub(crate) fn register(
        &mut self,
        alloc: Global,
        pid: u32,
        name: Term,
        other: Term,
        shown: &mut Label,
    ) -> Result<Result<Term, Term>, NoMemory>
        ensures { IfOk result (λ v. ActsAs pid (register (value_of name) (value_of other))
            self.old (answer v shown.new) self.new) }
    {
        let Term::Atom(name) = name else {
            return Ok(raising(AtomId::BADARG, shown));
        };
        let Term::Pid(other) = other else {
            return Ok(raising(AtomId::BADARG, shown));
        };
        match self.ties.register(alloc, name, other) {
            Ok(()) => Ok(giving_true(Label::Registers { name, pid: other }, shown)),
            Err(OrNoMemory::Fault(BadArgument)) => Ok(raising(AtomId::BADARG, shown)),
            Err(OrNoMemory::NoMemory) => Err(NoMemory),
        }
    }

    /// `unregister/1`.
    pub(crate) fn unregister(
        &mut self,
        pid: u32,
        name: Term,
        shown: &mut Label,
    ) -> Result<Term, Term>
        ensures { ActsAs pid (unregister (value_of name)) self.old (answer result shown.new) self.new }
    {
        let Term::Atom(name) = name else {
            return raising(AtomId::BADARG, shown);
        };
        match self.ties.unregister(name) {
            Ok(()) => giving_true(Label::Unregisters(name), shown),
            Err(BadArgument) => raising(AtomId::BADARG, shown),
        }
    }

    /// `whereis/1`.
    pub(crate) fn whereis(&mut self, pid: u32, name: Term, shown: &mut Label) -> Result<Term, Term>
        ensures { ActsAs pid (whereis (value_of name)) self.old (answer result shown.new) self.new }
    {
        let Term::Atom(name) = name else {
            return raising(AtomId::BADARG, shown);
        };
        *shown = Label::LooksUp(name);
        let value = match self.ties.whereis(name) {
            Some(other) => Term::Pid(other),
            None => Term::Atom(AtomId::UNDEFINED),
        };
        Ok(value)
    }
}
