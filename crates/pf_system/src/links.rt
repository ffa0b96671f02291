//! The actions of messages and links.

ghost use Rattle.std.specs.Prelude.{◌≡◌, IfOk};
ghost use Rattle.pf_terms.specs.Term.{value_of};
ghost use Rattle.pf_model.specs.Actions.{receiver};
ghost use Rattle.pf_model.specs.Contraction.{link, send, unlink};
ghost use Rattle.pf_ties.specs.Laws.{ties_of};
ghost use Rattle.pf_system.specs.Acts.{ActsAs, IsMember, answer};

use crate::shared::{Shared, giving_true, raising};
use pf_errors::NoMemory;
use pf_model::Signal;
use pf_model::report::Label;
use pf_terms::{AtomId, Term, copy};
use std::alloc::Global;

impl Shared {
    /// Who a message is for: a pid, or a name in use.
    fn receiver(&self, to: &Term) -> Option<u32>
        ensures { (c : _) → ties_of c ≡ self.now.ties → result ≡ receiver c (value_of to.now) }
    {
        match to {
            Term::Pid(pid) => Some(*pid),
            Term::Atom(name) => self.ties.whereis(*name),
            _ => None,
        }
    }

    /// `to ! message`.
    pub(crate) fn send(
        &mut self,
        alloc: Global,
        pid: u32,
        to: Term,
        message: Term,
        shown: &mut Label,
    ) -> Result<Result<Term, Term>, NoMemory>
        requires { IsMember pid self.old }
        ensures { IfOk result (λ v. ActsAs pid (send (value_of to) (value_of message))
            self.old (answer v shown.new) self.new) }
    {
        let Some(to) = self.receiver(&to) else {
            return Ok(raising(AtomId::BADARG, shown));
        };
        let signal = Signal::Message(copy(&message)?);
        self.channels.send(alloc, pid, to, signal)?;
        *shown = Label::Sends {
            to,
            message: copy(&message)?,
        };
        Ok(Ok(message))
    }

    /// `link/1`. A signal is sent where the link is new and not to oneself.
    pub(crate) fn link(
        &mut self,
        alloc: Global,
        pid: u32,
        other: Term,
        shown: &mut Label,
    ) -> Result<Result<Term, Term>, NoMemory>
        requires { IsMember pid self.old }
        ensures { IfOk result
            (λ v. ActsAs pid (link (value_of other)) self.old (answer v shown.new) self.new) }
    {
        let Term::Pid(other) = other else {
            return Ok(raising(AtomId::BADARG, shown));
        };
        if self.ties.link(alloc, pid, other)? {
            self.channels.send(alloc, pid, other, Signal::Link)?;
        }
        Ok(giving_true(Label::Links(other), shown))
    }

    /// `unlink/1`. A signal is sent where there was a link.
    pub(crate) fn unlink(
        &mut self,
        alloc: Global,
        pid: u32,
        other: Term,
        shown: &mut Label,
    ) -> Result<Result<Term, Term>, NoMemory>
        requires { IsMember pid self.old }
        ensures { IfOk result
            (λ v. ActsAs pid (unlink (value_of other)) self.old (answer v shown.new) self.new) }
    {
        let Term::Pid(other) = other else {
            return Ok(raising(AtomId::BADARG, shown));
        };
        if self.ties.unlink(pid, other) {
            self.channels.send(alloc, pid, other, Signal::Unlink)?;
        }
        Ok(giving_true(Label::Unlinks(other), shown))
    }
}
