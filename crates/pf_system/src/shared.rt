//! What is between processes: their ties, and the signals on their way.

ghost use Rattle.std.specs.Prelude.{◌≡◌, ◌+◌, ◌<◌, length, map, OnOk};
ghost use Rattle.pf_terms.specs.Fixed.{true_atom};
ghost use Rattle.pf_terms.specs.Value.{atom};
ghost use Rattle.pf_model.specs.Actions.{gives, raising};
ghost use Rattle.pf_model.specs.Channels.{sent, with_senders};
ghost use Rattle.pf_model.specs.Configuration.{posted};
ghost use Rattle.pf_model.specs.Reports.{label_of};
ghost use Rattle.pf_model.specs.Signals.{signal_of};
ghost use Rattle.pf_ties.specs.Fates.{sent_of};
ghost use Rattle.pf_system.specs.Acts.{AnswersAct, answer};

use pf_channels::Channels;
use pf_errors::NoMemory;
use pf_model::Signal;
use pf_model::limits::MOST_PROCESSES;
use pf_model::report::Label;
use pf_terms::{AtomId, Term};
use pf_ties::Ties;
use std::alloc::Global;

/// The ties of all processes and the signals on their way.
#[derive(Drop)]
pub(crate) struct Shared {
    pub(crate) ties: Ties,
    pub(crate) channels: Channels,
}

/// The answer to an action that raises this reason, which it shows.
pub(crate) fn raising(reason: AtomId, shown: &mut Label) -> Result<Term, Term>
    ensures { (c : _) → AnswersAct (answer result shown.new) (raising c (atom reason.0)) }
{
    *shown = Label::Raises(Term::Atom(reason));
    Err(Term::Atom(reason))
}

/// The answer to an action that gives `true` and shows this label.
pub(crate) fn giving_true(label: Label, shown: &mut Label) -> Result<Term, Term>
    ensures { (c : _) (ss : _) → AnswersAct (answer result shown.new)
        (gives c ss true_atom (label_of label)) }
{
    *shown = label;
    Ok(Term::Atom(AtomId::TRUE))
}

impl Shared {
    /// Signals are sent from a process, one after the other.
    pub(crate) fn post(
        &mut self,
        alloc: Global,
        from: u32,
        signals: Vec<(u32, Signal)>,
    ) -> Result<(), NoMemory>
        requires { from < length self.old.channels }
        ensures posted { OnOk result
            (self.new.channels ≡ posted from (map sent_of signals.items) self.old.channels) }
        ensures ties { self.new.ties ≡ self.old.ties }
        ensures senders { length self.new.channels ≡ length self.old.channels }
    {
        for (to, signal) in signals {
            self.channels.send(alloc, from, to, signal)?;
        }
        Ok(())
    }

    /// A signal from a pid that may be of no process, which is then a sender like the others. There is no room for one
    /// past the most processes of a run, and no process can know such a pid.
    pub(crate) fn reply(
        &mut self,
        alloc: Global,
        from: u32,
        to: u32,
        signal: Signal,
    ) -> Result<(), NoMemory>
        ensures sent { OnOk result
            (self.new.channels ≡ sent from to (signal_of signal) self.old.channels) }
        ensures ties { self.new.ties ≡ self.old.ties }
    {
        if from >= MOST_PROCESSES {
            return Err(NoMemory);
        }
        self.open_to(alloc, from)?;
        self.channels.send(alloc, from, to, signal)
    }

    /// Makes room for the senders up to and with this one.
    pub(crate) fn open_to(&mut self, alloc: Global, last: u32) -> Result<(), NoMemory>
        requires { last < MOST_PROCESSES }
        ensures opened { OnOk result
            (self.new.channels ≡ with_senders (last + 1) self.old.channels) }
        ensures ties { self.new.ties ≡ self.old.ties }
    {
        while self.channels.senders() <= last as usize {
            self.channels.open(alloc)?;
        }
        Ok(())
    }
}
