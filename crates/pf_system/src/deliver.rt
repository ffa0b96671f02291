//! The delivery of a signal.

ghost use Rattle.std.specs.Prelude.{◌≡◌, ◌<◌, length, true, is_some, IfOk, OnOk};
ghost use Rattle.pf_terms.specs.Term.{value_of};
ghost use Rattle.pf_model.specs.Channels.{down, exit, taken};
ghost use Rattle.pf_model.specs.Signals.{signal_of};
ghost use Rattle.pf_system.specs.Placed.{PlacesOf, ShowsAtEnded, ShowsAtLiving, ShowsSuffix};
ghost use Rattle.pf_system.specs.Processes.{DeliversSignal, IsShaped, RepresentsSome};

use crate::messages::{down_message, exit_message};
use crate::processes::Processes;
use pf_errors::NoMemory;
use pf_model::Signal;
use pf_model::report::{Label, Suffix};
use pf_terms::{AtomId, Term, copy};
use pf_ties::Fate;
use std::alloc::Global;

impl Processes {
    /// Delivers the oldest signal from one process to another. What it shows is written to `shown`.
    pub(crate) fn deliver(
        &mut self,
        alloc: Global,
        from: u32,
        to: u32,
        shown: &mut Label,
    ) -> Result<(), NoMemory>
        requires sound { RepresentsSome self.old }
        requires there { is_some (taken from to self.old.shared.channels) ≡ true }
        ensures { OnOk result (DeliversSignal from to self.old shown.new self.new) }
    {
        let Some(signal) = self.shared.channels.deliver(from, to) else {
            unreachable!();
        };
        if self.shared.ties.lives(to) {
            self.at_living(alloc, from, to, signal, shown)
        } else {
            self.at_ended(alloc, from, to, signal, shown)
        }
    }

    /// A signal at a receiver that has ended: a link is answered by an exit signal, a monitor by a down signal, and all
    /// else is dropped.
    #[inline(never)]
    fn at_ended(
        &mut self,
        alloc: Global,
        from: u32,
        to: u32,
        signal: Signal,
        shown: &mut Label,
    ) -> Result<(), NoMemory>
        ensures { OnOk result (ShowsAtEnded from to (signal_of signal) self.old shown.new self.new) }
    {
        let reply = match &signal {
            Signal::Link => Signal::Exit {
                by_link: true,
                reason: Term::Atom(AtomId::NOPROC),
            },
            Signal::Monitor(reference) => Signal::Down(*reference, Term::Atom(AtomId::NOPROC)),
            _ => {
                *shown = Label::Delivers(signal, Suffix::Dropped);
                return Ok(());
            }
        };
        self.shared.reply(alloc, to, from, reply)?;
        *shown = Label::Delivers(signal, Suffix::NoProcess);
        Ok(())
    }

    /// A message arrives at a process that lives, which goes on where it waited.
    fn index(&mut self, to: u32, message: Term) -> Result<(), NoMemory>
        requires { to < length self.old.slots.items }
        ensures { OnOk result (PlacesOf to (value_of message) self.old self.new) }
    {
        let slot = &mut self.slots[to as usize];
        if slot.index(&mut self.spare.pool, message)? {
            self.ready.insert(to)?;
        }
        Ok(())
    }

    /// A signal at a receiver that lives.
    fn at_living(
        &mut self,
        alloc: Global,
        from: u32,
        to: u32,
        signal: Signal,
        shown: &mut Label,
    ) -> Result<(), NoMemory>
        requires { IsShaped to self.old }
        ensures { OnOk result (ShowsAtLiving from to (signal_of signal) self.old shown.new self.new) }
    {
        if let Signal::Message(message) = &signal {
            let message = copy(message)?;
            self.index(to, message)?;
            *shown = Label::Delivers(signal, Suffix::TookEffect);
            return Ok(());
        }
        let suffix = self.take(alloc, from, to, &signal)?;
        *shown = Label::Delivers(signal, suffix);
        Ok(())
    }

    /// What a signal other than a message does at a receiver that lives.
    #[inline(never)]
    fn take(
        &mut self,
        alloc: Global,
        from: u32,
        to: u32,
        signal: &Signal,
    ) -> Result<Suffix, NoMemory>
        requires shaped { IsShaped to self.old }
        requires other { (t : _) → signal.now ≡ Signal.Message t → ⊥ }
        ensures { IfOk result (λ x. ShowsSuffix from to (signal_of signal.now) self.old x self.new) }
    {
        match signal {
            Signal::Message(_) => unreachable!(),
            Signal::Link => self.shared.ties.on_link(alloc, from, to)?,
            Signal::Unlink => self.shared.ties.on_unlink(from, to),
            Signal::Monitor(reference) => {
                self.shared.ties.on_monitor(alloc, from, to, *reference)?;
            }
            Signal::Demonitor(reference) => self.shared.ties.on_demonitor(to, *reference),
            Signal::Down(reference, reason) => {
                return self.down(alloc, from, to, *reference, reason);
            }
            Signal::Exit { by_link, reason } => {
                return self.exit(alloc, from, to, *by_link, reason);
            }
        }
        Ok(Suffix::TookEffect)
    }

    /// A down signal, which becomes a message where its reference is active.
    fn down(
        &mut self,
        alloc: Global,
        from: u32,
        to: u32,
        reference: u64,
        reason: &Term,
    ) -> Result<Suffix, NoMemory>
        requires { IsShaped to self.old }
        ensures { IfOk result
            (λ x. ShowsSuffix from to (down reference (value_of reason.now)) self.old x self.new) }
    {
        if !self.shared.ties.on_down(to, reference) {
            return Ok(Suffix::Dropped);
        }
        let message = down_message(alloc, reference, from, reason)?;
        self.index(to, message)?;
        Ok(Suffix::TookEffect)
    }

    /// An exit signal, by what becomes of it.
    fn exit(
        &mut self,
        alloc: Global,
        from: u32,
        to: u32,
        by_link: bool,
        reason: &Term,
    ) -> Result<Suffix, NoMemory>
        requires { IsShaped to self.old }
        ensures { IfOk result
            (λ x. ShowsSuffix from to (exit by_link (value_of reason.now)) self.old x self.new) }
    {
        let given = copy(reason)?;
        match self.shared.ties.on_exit_signal(from, to, by_link, given) {
            Fate::Drop => Ok(Suffix::Dropped),
            Fate::Message => {
                let message = exit_message(alloc, from, reason)?;
                self.index(to, message)?;
                Ok(Suffix::AsMessage)
            }
            Fate::End(last) => {
                let shown = copy(&last)?;
                self.end(alloc, to, Err(last))?;
                Ok(Suffix::EndingWith(shown))
            }
        }
    }
}
