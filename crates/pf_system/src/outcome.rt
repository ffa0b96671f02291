//! The outcome of a run.

ghost use Rattle.std.specs.Prelude.{◌≡◌, zero, IfOk};
ghost use Rattle.pf_model.specs.Configuration.{of};
ghost use Rattle.pf_model.specs.Meaning.{outcome_of_root};
ghost use Rattle.pf_model.specs.Reports.{view_of_outcome};
ghost use Rattle.pf_model.specs.Runs.{is_waiting, pids_in_state};
ghost use Rattle.pf_system.specs.Slots.{SlotRepresents};
ghost use Rattle.pf_system.specs.Processes.{RepresentsCore, RepresentsSome, view_of_processes};

use crate::processes::Processes;
use crate::slot::{Life, Slot};
use pf_errors::NoMemory;
use pf_model::report::Outcome;
use pf_terms::{AtomId, Term, copy};
use std::alloc::Global;

impl Slot {
    /// Whether the process waits for a message.
    fn is_waiting(&self) -> bool
        ensures { (m : _) (own : _) (b : _) → SlotRepresents m own self.now b → result ≡ is_waiting b.state }
    {
        match &self.life {
            Life::Lives { machine: _, waits } => *waits,
            Life::Ends(_) | Life::Ended(_) => false,
        }
    }
}

impl Processes {
    /// The processes that wait, by rising pid.
    fn waiting(&self, alloc: Global) -> Result<Vec<u32>, NoMemory>
        requires { RepresentsSome self.now }
        ensures { IfOk result (λ ps. (c : _) → RepresentsCore (view_of_processes self.now) c
            → ps.items ≡ pids_in_state is_waiting zero c.processes) }
    {
        let mut pids = Vec::new(alloc);
        for (pid, slot) in self.slots.iter().enumerate() {
            if slot.is_waiting() {
                pids.push(pid as u32)?;
            }
        }
        Ok(pids)
    }

    /// The outcome of the run where nothing may go: how its root ended, or that it waits.
    pub(crate) fn outcome(&self, alloc: Global) -> Result<Outcome, NoMemory>
        requires { RepresentsSome self.now }
        ensures { IfOk result (λ o. (c : _) → RepresentsCore (view_of_processes self.now) c
            → view_of_outcome o ≡ outcome_of_root (of c zero).state
            (pids_in_state is_waiting zero c.processes)) }
    {
        let Some(root) = self.slots.first() else {
            return Ok(Outcome::Ended(Term::Atom(AtomId::UNDEFINED)));
        };
        let Life::Ended(end) = &root.life else {
            return Ok(Outcome::Deadlock(self.waiting(alloc)?));
        };
        match end {
            Ok(value) => Ok(Outcome::Finished(copy(value)?)),
            Err(reason) => Ok(Outcome::Ended(copy(reason)?)),
        }
    }
}
