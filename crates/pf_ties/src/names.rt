//! Names of processes.

ghost use Rattle.std.specs.Prelude.{◌≡◌, [], false, None, OnErr, OnOk};
ghost use Rattle.pf_sorted.specs.Maps.{got, put, without};
ghost use Rattle.pf_model.specs.Actions.{has_name};
ghost use Rattle.pf_model.specs.Ends.{without_name};

use pf_errors::NoMemory;
use pf_sorted::SortedMap;
use pf_terms::AtomId;
use std::alloc::Global;
use std::marker::Model;

/// The process of each name in use. Contracts see it by the name's number.
#[derive(Drop)]
pub(crate) struct RegisteredNames {
    by_name: SortedMap<u32>,
    by_process: SortedMap<u32>,
}

impl Model for RegisteredNames {
    ghost use Rattle.std.specs.Prelude.{ℕ, List};
    ghost use Rattle.pf_ties.specs.Names.{AreInverse};

    ghost Value = { List (ℕ × ℕ) };

    ghost view = { λ n. n.by_name };

    ghost invariant = { λ n. AreInverse n.by_name n.by_process };
}

impl RegisteredNames {
    pub(crate) fn new(alloc: Global) -> RegisteredNames
        ensures { result ≡ [] }
    {
        RegisteredNames {
            by_name: SortedMap::new(alloc),
            by_process: SortedMap::new(alloc),
        }
    }

    pub(crate) fn get(&self, name: AtomId) -> Option<u32>
        ensures { result ≡ got name.0 self.now }
    {
        self.by_name.get(u64::from(name.0)).copied()
    }

    /// Whether a process has a name.
    pub(crate) fn is_named(&self, pid: u32) -> bool
        ensures { result ≡ has_name pid self.now }
    {
        self.by_process.has(u64::from(pid))
    }

    /// Gives a process a name.
    pub(crate) fn insert(&mut self, name: AtomId, pid: u32) -> Result<(), NoMemory>
        requires new { got name.0 self.old ≡ None }
        requires unnamed { has_name pid self.old ≡ false }
        ensures named { OnOk result (self.new ≡ put name.0 pid self.old) }
        ensures refused { OnErr result (self.new ≡ self.old) }
    {
        let key = u64::from(name.0);
        self.by_name.insert(key, pid)?;
        match self.by_process.insert(u64::from(pid), name.0) {
            Ok(()) => Ok(()),
            Err(refused) => {
                self.by_name.remove(key);
                Err(refused)
            }
        }
    }

    /// Takes a name out, and returns its process.
    pub(crate) fn remove(&mut self, name: AtomId) -> Option<u32>
        ensures was { result ≡ got name.0 self.old }
        ensures removed { self.new ≡ without name.0 self.old }
    {
        match self.by_name.remove(u64::from(name.0)) {
            None => None,
            Some(pid) => {
                self.by_process.remove(u64::from(pid));
                Some(pid)
            }
        }
    }

    /// Takes the name of a process out, if it has one.
    pub(crate) fn remove_of(&mut self, pid: u32)
        ensures { self.new ≡ without_name pid self.old }
    {
        if let Some(name) = self.by_process.remove(u64::from(pid)) {
            self.by_name.remove(u64::from(name));
        }
    }
}
