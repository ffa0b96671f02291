//! Which variables are bound and which are unsafe at a point of a function's clause.

ghost use Rattle.std.specs.Prelude.{◌≡◌, ℕ, [], ◌==◌, drop, length, take, if◌then◌else◌, OnOk};
ghost use Rattle.pf_syntax.specs.Scope.{has};
ghost use Rattle.pf_static_check.specs.Marks.{trail_of, status_of, Binds};

use pf_errors::NoMemory;
use pf_terms::AtomId;
use std::alloc::Global;

/// What is known of a variable.
#[derive(Clone, Copy, Debug, PartialEq, Eq)]
pub(crate) enum Status {
    New,
    Bound,
    Unsafe,
}

/// What is known of each variable, by the number of its name; one past the end is new. The names that are no longer new
/// are in a trail, in the order in which they became so.
#[derive(Drop)]
pub(crate) struct VariableStates {
    states: Vec<Status>,
    trail: Vec<AtomId>,
}

impl VariableStates {
    /// No variable.
    pub(crate) fn new(alloc: Global) -> VariableStates
        ensures new { (x : ℕ) → status_of result x ≡ Status.New }
        ensures trail { trail_of result ≡ [] }
    {
        VariableStates {
            states: Vec::new(alloc),
            trail: Vec::new(alloc),
        }
    }

    /// What is known of a variable.
    pub(crate) fn status(&self, name: AtomId) -> Status
        ensures { result ≡ status_of self.now name.0 }
    {
        match self.states.get(name.0 as usize) {
            Some(status) => *status,
            None => Status::New,
        }
    }

    /// How long the trail is.
    pub(crate) fn trail_len(&self) -> usize
        ensures { result ≡ length (trail_of self.now) }
    {
        self.trail.len()
    }

    /// Sets what is known of a variable.
    fn set(&mut self, name: AtomId, status: Status) -> Result<(), NoMemory>
        ensures set { OnOk result ((x : ℕ) → status_of self.new x
            ≡ (if name.0 == x then status else status_of self.old x)) }
        ensures trail { trail_of self.new ≡ trail_of self.old }
    {
        let index = name.0 as usize;
        if index >= self.states.len() {
            self.states.resize(index + 1, Status::New)?;
        }
        self.states[index] = status;
        Ok(())
    }

    /// A new variable becomes bound.
    pub(crate) fn bind(&mut self, name: AtomId) -> Result<(), NoMemory>
        ensures { OnOk result (Binds self.old self.new name.0) }
    {
        if self.status(name) == Status::New {
            self.set(name, Status::Bound)?;
            self.trail.push(name)?;
        }
        Ok(())
    }

    /// Sets what is known of each name of the trail from an index on.
    pub(crate) fn set_since(&mut self, start: usize, status: Status) -> Result<(), NoMemory>
        ensures set { OnOk result ((x : ℕ) → status_of self.new x ≡ (if has (drop start (trail_of self.old)) x then
            status else status_of self.old x)) }
        ensures trail { OnOk result (trail_of self.new ≡ trail_of self.old) }
    {
        for index in start..self.trail.len() {
            let name = self.trail[index];
            self.set(name, status)?;
        }
        Ok(())
    }

    /// The names of the trail from an index on become new again, and leave it.
    pub(crate) fn forget(&mut self, start: usize) -> Result<(), NoMemory>
        ensures set { OnOk result ((x : ℕ) → status_of self.new x ≡ (if has (drop start (trail_of self.old)) x then
            Status.New else status_of self.old x)) }
        ensures trail { OnOk result (trail_of self.new ≡ take start (trail_of self.old)) }
    {
        self.set_since(start, Status::New)?;
        self.trail.truncate(start);
        Ok(())
    }
}
