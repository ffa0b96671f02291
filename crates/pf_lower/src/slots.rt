//! The slots of bound variables: where each name is among those that are bound, in the order of binding.

ghost use Rattle.std.specs.Prelude.{◌≡◌, ℕ, ◌-◌, ◌<◌, [], false, length, take, MatchOption, OnOk, slice_get};
ghost use Rattle.std.specs.Prelude.{slice_index, Some};
ghost use Rattle.pf_syntax.specs.Scope.{has};
ghost use Rattle.pf_lower.specs.Bound.{with_bound};

use pf_errors::NoMemory;
use pf_terms::AtomId;
use std::alloc::Global;
use std::marker::Model;

/// The names of the bound variables, in the order of binding, each once; and for each name, by its number, one more
/// than its slot, or 0. A source numbers its variables one after another, so the list by number is about as long as
/// there are variables, and no choice of names makes a look-up slow.
#[derive(Drop)]
pub(crate) struct Slots {
    names: Vec<u32>,
    slots: Vec<u32>,
}

impl Model for Slots {
    ghost use Rattle.std.specs.Prelude.{List, ℕ};
    ghost use Rattle.pf_lower.specs.Placed.{HasSlots};

    ghost Value = { List ℕ };

    ghost view = { λ a. a.names.items };

    ghost invariant = { λ a. HasSlots a.names.items a.slots.items };
}

/// Lengthens a list by zeros, so that it goes past a name. No name's number changes, with or without memory.
fn reach(slots: &mut Vec<u32>, name: AtomId) -> Result<(), NoMemory>
    ensures past { OnOk result (name.0 < length slots.new.items) }
    ensures same { (x : ℕ) → slice_index slots.new.items x ≡ slice_index slots.old.items x }
{
    let index = name.0 as usize;
    if index >= slots.len() {
        slots.resize(index + 1, 0)?;
    }
    Ok(())
}

impl Slots {
    /// No variable is bound.
    pub(crate) fn new(alloc: Global) -> Slots
        ensures { result ≡ [] }
    {
        Slots {
            names: Vec::new(alloc),
            slots: Vec::new(alloc),
        }
    }

    /// The slot of a variable, where it is bound.
    pub(crate) fn slot(&self, name: AtomId) -> Option<u32>
        ensures { MatchOption result (has self.now name.0 ≡ false) (λ k. slice_get self.now k ≡ Some name.0) }
    {
        let after = self.slots.get(name.0 as usize)?;
        after.checked_sub(1)
    }

    /// Binds a variable that isn't bound, at the next slot.
    pub(crate) fn bind(&mut self, name: AtomId) -> Result<(), NoMemory>
        ensures { OnOk result (self.new ≡ with_bound self.old name.0) }
    {
        if self.slot(name).is_some() {
            return Ok(());
        }
        let Ok(after) = u32::try_from(self.names.len() + 1) else {
            return Err(NoMemory);
        };
        reach(&mut self.slots, name)?;
        self.names.push(name.0)?;
        self.slots[name.0 as usize] = after;
        Ok(())
    }

    /// How many variables are bound.
    pub(crate) fn len(&self) -> usize
        ensures { result ≡ length self.now }
    {
        self.names.len()
    }

    /// The variable that was bound last isn't bound any more.
    fn unbind(&mut self)
        ensures { self.new ≡ take (length self.old - 1) self.old }
    {
        if let Some(name) = self.names.pop() {
            self.slots[name as usize] = 0;
        }
    }

    /// Only the first `len` variables are bound.
    pub(crate) fn truncate(&mut self, len: usize)
        ensures { self.new ≡ take len self.old }
    {
        while self.len() > len {
            self.unbind();
        }
    }
}
