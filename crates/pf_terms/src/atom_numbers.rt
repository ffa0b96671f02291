//! A table of names that is being filled, with the numbers by name.

ghost use Rattle.std.specs.Prelude.{◌≡◌, ◌<◌, ◌^◌, length, IfOk, OnErr, OnOk, slice_get, Some};
ghost use Rattle.pf_terms.specs.Atoms.{fixed_names, name_of, with_name};
ghost use Rattle.pf_terms.specs.Order.{Distinguishes};

use crate::atoms::{AtomId, AtomTable};
use pf_errors::NoMemory;
use std::alloc::Global;
use std::collections::BTreeMap;
use std::marker::Model;

/// The names of a table, and the number of each but the fixed ones by its bytes. The numbers are kept in the names'
/// order, so that no choice of names makes a look-up slow.
#[derive(Drop)]
pub struct AtomNumbers {
    table: AtomTable,
    numbers: BTreeMap<Vec<u8>, u32>,
}

impl Model for AtomNumbers {
    ghost use Rattle.std.specs.Prelude.{List, ℕ};
    ghost use Rattle.std.specs.Ordering.{nat_cmp};
    ghost use Rattle.std.specs.Cmp.Lexicographic.{slice_cmp};
    ghost use Rattle.std.specs.BTreeMap.{get_by};
    ghost use Rattle.pf_terms.specs.Numbers.{IsIndex};

    ghost Value = { List (List ℕ) };

    ghost view = { λ a. a.table };

    ghost invariant = { λ a. IsIndex a.table (λ name. get_by (λ k. slice_cmp nat_cmp name k.items) a.numbers) };
}

impl AtomNumbers {
    /// The fixed atoms.
    pub fn new(alloc: Global) -> Result<AtomNumbers, NoMemory>
        ensures { IfOk result (λ t. t ≡ fixed_names) }
    {
        Ok(AtomNumbers {
            table: AtomTable::new(alloc)?,
            numbers: BTreeMap::new(alloc),
        })
    }

    /// The names of a table, each with the number that it has there.
    pub fn of(alloc: Global, names: &AtomTable) -> Result<AtomNumbers, NoMemory>
        ensures { IfOk result (λ t. t ≡ names.now) }
    {
        let mut numbers = AtomNumbers::new(alloc)?;
        for index in names.fixed_len()..names.len() {
            numbers.enter(alloc, names.name(AtomId(index as u32)))?;
        }
        Ok(numbers)
    }

    /// How many names there are. No two of them are the same.
    pub fn len(&self) -> usize
        ensures len { result ≡ length self.now }
        ensures distinct { Distinguishes (name_of self.now) (length self.now) }
    {
        self.table.len()
    }

    /// The atom of this name, which is entered last where it is new.
    pub fn enter(&mut self, alloc: Global, name: &[u8]) -> Result<AtomId, NoMemory>
        requires { length self.old < 2 ^ 32 }
        ensures entered { IfOk result (λ a. slice_get self.new a.0 ≡ Some name.now) }
        ensures names { OnOk result (self.new ≡ with_name self.old name.now) }
        ensures err { OnErr result (self.new ≡ self.old) }
    {
        if let Some(atom) = self.table.find_fixed(name) {
            return Ok(atom);
        }
        if let Some(number) = self.numbers.get(name) {
            return Ok(AtomId(*number));
        }
        let key = Vec::from_slice(alloc, name)?;
        self.numbers.insert(key, self.table.len() as u32)?;
        match self.table.add(name) {
            Ok(atom) => Ok(atom),
            Err(refused) => {
                self.numbers.remove(name);
                Err(refused)
            }
        }
    }

    /// The names alone.
    pub fn into_table(self) -> AtomTable
        ensures { result ≡ self }
    {
        let AtomNumbers { table, .. } = self;
        table
    }
}
