//! A map from numbers, as a sorted list.

ghost use Rattle.std.specs.Prelude.{◌≡◌, ◌≤◌, ◌<◌, length, [], Some, is_some, slice_get, option_copied, OnErr, OnOk};
ghost use Rattle.std.specs.Prelude.{MatchResult};
ghost use Rattle.std.specs.Borrow.{sem};
ghost use Rattle.pf_sorted.specs.Maps.{got, put, without};
ghost use Rattle.pf_sorted.specs.Sorted.{IsRising, IsThere, IsGap};
ghost use Rattle.pf_sorted.specs.Lends.{lends_value};
ghost use Rattle.pf_sorted.specs.Values.{IsValueAt};

use pf_errors::NoMemory;
use std::alloc::Global;
use std::marker::Model;

/// A value for each key. Contracts see the list of both by rising key.
#[derive(Drop)]
pub struct SortedMap<V> {
    entries: Vec<(u64, V)>,
}

impl<V> Model for SortedMap<V> {
    ghost use Rattle.std.specs.Prelude.{ℕ, List};
    ghost use Rattle.pf_sorted.specs.Sorted.{IsRising};

    ghost Value = { List (ℕ × V) };

    ghost view = { λ m. m.entries.items };

    ghost invariant = { λ m. IsRising (λ e. e.0) 0 m.entries.items };
}

impl<V> SortedMap<V> {
    pub fn new(alloc: Global) -> SortedMap<V>
        ensures { result ≡ [] }
    {
        SortedMap {
            entries: Vec::new(alloc),
        }
    }

    pub fn len(&self) -> usize
        ensures { result ≡ length self.now }
    {
        self.entries.len()
    }

    pub fn as_slice(&self) -> &[(u64, V)]
        ensures { result.now ≡ self.now }
    {
        self.entries.as_slice()
    }

    /// Where a key is, or else where it would be.
    pub fn index_of(&self, key: u64) -> Result<usize, usize>
        ensures rises { IsRising (λ e. e.0) 0 self.now }
        ensures found { MatchResult result
            (λ at. (at < length self.now) × IsThere (λ e. e.0) key self.now at)
            (λ at. (at ≤ length self.now) × IsGap (λ e. e.0) key self.now at) }
    {
        self.entries.binary_search_by_key(&key, |entry| entry.0)
    }

    pub fn has(&self, key: u64) -> bool
        ensures { result ≡ is_some (got key self.now) }
    {
        self.index_of(key).is_ok()
    }

    pub fn get(&self, key: u64) -> Option<&V>
        ensures { option_copied result ≡ got key self.now }
    {
        match self.index_of(key) {
            Ok(at) => Some(&self.entries[at].1),
            Err(_) => None,
        }
    }

    /// The value at an index, to be changed.
    pub fn value_mut(&mut self, at: usize) -> &mut V
        requires { at < length self.old }
        ensures* writes_back { sem 𝓛 (lends_value V.row self.entry at result) }
        ensures value { IsValueAt self.old at result.now }
    {
        let entry = &mut self.entries[at];
        &mut entry.1
    }
}

impl<V: Drop> SortedMap<V> {
    pub fn insert(&mut self, key: u64, value: V) -> Result<(), NoMemory>
        ensures inserted { OnOk result (self.new ≡ put key value self.old) }
        ensures refused { OnErr result (self.new ≡ self.old) }
    {
        match self.index_of(key) {
            Ok(at) => {
                *self.value_mut(at) = value;
                Ok(())
            }
            Err(at) => self.insert_at(at, key, value),
        }
    }

    /// Puts a value at a key that isn't there, at the index at which it would be.
    pub fn insert_at(&mut self, at: usize, key: u64, value: V) -> Result<(), NoMemory>
        requires { IsGap (λ e. e.0) key self.old at }
        ensures inserted { OnOk result (self.new ≡ put key value self.old) }
        ensures refused { OnErr result (self.new ≡ self.old) }
    {
        self.entries.insert(at, (key, value))?;
        Ok(())
    }

    /// Takes a key out, and returns what was there.
    pub fn remove(&mut self, key: u64) -> Option<V>
        ensures was { result ≡ got key self.old }
        ensures removed { self.new ≡ without key self.old }
    {
        match self.index_of(key) {
            Ok(at) => Some(self.entries.remove(at).1),
            Err(_) => None,
        }
    }

    /// Takes the entry at an index out.
    pub fn remove_at(&mut self, at: usize) -> (u64, V)
        requires { at < length self.old }
        ensures was { slice_get self.old at ≡ Some result }
        ensures removed { self.new ≡ without result.0 self.old }
    {
        self.entries.remove(at)
    }
}
