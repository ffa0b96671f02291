//! A set of numbers, as a sorted list.

ghost use Rattle.std.specs.Prelude.{◌≡◌, ◌≤◌, ◌<◌, length, [], OnErr, OnOk, MatchResult};
ghost use Rattle.pf_sorted.specs.Maps.{has, with_number, without_number};
ghost use Rattle.pf_sorted.specs.Sorted.{IsRising, IsThere, IsGap};

use pf_errors::NoMemory;
use std::alloc::Global;
use std::marker::Model;

/// Numbers, each once. Contracts see them as a list that rises.
#[derive(Drop)]
pub struct SortedSet {
    items: Vec<u32>,
}

impl Model for SortedSet {
    ghost use Rattle.std.specs.Prelude.{ℕ, List};
    ghost use Rattle.pf_sorted.specs.Sorted.{IsRising};

    ghost Value = { List ℕ };

    ghost view = { λ s. s.items.items };

    ghost invariant = { λ s. IsRising (λ x. x) 0 s.items.items };
}

impl SortedSet {
    pub fn new(alloc: Global) -> SortedSet
        ensures { result ≡ [] }
    {
        SortedSet {
            items: Vec::new(alloc),
        }
    }

    pub fn as_slice(&self) -> &[u32]
        ensures { result.now ≡ self.now }
    {
        self.items.as_slice()
    }

    /// Where a number is, or else where it would be.
    fn index_of(&self, number: u32) -> Result<usize, usize>
        ensures rises { IsRising (λ x. x) 0 self.now }
        ensures found { MatchResult result
            (λ at. (at < length self.now) × IsThere (λ x. x) number self.now at)
            (λ at. (at ≤ length self.now) × IsGap (λ x. x) number self.now at) }
    {
        self.items.binary_search_by_key(&number, |item| *item)
    }

    pub fn has(&self, number: u32) -> bool
        ensures { result ≡ has number self.now }
    {
        self.index_of(number).is_ok()
    }

    pub fn insert(&mut self, number: u32) -> Result<(), NoMemory>
        ensures inserted { OnOk result (self.new ≡ with_number number self.old) }
        ensures refused { OnErr result (self.new ≡ self.old) }
    {
        match self.index_of(number) {
            Ok(_) => Ok(()),
            Err(at) => {
                self.items.insert(at, number)?;
                Ok(())
            }
        }
    }

    /// Takes a number out, and returns whether it was there.
    pub fn remove(&mut self, number: u32) -> bool
        ensures was { result ≡ has number self.old }
        ensures removed { self.new ≡ without_number number self.old }
    {
        match self.index_of(number) {
            Ok(at) => {
                self.items.remove(at);
                true
            }
            Err(_) => false,
        }
    }
}
