//! Numbers in a list, and where each occurs.

ghost use Rattle.std.specs.Prelude.{◌≡◌, ◌<◌, ◌++◌, ◌∷◌, [], ℕ, Some, length, slice_get, OnErr, OnOk};
ghost use Rattle.pf_hunt.specs.Places.{IsLastBefore};

use pf_errors::NoMemory;
use std::alloc::Global;
use std::collections::HashMap;
use std::marker::Model;

/// A number, and where it occurs last before.
#[derive(Drop)]
struct NumberPlace {
    number: u64,
    before: Option<usize>,
}

/// A list of numbers, in which the places of each are found from the last to the first, without a look at those of
/// another. Contracts see the list.
#[derive(Drop)]
pub(crate) struct NumberPlaces {
    places: Vec<NumberPlace>,
    lasts: HashMap<u64, usize>,
}

impl Model for NumberPlaces {
    ghost use Rattle.std.specs.Prelude.{List, ℕ};
    ghost use Rattle.pf_hunt.specs.Places.{ArePlaced, numbers_in};

    ghost Value = { List ℕ };

    ghost view = { λ p. numbers_in p.places.items };

    ghost invariant = { λ p. ArePlaced p.places.items p.lasts };
}

impl NumberPlaces {
    /// No number.
    pub fn new(alloc: Global) -> NumberPlaces
        ensures { result ≡ [] }
    {
        NumberPlaces {
            places: Vec::new(alloc),
            lasts: HashMap::new(alloc),
        }
    }

    /// Where a number occurs last.
    pub fn last(&self, number: u64) -> Option<usize>
        ensures { IsLastBefore self.now number (length self.now) result }
    {
        self.lasts.get(&number).copied()
    }

    /// Where the number at an index occurs last before it.
    pub fn before(&self, index: usize) -> Option<usize>
        requires { index < length self.now }
        ensures { (n : ℕ) → slice_get self.now index ≡ Some n → IsLastBefore self.now n index result }
    {
        self.places[index].before
    }

    /// Puts a number after the others.
    pub fn push(&mut self, number: u64) -> Result<(), NoMemory>
        ensures pushed { OnOk result (self.new ≡ self.old ++ number ∷ []) }
        ensures refused { OnErr result (self.new ≡ self.old) }
    {
        self.places.reserve(1)?;
        let before = self.lasts.insert(number, self.places.len())?;
        self.places.push(NumberPlace { number, before })?;
        Ok(())
    }
}
