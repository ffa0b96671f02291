//! Each outcome that is met.

ghost use Rattle.std.specs.Prelude.{◌≡◌, Some, if◌then◌else◌};
ghost use Rattle.pf_hunt.specs.RowHashes.{hashes_in};

use crate::places::NumberPlaces;
use crate::row::OutcomeRow;
use pf_errors::NoMemory;
use std::alloc::Global;

/// A row for each outcome that was met, in the order of the least seeds, with where the rows of each hash are.
#[derive(Drop)]
pub struct Tally {
    pub rows: Vec<OutcomeRow>,
    places: NumberPlaces,
    ghost placed: { places ≡ hashes_in rows.items },
}

/// This index if it is like, and else the one that was chosen before.
fn chosen(is_like: bool, index: usize, before: Option<usize>) -> Option<usize>
    ensures { result ≡ (if is_like then Some index else before) }
{
    if is_like { Some(index) } else { before }
}

impl Tally {
    ghost use Rattle.std.specs.Prelude.{◌≡◌, ◌+◌, ◌<◌, ◌^◌, ◌++◌, ◌∷◌, OnOk, [], MatchOption, length};
    ghost use Rattle.pf_hunt.specs.Rows.{seeds_counted, failures_in, rows_joined, with_row};
    ghost use Rattle.pf_hunt.specs.Views.{IsFirstLike, NoneBefore, row_of, rows_of};

    /// No row.
    pub fn new(alloc: Global) -> Tally
        ensures { rows_of result ≡ [] }
    {
        Tally {
            rows: Vec::new(alloc),
            places: NumberPlaces::new(alloc),
        }
    }

    /// The first row of the same outcome with the same verdict, among those of its hash, which are gone through from
    /// the last to the first.
    fn index_of(&self, row: &OutcomeRow) -> Option<usize>
        ensures { MatchOption result
            (NoneBefore self.now.rows.items row.now (length self.now.rows.items))
            (IsFirstLike self.now.rows.items row.now) }
    {
        let mut first = None;
        let mut at = self.places.last(row.outcome.hash());
        while let Some(index) = at {
            first = chosen(self.rows[index].is_like(row), index, first);
            at = self.places.before(index);
        }
        first
    }

    /// Puts a row after the others.
    fn push(&mut self, row: OutcomeRow) -> Result<(), NoMemory>
        ensures { OnOk result (self.new.rows.items ≡ self.old.rows.items ++ row ∷ []) }
    {
        self.rows.reserve(1)?;
        self.places.push(row.outcome.hash())?;
        self.rows.push(row)?;
        Ok(())
    }

    /// Counts what one more row counts.
    pub fn add(&mut self, row: OutcomeRow) -> Result<(), NoMemory>
        requires { seeds_counted (rows_of self.old) + row.count < 2 ^ 64 }
        ensures { OnOk result (rows_of self.new ≡ with_row (rows_of self.old) (row_of row)) }
    {
        match self.index_of(&row) {
            Some(index) => {
                self.rows[index].count += row.count;
                Ok(())
            }
            None => self.push(row),
        }
    }

    /// How many of the runs failed.
    #[tactic(auto, using(crate::proofs::Failing::next_row))]
    pub(crate) fn failures(&self) -> u64
        requires { seeds_counted (rows_of self.now) < 2 ^ 64 }
        ensures { result ≡ failures_in (rows_of self.now) }
    {
        let mut count = 0;
        for row in &self.rows {
            count += row.failures();
        }
        count
    }

    /// Counts what the rows of the part after this one count.
    pub fn join(&mut self, after: Tally) -> Result<(), NoMemory>
        requires { seeds_counted (rows_of self.old) + seeds_counted (rows_of after) < 2 ^ 64 }
        ensures { OnOk result (rows_of self.new ≡ rows_joined (rows_of self.old) (rows_of after)) }
    {
        for row in after.rows {
            self.add(row)?;
        }
        Ok(())
    }
}
