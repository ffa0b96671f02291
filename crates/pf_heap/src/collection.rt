//! Collection: what is reached from the roots is kept, in the same order, and the rest goes.

ghost use Rattle.std.specs.Prelude.{◌≡◌, ◌+◌, ◌≤◌, ◌<◌, ◌++◌, ◌∷◌, [], length, map, IfOk, OnErr, OnOk};
ghost use Rattle.std.specs.List.{All};
ghost use Rattle.pf_heap.specs.Heap.{cell_at, word_values, IsWordOf};
ghost use Rattle.pf_heap.specs.Marks.{reach, renamed, renamed_cell, ArePartsMarked, IsClosedFrom, Moves};

use crate::heap::Heap;
use crate::word::Word;
use pf_errors::NoMemory;
use std::alloc::Global;

/// The word that names a cell by its new index.
fn rename(places: &[u64], word: Word) -> Word
    requires { reach word ≤ length places.now }
    ensures { result ≡ renamed places.now word }
{
    match word {
        Word::Tuple(at) => Word::Tuple(places[at as usize]),
        Word::Cons(at) => Word::Cons(places[at as usize]),
        _ => word,
    }
}

/// Puts the renamed words in place of what is there.
fn put_renamed(places: &[u64], words: &[Word], out: &mut Vec<Word>) -> Result<(), NoMemory>
    requires { All (λ w. reach w ≤ length places.now) words.now }
    ensures { OnOk result (out.new.items ≡ map (renamed places.now) words.now) }
{
    out.clear();
    for word in words {
        out.push(rename(places, *word))?;
    }
    Ok(())
}

/// The cells that were kept as a heap of their own, and the index there of each cell that there was.
#[derive(Drop)]
struct Moved {
    heap: Heap,
    places: Vec<u64>,
}

impl Heap {
    /// Adds a pair to another heap, to which the marked cells before it were moved.
    fn move_pair(
        &self,
        at: u64,
        marks: &[bool],
        places: &[u64],
        other: &mut Heap,
    ) -> Result<u64, NoMemory>
        requires word { IsWordOf self.now (Word.Cons at) }
        requires count { length places.now ≡ at }
        requires moves { Moves self.now at marks.now places.now other.old }
        requires parts { ArePartsMarked marks.now (cell_at self.now at) }
        ensures added { OnOk result (other.new ≡ other.old ++ renamed_cell places.now (cell_at self.now at) ∷ []) }
        ensures err { OnErr result (other.new ≡ other.old) }
    {
        let (head, tail) = self.pair(at);
        let size = self.size(Word::Cons(at));
        other.push_pair(rename(places, head), rename(places, tail), size)
    }

    /// Adds a tuple to another heap, to which the marked cells before it were moved.
    fn move_block(
        &self,
        at: u64,
        marks: &[bool],
        places: &[u64],
        other: &mut Heap,
        words: &mut Vec<Word>,
    ) -> Result<u64, NoMemory>
        requires word { IsWordOf self.now (Word.Tuple at) }
        requires count { length places.now ≡ at }
        requires moves { Moves self.now at marks.now places.now other.old }
        requires parts { ArePartsMarked marks.now (cell_at self.now at) }
        ensures added { OnOk result (other.new ≡ other.old ++ renamed_cell places.now (cell_at self.now at) ∷ []) }
        ensures err { OnErr result (other.new ≡ other.old) }
    {
        put_renamed(places, self.parts(at), words)?;
        other.push_block(words, self.size(Word::Tuple(at)))
    }

    /// Adds a cell to another heap, to which the marked cells before it were moved, where it is marked.
    fn move_cell(
        &self,
        at: usize,
        marks: &[bool],
        places: &[u64],
        other: &mut Heap,
        words: &mut Vec<Word>,
    ) -> Result<(), NoMemory>
        requires at { at < length self.now }
        requires marks { length marks.now ≡ length self.now }
        requires closed { IsClosedFrom self.now 0 marks.now }
        requires count { length places.now ≡ at }
        requires moves { Moves self.now at marks.now places.now other.old }
        ensures moves { OnOk result (Moves self.now (at + 1) marks.now
            (places.now ++ length other.old ∷ []) other.new) }
        ensures shorter { OnOk result (length other.new ≤ length other.old + 1) }
    {
        self.is_in_order();
        if !marks[at] {
            return Ok(());
        }
        match self.word_at(at) {
            Word::Cons(index) => {
                self.move_pair(index, marks, places, other)?;
                Ok(())
            }
            Word::Tuple(index) => {
                self.move_block(index, marks, places, other, words)?;
                Ok(())
            }
            _ => Ok(()),
        }
    }

    /// The marked cells as a heap of their own, in the same order.
    #[tactic(auto, using(crate::proofs::Moves::moves_none))]
    fn moved(&self, alloc: Global, marks: &[bool]) -> Result<Moved, NoMemory>
        requires count { length marks.now ≡ length self.now }
        requires closed { IsClosedFrom self.now 0 marks.now }
        ensures places { IfOk result (λ m. length m.places.items ≡ length self.now) }
        ensures moves { IfOk result (λ m. Moves self.now (length self.now) marks.now m.places.items m.heap) }
        ensures shorter { IfOk result (λ m. length m.heap ≤ length self.now) }
    {
        let mut heap = Heap::new(alloc);
        let mut places = Vec::new(alloc);
        let mut words = Vec::new(alloc);
        for at in 0..marks.len() {
            let place = heap.len() as u64;
            self.move_cell(at, marks, &places, &mut heap, &mut words)?;
            places.push(place)?;
        }
        Ok(Moved { heap, places })
    }

    /// Keeps what the roots reach, in the same order, and lets the rest go; it answers the roots by their new names.
    /// Where memory runs out all is as it was.
    pub fn collect(&mut self, alloc: Global, roots: &[Word]) -> Result<Vec<Word>, NoMemory>
        requires { All (IsWordOf self.old) roots.now }
        ensures words { IfOk result (λ v. All (IsWordOf self.new) v.items) }
        ensures values { IfOk result (λ v. word_values self.new v.items ≡ word_values self.old roots.now) }
        ensures shorter { length self.new ≤ length self.old }
        ensures err { OnErr result (self.new ≡ self.old) }
    {
        let mut marks = vec![in alloc; false; self.len()]?;
        self.mark_from(&mut marks, roots);
        let Moved { heap, places } = self.moved(alloc, &marks)?;
        let mut words = Vec::new(alloc);
        put_renamed(&places, roots, &mut words)?;
        *self = heap;
        Ok(words)
    }
}
