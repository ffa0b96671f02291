//! Which cells are reached from words: one pass down marks the parts of what is marked.

ghost use Rattle.std.specs.Prelude.{◌≡◌, ◌+◌, ◌≤◌, ◌<◌, ℕ, length, slice_index_or, false};
ghost use Rattle.std.specs.List.{All};
ghost use Rattle.pf_heap.specs.Heap.{cell_at, IsWordOf};
ghost use Rattle.pf_heap.specs.Marks.{reach, with_mark, with_marks, ArePartsMarked, IsClosedFrom, IsMarked};
ghost use Rattle.pf_heap.specs.Marks.{IsMarkedMore};

use crate::heap::Heap;
use crate::word::Word;

/// Marks the cell of a word.
fn mark(marks: &mut [bool], word: Word)
    requires { reach word ≤ length marks.old }
    ensures { marks.new ≡ with_mark marks.old word }
{
    match word {
        Word::Tuple(at) => marks[at as usize] = true,
        Word::Cons(at) => marks[at as usize] = true,
        _ => {}
    }
}

/// Marks the cells of these words.
fn mark_all(marks: &mut [bool], words: &[Word])
    requires { All (λ w. reach w ≤ length marks.old) words.now }
    ensures { marks.new ≡ with_marks marks.old words.now }
{
    for word in words {
        mark(marks, *word);
    }
}

impl Heap {
    /// Marks the cells of the parts of a cell.
    fn mark_parts(&self, at: usize, marks: &mut [bool])
        requires at { at < length self.now }
        requires count { length marks.old ≡ length self.now }
        ensures parts { ArePartsMarked marks.new (cell_at self.now at) }
        ensures more { IsMarkedMore marks.old marks.new }
        ensures above { (k : ℕ) → at ≤ k → slice_index_or marks.new k false ≡ slice_index_or marks.old k false }
    {
        match self.word_at(at) {
            Word::Cons(index) => {
                let (head, tail) = self.pair(index);
                mark(marks, head);
                mark(marks, tail);
            }
            Word::Tuple(index) => mark_all(marks, self.parts(index)),
            _ => {}
        }
    }

    /// Marks the cells of the parts of a cell that is marked.
    #[tactic(auto, using(crate::proofs::Marks::passed, crate::proofs::Marks::skipped, crate::proofs::Marks::unchanged))]
    fn mark_below(&self, at: usize, marks: &mut [bool])
        requires at { at < length self.now }
        requires count { length marks.old ≡ length self.now }
        requires closed { IsClosedFrom self.now (at + 1) marks.old }
        ensures closed { IsClosedFrom self.now at marks.new }
        ensures more { IsMarkedMore marks.old marks.new }
    {
        if !marks[at] {
            return;
        }
        self.mark_parts(at, marks);
    }

    /// Marks all that is reached from what is marked, from the last cell to the first: parts come before what they are
    /// part of.
    #[tactic(auto, using(crate::proofs::Marks::at_end, crate::proofs::Marks::more_on, crate::proofs::Marks::unchanged))]
    fn mark_reached(&self, marks: &mut [bool])
        requires { length marks.old ≡ length self.now }
        ensures closed { IsClosedFrom self.now 0 marks.new }
        ensures more { IsMarkedMore marks.old marks.new }
    {
        let mut left = marks.len();
        while left > 0 {
            left -= 1;
            self.mark_below(left, marks);
        }
    }

    /// Marks all that is reached from these words.
    pub(crate) fn mark_from(&self, marks: &mut [bool], words: &[Word])
        requires count { length marks.old ≡ length self.now }
        requires words { All (IsWordOf self.now) words.now }
        ensures closed { IsClosedFrom self.now 0 marks.new }
        ensures marked { All (IsMarked marks.new) words.now }
    {
        mark_all(marks, words);
        self.mark_reached(marks);
    }
}
