//! A word's value as a term of its own.

ghost use Rattle.std.specs.Prelude.{◌≡◌, IfOk};
ghost use Rattle.std.specs.List.{All};
ghost use Rattle.pf_terms.specs.Term.{value_of};
ghost use Rattle.pf_heap.specs.Heap.{block_value, word_value, IsList, IsWordOf};

use crate::heap::Heap;
use crate::word::Word;
use pf_errors::NoMemory;
use pf_terms::{AtomId, List, Term, list_of, tuple_of};
use std::alloc::Global;

impl Heap {
    /// The value as a term of its own. It fails only where memory runs out: no value of a heap is past the limits.
    #[cycle(lift)]
    pub fn lift(&self, alloc: Global, word: Word) -> Result<Term, NoMemory>
        requires { IsWordOf self.now word }
        ensures { IfOk result (λ t. value_of t ≡ word_value self.now word) }
    {
        match word {
            Word::Int(number) => Ok(Term::Int(number)),
            Word::Atom(atom) => Ok(Term::Atom(AtomId(atom as u32))),
            Word::Ref(reference) => Ok(Term::Ref(reference)),
            Word::Pid(pid) => Ok(Term::Pid(pid as u32)),
            Word::Tuple(at) => self.lift_tuple(alloc, self.parts(at)),
            Word::Nil => Ok(Term::List(List::Nil)),
            Word::Cons(_) => self.lift_list(alloc, word),
        }
    }

    #[cycle(lift)]
    fn lift_tuple(&self, alloc: Global, words: &[Word]) -> Result<Term, NoMemory>
        requires { All (IsWordOf self.now) words.now }
        ensures { IfOk result (λ t. value_of t ≡ block_value self.now words.now) }
    {
        let mut items = Vec::new(alloc);
        let mut rest = words;
        while let Some((first, others)) = rest.split_first() {
            items.push(self.lift(alloc, *first)?)?;
            rest = others;
        }
        match tuple_of(alloc, items) {
            Ok(term) => Ok(term),
            Err(_) => Err(NoMemory),
        }
    }

    #[cycle(lift)]
    fn lift_list(&self, alloc: Global, word: Word) -> Result<Term, NoMemory>
        requires word { IsWordOf self.now word }
        requires list { IsList word }
        ensures { IfOk result (λ t. value_of t ≡ word_value self.now word) }
    {
        self.is_in_order();
        let mut items = Vec::new(alloc);
        let mut rest = word;
        'cells: while let Some((head, tail)) = self.split(rest) {
            items.push(self.lift(alloc, head)?)?;
            rest = tail;
        }
        match list_of(alloc, items) {
            Ok(list) => Ok(Term::List(list)),
            Err(_) => Err(NoMemory),
        }
    }
}
