//! A term as a word of a heap.

ghost use Rattle.std.specs.Prelude.{◌≡◌, IfOk};
ghost use Rattle.std.specs.List.{All};
ghost use Rattle.pf_terms.specs.Value.{list};
ghost use Rattle.pf_terms.specs.Term.{elements_of, value_of, values_of};
ghost use Rattle.pf_heap.specs.Heap.{block_value, word_value, word_values, IsList, IsWordOf, Keeps};

use crate::heap::Heap;
use crate::word::Word;
use pf_errors::NoMemory;
use pf_terms::{List, Term};
use std::alloc::Global;

impl Heap {
    /// The term's value as a word. It fails only where memory runs out: no term is past the limits. Where it fails,
    /// cells may be left that no word names; they go at the next collection.
    #[cycle(lower)]
    pub fn lower(&mut self, alloc: Global, term: &Term) -> Result<Word, NoMemory>
        ensures made { IfOk result (λ w. word_value self.new w ≡ value_of term.now) }
        ensures word { IfOk result (IsWordOf self.new) }
        ensures keeps { Keeps self.old self.new }
    {
        match term {
            Term::Int(number) => Ok(Word::Int(*number)),
            Term::Atom(atom) => Ok(Word::Atom(u64::from(atom.0))),
            Term::Ref(reference) => Ok(Word::Ref(*reference)),
            Term::Pid(pid) => Ok(Word::Pid(u64::from(*pid))),
            Term::Tuple(elements) => {
                let words = self.lower_items(alloc, elements.as_slice())?;
                self.put_tuple(&words)
            }
            Term::List(list) => {
                let words = self.lower_elements(alloc, list)?;
                self.put_list(words)
            }
        }
    }

    /// The words of these terms, in order.
    #[cycle(lower)]
    fn lower_items(&mut self, alloc: Global, terms: &[Term]) -> Result<Vec<Word>, NoMemory>
        ensures made { IfOk result (λ v. word_values self.new v.items ≡ values_of terms.now) }
        ensures words { IfOk result (λ v. All (IsWordOf self.new) v.items) }
        ensures keeps { Keeps self.old self.new }
    {
        let mut words = Vec::new(alloc);
        let mut rest = terms;
        while let Some((first, others)) = rest.split_first() {
            let word = self.lower(alloc, first)?;
            words.push(word)?;
            rest = others;
        }
        Ok(words)
    }

    /// The words of the elements of a list, in order.
    #[cycle(lower)]
    fn lower_elements(&mut self, alloc: Global, list: &List) -> Result<Vec<Word>, NoMemory>
        ensures made { IfOk result (λ v. word_values self.new v.items ≡ elements_of list.now) }
        ensures words { IfOk result (λ v. All (IsWordOf self.new) v.items) }
        ensures keeps { Keeps self.old self.new }
    {
        let mut words = Vec::new(alloc);
        let mut rest = list;
        while let Some((first, others)) = rest.split() {
            let word = self.lower(alloc, first)?;
            words.push(word)?;
            rest = others;
        }
        Ok(words)
    }

    /// The tuple of these words, which the caller knows to be within the limits.
    fn put_tuple(&mut self, words: &[Word]) -> Result<Word, NoMemory>
        requires { All (IsWordOf self.old) words.now }
        ensures made { IfOk result (λ w. word_value self.new w ≡ block_value self.old words.now) }
        ensures word { IfOk result (IsWordOf self.new) }
        ensures keeps { Keeps self.old self.new }
    {
        match self.tuple(words) {
            Ok(word) => Ok(word),
            Err(_) => Err(NoMemory),
        }
    }

    /// The list of these words, which the caller knows to be within the limits.
    fn put_list(&mut self, words: Vec<Word>) -> Result<Word, NoMemory>
        requires { All (IsWordOf self.old) words.items }
        ensures made { IfOk result (λ w. word_value self.new w ≡ list (word_values self.old words.items)) }
        ensures word { IfOk result (IsWordOf self.new) }
        ensures keeps { Keeps self.old self.new }
    {
        let mut words = words;
        let mut made = Word::Nil;
        while let Some(word) = words.pop() {
            match self.cons(word, made) {
                Ok(longer) => made = longer,
                Err(_) => return Err(NoMemory),
            }
        }
        self.is_in_order();
        Ok(made)
    }
}
