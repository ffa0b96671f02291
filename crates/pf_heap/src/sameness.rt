//! Whether two words have the same value.

ghost use Rattle.std.specs.Prelude.{◌≡◌};
ghost use Rattle.std.specs.List.{All};
ghost use Rattle.pf_terms.specs.Value.{same, same_all};
ghost use Rattle.pf_heap.specs.Heap.{elements, word_value, word_values, IsList, IsWordOf};

use crate::heap::Heap;
use crate::word::Word;

impl Heap {
    /// Whether two values are the same, as `=:=` of Erlang asks.
    #[cycle(equal)]
    pub fn equal(&self, first: Word, second: Word) -> bool
        requires first { IsWordOf self.now first }
        requires second { IsWordOf self.now second }
        ensures { result ≡ same (word_value self.now first) (word_value self.now second) }
    {
        self.is_in_order();
        match first {
            Word::Int(x) => match second {
                Word::Int(y) => x == y,
                _ => false,
            },
            Word::Atom(x) => match second {
                Word::Atom(y) => x == y,
                _ => false,
            },
            Word::Ref(x) => match second {
                Word::Ref(y) => x == y,
                _ => false,
            },
            Word::Pid(x) => match second {
                Word::Pid(y) => x == y,
                _ => false,
            },
            Word::Tuple(x) => match second {
                Word::Tuple(y) => self.equal_items(self.parts(x), self.parts(y)),
                _ => false,
            },
            Word::Nil => match second {
                Word::Nil => true,
                _ => false,
            },
            Word::Cons(_) => match second {
                Word::Cons(_) => self.equal_lists(first, second),
                _ => false,
            },
        }
    }

    #[cycle(equal)]
    fn equal_lists(&self, first: Word, second: Word) -> bool
        requires first { IsWordOf self.now first × IsList first }
        requires second { IsWordOf self.now second × IsList second }
        ensures { result ≡ same_all (elements (word_value self.now first)) (elements (word_value self.now second)) }
    {
        let mut a = first;
        let mut b = second;
        'cells: loop {
            match self.split(a) {
                None => return self.split(b).is_none(),
                Some((head, tail)) => match self.split(b) {
                    None => return false,
                    Some((other, others)) => {
                        if !self.equal(head, other) {
                            return false;
                        }
                        a = tail;
                        b = others;
                    }
                },
            }
        }
    }

    #[cycle(equal)]
    fn equal_items(&self, first: &[Word], second: &[Word]) -> bool
        requires first { All (IsWordOf self.now) first.now }
        requires second { All (IsWordOf self.now) second.now }
        ensures { result ≡ same_all (word_values self.now first.now) (word_values self.now second.now) }
    {
        let mut xs = first;
        let mut ys = second;
        'items: loop {
            match xs.split_first() {
                None => return ys.is_empty(),
                Some((x, rest)) => match ys.split_first() {
                    None => return false,
                    Some((y, others)) => {
                        if !self.equal(*x, *y) {
                            return false;
                        }
                        xs = rest;
                        ys = others;
                    }
                },
            }
        }
    }
}
