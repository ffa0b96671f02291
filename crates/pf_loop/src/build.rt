//! Pairs and tuples that operations make or take apart.

ghost use Rattle.std.specs.Prelude.{◌≡◌, Err, IfOk, MatchBool};
ghost use Rattle.std.specs.List.{All};
ghost use Rattle.pf_terms.specs.Value as value;
ghost use Rattle.pf_terms.specs.Value.{atom, list, tuple as tuple_of, Value};
ghost use Rattle.pf_terms.specs.Fixed.{badarg};
ghost use Rattle.pf_ops.specs.Operations as spec;
ghost use Rattle.pf_ops.specs.Reasons as reasons;
ghost use Rattle.pf_heap.specs.Heap.{elements, word_value, word_values, IsList, IsWordOf, Keeps};
ghost use Rattle.pf_loop.specs.View.{answer_over, IsFormed};

use crate::answers::Answer;
use pf_errors::{NoMemory, OrNoMemory};
use pf_heap::{Heap, Word};
use pf_terms::{AtomId, TooLarge};

/// A word's value has the word's form.
#[inline(always)]
pub(crate) fn is_formed(heap: &Heap, word: Word)
    requires { IsWordOf heap.now word }
    ensures { IsFormed word (word_value heap.now word) }
{
    match word {
        Word::Cons(at) => {
            let _pair = heap.pair(at);
        }
        Word::Tuple(at) => {
            let _parts = heap.parts(at);
        }
        _ => {}
    }
}

/// Whether a word is a list.
pub(crate) fn is_list(heap: &Heap, word: Word) -> bool
    requires { IsWordOf heap.now word }
    ensures { MatchBool result
        (IsList word × (word_value heap.now word ≡ list (elements (word_value heap.now word))))
        ((v : Value) → spec.consed v (word_value heap.now word) ≡ Err badarg) }
{
    match word {
        Word::Nil => true,
        Word::Cons(at) => {
            let _pair = heap.pair(at);
            true
        }
        Word::Tuple(at) => {
            let _parts = heap.parts(at);
            false
        }
        Word::Int(_) | Word::Atom(_) | Word::Ref(_) | Word::Pid(_) => false,
    }
}

/// Whether two values are the same. Integers and atoms are compared in place.
#[inline(always)]
pub(crate) fn same(heap: &Heap, first: Word, second: Word) -> bool
    requires first { IsWordOf heap.now first }
    requires second { IsWordOf heap.now second }
    ensures { result ≡ value.same (word_value heap.now first) (word_value heap.now second) }
{
    match (first, second) {
        (Word::Int(x), Word::Int(y)) => x == y,
        (Word::Atom(x), Word::Atom(y)) => x == y,
        _ => heap.equal(first, second),
    }
}

/// The list of a first element and a list.
pub(crate) fn consed(heap: &mut Heap, first: Word, rest: Word) -> Result<Answer, NoMemory>
    requires first { IsWordOf heap.old first }
    requires rest { IsWordOf heap.old rest }
    ensures made { IfOk result (λ r. answer_over heap.new r
        ≡ spec.consed (word_value heap.old first) (word_value heap.old rest)) }
    ensures word { IfOk result (λ r. IfOk r (IsWordOf heap.new)) }
    ensures keeps { Keeps heap.old heap.new }
{
    if !is_list(heap, rest) {
        return Ok(Err(AtomId::BADARG));
    }
    match heap.cons(first, rest) {
        Ok(word) => Ok(Ok(word)),
        Err(OrNoMemory::NoMemory) => Err(NoMemory),
        Err(OrNoMemory::Fault(TooLarge)) => Ok(Err(AtomId::SYSTEM_LIMIT)),
    }
}

/// The tuple of these elements.
pub(crate) fn tupled(heap: &mut Heap, words: &[Word]) -> Result<Answer, NoMemory>
    requires { All (IsWordOf heap.old) words.now }
    ensures made { IfOk result (λ r. answer_over heap.new r
        ≡ spec.limited (tuple_of (word_values heap.old words.now))) }
    ensures word { IfOk result (λ r. IfOk r (IsWordOf heap.new)) }
    ensures keeps { Keeps heap.old heap.new }
{
    match heap.tuple(words) {
        Ok(word) => Ok(Ok(word)),
        Err(OrNoMemory::NoMemory) => Err(NoMemory),
        Err(OrNoMemory::Fault(TooLarge)) => Ok(Err(AtomId::SYSTEM_LIMIT)),
    }
}

/// `{tag, value}`; where it would be too large, `system_limit` takes the place of the value.
#[inline(never)]
pub(crate) fn tagged(heap: &mut Heap, tag: AtomId, word: Word) -> Result<Word, NoMemory>
    requires { IsWordOf heap.old word }
    ensures made { IfOk result (λ w. word_value heap.new w
        ≡ reasons.tagged (atom tag.0) (word_value heap.old word)) }
    ensures word { IfOk result (IsWordOf heap.new) }
    ensures keeps { Keeps heap.old heap.new }
{
    let tag = Word::Atom(u64::from(tag.0));
    match heap.tuple(&[tag, word]) {
        Ok(pair) => Ok(pair),
        Err(OrNoMemory::NoMemory) => Err(NoMemory),
        Err(OrNoMemory::Fault(TooLarge)) => {
            let limit = Word::Atom(u64::from(AtomId::SYSTEM_LIMIT.0));
            heap.tuple(&[tag, limit]).map_err(|_| NoMemory)
        }
    }
}
