//! Pairs and tuples added to a heap, within the limits of a value.

ghost use Rattle.std.specs.Prelude.{◌≡◌, ◌<◌, ◌↔◌, Err, IfNone, IfOk, IfSome, IsTrue, OnErr};
ghost use Rattle.std.specs.List.{All};
ghost use Rattle.pf_terms.specs.Value.{IsWithinLimits};
ghost use Rattle.pf_terms.specs.Faults.{past_limits};
ghost use Rattle.pf_heap.specs.Heap.{block_value, pair_value, word_value, IsList, IsWordOf, Keeps};
ghost use Rattle.pf_heap.specs.View.{IsSizeOf};

use crate::heap::{Heap, Size};
use crate::word::Word;
use pf_errors::OrNoMemory;
use pf_terms::{MOST_DEPTH, MOST_NODES, TooLarge};

/// Whether a tuple or a list may have elements with this number of nodes and this depth.
fn fit(nodes: u32, depth: u32) -> bool
    ensures { IsTrue result ↔ ((nodes < MOST_NODES) × (depth < MOST_DEPTH)) }
{
    nodes < MOST_NODES && depth < MOST_DEPTH
}

impl Heap {
    /// The size of the list of a first element and the elements of another list, where it is within the limits.
    fn size_of_pair(&self, head: Word, tail: Word) -> Option<Size>
        requires head { IsWordOf self.now head }
        requires tail { IsWordOf self.now tail }
        ensures is { IfSome result (λ s. IsSizeOf s (pair_value self.now head tail)) }
        ensures within { IfNone result (¬ IsWithinLimits (pair_value self.now head tail)) }
    {
        let first = self.size(head);
        let rest = self.size(tail);
        let nodes = 1 + first.nodes + rest.nodes;
        let depth = rest.depth.max(1 + first.depth);
        if !fit(nodes, depth) {
            return None;
        }
        Some(Size { nodes, depth })
    }

    /// The size of the tuple of these elements, where it is within the limits.
    fn size_of_block(&self, words: &[Word]) -> Option<Size>
        requires { All (IsWordOf self.now) words.now }
        ensures is { IfSome result (λ s. IsSizeOf s (block_value self.now words.now)) }
        ensures within { IfNone result (¬ IsWithinLimits (block_value self.now words.now)) }
    {
        let mut nodes = 0;
        let mut depth = 0;
        let mut rest = words;
        while let Some((first, others)) = rest.split_first() {
            nodes += self.nodes(*first);
            depth = depth.max(self.depth(*first));
            if !fit(nodes, depth) {
                return None;
            }
            rest = others;
        }
        Some(Size { nodes, depth })
    }

    /// The list of a first element and the elements of another list.
    pub fn cons(&mut self, head: Word, tail: Word) -> Result<Word, OrNoMemory<TooLarge>>
        requires head { IsWordOf self.old head }
        requires tail { IsWordOf self.old tail }
        requires list { IsList tail }
        ensures made { IfOk result (λ w. word_value self.new w ≡ pair_value self.old head tail) }
        ensures word { IfOk result (λ w. IsWordOf self.new w × IsList w) }
        ensures keeps { Keeps self.old self.new }
        ensures too_large { (result ≡ Err past_limits) ↔ (¬ IsWithinLimits (pair_value self.old head tail)) }
        ensures err { OnErr result (self.new ≡ self.old) }
    {
        match self.size_of_pair(head, tail) {
            Some(size) => Ok(Word::Cons(self.push_pair(head, tail, size)?)),
            None => Err(OrNoMemory::Fault(TooLarge)),
        }
    }

    /// The tuple of these elements.
    pub fn tuple(&mut self, words: &[Word]) -> Result<Word, OrNoMemory<TooLarge>>
        requires { All (IsWordOf self.old) words.now }
        ensures made { IfOk result (λ w. word_value self.new w ≡ block_value self.old words.now) }
        ensures word { IfOk result (IsWordOf self.new) }
        ensures keeps { Keeps self.old self.new }
        ensures too_large { (result ≡ Err past_limits) ↔ (¬ IsWithinLimits (block_value self.old words.now)) }
        ensures err { OnErr result (self.new ≡ self.old) }
    {
        match self.size_of_block(words) {
            Some(size) => Ok(Word::Tuple(self.push_block(words, size)?)),
            None => Err(OrNoMemory::Fault(TooLarge)),
        }
    }
}
