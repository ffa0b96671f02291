//! The heap of a run: pairs and tuples, each after its parts.

ghost use Rattle.std.specs.Prelude.{◌≡◌, ◌<◌, ◌≤◌, ◌++◌, ◌∷◌, [], length, IfOk, IfSome, MatchOption, OnErr, OnOk};
ghost use Rattle.pf_terms.specs.Value.{depth, nodes, none};
ghost use Rattle.pf_heap.specs.Heap.{block, block_value, cell_at, cell_value, cell_values, elements, pair, pair_value};
ghost use Rattle.pf_heap.specs.Heap.{word_value, ArePartsBelow, IsInOrder, IsList, IsSplit, IsWordOf};
ghost use Rattle.pf_heap.specs.Marks.{Names};
ghost use Rattle.pf_heap.specs.View.{IsSizeOf};

use crate::word::Word;
use pf_errors::NoMemory;
use pf_terms::{MOST_DEPTH, MOST_NODES};
use std::alloc::Global;
use std::marker::Model;
use std::mem::size_of;

/// How many bytes of room a heap without a cell keeps in each of its vectors. A run that built much had far more: its
/// memory is given back, since most runs never need as much.
const MOST: usize = 1024 * 1024;

const MOST_ENTRIES: usize = MOST / size_of::<Entry>();

const MOST_ITEMS: usize = MOST / size_of::<Word>();

/// What a cell is made of: a first element and the list of the others, or the elements of a tuple by where they begin
/// and how many there are.
#[derive(Clone, Copy)]
enum Parts {
    Pair(Word, Word),
    Block(usize, usize),
}

/// The nodes and the depth of the elements of a value together.
#[derive(Clone, Copy)]
pub(crate) struct Size {
    pub(crate) nodes: u32,
    pub(crate) depth: u32,
}

/// A cell, with the size of its value.
#[derive(Clone, Copy)]
struct Entry {
    parts: Parts,
    size: Size,
}

/// The pairs and the tuples of a run, in one order.
#[derive(Drop)]
pub struct Heap {
    entries: Vec<Entry>,
    items: Vec<Word>,
}

impl Model for Heap {
    ghost use Rattle.std.specs.Prelude.{List};
    ghost use Rattle.pf_heap.specs.Heap.{Cell};

    ghost Value = { List Cell };

    ghost use Rattle.pf_heap.specs.View.{cells_of, IsSound};

    ghost view = { λ a. cells_of a.items.items a.entries.items };

    ghost invariant = { λ a. IsSound a.items.items a.entries.items };
}

impl Heap {
    /// A heap with nothing in it.
    pub fn new(alloc: Global) -> Heap
        ensures { result ≡ [] }
    {
        Heap {
            entries: Vec::new(alloc),
            items: Vec::new(alloc),
        }
    }

    /// Takes all pairs and tuples away, as for another run. Their room stays, unless it is large.
    pub fn clear(&mut self)
        ensures { self.new ≡ [] }
    {
        self.entries.clear();
        self.items.clear();
        self.entries.shrink_to(MOST_ENTRIES);
        self.items.shrink_to(MOST_ITEMS);
    }

    /// How many pairs and tuples there are.
    pub fn len(&self) -> usize
        ensures { result ≡ length self.now }
    {
        self.entries.len()
    }

    /// The size of a word's value.
    pub(crate) fn size(&self, word: Word) -> Size
        requires { IsWordOf self.now word }
        ensures { IsSizeOf result (word_value self.now word) }
    {
        match word {
            Word::Tuple(at) => self.entries[at as usize].size,
            Word::Cons(at) => self.entries[at as usize].size,
            _ => Size { nodes: 0, depth: 0 },
        }
    }

    /// How many nodes a value has: 1, and for a tuple or a list also those of its elements.
    pub fn nodes(&self, word: Word) -> u32
        requires { IsWordOf self.now word }
        ensures value { result ≡ nodes (word_value self.now word) }
        ensures bound { result ≤ MOST_NODES }
    {
        1 + self.size(word).nodes
    }

    /// How deep a value is: 1, and for a tuple or a list 1 more than its deepest element.
    pub fn depth(&self, word: Word) -> u32
        requires { IsWordOf self.now word }
        ensures value { result ≡ depth (word_value self.now word) }
        ensures bound { result ≤ MOST_DEPTH }
    {
        1 + self.size(word).depth
    }

    /// The first element of a list that has one, and the list of the others.
    pub fn pair(&self, at: u64) -> (Word, Word)
        requires { IsWordOf self.now (Word.Cons at) }
        ensures value { word_value self.now (Word.Cons at) ≡ pair_value self.now result.0 result.1 }
        ensures cell { cell_at self.now at ≡ pair result.0 result.1 }
        ensures parts { ArePartsBelow self.now at (pair result.0 result.1) }
    {
        match self.entries[at as usize].parts {
            Parts::Pair(head, tail) => (head, tail),
            Parts::Block(_, _) => (Word::Nil, Word::Nil),
        }
    }

    /// The first element of a list and the list of the others, where there is one.
    pub fn split(&self, list: Word) -> Option<(Word, Word)>
        requires word { IsWordOf self.now list }
        requires list { IsList list }
        ensures value { MatchOption result (elements (word_value self.now list) ≡ none)
            (λ p. IsSplit self.now list p.0 p.1) }
        ensures words { IfSome result (λ p. IsWordOf self.now p.0 × IsWordOf self.now p.1 × IsList p.1) }
    {
        match list {
            Word::Cons(at) => Some(self.pair(at)),
            _ => None,
        }
    }

    /// The elements of a tuple.
    pub fn parts(&self, at: u64) -> &[Word]
        requires { IsWordOf self.now (Word.Tuple at) }
        ensures value { word_value self.now (Word.Tuple at) ≡ block_value self.now result.now }
        ensures cell { cell_at self.now at ≡ block result.now }
        ensures parts { ArePartsBelow self.now at (block result.now) }
    {
        match self.entries[at as usize].parts {
            Parts::Pair(_, _) => &self.items[..0],
            Parts::Block(start, len) => &self.items[start..start + len],
        }
    }

    /// The word that names the cell of an index.
    pub(crate) fn word_at(&self, at: usize) -> Word
        requires { at < length self.now }
        ensures word { IsWordOf self.now result }
        ensures names { Names at result }
    {
        match self.entries[at].parts {
            Parts::Pair(_, _) => Word::Cons(at as u64),
            Parts::Block(_, _) => Word::Tuple(at as u64),
        }
    }

    /// Each cell comes after its parts.
    pub(crate) fn is_in_order(&self)
        ensures { IsInOrder self.now }
    {
        let _ = &self.entries;
    }

    /// Adds the pair of a first element and a list, and says at which index.
    pub(crate) fn push_pair(&mut self, head: Word, tail: Word, size: Size) -> Result<u64, NoMemory>
        requires parts { ArePartsBelow self.old (length self.old) (pair head tail) }
        requires size { IsSizeOf size (cell_value (cell_values self.old) (pair head tail)) }
        ensures at { IfOk result (λ at. at ≡ length self.old) }
        ensures added { OnOk result (self.new ≡ self.old ++ pair head tail ∷ []) }
        ensures err { OnErr result (self.new ≡ self.old) }
    {
        let at = self.entries.len();
        self.entries.push(Entry {
            parts: Parts::Pair(head, tail),
            size,
        })?;
        Ok(at as u64)
    }

    /// Adds the tuple of these elements, and says at which index.
    pub(crate) fn push_block(&mut self, words: &[Word], size: Size) -> Result<u64, NoMemory>
        requires parts { ArePartsBelow self.old (length self.old) (block words.now) }
        requires size { IsSizeOf size (cell_value (cell_values self.old) (block words.now)) }
        ensures at { IfOk result (λ at. at ≡ length self.old) }
        ensures added { OnOk result (self.new ≡ self.old ++ block words.now ∷ []) }
        ensures err { OnErr result (self.new ≡ self.old) }
    {
        let at = self.entries.len();
        let start = self.items.len();
        self.items.extend_from_slice(words)?;
        self.entries.push(Entry {
            parts: Parts::Block(start, words.len()),
            size,
        })?;
        Ok(at as u64)
    }
}
