//! Terms: values whose parts are shared, so that a copy, a head, a tail and a cons take the same time at any size.

ghost use Rattle.std.specs.Prelude.{◌≡◌, ◌+◌, ◌<◌, ◌≤◌, ◌↔◌, IfOk, IfSome, IsTrue, MatchOption};
ghost use Rattle.pf_terms.specs.Value.{count, depth, depth_in, list, more, nodes, nodes_in, none, tuple};
ghost use Rattle.pf_terms.specs.Value.{IsWithinLimits};
ghost use Rattle.pf_terms.specs.Term.{elements_of, value_of, values_of};
ghost use Rattle.pf_terms.specs.Order.{rank};

use crate::atoms::AtomId;
use crate::limits::{MOST_DEPTH, MOST_NODES};
use pf_errors::NoMemory;
use std::alloc::Global;
use std::marker::Model;
use std::sync::Arc;

/// A value within the limits of nodes and depth (Erlang Reference Manual, "Data Types").
#[cycle(term)]
#[derive(Drop)]
pub enum Term {
    Int(i64),
    Atom(AtomId),
    /// A reference, counted from 0 in a run.
    Ref(u64),
    /// A process, counted from 0 in a run.
    Pid(u32),
    Tuple(Arc<Elements>),
    List(List),
}

/// A proper list: empty, or a first element before a list, shared.
#[cycle(term)]
pub enum List {
    Nil,
    Cons(Arc<Cell>),
}

/// The first element of a list and what comes after it, with the nodes and the depth of all elements together.
#[cycle(term)]
#[derive(Drop)]
pub struct Cell {
    head: Term,
    tail: List,
    nodes: u32,
    depth: u32,
}

/// The elements of a tuple, with the nodes and the depth of all together.
#[cycle(term)]
#[derive(Drop)]
pub struct Elements {
    items: Vec<Term>,
    nodes: u32,
    depth: u32,
}

/// `[]`, which fills the places of a list of arguments that holds none yet.
impl Default for Term {
    fn default() -> Term {
        Term::List(List::Nil)
    }
}

impl Drop for List {
    #[cycle(drops)]
    fn drop(mut self) {
        loop {
            match self {
                List::Nil => return,
                List::Cons(shared) => match Arc::into_inner(shared) {
                    None => return,
                    Some(cell) => {
                        let Cell {
                            head: _,
                            tail,
                            nodes: _,
                            depth: _,
                        } = cell;
                        self = tail;
                    }
                },
            }
        }
    }
}

impl Model for Cell {
    ghost use Rattle.std.specs.Prelude.{◌≡◌, ◌<◌};
    ghost use Rattle.pf_terms.specs.Value.{Values, depth_in, more, nodes_in};
    ghost use Rattle.pf_terms.specs.Encoding.{coded_values};
    ghost use Rattle.pf_terms.specs.declared.limits.TheConstants.{MOST_DEPTH, MOST_NODES};

    ghost Value = { Values };

    ghost coded = { coded_values };

    ghost use Rattle.pf_terms.specs.Term.{elements_of, value_of};

    ghost view = { λ a. more (value_of a.head) (elements_of a.tail) };

    ghost invariant = { λ a. (a.nodes ≡ nodes_in (more (value_of a.head) (elements_of a.tail)))
        × (a.depth ≡ depth_in (more (value_of a.head) (elements_of a.tail))) × (a.nodes < MOST_NODES)
        × (a.depth < MOST_DEPTH) };

    ghost size = { nodes_in };

    ghost use Rattle.std.proofs.Common.{arith};
    ghost use Rattle.pf_terms.specs.Falls.{deep_le-list, deep_le-nodes, nodes_pos};

    ghost size_decreases = { λ a h. omega (arith, deep_le-nodes a.head, deep_le-list a.tail, nodes_pos a.head) };
}

impl Model for Elements {
    ghost use Rattle.std.specs.Prelude.{◌≡◌, ◌<◌};
    ghost use Rattle.pf_terms.specs.Value.{Values, depth_in, nodes_in};
    ghost use Rattle.pf_terms.specs.Encoding.{coded_values};
    ghost use Rattle.pf_terms.specs.declared.limits.TheConstants.{MOST_DEPTH, MOST_NODES};

    ghost Value = { Values };

    ghost coded = { coded_values };

    ghost use Rattle.pf_terms.specs.Term.{values_of};

    ghost view = { λ a. values_of a.items.items };

    ghost invariant = { λ a. (a.nodes ≡ nodes_in (values_of a.items.items))
        × (a.depth ≡ depth_in (values_of a.items.items)) × (a.nodes < MOST_NODES) × (a.depth < MOST_DEPTH) };

    ghost size = { nodes_in };

    ghost use Rattle.std.proofs.Common.{arith};
    ghost use Rattle.pf_terms.specs.Falls.{most_le-nodes_in};

    ghost size_decreases = { λ a h. omega (arith, most_le-nodes_in a.items.items) };
}

/// Whether a tuple or a list may have elements with this number of nodes and this depth.
fn fit(nodes: u32, depth: u32) -> bool
    ensures { IsTrue result ↔ ((nodes < MOST_NODES) × (depth < MOST_DEPTH)) }
{
    nodes < MOST_NODES && depth < MOST_DEPTH
}

/// How many nodes elements have together, and how deep the deepest is.
#[derive(Clone, Copy)]
pub(crate) struct Size {
    nodes: u32,
    depth: u32,
}

/// The size of these elements, where a tuple or a list of them is within the limits.
pub(crate) fn size_of(items: &[Term]) -> Option<Size>
    ensures is { IfSome result (λ s. (s.nodes ≡ nodes_in (values_of items.now))
        × (s.depth ≡ depth_in (values_of items.now))) }
    ensures within { MatchOption result (¬ IsWithinLimits (list (values_of items.now)))
        (λ _. IsWithinLimits (list (values_of items.now))) }
{
    let mut nodes = 0;
    let mut depth = 0;
    for item in items {
        nodes += crate::term::nodes(item);
        depth = depth.max(crate::term::depth(item));
        if !fit(nodes, depth) {
            return None;
        }
    }
    Some(Size { nodes, depth })
}

/// How many nodes a value has: 1, and for a tuple or a list also those of its elements.
pub fn nodes(term: &Term) -> u32
    ensures value { result ≡ nodes (value_of term.now) }
    ensures bound { result ≤ MOST_NODES }
{
    match term {
        Term::Tuple(elements) => 1 + elements.nodes(),
        Term::List(list) => 1 + list.nodes(),
        _ => 1,
    }
}

/// How deep a value is: 1, and for a tuple or a list 1 more than its deepest element.
pub fn depth(term: &Term) -> u32
    ensures value { result ≡ depth (value_of term.now) }
    ensures bound { result ≤ MOST_DEPTH }
{
    match term {
        Term::Tuple(elements) => 1 + elements.depth(),
        Term::List(list) => 1 + list.depth(),
        _ => 1,
    }
}

/// The same value, its parts shared. It fails only where a part is shared too often to be counted.
pub fn copy(term: &Term) -> Result<Term, NoMemory>
    ensures { IfOk result (λ t. value_of t ≡ value_of term.now) }
{
    match term {
        Term::Int(n) => Ok(Term::Int(*n)),
        Term::Atom(a) => Ok(Term::Atom(*a)),
        Term::Ref(r) => Ok(Term::Ref(*r)),
        Term::Pid(p) => Ok(Term::Pid(*p)),
        Term::Tuple(elements) => Ok(Term::Tuple(Arc::try_clone(elements)?)),
        Term::List(list) => Ok(Term::List(list.share()?)),
    }
}

impl Term {
    /// The index of its kind in the order of kinds.
    pub(crate) fn rank(&self) -> u8
        ensures { result ≡ rank (value_of self.now) }
    {
        match self {
            Term::Int(_) => 0,
            Term::Atom(_) => 1,
            Term::Ref(_) => 2,
            Term::Pid(_) => 3,
            Term::Tuple(_) => 4,
            Term::List(_) => 5,
        }
    }
}

impl List {
    /// How many nodes its elements have together.
    pub fn nodes(&self) -> u32
        ensures value { result ≡ nodes_in (elements_of self.now) }
        ensures bound { result < MOST_NODES }
    {
        match self {
            List::Nil => 0,
            List::Cons(cell) => cell.nodes(),
        }
    }

    /// How deep its deepest element is, 0 where there is none.
    pub fn depth(&self) -> u32
        ensures value { result ≡ depth_in (elements_of self.now) }
        ensures bound { result < MOST_DEPTH }
    {
        match self {
            List::Nil => 0,
            List::Cons(cell) => cell.depth(),
        }
    }

    /// The same list, shared. It fails only where its first cell is shared too often to be counted.
    pub fn share(&self) -> Result<List, NoMemory>
        ensures { IfOk result (λ l. elements_of l ≡ elements_of self.now) }
    {
        match self {
            List::Nil => Ok(List::Nil),
            List::Cons(cell) => Ok(List::Cons(Arc::try_clone(cell)?)),
        }
    }

    /// The first element and the list of the others, where there is one.
    pub fn split(&self) -> Option<(&Term, &List)>
        ensures { MatchOption result (elements_of self.now ≡ none)
            (λ p. elements_of self.now ≡ more (value_of p.0.now) (elements_of p.1.now)) }
    {
        match self {
            List::Nil => None,
            List::Cons(cell) => Some(cell.parts()),
        }
    }
}

impl Cell {
    /// A cell, which stands for the list of its head and the elements of its tail, where that is within the limits.
    pub(crate) fn new(head: Term, tail: List) -> Option<Cell>
        ensures made { MatchOption result (¬ IsWithinLimits (list (more (value_of head) (elements_of tail))))
            (λ c. c ≡ more (value_of head) (elements_of tail)) }
        ensures within { IfSome result (λ _. IsWithinLimits (list (more (value_of head) (elements_of tail)))) }
    {
        let nodes = nodes(&head) + tail.nodes();
        let depth = depth(&head).max(tail.depth());
        if !fit(nodes, depth) {
            return None;
        }
        Some(Cell {
            head,
            tail,
            nodes,
            depth,
        })
    }

    fn nodes(&self) -> u32
        ensures value { result ≡ nodes_in self.now }
        ensures bound { result < MOST_NODES }
    {
        self.nodes
    }

    fn depth(&self) -> u32
        ensures value { result ≡ depth_in self.now }
        ensures bound { result < MOST_DEPTH }
    {
        self.depth
    }

    /// The first element, and the list of the others.
    pub fn parts(&self) -> (&Term, &List)
        ensures { self.now ≡ more (value_of result.0.now) (elements_of result.1.now) }
    {
        (&self.head, &self.tail)
    }
}

impl Elements {
    /// The elements, where a tuple of them is within the limits.
    pub(crate) fn new(items: Vec<Term>) -> Option<Elements>
        ensures made { MatchOption result (¬ IsWithinLimits (tuple (values_of items.items)))
            (λ vs. vs ≡ values_of items.items) }
        ensures within { IfSome result (λ _. IsWithinLimits (tuple (values_of items.items))) }
    {
        let Size { nodes, depth } = size_of(&items)?;
        Some(Elements {
            items,
            nodes,
            depth,
        })
    }

    fn nodes(&self) -> u32
        ensures value { result ≡ nodes_in self.now }
        ensures bound { result < MOST_NODES }
    {
        self.nodes
    }

    fn depth(&self) -> u32
        ensures value { result ≡ depth_in self.now }
        ensures bound { result < MOST_DEPTH }
    {
        self.depth
    }

    /// The elements in order.
    pub fn as_slice(&self) -> &[Term]
        ensures { values_of result.now ≡ self.now }
    {
        self.items.as_slice()
    }
}

/// What a scheduler will need: terms may go to another thread, and be shared by threads.
fn crosses_threads(terms: &Vec<Term>, shared: &Arc<Vec<Term>>) {
    needs_send(terms);
    needs_send(shared);
}

fn needs_send<T: Send>(_value: &T) {}
