//! The pool of spare nodes, a stack through the nodes' own links.
ghost use Rattle.std.specs.Prelude.{◌≡◌, ℕ, ◌+◌, ◌-◌, ◌≤◌, MatchOption, min};
ghost use Rattle.pf_nodes.specs.Nodes.{IsSpare};

use crate::raw::{ListNode, Loose, NodeRef, Nodes};
use std::alloc::Global;
use std::marker::Model;

/// The most spare nodes that a pool keeps.
pub(crate) const CAPACITY: usize = 1024;

/// At most 1,024 spare nodes, none of which has a value. A contract sees how many they are.
pub struct Pool<T> {
    nodes: Nodes<T>,
    top: Option<NodeRef>,
    count: usize,
    alloc: Global,
}

impl<T> Model for Pool<T> {
    ghost use Rattle.std.specs.Prelude.{ℕ};

    ghost Value = { ℕ };

    ghost use Rattle.pf_nodes.specs.Nodes.{IsPool};

    ghost view = { λ p. p.count };

    ghost invariant = { λ p. IsPool p.nodes.items p.top p.count };
}

impl<T> Pool<T> {
    /// A pool with no node, whose new nodes are asked of `alloc`.
    pub fn new(alloc: Global) -> Pool<T>
        ensures { result ≡ 0 }
    {
        Pool {
            nodes: Nodes::new(),
            top: None,
            count: 0,
            alloc,
        }
    }

    /// How many spare nodes the pool has.
    pub fn len(&self) -> usize
        ensures count { result ≡ self.now }
        ensures within { result ≤ 1024 }
    {
        self.count
    }
}

impl<T: Drop> Pool<T> {
    /// Takes a spare node out, if there is one.
    fn take(&mut self) -> Option<Box<ListNode<T>>>
        ensures { MatchOption result ((self.old ≡ 0) × (self.new ≡ 0))
            (λ b. IsSpare b.value × (self.new + 1 ≡ self.old)) }
    {
        let Some(node_ref) = self.top else {
            return None;
        };
        let node = self.nodes.remove(node_ref).into_box(self.alloc);
        self.top = node.next;
        self.count -= 1;
        Some(node)
    }

    /// A spare node of the pool, or a new one where the pool has none.
    pub(crate) fn node(&mut self) -> Option<Box<ListNode<T>>>
        ensures { MatchOption result ((self.old ≡ 0) × (self.new ≡ 0)) (λ _. self.new ≡ self.old - 1) }
    {
        match self.take() {
            Some(node) => Some(node),
            None => Box::new(self.alloc, ListNode::spare()).ok(),
        }
    }

    /// Keeps a spare node, or frees it where the pool is full.
    pub(crate) fn put(&mut self, mut node: Box<ListNode<T>>)
        requires { IsSpare node.value }
        ensures { self.new ≡ min 1024 (self.old + 1) }
    {
        if self.count == CAPACITY {
            return;
        }
        node.next = self.top;
        let node_ref = self.nodes.add(Loose::of(node));
        self.top = Some(node_ref);
        self.count += 1;
    }
}

impl<T: Drop> Drop for Pool<T> {
    fn drop(mut self) {
        while let Some(node) = self.take() {
            drop(node);
        }
        let Pool {
            nodes,
            top: _,
            count: _,
            alloc: _,
        } = self;
        nodes.end();
    }
}
