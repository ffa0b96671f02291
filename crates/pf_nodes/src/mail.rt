//! The mail list: its items in the order in which they came, and a mark.
ghost use Rattle.std.specs.Prelude.{◌≡◌, ℕ, ◌+◌, ◌-◌, ◌^◌, ◌<◌, ◌≤◌, ◌==◌, [], ◌∷◌, ◌++◌, length, remove, slice_get};
ghost use Rattle.std.specs.Prelude.{min};
ghost use Rattle.std.specs.Prelude.{Some, IfSome, MatchOption, IsOk, IfErr, OnOk, OnErr};
ghost use Rattle.pf_nodes.specs.Mail.{mail};

use crate::raw::{ListNode, Loose, NodeRef, Nodes};
use crate::spare::{CAPACITY, Pool};
use std::alloc::Global;
use std::marker::Model;

/// A list of items with a mark, which is a position from 0 to the length.
pub struct MailList<T> {
    nodes: Nodes<T>,
    front: Option<NodeRef>,
    back: Option<NodeRef>,
    at: Option<NodeRef>,
    position: usize,
    count: usize,
    alloc: Global,
}

impl<T> Model for MailList<T> {
    ghost use Rattle.pf_nodes.specs.Mail.{Mail, mail};

    ghost Value = { Mail T };

    ghost use Rattle.pf_nodes.specs.Nodes.{IsMail, values};

    ghost view = { λ m. mail (values m.nodes.items) m.position };

    ghost invariant = { λ m. IsMail m.nodes.items m.front m.back m.at m.position m.count };
}

impl<T> MailList<T> {
    /// A list with no item, whose mark is at 0.
    pub fn new(alloc: Global) -> MailList<T>
        ensures { result ≡ mail [] 0 }
    {
        MailList {
            nodes: Nodes::new(),
            front: None,
            back: None,
            at: None,
            position: 0,
            count: 0,
            alloc,
        }
    }

    /// How many items there are.
    pub fn len(&self) -> usize
        ensures { result ≡ length self.now.items }
    {
        self.count
    }

    /// Whether there is no item.
    pub fn is_empty(&self) -> bool
        ensures { result ≡ (length self.now.items == 0) }
    {
        self.len() == 0
    }

    /// The position of the mark.
    pub fn mark(&self) -> usize
        ensures position { result ≡ self.now.mark }
        ensures within { result ≤ length self.now.items }
    {
        self.position
    }

    /// Moves the mark to the front.
    pub fn reset_mark(&mut self)
        ensures { self.new ≡ mail self.old.items 0 }
    {
        self.at = self.front;
        self.position = 0;
    }

    /// The item at the mark, or none where the mark is at the end.
    #[inline(always)]
    pub fn marked(&self) -> Option<&T>
        ensures item { MatchOption result (self.now.mark ≡ length self.now.items)
            (λ t. slice_get self.now.items self.now.mark ≡ Some t.now) }
        ensures within { IfSome result (λ _. self.now.mark < length self.now.items) }
    {
        match self.at {
            Some(node_ref) => self.nodes.get(node_ref).value.as_ref(),
            None => None,
        }
    }

    /// Moves the mark past the item at it.
    #[inline(always)]
    pub fn pass(&mut self)
        requires { self.old.mark < length self.old.items }
        ensures { self.new ≡ mail self.old.items (self.old.mark + 1) }
    {
        let Some(node_ref) = self.at else {
            unreachable!();
        };
        prove!(self.position < self.count);
        self.at = self.nodes.get(node_ref).next;
        self.position += 1;
    }
}

impl<T: Drop> MailList<T> {
    /// Puts an item at the end. It takes a spare node of the pool, and asks for memory only where the pool has none.
    /// The item comes back where memory runs out, or at `usize::MAX` items.
    pub fn push_back(&mut self, pool: &mut Pool<T>, value: T) -> Result<(), T>
        ensures pushed { OnOk result (self.new ≡ mail (self.old.items ++ value ∷ []) self.old.mark) }
        ensures taken { OnOk result (pool.new ≡ pool.old - 1) }
        ensures unchanged { OnErr result ((self.new ≡ self.old) × (pool.new ≡ pool.old)) }
        ensures value_returned { IfErr result (λ back. back ≡ value) }
        ensures spare { 0 < pool.old → length self.old.items < 2 ^ 64 - 1 → IsOk result }
    {
        if self.count == usize::MAX {
            return Err(value);
        }
        let Some(mut node) = pool.node() else {
            return Err(value);
        };
        node.next = None;
        node.value = Some(value);
        let node_ref = self.nodes.add(Loose::of(node));
        self.nodes.join(self.back, Some(node_ref));
        self.front = self.front.or(Some(node_ref));
        self.back = Some(node_ref);
        self.at = self.at.or(Some(node_ref));
        self.count += 1;
        Ok(())
    }

    /// Takes the node at the mark out, with its item.
    fn cut_at_mark(&mut self) -> Box<ListNode<T>>
        requires { self.old.mark < length self.old.items }
        ensures item { slice_get self.old.items self.old.mark ≡ result.value.value }
        ensures others { self.new ≡ mail (remove self.old.items self.old.mark) self.old.mark }
    {
        let Some(node_ref) = self.at else {
            unreachable!();
        };
        let node = self.nodes.remove(node_ref).into_box(self.alloc);
        let prev = node.prev;
        let next = node.next;
        self.nodes.join(prev, next);
        self.front = prev.and(self.front).or(next);
        self.back = next.and(self.back).or(prev);
        self.at = next;
        self.count -= 1;
        node
    }

    /// Takes the item at the mark out. Its node goes to the pool, or is freed where the pool is full.
    /// The mark keeps its position, which is that of the next item.
    pub fn take_marked(&mut self, pool: &mut Pool<T>) -> T
        requires { self.old.mark < length self.old.items }
        ensures item { slice_get self.old.items self.old.mark ≡ Some result }
        ensures others { self.new ≡ mail (remove self.old.items self.old.mark) self.old.mark }
        ensures pooled { pool.new ≡ min 1024 (pool.old + 1) }
    {
        let mut node = self.cut_at_mark();
        let item = node.value.take();
        pool.put(node);
        item.unwrap()
    }

    /// Drops each item. The nodes go to the pool, or are freed once the pool is full.
    pub fn drain_into(&mut self, pool: &mut Pool<T>)
        ensures emptied { self.new ≡ mail [] 0 }
        ensures pooled { pool.new ≡ min 1024 (pool.old + length self.old.items) }
    {
        prove!(pool.len() <= CAPACITY);
        self.reset_mark();
        while !self.is_empty() {
            let mut node = self.cut_at_mark();
            drop(node.value.take());
            pool.put(node);
        }
    }
}

impl<T: Drop> Drop for MailList<T> {
    fn drop(mut self) {
        self.reset_mark();
        while !self.is_empty() {
            drop(self.cut_at_mark());
        }
        let MailList {
            nodes,
            front: _,
            back: _,
            at: _,
            position: _,
            count: _,
            alloc: _,
        } = self;
        nodes.end();
    }
}
