//! The raw nodes of a list or a pool: the one file with raw pointers.
ghost use Rattle.std.specs.Prelude.{◌≡◌, List, [], ◌∷◌, ◌++◌};
ghost use Rattle.std.specs.Borrow.{sem};
ghost use Rattle.std.specs.Box.Ownership.{box_owns};
ghost use Rattle.std.specs.Map.{lookup, remove_entry};
ghost use denote.RawPtr.{Ptr};
ghost use Rattle.pf_nodes.specs.declared.raw.ListNode.{ListNode};
ghost use Rattle.pf_nodes.specs.Nodes.{IsSpare};
ghost use Rattle.pf_nodes.specs.NodeRefs.{IsNodeRef, same_node_ref};
ghost use Rattle.pf_nodes.specs.Ownership.{heap_token, nodes_own, nodes_lent};

use std::alloc::Global;
use std::marker::{Model, PhantomData, Send};

/// Where a node lies. It owns nothing.
#[derive(Clone, Copy)]
pub struct NodeRef {
    ptr: *mut u8,
}

unsafe impl Send for NodeRef {}

/// A node: the references of the one before it and the one after it, and its value.
#[derive(Drop)]
pub struct ListNode<T> {
    pub(crate) prev: Option<NodeRef>,
    pub(crate) next: Option<NodeRef>,
    pub(crate) value: Option<T>,
}

impl<T> ListNode<T> {
    /// A node with no neighbor and no value.
    pub(crate) fn spare() -> ListNode<T>
        ensures { IsSpare result }
    {
        ListNode {
            prev: None,
            next: None,
            value: None,
        }
    }
}

/// A boxed value as its pointer.
pub(crate) struct Loose<X> {
    ptr: *mut X,
    ghost value: { X },
}

impl<X> Model for Loose<X> {
    ghost also_owns = { λ l. box_owns heap_token X.row l.ptr l.value };
}

impl<X: Drop> Loose<X> {
    /// Takes a box apart, whose block then is to be made a box again.
    pub(crate) fn of(whole: Box<X>) -> Loose<X>
        ensures { result.value ≡ whole.value }
    {
        Loose {
            ptr: Box::into_raw(whole),
        }
    }

    /// The box again.
    pub(crate) fn into_box(self, alloc: Global) -> Box<X>
        ensures { result.value ≡ self.value }
    {
        let Loose { ptr } = self;
        unsafe { Box::from_raw(alloc, ptr) }
    }
}

/// The owner of nodes, each known by its reference. It takes no space.
pub struct Nodes<T> {
    mark: PhantomData<*mut ListNode<T>>,
    ghost items: { List (Ptr × ListNode T) },
}

impl<T> Model for Nodes<T> {
    ghost also_owns = { λ n. nodes_own T.row n.items };

    ghost also_shares = { λ n _ κ. nodes_lent T.row n.items κ };
}

unsafe impl<T: Send> Send for Nodes<T> {}

impl<T> Nodes<T> {
    ghost use Rattle.pf_nodes.specs.Lends.{LendsNode};

    pub(crate) fn new() -> Nodes<T>
        ensures { result.items ≡ [] }
    {
        Nodes { mark: PhantomData }
    }

    /// Ends an owner of no nodes.
    pub(crate) fn end(self)
        requires { self.items ≡ [] }
    {
        let Nodes { mark: _ } = self;
    }

    /// Owns one more node, and says where it lies.
    pub(crate) fn add(&mut self, node: Loose<ListNode<T>>) -> NodeRef
        ensures fresh { lookup (same_node_ref result) self.old.items ≡ None }
        ensures items { self.new.items ≡ self.old.items ++ (result.ptr, node.value) ∷ [] }
    {
        let Loose { ptr } = node;
        NodeRef {
            ptr: ptr as *mut u8,
        }
    }

    /// Gives a node away.
    pub(crate) fn remove(&mut self, node_ref: NodeRef) -> Loose<ListNode<T>>
        requires { IsNodeRef self.old.items node_ref }
        ensures node { lookup (same_node_ref node_ref) self.old.items ≡ Some result.value }
        ensures items { self.new.items ≡ remove_entry (same_node_ref node_ref) self.old.items }
    {
        Loose {
            ptr: node_ref.ptr as *mut ListNode<T>,
        }
    }

    /// Reads a node.
    pub(crate) fn get(&self, node_ref: NodeRef) -> &ListNode<T>
        requires { IsNodeRef self.now.items node_ref }
        ensures { lookup (same_node_ref node_ref) self.now.items ≡ Some result.now }
    {
        unsafe { &*(node_ref.ptr as *mut ListNode<T>) }
    }

    /// Lends a node.
    pub(crate) fn get_mut(&mut self, node_ref: NodeRef) -> &mut ListNode<T>
        requires { IsNodeRef self.old.items node_ref }
        ensures* writes_back { sem 𝓛 (LendsNode T.row self.entry node_ref result) }
        ensures value { lookup (same_node_ref node_ref) self.old.items ≡ Some result.now }
    {
        unsafe { &mut *(node_ref.ptr as *mut ListNode<T>) }
    }
}
