//! How two nodes become neighbors.
ghost use Rattle.std.specs.Prelude.{◌≡◌, MatchOption, ⊤};
ghost use Rattle.pf_nodes.specs.NodeRefs.{IsNodeRef};
ghost use Rattle.pf_nodes.specs.Links.{with_next, with_prev, joined};

use crate::raw::{NodeRef, Nodes};

impl<T> Nodes<T> {
    /// Lets the node at `from`, if there is one, lead on to `to`.
    fn lead_on(&mut self, from: Option<NodeRef>, to: Option<NodeRef>)
        requires { MatchOption from ⊤ (IsNodeRef self.old.items) }
        ensures { self.new.items ≡ with_next from to self.old.items }
    {
        if let Some(node_ref) = from {
            self.get_mut(node_ref).next = to;
        }
    }

    /// Lets the node at `from`, if there is one, lead back to `to`.
    fn lead_back(&mut self, from: Option<NodeRef>, to: Option<NodeRef>)
        requires { MatchOption from ⊤ (IsNodeRef self.old.items) }
        ensures { self.new.items ≡ with_prev from to self.old.items }
    {
        if let Some(node_ref) = from {
            self.get_mut(node_ref).prev = to;
        }
    }

    /// Lets the nodes at the two references, if there are any, lead to each other.
    pub(crate) fn join(&mut self, before: Option<NodeRef>, after: Option<NodeRef>)
        requires before { MatchOption before ⊤ (IsNodeRef self.old.items) }
        requires after { MatchOption after ⊤ (IsNodeRef self.old.items) }
        ensures { self.new.items ≡ joined before after self.old.items }
    {
        self.lead_on(before, after);
        self.lead_back(after, before);
    }
}
