//! How many nodes a tree has and how deep it is, kept with each node.

ghost use Rattle.std.specs.Prelude.{◌≡◌, ◌+◌, ◌<◌, IfOk, max, OnOk};
ghost use Rattle.pf_syntax.specs.Measure.{capped};

use pf_errors::NoMemory;

/// The size and the depth of a tree, or of several trees together. What is 2^32 - 1 or more is counted as 2^32 - 1.
#[derive(Clone, Copy, PartialEq, Eq, Debug)]
pub(crate) struct Measure {
    pub size: u32,
    pub depth: u32,
}

impl Measure {
    /// Of no tree.
    pub(crate) const NONE: Measure = Measure { size: 0, depth: 0 };

    /// Of a node with no parts.
    pub(crate) const LEAF: Measure = Measure { size: 1, depth: 1 };

    /// Of the trees of both.
    pub(crate) fn beside(self, other: Measure) -> Measure
        ensures size { result.size ≡ capped (self.size + other.size) }
        ensures depth { result.depth ≡ max self.depth other.depth }
    {
        Measure {
            size: self.size.saturating_add(other.size),
            depth: self.depth.max(other.depth),
        }
    }

    /// Of a node over these trees.
    pub(crate) fn under(self) -> Measure
        ensures size { result.size ≡ capped (1 + self.size) }
        ensures depth { result.depth ≡ capped (1 + self.depth) }
    {
        Measure {
            size: self.size.saturating_add(1),
            depth: self.depth.saturating_add(1),
        }
    }

    /// The same, where it is exact: of fewer than 2^32 - 1 nodes.
    pub(crate) fn exact(self) -> Result<Measure, NoMemory>
        ensures same { IfOk result (λ m. m ≡ self) }
        ensures small { OnOk result (self.size < 4294967295) }
    {
        if self.size == u32::MAX {
            return Err(NoMemory);
        }
        Ok(self)
    }
}
