//! The spots of a module: the signs of its nodes, in the order of the text.

ghost use Rattle.std.specs.Prelude.{[], ◌∷◌, OnOk, option_map};
ghost use Rattle.pf_syntax.specs.Module.{tree_at};
ghost use Rattle.pf_positions.specs.Added.{AreAdded};

use crate::sign::Sign;
use pf_errors::NoMemory;
use pf_syntax::{FunctionId, Module, NodeId};

/// A sign, the function in which it is, and the node that it is the sign of, if it is one's.
#[derive(Clone, Copy)]
pub(crate) struct Spot {
    pub(crate) sign: Sign,
    pub(crate) function: FunctionId,
    pub(crate) node: Option<NodeId>,
}

/// A function of a module, in which spots are looked for.
#[derive(Clone, Copy)]
pub(crate) struct Home<'m> {
    pub(crate) module: &'m Module,
    pub(crate) function: FunctionId,
}

impl<'m> Home<'m> {
    /// Puts the sign of a node, or of none.
    pub(crate) fn put(
        self,
        spots: &mut Vec<Spot>,
        sign: Sign,
        node: Option<NodeId>,
    ) -> Result<(), NoMemory>
        ensures { OnOk result (AreAdded self.entry.module.now.tables spots.old spots.new (record {
          sign = sign;
          function = self.entry.function.0;
          tree = option_map (λ n. tree_at self.entry.module.now.tables n.0) node;
        } ∷ [])) }
    {
        let function = self.function;
        spots.push(Spot {
            sign,
            function,
            node,
        })?;
        Ok(())
    }
}
