//! Where a process is in the code of its module.

ghost use Rattle.std.specs.Prelude.{◌≡◌};
ghost use Rattle.pf_stepper.specs.Points.{node_of, part_of, point_in, waits_in};

use crate::frame::{Callee, Focus, FrameKind};
use crate::stack::Stack;
use pf_syntax::{FunctionId, NodeId, Operand};

/// Where a process is in the code of its module.
#[derive(Clone, Copy, Debug, PartialEq, Eq)]
pub enum Point {
    /// At the call of a function whose clauses aren't tried yet.
    Calls(FunctionId),
    /// Before this node is worked out.
    Before(NodeId),
    /// The part of this number of a node has its value, and those before it are done: 0 is its left operand, and 1 its
    /// right one; arguments and elements count from 0; a match, a `case`, a minus, and `andalso` and `orelse` have the
    /// part 0 alone.
    Within(NodeId, u32),
    /// Nowhere that has a node: it waits for an answer, has ended, returns its value, is about to end by a raise or an
    /// exit, has no memory, or is at a built-in function or a tuple whose parts have their values.
    Nowhere,
}

impl FrameKind {
    /// Where a process is, if its innermost frame has its value.
    fn point(self) -> Point
        ensures { result ≡ Point.Within (node_of self) (part_of self) }
    {
        match self {
            FrameKind::BinaryRight(_, id) | FrameKind::BinaryAfterSlot(_, _, id) => Point::Within(
                id, 1,
            ),
            FrameKind::Argument(_, id, done) => Point::Within(id, done),
            FrameKind::BinaryLeft(id)
            | FrameKind::Negation(id)
            | FrameKind::Shortcut(_, id)
            | FrameKind::Match(id, _)
            | FrameKind::Bind(id, _)
            | FrameKind::Case(id) => Point::Within(id, 0),
        }
    }
}

impl Stack {
    /// Where a process is, if it goes on with this in its innermost frame.
    pub(crate) fn point(&self, focus: &Focus) -> Point
        ensures { result ≡ point_in self.now.frames.items focus.now }
    {
        match focus {
            Focus::Eval(part) => match part {
                Operand::Node(id) => Point::Before(*id),
                _ => self.waiting_point(),
            },
            Focus::Value(_) => self.waiting_point(),
            Focus::Enter(callee, _) => match callee {
                Callee::Function(function) => Point::Calls(*function),
                _ => Point::Nowhere,
            },
            Focus::Raised(_) | Focus::Exited(_) => Point::Nowhere,
        }
    }

    /// Where the innermost frame waits; nowhere where there is none.
    fn waiting_point(&self) -> Point
        ensures { result ≡ waits_in self.now.frames.items }
    {
        match self.frames.last() {
            Some(frame) => frame.kind.point(),
            None => Point::Nowhere,
        }
    }
}
