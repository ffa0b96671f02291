//! What a machine's stack of frames holds, and what is in the innermost frame.

use crate::act::Act;
use pf_syntax::{Builtin, FunctionId, NodeId, Operand, Operator};
use pf_terms::Term;

/// What takes two operands.
#[derive(Clone, Copy)]
pub(crate) enum Binary {
    Operator(Operator),
    /// A first element and a list.
    Cons,
    /// `!`.
    Send,
}

/// What takes arguments.
#[derive(Clone, Copy)]
pub(crate) enum Callee {
    Function(FunctionId),
    Builtin(Builtin),
    /// A tuple of its elements.
    Tuple,
}

/// What waits for a value. A number beside a node counts the arguments or the patterns that are done.
#[derive(Clone, Copy)]
pub(crate) enum FrameKind {
    /// The left operand at the node, before the right one.
    BinaryLeft(NodeId),
    /// The right operand at the node, after the left one.
    BinaryRight(Binary, NodeId),
    /// The right operand at the node, where the left one is the variable in this slot of the activation.
    BinaryAfterSlot(Binary, u32, NodeId),
    /// The operand of the minus at the node.
    Negation(NodeId),
    /// The left side of the `andalso` at the node, or of the `orelse`, which `true` decides.
    Shortcut(bool, NodeId),
    /// An argument of the call at the node, or an element of its tuple.
    Argument(Callee, NodeId, u32),
    /// The value of the match at the node.
    Match(NodeId, usize),
    /// The same before a comma and the rest of the body.
    Bind(NodeId, usize),
    /// The value of the `case` at the node.
    Case(NodeId),
}

/// A wait, where its activation begins, and the end of the slots that it needs.
#[derive(Clone, Copy)]
pub(crate) struct Frame {
    pub(crate) kind: FrameKind,
    pub(crate) base: usize,
    pub(crate) end: usize,
}

/// What is in the innermost frame.
#[derive(Drop)]
pub(crate) enum Focus {
    /// An expression of the activation.
    Eval(Operand),
    Value(Term),
    /// A call whose arguments are the last n operands.
    Enter(Callee, usize),
    /// A raise of this reason.
    Raised(Term),
    /// An exit with this reason.
    Exited(Term),
}

/// What a micro-step does: nothing that the process shows, a contraction, or what stops it.
#[derive(Drop)]
pub(crate) enum MicroStep {
    Silent(Focus),
    Contracted(Focus),
    /// The process sends this message. The receiver is the last operand, and no frame keeps it.
    Sends(Term),
    /// The process asks for another action, boxed so that the others stay small.
    Asks(Box<Act>),
    /// The process is at the `receive` of this node.
    Awaits(NodeId),
    /// The process returned this value.
    Returned(Term),
    /// The process ends by this raise.
    Failed(Term),
    /// The process ends by an exit with this reason.
    Exits(Term),
}
