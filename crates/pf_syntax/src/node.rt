//! The nodes of a checked module: expressions, patterns and functions whose parts are named by numbers.

use crate::operator::{Builtin, Operator};
use pf_terms::AtomId;

/// A literal, by its number in a module.
#[derive(Clone, Copy, PartialEq, Eq, Debug)]
pub struct LiteralId(pub u32);

/// A pattern, by its number in a module.
#[derive(Clone, Copy, PartialEq, Eq, Debug)]
pub struct PatternId(pub u32);

/// A node, by its number in a module.
#[derive(Clone, Copy, PartialEq, Eq, Debug)]
pub struct NodeId(pub u32);

/// A function, by its number in a module.
#[derive(Clone, Copy, PartialEq, Eq, Debug)]
pub struct FunctionId(pub u32);

/// An operand: a variable by its slot in scope, a literal, or another node.
#[derive(Clone, Copy, PartialEq, Eq, Debug)]
pub enum Operand {
    Slot(u32),
    Int(i64),
    Atom(AtomId),
    /// The list `[]`.
    Nil,
    Literal(LiteralId),
    Node(NodeId),
}

/// What a pattern asks, with its parts by number (Erlang Reference Manual, "Pattern Matching").
#[derive(Drop)]
pub enum PatternNode {
    /// `_`.
    Any,
    /// A variable that is bound here, at the next slot in scope.
    New,
    /// A variable that is bound already.
    Slot(u32),
    Int(i64),
    Atom(AtomId),
    /// The list `[]`.
    Nil,
    Literal(LiteralId),
    Tuple(Vec<PatternId>),
    /// A list by its first element and its tail.
    Cons(PatternId, PatternId),
    /// It fits nothing.
    Never,
}

/// An alternative of a guard, which holds where all its tests do.
#[derive(Drop)]
pub struct Alternative {
    pub tests: Vec<Operand>,
}

/// The alternatives of a guard. With no `when` there is none.
#[derive(Drop)]
pub struct Guard {
    pub alternatives: Vec<Alternative>,
}

/// A clause of a `case`, an `if` or a `receive`; in an `if` its pattern is `_`.
#[derive(Drop)]
pub struct Clause {
    pub pattern: PatternId,
    pub guard: Guard,
    pub body: Operand,
}

/// An expression that takes a step, with its operands (Erlang Reference Manual, "Expressions").
#[derive(Drop)]
pub enum Node {
    Tuple(Vec<Operand>),
    /// A list by its first element and its tail.
    Cons(Operand, Operand),
    Binary(Operator, Operand, Operand),
    Negate(Operand),
    /// `andalso`.
    AndAlso(Operand, Operand),
    /// `orelse`.
    OrElse(Operand, Operand),
    /// A call of an own function.
    Call(FunctionId, Vec<Operand>),
    Builtin(Builtin, Vec<Operand>),
    /// `P = .. = E` at the end of a body, the innermost pattern first.
    Match(Vec<PatternId>, Operand),
    /// `P = .. = E` before a comma and the rest of the body; with no pattern it is `E, rest`.
    Bind(Vec<PatternId>, Operand, Operand),
    Case(Operand, Vec<Clause>),
    /// `if`.
    If(Vec<Clause>),
    Receive(Vec<Clause>),
    /// `!`.
    Send(Operand, Operand),
}

/// A clause of a function.
#[derive(Drop)]
pub struct FunctionClause {
    pub parameters: Vec<PatternId>,
    pub guard: Guard,
    pub body: Operand,
}

/// A function of a module.
#[derive(Drop)]
pub struct Function {
    pub name: AtomId,
    pub arity: u32,
    /// Whether the module exports it, so that a process may begin in it.
    pub exported: bool,
    pub clauses: Vec<FunctionClause>,
}
