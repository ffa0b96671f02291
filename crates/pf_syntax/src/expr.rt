//! The nodes of the surface syntax: patterns and expressions whose parts are named by numbers. The names of atoms and
//! functions are numbers too, of the table of atoms that is beside the syntax tree; those of variables are numbers of
//! another.

use crate::operator::Operator;
use pf_terms::AtomId;

/// A pattern of the surface syntax, by its number in a syntax tree.
#[derive(Clone, Copy, PartialEq, Eq, Debug)]
pub struct ExprPatternId(pub u32);

/// An expression of the surface syntax, by its number in a syntax tree.
#[derive(Clone, Copy, PartialEq, Eq, Debug)]
pub struct ExprId(pub u32);

/// A name, and the offset in bytes at which it is.
#[derive(Clone, Copy, PartialEq, Eq, Debug)]
pub struct Ident {
    pub name: AtomId,
    pub offset: u32,
}

/// A pattern of the surface syntax (Erlang Reference Manual, "Patterns").
#[derive(Drop)]
pub enum ExprPatternNode {
    /// An integer with its sign, which is no level of its own.
    Integer(i64),
    Atom(AtomId),
    /// A string, by its character codes.
    Text(Vec<u8>),
    Variable(Ident),
    /// `_`.
    Anything,
    Tuple(Vec<ExprPatternId>),
    /// A list of these elements.
    List(Vec<ExprPatternId>),
    /// A list of these elements and this tail.
    ListOn(Vec<ExprPatternId>, ExprPatternId),
}

/// An expression of the surface syntax (Erlang Reference Manual, "Expressions").
#[derive(Drop)]
pub enum ExprNode {
    Integer(i64),
    Atom(AtomId),
    /// A string, by its character codes.
    Text(Vec<u8>),
    Variable(Ident),
    /// `_`, at this offset.
    Anonymous(u32),
    /// Parentheses, which are a level of their own.
    Parentheses(ExprId),
    Tuple(Vec<ExprId>),
    /// A list of these elements.
    List(Vec<ExprId>),
    /// A list of these elements and this tail.
    ListOn(Vec<ExprId>, ExprId),
    /// A call by name, of an own function or of a built-in.
    Call(Ident, Vec<ExprId>),
    Binary(Operator, ExprId, ExprId),
    Negate(ExprId),
    /// `andalso`.
    AndAlso(ExprId, ExprId),
    /// `orelse`.
    OrElse(ExprId, ExprId),
    /// `!`.
    Send(ExprId, ExprId),
    /// `P = E`, in a body.
    Match(ExprPatternId, ExprId),
    Case(ExprId, Vec<Branch>),
    /// `if`; its clauses have the pattern `_`.
    If(Vec<Branch>),
    Receive(Vec<Branch>),
}

/// An alternative of a guard of the surface syntax.
#[derive(Drop)]
pub struct Tests {
    pub tests: Vec<ExprId>,
}

/// A guard of the surface syntax. With no `when` it is one alternative with no test.
#[derive(Drop)]
pub struct Condition {
    pub alternatives: Vec<Tests>,
}

/// A clause of a `case`, an `if` or a `receive` of the surface syntax.
#[derive(Drop)]
pub struct Branch {
    pub expr_pattern: ExprPatternId,
    pub condition: Condition,
    pub body: Vec<ExprId>,
}

/// A clause of a function of the surface syntax.
#[derive(Drop)]
pub struct Head {
    pub ident: Ident,
    pub parameters: Vec<ExprPatternId>,
    pub condition: Condition,
    pub body: Vec<ExprId>,
}

/// A function of the surface syntax: its clauses, each with a head of its own.
#[derive(Drop)]
pub struct ExprFunction {
    pub heads: Vec<Head>,
}

/// An entry of an export list.
#[derive(Clone, Copy, PartialEq, Eq, Debug)]
pub struct Export {
    pub ident: Ident,
    pub arity: u64,
}
