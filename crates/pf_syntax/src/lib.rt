//! The trees of the language, as arenas of nodes: the surface syntax of modules, and checked modules.
//! The built-in functions by name, and which forms of the language a guard holds.
#![tactic(auto)]

mod expr;
mod laws;
mod measure;
mod measuring;
mod module;
mod node;
mod operator;
mod syntax_tree;
mod table;

pub use expr::{
    Branch, Condition, Export, ExprFunction, ExprId, ExprNode, ExprPatternId, ExprPatternNode,
    Head, Ident, Tests,
};
pub use laws::names_become_slots;
pub use module::Module;
pub use node::{
    Alternative, Clause, Function, FunctionClause, FunctionId, Guard, LiteralId, Node, NodeId,
    Operand, PatternId, PatternNode,
};
pub use operator::{Builtin, Operator};
pub use syntax_tree::SyntaxTree;

mod builtins;
mod forms;

pub use builtins::{builtin_named, guard_may_call, is_pure};
pub use forms::{Form, may_be_there};
