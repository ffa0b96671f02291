//! The walk over expressions: what is seen at each point of a function's clause, and the first fault up to there.

ghost use Rattle.std.specs.Prelude.{OnOk};
ghost use Rattle.pf_syntax.specs.Expr as expr;
ghost use Rattle.pf_syntax.specs.SyntaxTree.{expr_at, expr_pattern_at};
ghost use Rattle.pf_syntax.specs.SyntaxTreeOver.{branches_over, condition_over, expr_over, exprs_at};
ghost use Rattle.pf_rules.specs.Static.{names_of_module};
ghost use Rattle.pf_rules.specs.Listing.{ListsFunctions};
ghost use Rattle.pf_static_check.specs.Walking.{branch_of, AnonymousWalked, BranchWalked, BranchesWalked, CallWalked};
ghost use Rattle.pf_static_check.specs.Walking.{ConditionWalked, PairWalked, ExprWalked, ExprsWalked, TestsWalked};
ghost use Rattle.pf_static_check.specs.Walking.{VariableWalked};

mod heads;
mod patterns;

use crate::first::FirstFault;
use crate::names::is_defined;
use crate::variable_states::{Status, VariableStates};
use pf_errors::{Code, NoMemory};
use pf_rules::Signatures;
use pf_syntax::{Branch, Condition, ExprId, ExprNode, ExprPatternId, Ident, SyntaxTree};
use pf_terms::AtomTable;

/// What is seen at a point of a function's clause, and the first fault up to there.
#[derive(Drop)]
pub(crate) struct ClauseWalk {
    pub variables: VariableStates,
    pub first: FirstFault,
}

impl ClauseWalk {
    /// Through an expression.
    #[cycle(exprs)]
    fn expr(
        &mut self,
        syntax: &SyntaxTree,
        atoms: &AtomTable,
        own: &Signatures,
        id: ExprId,
    ) -> Result<(), NoMemory>
        requires { ListsFunctions own.now syntax.now.functions }
        ensures { OnOk result (ExprWalked (names_of_module atoms.now syntax.now.functions) self.old self.new
            (expr_at syntax.now.node_table id.0)) }
    {
        match syntax.expr(id) {
            Some(node) => self.expr_node(syntax, atoms, own, node),
            None => Ok(()),
        }
    }

    /// Through an expression, by its node.
    #[cycle(exprs)]
    fn expr_node(
        &mut self,
        syntax: &SyntaxTree,
        atoms: &AtomTable,
        own: &Signatures,
        node: &ExprNode,
    ) -> Result<(), NoMemory>
        requires { ListsFunctions own.now syntax.now.functions }
        ensures { OnOk result (ExprWalked (names_of_module atoms.now syntax.now.functions) self.old self.new
            (expr_over syntax.now.node_table node.now)) }
    {
        match node {
            ExprNode::Variable(ident) => self.variable(*ident),
            ExprNode::Anonymous(offset) => self.anonymous(*offset),
            ExprNode::Parentheses(part) | ExprNode::Negate(part) => {
                self.expr(syntax, atoms, own, *part)?;
            }
            ExprNode::Tuple(parts) | ExprNode::List(parts) => {
                self.exprs(syntax, atoms, own, parts)?;
            }
            ExprNode::ListOn(parts, tail) => {
                self.exprs(syntax, atoms, own, parts)?;
                self.expr(syntax, atoms, own, *tail)?;
            }
            ExprNode::Call(ident, arguments) => {
                self.call(atoms, own, *ident, arguments.len());
                self.exprs(syntax, atoms, own, arguments)?;
            }
            ExprNode::Binary(_, left, right)
            | ExprNode::AndAlso(left, right)
            | ExprNode::OrElse(left, right)
            | ExprNode::Send(left, right) => self.pair(syntax, atoms, own, *left, *right)?,
            ExprNode::Match(expr_pattern, value) => self.matching(
                syntax,
                atoms,
                own,
                *expr_pattern,
                *value,
            )?,
            ExprNode::Case(part, branches) => self.case(syntax, atoms, own, *part, branches)?,
            ExprNode::If(branches) | ExprNode::Receive(branches) => {
                self.branches(syntax, atoms, own, branches)?;
            }
            ExprNode::Integer(_) | ExprNode::Atom(_) | ExprNode::Text(_) => {}
        }
        Ok(())
    }

    /// Through two operands, from left to right.
    #[cycle(exprs)]
    fn pair(
        &mut self,
        syntax: &SyntaxTree,
        atoms: &AtomTable,
        own: &Signatures,
        left: ExprId,
        right: ExprId,
    ) -> Result<(), NoMemory>
        requires { ListsFunctions own.now syntax.now.functions }
        ensures { OnOk result (PairWalked (names_of_module atoms.now syntax.now.functions) self.old self.new
            (expr_at syntax.now.node_table left.0) (expr_at syntax.now.node_table right.0)) }
    {
        self.expr(syntax, atoms, own, left)?;
        self.expr(syntax, atoms, own, right)
    }

    /// Through a match: its right side, and then its pattern.
    #[cycle(exprs)]
    fn matching(
        &mut self,
        syntax: &SyntaxTree,
        atoms: &AtomTable,
        own: &Signatures,
        expr_pattern: ExprPatternId,
        value: ExprId,
    ) -> Result<(), NoMemory>
        requires { ListsFunctions own.now syntax.now.functions }
        ensures { OnOk result (ExprWalked (names_of_module atoms.now syntax.now.functions) self.old self.new
            (expr.match (expr_pattern_at syntax.now.node_table expr_pattern.0)
            (expr_at syntax.now.node_table value.0))) }
    {
        self.expr(syntax, atoms, own, value)?;
        self.expr_pattern(syntax, expr_pattern)
    }

    /// Through a `case`: its expression, and then its clauses.
    #[cycle(exprs)]
    fn case(
        &mut self,
        syntax: &SyntaxTree,
        atoms: &AtomTable,
        own: &Signatures,
        part: ExprId,
        branches: &[Branch],
    ) -> Result<(), NoMemory>
        requires { ListsFunctions own.now syntax.now.functions }
        ensures { OnOk result (ExprWalked (names_of_module atoms.now syntax.now.functions) self.old self.new
            (expr.case (expr_at syntax.now.node_table part.0) (branches_over syntax.now.node_table branches.now))) }
    {
        self.expr(syntax, atoms, own, part)?;
        self.branches(syntax, atoms, own, branches)
    }

    /// Through expressions, from left to right.
    #[cycle(exprs)]
    fn exprs(
        &mut self,
        syntax: &SyntaxTree,
        atoms: &AtomTable,
        own: &Signatures,
        parts: &[ExprId],
    ) -> Result<(), NoMemory>
        requires { ListsFunctions own.now syntax.now.functions }
        ensures { OnOk result (ExprsWalked (names_of_module atoms.now syntax.now.functions) self.old self.new
            (exprs_at syntax.now.node_table parts.now)) }
    {
        for part in parts {
            self.expr(syntax, atoms, own, *part)?;
        }
        Ok(())
    }

    /// Through a guard, after which the same is seen as before it.
    #[cycle(exprs)]
    fn condition(
        &mut self,
        syntax: &SyntaxTree,
        atoms: &AtomTable,
        own: &Signatures,
        condition: &Condition,
    ) -> Result<(), NoMemory>
        requires { ListsFunctions own.now syntax.now.functions }
        ensures { OnOk result (ConditionWalked (names_of_module atoms.now syntax.now.functions) self.old self.new
            (condition_over syntax.now.node_table condition.now)) }
    {
        for alternative in &condition.alternatives {
            self.tests(syntax, atoms, own, &alternative.tests)?;
        }
        Ok(())
    }

    /// Through an alternative of a guard, after which the same is seen as before it.
    #[cycle(exprs)]
    fn tests(
        &mut self,
        syntax: &SyntaxTree,
        atoms: &AtomTable,
        own: &Signatures,
        tests: &[ExprId],
    ) -> Result<(), NoMemory>
        requires { ListsFunctions own.now syntax.now.functions }
        ensures { OnOk result (TestsWalked (names_of_module atoms.now syntax.now.functions) self.old self.new
            (exprs_at syntax.now.node_table tests.now)) }
    {
        let start = self.variables.trail_len();
        self.exprs(syntax, atoms, own, tests)?;
        self.variables.forget(start)?;
        Ok(())
    }

    /// Through the clauses of a construct, each of which begins with what is seen at the construct. After it the names
    /// that they leave are unsafe.
    #[cycle(exprs)]
    fn branches(
        &mut self,
        syntax: &SyntaxTree,
        atoms: &AtomTable,
        own: &Signatures,
        branches: &[Branch],
    ) -> Result<(), NoMemory>
        requires { ListsFunctions own.now syntax.now.functions }
        ensures { OnOk result (BranchesWalked (names_of_module atoms.now syntax.now.functions) self.old self.new
            (branches_over syntax.now.node_table branches.now)) }
    {
        let start = self.variables.trail_len();
        for branch in branches {
            self.branch(syntax, atoms, own, branch)?;
        }
        self.variables.set_since(start, Status::Unsafe)?;
        Ok(())
    }

    /// Through a clause, whose names become new again but stay in the trail.
    #[cycle(exprs)]
    fn branch(
        &mut self,
        syntax: &SyntaxTree,
        atoms: &AtomTable,
        own: &Signatures,
        branch: &Branch,
    ) -> Result<(), NoMemory>
        requires { ListsFunctions own.now syntax.now.functions }
        ensures { OnOk result (BranchWalked (names_of_module atoms.now syntax.now.functions) self.old self.new
            (branch_of syntax.now.node_table branch.now)) }
    {
        let start = self.variables.trail_len();
        self.expr_pattern(syntax, branch.expr_pattern)?;
        self.condition(syntax, atoms, own, &branch.condition)?;
        self.exprs(syntax, atoms, own, &branch.body)?;
        self.variables.set_since(start, Status::New)?;
        Ok(())
    }

    /// A variable in an expression.
    fn variable(&mut self, ident: Ident)
        ensures { VariableWalked self.old self.new ident.name.0 ident.offset }
    {
        match self.variables.status(ident.name) {
            Status::New => self.first.note(Code::Unbound, ident.offset),
            Status::Bound => {}
            Status::Unsafe => self.first.note(Code::Unsafe, ident.offset),
        }
    }

    /// `_` in an expression.
    fn anonymous(&mut self, offset: u32)
        ensures { AnonymousWalked self.old self.new offset }
    {
        self.first.note(Code::Unbound, offset);
    }

    /// The name of a call with this number of arguments.
    fn call(&mut self, atoms: &AtomTable, own: &Signatures, ident: Ident, arity: usize)
        ensures { CallWalked atoms.now own.now self.old self.new ident.name.0 ident.offset arity }
    {
        if !is_defined(atoms, own, ident.name, arity as u64) {
            self.first.note(Code::Undefined, ident.offset);
        }
    }
}
