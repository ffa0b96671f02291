//! The walk over patterns.

ghost use Rattle.std.specs.Prelude.{OnOk};
ghost use Rattle.pf_syntax.specs.ExprPattern.{variable};
ghost use Rattle.pf_syntax.specs.SyntaxTree.{expr_pattern_at};
ghost use Rattle.pf_syntax.specs.SyntaxTreeOver.{expr_pattern_over, expr_patterns_at};
ghost use Rattle.pf_static_check.specs.Walking.{SafeWalked, ExprPatternWalked, ExprPatternsWalked};

use crate::variable_states::Status;
use crate::walk::ClauseWalk;
use pf_errors::{Code, NoMemory};
use pf_syntax::{ExprPatternId, ExprPatternNode, Ident, SyntaxTree};

impl ClauseWalk {
    /// Through a pattern.
    #[cycle(expr_patterns)]
    pub(super) fn expr_pattern(
        &mut self,
        syntax: &SyntaxTree,
        id: ExprPatternId,
    ) -> Result<(), NoMemory>
        ensures { OnOk result (ExprPatternWalked self.old self.new (expr_pattern_at syntax.now.node_table id.0)) }
    {
        match syntax.expr_pattern(id) {
            Some(node) => self.expr_pattern_node(syntax, node),
            None => Ok(()),
        }
    }

    /// Through a pattern, by its node.
    #[cycle(expr_patterns)]
    fn expr_pattern_node(
        &mut self,
        syntax: &SyntaxTree,
        node: &ExprPatternNode,
    ) -> Result<(), NoMemory>
        ensures { OnOk result (ExprPatternWalked self.old self.new (expr_pattern_over syntax.now.node_table node.now)) }
    {
        match node {
            ExprPatternNode::Variable(ident) => self.expr_pattern_variable(*ident),
            ExprPatternNode::Tuple(parts) | ExprPatternNode::List(parts) => self.expr_patterns(
                syntax, parts,
            ),
            ExprPatternNode::ListOn(parts, tail) => {
                self.expr_patterns(syntax, parts)?;
                self.expr_pattern(syntax, *tail)
            }
            ExprPatternNode::Integer(_)
            | ExprPatternNode::Atom(_)
            | ExprPatternNode::Text(_)
            | ExprPatternNode::Anything => Ok(()),
        }
    }

    /// Through patterns, from left to right.
    #[cycle(expr_patterns)]
    pub(super) fn expr_patterns(
        &mut self,
        syntax: &SyntaxTree,
        parts: &[ExprPatternId],
    ) -> Result<(), NoMemory>
        ensures { OnOk result (ExprPatternsWalked self.old self.new
            (expr_patterns_at syntax.now.node_table parts.now)) }
    {
        for part in parts {
            self.expr_pattern(syntax, *part)?;
        }
        Ok(())
    }

    /// A variable in a pattern, which becomes bound where it is new.
    fn expr_pattern_variable(&mut self, ident: Ident) -> Result<(), NoMemory>
        ensures { OnOk result (ExprPatternWalked self.old self.new (variable ident.name.0 ident.offset)) }
    {
        self.safe(ident);
        self.variables.bind(ident.name)?;
        Ok(())
    }

    /// Notes a variable that is unsafe.
    fn safe(&mut self, ident: Ident)
        ensures { SafeWalked self.old self.new ident.name.0 ident.offset }
    {
        if self.variables.status(ident.name) == Status::Unsafe {
            self.first.note(Code::Unsafe, ident.offset);
        }
    }
}
