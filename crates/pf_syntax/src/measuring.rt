//! The measures of nodes, from those of their parts.

ghost use Rattle.std.specs.Prelude.{◌≡◌, ◌+◌, max};
ghost use Rattle.pf_syntax.specs.ExprPattern.{expr_pattern_depth, expr_pattern_size, expr_patterns_depth};
ghost use Rattle.pf_syntax.specs.ExprPattern.{expr_patterns_size};
ghost use Rattle.pf_syntax.specs.Expr.{branches_depth, branches_size, condition_depth, condition_size, expr_depth};
ghost use Rattle.pf_syntax.specs.Expr.{expr_size, exprs_depth, exprs_size};
ghost use Rattle.pf_syntax.specs.Measure.{capped, IsCappedMeasure};
ghost use Rattle.pf_syntax.specs.SyntaxTree.{expr_at, expr_pattern_at};
ghost use Rattle.pf_syntax.specs.SyntaxTreeOver.{branch_depth, branch_size, branches_over, condition_over, expr_over};
ghost use Rattle.pf_syntax.specs.SyntaxTreeOver.{exprs_at, expr_pattern_over, expr_patterns_at};

use crate::expr::{Branch, Condition, ExprId, ExprNode, ExprPatternId, ExprPatternNode};
use crate::measure::Measure;
use crate::syntax_tree::SyntaxTree;

impl SyntaxTree {
    /// How many nodes a pattern has: a leaf 1, else 1 more than its parts have together.
    pub fn expr_pattern_size(&self, id: ExprPatternId) -> u32
        ensures { result ≡ expr_pattern_size (expr_pattern_at self.now.node_table id.0) }
    {
        self.expr_pattern_measure(id).size
    }

    /// How deep a pattern is: a leaf 1, else 1 more than its deepest part.
    pub fn expr_pattern_depth(&self, id: ExprPatternId) -> u32
        ensures { result ≡ expr_pattern_depth (expr_pattern_at self.now.node_table id.0) }
    {
        self.expr_pattern_measure(id).depth
    }

    /// How many nodes an expression has: a leaf 1, else 1 more than its parts have together.
    pub fn size(&self, id: ExprId) -> u32
        ensures { result ≡ expr_size (expr_at self.now.node_table id.0) }
    {
        self.expr_measure(id).size
    }

    /// How deep an expression is: a leaf 1, else 1 more than its deepest part.
    pub fn depth(&self, id: ExprId) -> u32
        ensures { result ≡ expr_depth (expr_at self.now.node_table id.0) }
    {
        self.expr_measure(id).depth
    }

    /// Of these patterns together.
    fn expr_patterns_measure(&self, parts: &[ExprPatternId]) -> Measure
        ensures { IsCappedMeasure result (expr_patterns_size (expr_patterns_at self.now.node_table parts.now))
            (expr_patterns_depth (expr_patterns_at self.now.node_table parts.now)) }
    {
        let mut total = Measure::NONE;
        for part in parts {
            total = total.beside(self.expr_pattern_measure(*part));
        }
        total
    }

    /// Of these expressions together.
    fn exprs_measure(&self, parts: &[ExprId]) -> Measure
        ensures { IsCappedMeasure result (exprs_size (exprs_at self.now.node_table parts.now))
            (exprs_depth (exprs_at self.now.node_table parts.now)) }
    {
        let mut total = Measure::NONE;
        for part in parts {
            total = total.beside(self.expr_measure(*part));
        }
        total
    }

    /// Of the tests of a guard together.
    fn condition_measure(&self, condition: &Condition) -> Measure
        ensures { IsCappedMeasure result (condition_size (condition_over self.now.node_table condition.now))
            (condition_depth (condition_over self.now.node_table condition.now)) }
    {
        let mut total = Measure::NONE;
        for alternative in &condition.alternatives {
            total = total.beside(self.exprs_measure(&alternative.tests));
        }
        total
    }

    /// Of the pattern, the tests and the body of a clause together.
    fn branch_measure(&self, branch: &Branch) -> Measure
        ensures { IsCappedMeasure result (branch_size self.now.node_table branch.now)
            (branch_depth self.now.node_table branch.now) }
    {
        let tests = self.condition_measure(&branch.condition);
        let body = self.exprs_measure(&branch.body);
        self.expr_pattern_measure(branch.expr_pattern)
            .beside(tests.beside(body))
    }

    /// Of these clauses together.
    fn branches_measure(&self, branches: &[Branch]) -> Measure
        ensures { IsCappedMeasure result (branches_size (branches_over self.now.node_table branches.now))
            (branches_depth (branches_over self.now.node_table branches.now)) }
    {
        let mut total = Measure::NONE;
        for branch in branches {
            total = total.beside(self.branch_measure(branch));
        }
        total
    }

    /// Of a pattern's node.
    pub(crate) fn expr_pattern_node_measure(&self, node: &ExprPatternNode) -> Measure
        ensures { IsCappedMeasure result (expr_pattern_size (expr_pattern_over self.now.node_table node.now))
            (expr_pattern_depth (expr_pattern_over self.now.node_table node.now)) }
    {
        match node {
            ExprPatternNode::Tuple(parts) | ExprPatternNode::List(parts) => self
                .expr_patterns_measure(parts)
                .under(),
            ExprPatternNode::ListOn(parts, tail) => {
                self.expr_patterns_measure(parts)
                    .beside(self.expr_pattern_measure(*tail))
                    .under()
            }
            _ => Measure::LEAF,
        }
    }

    /// Of two expressions under a node.
    fn pair_measure(&self, a: ExprId, b: ExprId) -> Measure
        ensures size { result.size ≡ capped (1
            + (expr_size (expr_at self.now.node_table a.0) + expr_size (expr_at self.now.node_table b.0))) }
        ensures depth { result.depth ≡ capped
            (1 + max (expr_depth (expr_at self.now.node_table a.0)) (expr_depth (expr_at self.now.node_table b.0))) }
    {
        self.expr_measure(a).beside(self.expr_measure(b)).under()
    }

    /// Of an expression's node.
    pub(crate) fn expr_node_measure(&self, node: &ExprNode) -> Measure
        ensures { IsCappedMeasure result (expr_size (expr_over self.now.node_table node.now))
            (expr_depth (expr_over self.now.node_table node.now)) }
    {
        match node {
            ExprNode::Parentheses(part) | ExprNode::Negate(part) => {
                self.expr_measure(*part).under()
            }
            ExprNode::Tuple(parts) | ExprNode::List(parts) | ExprNode::Call(_, parts) => {
                self.exprs_measure(parts).under()
            }
            ExprNode::ListOn(parts, tail) => {
                self.exprs_measure(parts)
                    .beside(self.expr_measure(*tail))
                    .under()
            }
            ExprNode::Binary(_, a, b)
            | ExprNode::AndAlso(a, b)
            | ExprNode::OrElse(a, b)
            | ExprNode::Send(a, b) => self.pair_measure(*a, *b),
            ExprNode::Match(expr_pattern, part) => {
                self.expr_pattern_measure(*expr_pattern)
                    .beside(self.expr_measure(*part))
                    .under()
            }
            ExprNode::Case(part, branches) => {
                self.expr_measure(*part)
                    .beside(self.branches_measure(branches))
                    .under()
            }
            ExprNode::If(branches) | ExprNode::Receive(branches) => {
                self.branches_measure(branches).under()
            }
            _ => Measure::LEAF,
        }
    }
}
