//! The syntax tree of a module: an arena in which each node comes after its parts, with its size and its depth.

ghost use Rattle.std.specs.Prelude.{◌≡◌, ◌≤◌, length, map, IfNone, IfOk, MatchOption, OnErr, OnOk};
ghost use Rattle.pf_syntax.specs.ExprPattern.{anything, expr_pattern_depth, expr_pattern_size};
ghost use Rattle.pf_syntax.specs.Expr.{list, no_exprs, expr_depth, expr_size};
ghost use Rattle.pf_syntax.specs.Measure.{IsMeasure};
ghost use Rattle.pf_syntax.specs.SyntaxTree.{empty_tree, expr_at, expr_pattern_at};
ghost use Rattle.pf_syntax.specs.SyntaxTreeOver.{export_of, heads_over, expr_over, expr_pattern_over, with_node_table};
ghost use Rattle.pf_syntax.specs.SyntaxTreeOver.{with_export, with_expr, with_expr_pattern, with_expr_function};
ghost use Rattle.pf_syntax.specs.SyntaxTreeOver.{HeadsAreThere, ExprPartsAreThere, ExprPatternPartsAreThere};

use crate::expr::{Export, ExprFunction, ExprId, ExprNode, ExprPatternId, ExprPatternNode};
use crate::measure::Measure;
use crate::table::{entry, next_id};
use pf_errors::NoMemory;
use pf_terms::AtomId;
use std::alloc::Global;
use std::marker::Model;

/// A pattern with its measure.
#[derive(Drop)]
struct ExprPatternEntry {
    node: ExprPatternNode,
    measure: Measure,
}

/// An expression with its measure.
#[derive(Drop)]
struct ExprEntry {
    node: ExprNode,
    measure: Measure,
}

/// The syntax tree of a module. What is added to it comes after its parts, and nothing is ever taken out or changed.
#[derive(Drop)]
pub struct SyntaxTree {
    name: AtomId,
    exports: Vec<Export>,
    expr_patterns: Vec<ExprPatternEntry>,
    exprs: Vec<ExprEntry>,
    functions: Vec<ExprFunction>,
}

impl Model for SyntaxTree {
    ghost use Rattle.pf_syntax.specs.SyntaxTree.{ExprArena};
    ghost use Rattle.pf_syntax.specs.SyntaxTreeEncoding.{coded_expr_arena};

    ghost Value = { ExprArena };

    ghost coded = { coded_expr_arena };

    ghost use Rattle.pf_syntax.specs.SyntaxTreeView.{written_of, Sound};

    ghost view = { written_of };

    ghost invariant = { Sound };
}

impl SyntaxTree {
    /// The module of this name, with nothing in it yet.
    pub fn new(alloc: Global, name: AtomId) -> SyntaxTree
        ensures { result ≡ empty_tree name.0 }
    {
        SyntaxTree {
            name,
            exports: Vec::new(alloc),
            expr_patterns: Vec::new(alloc),
            exprs: Vec::new(alloc),
            functions: Vec::new(alloc),
        }
    }

    /// Adds an entry of an export list.
    pub fn add_export(&mut self, export: Export) -> Result<(), NoMemory>
        ensures added { OnOk result (self.new ≡ with_export self.old export) }
        ensures err { OnErr result (self.new ≡ self.old) }
    {
        self.exports.push(export)?;
        Ok(())
    }

    /// Adds a pattern after its parts. It fails where memory runs out; no source is long enough for the other two
    /// cases: that there are 2^32 already, or that its tree has 2^32 - 1 nodes or more.
    pub fn add_expr_pattern(&mut self, node: ExprPatternNode) -> Result<ExprPatternId, NoMemory>
        requires { ExprPatternPartsAreThere self.old.node_table node }
        ensures id { IfOk result (λ q. q.0 ≡ length self.old.node_table.expr_patterns) }
        ensures added { OnOk result (self.new ≡ with_node_table self.old (with_expr_pattern self.old.node_table node)) }
        ensures err { OnErr result (self.new ≡ self.old) }
    {
        let measure = self.expr_pattern_node_measure(&node).exact()?;
        let id = next_id(self.expr_patterns.len())?;
        self.expr_patterns.push(ExprPatternEntry { node, measure })?;
        Ok(ExprPatternId(id))
    }

    /// Adds an expression after its parts. It fails as the call above does.
    pub fn add_expr(&mut self, node: ExprNode) -> Result<ExprId, NoMemory>
        requires { ExprPartsAreThere self.old.node_table node }
        ensures id { IfOk result (λ e. e.0 ≡ length self.old.node_table.exprs) }
        ensures added { OnOk result (self.new ≡ with_node_table self.old (with_expr self.old.node_table node)) }
        ensures err { OnErr result (self.new ≡ self.old) }
    {
        let measure = self.expr_node_measure(&node).exact()?;
        let id = next_id(self.exprs.len())?;
        self.exprs.push(ExprEntry { node, measure })?;
        Ok(ExprId(id))
    }

    /// Adds a function after its parts.
    pub fn add_function(&mut self, function: ExprFunction) -> Result<(), NoMemory>
        requires { HeadsAreThere self.old.node_table function }
        ensures added { OnOk result (self.new ≡ with_expr_function self.old function) }
        ensures err { OnErr result (self.new ≡ self.old) }
    {
        self.functions.push(function)?;
        Ok(())
    }

    /// The module's name.
    pub fn name(&self) -> AtomId
        ensures { result.0 ≡ self.now.name }
    {
        self.name
    }

    /// The entries of the export lists, in order.
    pub fn exports(&self) -> &[Export]
        ensures { map export_of result.now ≡ self.now.exports }
    {
        self.exports.as_slice()
    }

    /// The functions, in order.
    pub fn functions(&self) -> &[ExprFunction]
        ensures { map (heads_over self.now.node_table) result.now ≡ self.now.functions }
    {
        self.functions.as_slice()
    }

    /// The pattern of this number, over its parts. Where there is none, the table of nodes has `_`.
    pub fn expr_pattern(&self, id: ExprPatternId) -> Option<&ExprPatternNode>
        ensures found { MatchOption result (expr_pattern_at self.now.node_table id.0 ≡ anything)
            (λ q. expr_pattern_over self.now.node_table q.now ≡ expr_pattern_at self.now.node_table id.0) }
        ensures absent { IfNone result (length self.now.node_table.expr_patterns ≤ id.0) }
    {
        match entry(&self.expr_patterns, id.0) {
            Some(expr_pattern) => Some(&expr_pattern.node),
            None => None,
        }
    }

    /// The expression of this number, over its parts. Where there is none, the table of nodes has `[]`.
    pub fn expr(&self, id: ExprId) -> Option<&ExprNode>
        ensures found { MatchOption result (expr_at self.now.node_table id.0 ≡ list no_exprs)
            (λ e. expr_over self.now.node_table e.now ≡ expr_at self.now.node_table id.0) }
        ensures absent { IfNone result (length self.now.node_table.exprs ≤ id.0) }
    {
        match entry(&self.exprs, id.0) {
            Some(expr) => Some(&expr.node),
            None => None,
        }
    }

    /// The measure of the pattern of this number.
    pub(crate) fn expr_pattern_measure(&self, id: ExprPatternId) -> Measure
        ensures { IsMeasure result (expr_pattern_size (expr_pattern_at self.now.node_table id.0))
            (expr_pattern_depth (expr_pattern_at self.now.node_table id.0)) }
    {
        match entry(&self.expr_patterns, id.0) {
            Some(expr_pattern) => expr_pattern.measure,
            None => Measure::LEAF,
        }
    }

    /// The measure of the expression of this number.
    pub(crate) fn expr_measure(&self, id: ExprId) -> Measure
        ensures { IsMeasure result (expr_size (expr_at self.now.node_table id.0))
            (expr_depth (expr_at self.now.node_table id.0)) }
    {
        match entry(&self.exprs, id.0) {
            Some(expr) => expr.measure,
            None => Measure::LEAF,
        }
    }
}
