//! The patterns of a checked module.

ghost use Rattle.std.specs.Prelude.{◌≡◌, IfOk, List};
ghost use Rattle.pf_syntax.specs.ExprPattern as expr_pattern;
ghost use Rattle.pf_syntax.specs.SyntaxTree.{expr_pattern_at};
ghost use Rattle.pf_syntax.specs.SyntaxTreeOver.{expr_patterns_at};
ghost use Rattle.pf_lower.specs.Bound.{all_bound_by, bound_by, with_bound};
ghost use Rattle.pf_lower.specs.Built.{Lowers, ExprPatternMeans, ExprPatternsMean};

use crate::put::{put_known, put_list_pattern, put_pattern};
use crate::slots::Slots;
use crate::strings::string;
use pf_errors::NoMemory;
use pf_syntax::{
    ExprPatternId, ExprPatternNode, Ident, Module, PatternId, PatternNode, SyntaxTree,
};
use std::alloc::Global;

/// A variable: its slot where it is bound, and else it is bound here.
fn variable(
    syntax: &SyntaxTree,
    slots: &mut Slots,
    module: &mut Module,
    ident: Ident,
) -> Result<PatternId, NoMemory>
    ensures { IfOk result (λ p. Lowers module.old module.new slots.new (with_bound slots.old ident.name.0)
        (λ t. ExprPatternMeans syntax.now.functions t slots.old
        (expr_pattern.variable ident.name.0 ident.offset) p)) }
{
    match slots.slot(ident.name) {
        Some(slot) => put_pattern(module, PatternNode::Slot(slot)),
        None => {
            slots.bind(ident.name)?;
            put_pattern(module, PatternNode::New)
        }
    }
}

/// A string.
fn text(
    alloc: Global,
    syntax: &SyntaxTree,
    slots: &Slots,
    module: &mut Module,
    codes: &[u8],
) -> Result<PatternId, NoMemory>
    ensures { IfOk result (λ p. Lowers module.old module.new slots.now slots.now
        (λ t. ExprPatternMeans syntax.now.functions t slots.now (expr_pattern.text codes.now) p)) }
{
    let made = string(alloc, codes)?;
    match made {
        Some(literal) => put_known(module, literal),
        None => put_pattern(module, PatternNode::Never),
    }
}

/// A pattern, with what it binds.
#[cycle(pattern)]
pub(crate) fn pattern(
    alloc: Global,
    syntax: &SyntaxTree,
    slots: &mut Slots,
    module: &mut Module,
    id: ExprPatternId,
) -> Result<PatternId, NoMemory>
    ensures { IfOk result (λ p. Lowers module.old module.new slots.new
        (bound_by slots.old (expr_pattern_at syntax.now.node_table id.0))
        (λ t. ExprPatternMeans syntax.now.functions t slots.old
        (expr_pattern_at syntax.now.node_table id.0) p)) }
{
    match syntax.expr_pattern(id) {
        None => put_pattern(module, PatternNode::Any),
        Some(node) => match node {
            ExprPatternNode::Integer(n) => put_pattern(module, PatternNode::Int(*n)),
            ExprPatternNode::Atom(atom) => put_pattern(module, PatternNode::Atom(*atom)),
            ExprPatternNode::Text(codes) => text(alloc, syntax, slots, module, codes.as_slice()),
            ExprPatternNode::Variable(ident) => variable(syntax, slots, module, *ident),
            ExprPatternNode::Anything => put_pattern(module, PatternNode::Any),
            ExprPatternNode::Tuple(ids) => {
                let parts = patterns(alloc, syntax, slots, module, ids.as_slice())?;
                put_pattern(module, PatternNode::Tuple(parts))
            }
            ExprPatternNode::List(ids) => {
                let parts = patterns(alloc, syntax, slots, module, ids.as_slice())?;
                let nil = put_pattern(module, PatternNode::Nil)?;
                put_list_pattern(module, parts, nil)
            }
            ExprPatternNode::ListOn(ids, tail) => {
                let parts = patterns(alloc, syntax, slots, module, ids.as_slice())?;
                let rest = pattern(alloc, syntax, slots, module, *tail)?;
                put_list_pattern(module, parts, rest)
            }
        },
    }
}

/// Patterns, from left to right.
#[cycle(pattern)]
pub(crate) fn patterns(
    alloc: Global,
    syntax: &SyntaxTree,
    slots: &mut Slots,
    module: &mut Module,
    ids: &[ExprPatternId],
) -> Result<Vec<PatternId>, NoMemory>
    ensures { IfOk result (λ ps. Lowers module.old module.new slots.new
        (all_bound_by slots.old (expr_patterns_at syntax.now.node_table ids.now))
        (λ t. ExprPatternsMean syntax.now.functions t slots.old
        (expr_patterns_at syntax.now.node_table ids.now) ps.items)) }
{
    let mut parts = Vec::with_capacity(alloc, ids.len())?;
    for id in ids {
        let part = pattern(alloc, syntax, slots, module, *id)?;
        parts.push(part)?;
    }
    Ok(parts)
}
