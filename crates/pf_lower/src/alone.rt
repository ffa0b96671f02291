//! A pattern by itself, in no module.

ghost use Rattle.std.specs.Prelude.{IfOk};
ghost use Rattle.pf_syntax.specs.SyntaxTree.{expr_pattern_at};
ghost use Rattle.pf_syntax.specs.Module.{pattern_at};
ghost use Rattle.pf_lower.specs.Alone.{BecomesAlone};

use crate::patterns::pattern;
use crate::slots::Slots;
use pf_errors::NoMemory;
use pf_syntax::{ExprPatternId, Module, PatternId, SyntaxTree};
use std::alloc::Global;

/// Adds a pattern by itself to a module. No variable is bound before it, and its atoms keep their numbers, whether or
/// not the module names them.
pub fn pattern_alone(
    alloc: Global,
    syntax: &SyntaxTree,
    module: &mut Module,
    id: ExprPatternId,
) -> Result<PatternId, NoMemory>
    ensures { IfOk result (λ p. BecomesAlone (expr_pattern_at syntax.now.node_table id.0)
        (pattern_at module.new.tables p.0)) }
{
    let mut slots = Slots::new(alloc);
    pattern(alloc, syntax, &mut slots, module, id)
}
