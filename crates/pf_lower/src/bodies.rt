//! Bodies of a checked module, which are built from the last element.

ghost use Rattle.std.specs.Prelude.{◌≡◌, IfOk, List};
ghost use Rattle.std.specs.List.{All};
ghost use Rattle.pf_syntax.specs.Naming.{ending};
ghost use Rattle.pf_syntax.specs.Over.{part_over, patterns_at};
ghost use Rattle.pf_syntax.specs.Within.{OperandRepresents};
ghost use Rattle.pf_lower.specs.Bodies.{bound_elements, ElementRepresents};
ghost use Rattle.pf_lower.specs.Grown.{PartPut};

use crate::put::put_node;
use pf_errors::NoMemory;
use pf_syntax::{Module, Node, Operand, PatternId};

/// An element of a body: the patterns of its matches, the innermost first, and what they match.
#[derive(Drop)]
pub(crate) struct Element {
    pub patterns: Vec<PatternId>,
    pub value: Operand,
}

/// Adds the last element of a body.
pub(crate) fn put_last(module: &mut Module, element: Element) -> Result<Operand, NoMemory>
    requires { ElementRepresents module.old.tables element }
    ensures { IfOk result (λ x. PartPut module.old module.new
        (ending (patterns_at module.old.tables element.patterns.items)
        (part_over module.old.tables element.value)) x) }
{
    if element.patterns.is_empty() {
        return Ok(element.value);
    }
    put_node(module, Node::Match(element.patterns, element.value))
}

/// Adds elements before the rest of a body.
pub(crate) fn put_binds(
    module: &mut Module,
    elements: Vec<Element>,
    rest: Operand,
) -> Result<Operand, NoMemory>
    requires elements_are_there { All (ElementRepresents module.old.tables) elements.items }
    requires rest_is_there { OperandRepresents module.old.tables rest }
    ensures { IfOk result (λ x. PartPut module.old module.new
        (bound_elements module.old.tables elements.items (part_over module.old.tables rest)) x) }
{
    let mut front = elements;
    let mut body = rest;
    while let Some(element) = front.pop() {
        body = put_node(module, Node::Bind(element.patterns, element.value, body))?;
    }
    Ok(body)
}
