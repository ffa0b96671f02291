//! Nodes and patterns that are added to a module, and lists of several of them.

ghost use Rattle.std.specs.Prelude.{◌≡◌, IfOk};
ghost use Rattle.std.specs.List.{All};
ghost use Rattle.pf_terms.specs.Term.{value_of};
ghost use Rattle.pf_syntax.specs.Pattern.{known};
ghost use Rattle.pf_syntax.specs.Tree.{lit};
ghost use Rattle.pf_syntax.specs.Module.{pattern_at};
ghost use Rattle.pf_syntax.specs.Over.{part_over, parts_over, pattern_over, patterns_at, tree_over};
ghost use Rattle.pf_syntax.specs.Naming.{conses, conses_of};
ghost use Rattle.pf_syntax.specs.Within.{OperandRepresents, PartsAreThere, PatternPartsAreThere, PatternRepresents};
ghost use Rattle.pf_lower.specs.Grown.{PartPut, PatternPut};

use pf_errors::NoMemory;
use pf_syntax::{Module, Node, Operand, PatternId, PatternNode};
use pf_terms::Term;

/// Adds a pattern after its parts.
pub(crate) fn put_pattern(module: &mut Module, node: PatternNode) -> Result<PatternId, NoMemory>
    requires { PatternPartsAreThere module.old.tables node }
    ensures { IfOk result (λ p. PatternPut module.old module.new (pattern_over module.old.tables node) p) }
{
    let id = module.add_pattern(node)?;
    Ok(id)
}

/// Adds the pattern of a value.
pub(crate) fn put_known(module: &mut Module, literal: Term) -> Result<PatternId, NoMemory>
    ensures { IfOk result (λ p. PatternPut module.old module.new (known (value_of literal)) p) }
{
    let id = module.add_literal(literal)?;
    let pattern = module.add_pattern(PatternNode::Literal(id))?;
    Ok(pattern)
}

/// Adds a pattern of a list: these elements, and then what the last pattern asks.
pub(crate) fn put_list_pattern(
    module: &mut Module,
    elements: Vec<PatternId>,
    tail: PatternId,
) -> Result<PatternId, NoMemory>
    requires elements_are_there { All (PatternRepresents module.old.tables) elements.items }
    requires tail_is_there { PatternRepresents module.old.tables tail }
    ensures { IfOk result (λ p. PatternPut module.old module.new
        (conses_of (patterns_at module.old.tables elements.items) (pattern_at module.old.tables tail.0)) p) }
{
    let mut front = elements;
    let mut list = tail;
    while let Some(element) = front.pop() {
        list = put_pattern(module, PatternNode::Cons(element, list))?;
    }
    Ok(list)
}

/// Adds a node after its parts.
pub(crate) fn put_node(module: &mut Module, node: Node) -> Result<Operand, NoMemory>
    requires { PartsAreThere module.old.tables node }
    ensures { IfOk result (λ x. PartPut module.old module.new (tree_over module.old.tables node) x) }
{
    let id = module.add_node(node)?;
    Ok(Operand::Node(id))
}

/// Adds a literal.
pub(crate) fn put_literal(module: &mut Module, literal: Term) -> Result<Operand, NoMemory>
    ensures { IfOk result (λ x. PartPut module.old module.new (lit (value_of literal)) x) }
{
    let id = module.add_literal(literal)?;
    Ok(Operand::Literal(id))
}

/// Adds a list of these elements before a tail.
pub(crate) fn put_list(
    module: &mut Module,
    elements: Vec<Operand>,
    tail: Operand,
) -> Result<Operand, NoMemory>
    requires elements_are_there { All (OperandRepresents module.old.tables) elements.items }
    requires tail_is_there { OperandRepresents module.old.tables tail }
    ensures { IfOk result (λ x. PartPut module.old module.new
        (conses (parts_over module.old.tables elements.items) (part_over module.old.tables tail)) x) }
{
    let mut front = elements;
    let mut list = tail;
    while let Some(element) = front.pop() {
        list = put_node(module, Node::Cons(element, list))?;
    }
    Ok(list)
}
