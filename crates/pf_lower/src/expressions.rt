//! The expressions and the bodies of a checked module.

ghost use Rattle.std.specs.Prelude.{◌≡◌, ◌↔◌, IfOk, IfSome, IfNone, IsTrue, List};
ghost use Rattle.pf_syntax.specs.Expr as expr;
ghost use Rattle.pf_syntax.specs.SyntaxTree.{NodeTable, expr_at, expr_pattern_at};
ghost use Rattle.pf_syntax.specs.SyntaxTreeOver.{branches_over, condition_over, expr_over, exprs_at};
ghost use Rattle.pf_syntax.specs.ExprModule.{unguarded};
ghost use Rattle.pf_lower.specs.Bound.{all_bound_after, bound_after, IsNoMatch};
ghost use Rattle.pf_lower.specs.Built.{BodyMeans, BranchesMean, Lowers, GuardMeans, ExprMeans, ExprsMean};
ghost use Rattle.pf_lower.specs.Bodies.{BranchMeans, EachElementMeans, ElementBuilt};
ghost use Rattle.pf_lower.specs.Kinds.{IsConstruct, IsOperation, IsSequence};
ghost use Rattle.pf_lower.specs.Knows.{Knows};

use crate::bodies::{Element, put_binds, put_last};
use crate::function_table::FunctionTable;
use crate::patterns::pattern;
use crate::put::{put_list, put_literal, put_node};
use crate::slots::Slots;
use crate::strings::string;
use pf_errors::NoMemory;
use pf_syntax::{
    Alternative, Branch, Clause, Condition, ExprId, ExprNode, ExprPatternId, Guard, Ident, Module,
    Node, Operand, SyntaxTree, builtin_named,
};
use std::alloc::Global;

/// A variable: its slot. An unbound one is `[]`, which no module without faults has.
fn variable(syntax: &SyntaxTree, slots: &Slots, module: &Module, ident: Ident) -> Operand
    ensures { Lowers module.now module.now slots.now slots.now
        (λ t. ExprMeans syntax.now.functions t slots.now
        (expr.variable ident.name.0 ident.offset) result) }
{
    match slots.slot(ident.name) {
        Some(slot) => Operand::Slot(slot),
        None => Operand::Nil,
    }
}

/// A string.
fn text(
    alloc: Global,
    syntax: &SyntaxTree,
    slots: &Slots,
    module: &mut Module,
    codes: &[u8],
) -> Result<Operand, NoMemory>
    ensures { IfOk result (λ x. Lowers module.old module.new slots.now slots.now
        (λ t. ExprMeans syntax.now.functions t slots.now (expr.text codes.now) x)) }
{
    let made = string(alloc, codes)?;
    match made {
        Some(literal) => put_literal(module, literal),
        None => Ok(Operand::Nil),
    }
}

/// A call of an own function or of a built-in one, whose arguments are these parts.
fn call(
    syntax: &SyntaxTree,
    functions: &FunctionTable,
    slots: &Slots,
    module: &mut Module,
    ident: Ident,
    ids: &[ExprId],
    parts: Vec<Operand>,
) -> Result<Operand, NoMemory>
    requires knows { Knows functions.now syntax.now.functions }
    requires parts_are { ExprsMean syntax.now.functions module.old slots.now
        (exprs_at syntax.now.node_table ids.now) parts.items }
    ensures { IfOk result (λ x. Lowers module.old module.new slots.now slots.now
        (λ t. ExprMeans syntax.now.functions t slots.now
        (expr.call ident.name.0 ident.offset (exprs_at syntax.now.node_table ids.now)) x)) }
{
    if let Some(function) = functions.find(syntax, ident.name, ids.len()) {
        return put_node(module, Node::Call(function, parts));
    }
    match builtin_named(module.atoms().name(ident.name), ids.len() as u64) {
        Some(builtin) => put_node(module, Node::Builtin(builtin, parts)),
        None => Ok(Operand::Nil),
    }
}

/// The pattern and the right side of a match.
fn as_match(syntax: &SyntaxTree, id: ExprId) -> Option<(ExprPatternId, ExprId)>
    ensures some { IfSome result (λ m. expr_at syntax.now.node_table id.0 ≡ expr.match
        (expr_pattern_at syntax.now.node_table m.0.0)
        (expr_at syntax.now.node_table m.1.0)) }
    ensures none { IfNone result (IsNoMatch (expr_at syntax.now.node_table id.0)) }
{
    match syntax.expr(id) {
        None => None,
        Some(node) => match node {
            ExprNode::Match(pattern, right) => Some((*pattern, *right)),
            _ => None,
        },
    }
}

/// An expression. What breaks a static rule, and a match outside bodies, is `[]`.
#[cycle(expr)]
pub(crate) fn expression(
    alloc: Global,
    syntax: &SyntaxTree,
    functions: &FunctionTable,
    slots: &mut Slots,
    module: &mut Module,
    id: ExprId,
) -> Result<Operand, NoMemory>
    requires { Knows functions.now syntax.now.functions }
    ensures { IfOk result (λ x. Lowers module.old module.new slots.new slots.old
        (λ t. ExprMeans syntax.now.functions t slots.old
        (expr_at syntax.now.node_table id.0) x)) }
{
    match syntax.expr(id) {
        None => Ok(Operand::Nil),
        Some(node) => match node {
            ExprNode::Integer(n) => Ok(Operand::Int(*n)),
            ExprNode::Atom(atom) => Ok(Operand::Atom(*atom)),
            ExprNode::Text(codes) => text(alloc, syntax, slots, module, codes.as_slice()),
            ExprNode::Variable(ident) => Ok(variable(syntax, slots, module, *ident)),
            ExprNode::Anonymous(_) | ExprNode::Match(_, _) => Ok(Operand::Nil),
            ExprNode::Parentheses(a) => expression(alloc, syntax, functions, slots, module, *a),
            ExprNode::Tuple(_)
            | ExprNode::List(_)
            | ExprNode::ListOn(_, _)
            | ExprNode::Call(_, _) => sequence(alloc, syntax, functions, slots, module, node),
            ExprNode::Binary(_, _, _)
            | ExprNode::Negate(_)
            | ExprNode::AndAlso(_, _)
            | ExprNode::OrElse(_, _)
            | ExprNode::Send(_, _) => operation(alloc, syntax, functions, slots, module, node),
            ExprNode::Case(_, _) | ExprNode::If(_) | ExprNode::Receive(_) => {
                construct(alloc, syntax, functions, slots, module, node)
            }
        },
    }
}

/// A tuple, a list or a call, after its elements or arguments.
#[cycle(expr)]
fn sequence(
    alloc: Global,
    syntax: &SyntaxTree,
    functions: &FunctionTable,
    slots: &mut Slots,
    module: &mut Module,
    node: &ExprNode,
) -> Result<Operand, NoMemory>
    requires knows { Knows functions.now syntax.now.functions }
    requires kind { IsSequence node.now }
    ensures { IfOk result (λ x. Lowers module.old module.new slots.new slots.old
        (λ t. ExprMeans syntax.now.functions t slots.old
        (expr_over syntax.now.node_table node.now) x)) }
{
    match node {
        ExprNode::Tuple(ids) => {
            let parts = expressions(alloc, syntax, functions, slots, module, ids.as_slice())?;
            put_node(module, Node::Tuple(parts))
        }
        ExprNode::List(ids) => {
            let parts = expressions(alloc, syntax, functions, slots, module, ids.as_slice())?;
            put_list(module, parts, Operand::Nil)
        }
        ExprNode::ListOn(ids, tail) => {
            let parts = expressions(alloc, syntax, functions, slots, module, ids.as_slice())?;
            let rest = expression(alloc, syntax, functions, slots, module, *tail)?;
            put_list(module, parts, rest)
        }
        ExprNode::Call(ident, ids) => {
            let parts = expressions(alloc, syntax, functions, slots, module, ids.as_slice())?;
            call(
                syntax,
                functions,
                slots,
                module,
                *ident,
                ids.as_slice(),
                parts,
            )
        }
        _ => Ok(Operand::Nil),
    }
}

/// An operator with its operands.
#[cycle(expr)]
fn operation(
    alloc: Global,
    syntax: &SyntaxTree,
    functions: &FunctionTable,
    slots: &mut Slots,
    module: &mut Module,
    node: &ExprNode,
) -> Result<Operand, NoMemory>
    requires knows { Knows functions.now syntax.now.functions }
    requires kind { IsOperation node.now }
    ensures { IfOk result (λ x. Lowers module.old module.new slots.new slots.old
        (λ t. ExprMeans syntax.now.functions t slots.old
        (expr_over syntax.now.node_table node.now) x)) }
{
    match node {
        ExprNode::Negate(a) => {
            let inner = expression(alloc, syntax, functions, slots, module, *a)?;
            put_node(module, Node::Negate(inner))
        }
        ExprNode::Binary(operator, a, b) => {
            let operands = pair(alloc, syntax, functions, slots, module, *a, *b)?;
            put_node(module, Node::Binary(*operator, operands.0, operands.1))
        }
        ExprNode::AndAlso(a, b) => {
            let operands = pair(alloc, syntax, functions, slots, module, *a, *b)?;
            put_node(module, Node::AndAlso(operands.0, operands.1))
        }
        ExprNode::OrElse(a, b) => {
            let operands = pair(alloc, syntax, functions, slots, module, *a, *b)?;
            put_node(module, Node::OrElse(operands.0, operands.1))
        }
        ExprNode::Send(a, b) => {
            let operands = pair(alloc, syntax, functions, slots, module, *a, *b)?;
            put_node(module, Node::Send(operands.0, operands.1))
        }
        _ => Ok(Operand::Nil),
    }
}

/// A construct of clauses: `case`, `if` or `receive`.
#[cycle(expr)]
fn construct(
    alloc: Global,
    syntax: &SyntaxTree,
    functions: &FunctionTable,
    slots: &mut Slots,
    module: &mut Module,
    node: &ExprNode,
) -> Result<Operand, NoMemory>
    requires knows { Knows functions.now syntax.now.functions }
    requires kind { IsConstruct node.now }
    ensures { IfOk result (λ x. Lowers module.old module.new slots.new slots.old
        (λ t. ExprMeans syntax.now.functions t slots.old
        (expr_over syntax.now.node_table node.now) x)) }
{
    match node {
        ExprNode::Case(a, arms) => {
            let value = expression(alloc, syntax, functions, slots, module, *a)?;
            let clauses = branches(alloc, syntax, functions, slots, module, arms.as_slice())?;
            put_node(module, Node::Case(value, clauses))
        }
        ExprNode::If(arms) => {
            let clauses = branches(alloc, syntax, functions, slots, module, arms.as_slice())?;
            put_node(module, Node::If(clauses))
        }
        ExprNode::Receive(arms) => {
            let clauses = branches(alloc, syntax, functions, slots, module, arms.as_slice())?;
            put_node(module, Node::Receive(clauses))
        }
        _ => Ok(Operand::Nil),
    }
}

/// Two operands, from left to right.
#[cycle(expr)]
fn pair(
    alloc: Global,
    syntax: &SyntaxTree,
    functions: &FunctionTable,
    slots: &mut Slots,
    module: &mut Module,
    first: ExprId,
    second: ExprId,
) -> Result<(Operand, Operand), NoMemory>
    requires { Knows functions.now syntax.now.functions }
    ensures { IfOk result (λ x. Lowers module.old module.new slots.new slots.old
        (λ t. ExprMeans syntax.now.functions t slots.old
        (expr_at syntax.now.node_table first.0) x.0
        × ExprMeans syntax.now.functions t slots.old (expr_at syntax.now.node_table second.0) x.1)) }
{
    let a = expression(alloc, syntax, functions, slots, module, first)?;
    let b = expression(alloc, syntax, functions, slots, module, second)?;
    Ok((a, b))
}

/// Expressions, from left to right.
#[cycle(expr)]
fn expressions(
    alloc: Global,
    syntax: &SyntaxTree,
    functions: &FunctionTable,
    slots: &mut Slots,
    module: &mut Module,
    ids: &[ExprId],
) -> Result<Vec<Operand>, NoMemory>
    requires { Knows functions.now syntax.now.functions }
    ensures { IfOk result (λ xs. Lowers module.old module.new slots.new slots.old
        (λ t. ExprsMean syntax.now.functions t slots.old
        (exprs_at syntax.now.node_table ids.now) xs.items)) }
{
    let mut parts = Vec::with_capacity(alloc, ids.len())?;
    for id in ids {
        let part = expression(alloc, syntax, functions, slots, module, *id)?;
        parts.push(part)?;
    }
    Ok(parts)
}

/// An element of a body, with the patterns of its matches.
#[cycle(expr)]
fn element(
    alloc: Global,
    syntax: &SyntaxTree,
    functions: &FunctionTable,
    slots: &mut Slots,
    module: &mut Module,
    id: ExprId,
) -> Result<Element, NoMemory>
    requires { Knows functions.now syntax.now.functions }
    ensures { IfOk result (λ x. Lowers module.old module.new slots.new
        (bound_after slots.old (expr_at syntax.now.node_table id.0))
        (λ t. ElementBuilt syntax.now.functions t slots.old
        (expr_at syntax.now.node_table id.0) x)) }
{
    match as_match(syntax, id) {
        None => {
            let value = expression(alloc, syntax, functions, slots, module, id)?;
            Ok(Element {
                patterns: Vec::new(alloc),
                value,
            })
        }
        Some((expr_pattern, right)) => {
            let inner = element(alloc, syntax, functions, slots, module, right)?;
            let outer = pattern(alloc, syntax, slots, module, expr_pattern)?;
            let mut patterns = inner.patterns;
            patterns.push(outer)?;
            Ok(Element {
                patterns,
                value: inner.value,
            })
        }
    }
}

/// The elements of a body, from left to right.
#[cycle(expr)]
fn elements(
    alloc: Global,
    syntax: &SyntaxTree,
    functions: &FunctionTable,
    slots: &mut Slots,
    module: &mut Module,
    ids: &[ExprId],
) -> Result<Vec<Element>, NoMemory>
    requires { Knows functions.now syntax.now.functions }
    ensures { IfOk result (λ xs. Lowers module.old module.new slots.new
        (all_bound_after slots.old (exprs_at syntax.now.node_table ids.now))
        (λ t. EachElementMeans syntax.now.functions syntax.now.node_table t slots.old ids.now xs.items)) }
{
    let mut found = Vec::new(alloc);
    for id in ids {
        let one = element(alloc, syntax, functions, slots, module, *id)?;
        found.push(one)?;
    }
    Ok(found)
}

/// A body, built from its last element.
#[cycle(expr)]
pub(crate) fn body(
    alloc: Global,
    syntax: &SyntaxTree,
    functions: &FunctionTable,
    slots: &mut Slots,
    module: &mut Module,
    ids: &[ExprId],
) -> Result<Operand, NoMemory>
    requires { Knows functions.now syntax.now.functions }
    ensures { IfOk result (λ x. Lowers module.old module.new slots.new
        (all_bound_after slots.old (exprs_at syntax.now.node_table ids.now))
        (λ t. BodyMeans syntax.now.functions t slots.old
        (exprs_at syntax.now.node_table ids.now) x)) }
{
    let mut front = elements(alloc, syntax, functions, slots, module, ids)?;
    match front.pop() {
        None => Ok(Operand::Nil),
        Some(last) => {
            let end = put_last(module, last)?;
            put_binds(module, front, end)
        }
    }
}

/// Whether a clause has no `when`: its guard is one alternative with no test.
fn is_unguarded(condition: &Condition) -> bool
    ensures { (b : NodeTable) → IsTrue result ↔ (condition_over b condition.now ≡ unguarded) }
{
    match condition.alternatives.as_slice() {
        [alternative] => alternative.tests.as_slice().is_empty(),
        _ => false,
    }
}

/// A guard, which binds nothing. A clause with no `when` gets the empty list, which takes no memory.
#[cycle(expr)]
pub(crate) fn guard(
    alloc: Global,
    syntax: &SyntaxTree,
    functions: &FunctionTable,
    slots: &mut Slots,
    module: &mut Module,
    condition: &Condition,
) -> Result<Guard, NoMemory>
    requires { Knows functions.now syntax.now.functions }
    ensures { IfOk result (λ d. Lowers module.old module.new slots.new slots.old
        (λ t. GuardMeans syntax.now.functions t slots.old
        (condition_over syntax.now.node_table condition.now) d)) }
{
    if is_unguarded(condition) {
        let alternatives = Vec::new(alloc);
        return Ok(Guard { alternatives });
    }
    let mut alternatives = Vec::with_capacity(alloc, condition.alternatives.len())?;
    for one in &condition.alternatives {
        let tests = expressions(
            alloc,
            syntax,
            functions,
            slots,
            module,
            one.tests.as_slice(),
        )?;
        alternatives.push(Alternative { tests })?;
    }
    Ok(Guard { alternatives })
}

/// A clause of a construct. What it binds is forgotten at its end.
#[cycle(expr)]
fn branch(
    alloc: Global,
    syntax: &SyntaxTree,
    functions: &FunctionTable,
    slots: &mut Slots,
    module: &mut Module,
    arm: &Branch,
) -> Result<Clause, NoMemory>
    requires { Knows functions.now syntax.now.functions }
    ensures { IfOk result (λ x. Lowers module.old module.new slots.new slots.old
        (λ t. BranchMeans syntax.now.functions syntax.now.node_table t slots.old arm.now x)) }
{
    let bound = slots.len();
    let asked = pattern(alloc, syntax, slots, module, arm.expr_pattern)?;
    let guard = guard(alloc, syntax, functions, slots, module, &arm.condition)?;
    let body = body(alloc, syntax, functions, slots, module, arm.body.as_slice())?;
    slots.truncate(bound);
    Ok(Clause {
        pattern: asked,
        guard,
        body,
    })
}

/// The clauses of a construct, each of which begins with what is bound there.
#[cycle(expr)]
fn branches(
    alloc: Global,
    syntax: &SyntaxTree,
    functions: &FunctionTable,
    slots: &mut Slots,
    module: &mut Module,
    arms: &[Branch],
) -> Result<Vec<Clause>, NoMemory>
    requires { Knows functions.now syntax.now.functions }
    ensures { IfOk result (λ cs. Lowers module.old module.new slots.new slots.old
        (λ t. BranchesMean syntax.now.functions t slots.old
        (branches_over syntax.now.node_table arms.now) cs.items)) }
{
    let mut clauses = Vec::with_capacity(alloc, arms.len())?;
    for arm in arms {
        let clause = branch(alloc, syntax, functions, slots, module, arm)?;
        clauses.push(clause)?;
    }
    Ok(clauses)
}
