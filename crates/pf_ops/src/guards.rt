//! Guards: whether one holds. It takes no step, and an error in a test makes its alternative fail (Erlang
//! Reference Manual, "Guard Sequences").

ghost use Rattle.std.specs.Prelude.{◌≡◌, option_map, IfOk};
ghost use Rattle.pf_terms.specs.Value.{tuple as tupled};
ghost use Rattle.pf_terms.specs.Term.{value_of, values_of};
ghost use Rattle.pf_terms.specs.Atoms.{name_of};
ghost use Rattle.pf_syntax.specs.Tree as tree;
ghost use Rattle.pf_syntax.specs.Over.{guard_over, part_over, parts_over, tree_over};
ghost use Rattle.pf_patterns.specs.Slots.{activation};
ghost use Rattle.pf_patterns.specs.Substitution.{sub_guard};
ghost use Rattle.pf_ops.specs.Guards as spec;
ghost use Rattle.pf_ops.specs.Results.{answer_of};
ghost use Rattle.pf_ops.specs.Surroundings.{all_true_in, all_worth_in, decided_in, tables_in, worth_in};

use crate::answer::{Computed, truth_of};
use crate::arithmetic::negated;
use crate::build::{cons, tuple};
use crate::builtins::compute;
use crate::operators::apply;
use pf_errors::NoMemory;
use pf_patterns::operand;
use pf_syntax::{Builtin, Guard, Module, Node, Operand, Operator};
use pf_terms::{AtomId, List, Term};
use std::alloc::Global;

/// Where a test is: in which module, over which values of variables, and in the process of which pid.
#[derive(Clone, Copy)]
pub(crate) struct Surroundings<'a> {
    code: &'a Module,
    env: &'a [Term],
    base: usize,
    own: u32,
}

/// The value, where there is one.
fn value_in(answer: Computed) -> Option<Term>
    ensures { option_map value_of result ≡ spec.value_in (answer_of answer) }
{
    match answer {
        Ok(value) => Some(value),
        Err(_) => None,
    }
}

/// Whether the value of a test is `true`.
fn is_true(worth: &Option<Term>) -> bool
    ensures { result ≡ spec.is_true (option_map value_of worth.now) }
{
    matches!(worth, Some(Term::Atom(AtomId::TRUE)))
}

/// The value of a test, None where it is an error.
#[cycle(worth)]
fn worth(alloc: Global, around: &Surroundings, part: Operand) -> Result<Option<Term>, NoMemory>
    ensures { IfOk result (λ o. option_map value_of o
        ≡ worth_in around.now (part_over (tables_in around.now) part)) }
{
    match operand(around.code, part, around.env, around.base)? {
        Some(value) => Ok(Some(value)),
        None => match part {
            Operand::Node(id) => match around.code.node(id) {
                Some(node) => node_worth(alloc, around, node),
                None => Ok(Some(Term::List(List::Nil))),
            },
            _ => Ok(None),
        },
    }
}

/// The value of a test that is a node. What isn't allowed in a guard is an error.
#[cycle(worth)]
fn node_worth(alloc: Global, around: &Surroundings, node: &Node) -> Result<Option<Term>, NoMemory>
    ensures { IfOk result (λ o. option_map value_of o
        ≡ worth_in around.now (tree_over (tables_in around.now) node.now)) }
{
    match node {
        Node::Tuple(parts) => tuple_worth(alloc, around, parts.as_slice()),
        Node::Cons(first, rest) => cons_worth(alloc, around, *first, *rest),
        Node::Binary(operator, left, right) => {
            binary_worth(alloc, around, *operator, *left, *right)
        }
        Node::Negate(part) => negated_worth(alloc, around, *part),
        Node::AndAlso(left, right) => decided_worth(alloc, around, false, *left, *right),
        Node::OrElse(left, right) => decided_worth(alloc, around, true, *left, *right),
        Node::Builtin(builtin, parts) => {
            builtin_worth(alloc, around, *builtin, parts.as_slice())
        }
        Node::Call(_, _)
        | Node::Match(_, _)
        | Node::Bind(_, _, _)
        | Node::Case(_, _)
        | Node::If(_)
        | Node::Receive(_)
        | Node::Send(_, _) => Ok(None),
    }
}

/// The values of tests, where none is an error.
#[cycle(worth)]
fn all_worth(
    alloc: Global,
    around: &Surroundings,
    parts: &[Operand],
) -> Result<Option<Vec<Term>>, NoMemory>
    ensures { IfOk result (λ o. option_map (λ items. values_of items.items) o
        ≡ all_worth_in around.now (parts_over (tables_in around.now) parts.now)) }
{
    let mut items = Vec::new(alloc);
    for part in parts {
        match worth(alloc, around, *part)? {
            Some(value) => items.push(value)?,
            None => return Ok(None),
        }
    }
    Ok(Some(items))
}

/// A tuple of tests.
#[cycle(worth)]
fn tuple_worth(
    alloc: Global,
    around: &Surroundings,
    parts: &[Operand],
) -> Result<Option<Term>, NoMemory>
    ensures { IfOk result (λ o. option_map value_of o
        ≡ worth_in around.now (tree.tuple (parts_over (tables_in around.now) parts.now))) }
{
    match all_worth(alloc, around, parts)? {
        Some(items) => Ok(value_in(tuple(alloc, items)?)),
        None => Ok(None),
    }
}

/// A list of tests.
#[cycle(worth)]
fn cons_worth(
    alloc: Global,
    around: &Surroundings,
    first: Operand,
    rest: Operand,
) -> Result<Option<Term>, NoMemory>
    ensures { IfOk result (λ o. option_map value_of o ≡ worth_in around.now
        (tree.cons (part_over (tables_in around.now) first) (part_over (tables_in around.now) rest))) }
{
    let Some(head) = worth(alloc, around, first)? else {
        return Ok(None);
    };
    match worth(alloc, around, rest)? {
        Some(tail) => Ok(value_in(cons(alloc, head, tail)?)),
        None => Ok(None),
    }
}

/// An operator on two tests.
#[cycle(worth)]
fn binary_worth(
    alloc: Global,
    around: &Surroundings,
    operator: Operator,
    left: Operand,
    right: Operand,
) -> Result<Option<Term>, NoMemory>
    ensures { IfOk result (λ o. option_map value_of o ≡ worth_in around.now (tree.op operator
        (part_over (tables_in around.now) left) (part_over (tables_in around.now) right))) }
{
    let Some(a) = worth(alloc, around, left)? else {
        return Ok(None);
    };
    match worth(alloc, around, right)? {
        Some(b) => Ok(value_in(apply(alloc, operator, &a, &b, around.code.atoms())?)),
        None => Ok(None),
    }
}

/// Unary minus of a test.
#[cycle(worth)]
fn negated_worth(
    alloc: Global,
    around: &Surroundings,
    part: Operand,
) -> Result<Option<Term>, NoMemory>
    ensures { IfOk result (λ o. option_map value_of o
        ≡ worth_in around.now (tree.neg (part_over (tables_in around.now) part))) }
{
    match worth(alloc, around, part)? {
        Some(value) => match negated(&value) {
            Ok(n) => Ok(Some(Term::Int(n))),
            Err(_) => Ok(None),
        },
        None => Ok(None),
    }
}

/// `andalso` or `orelse` of two tests: the left one where its truth is the one that decides, else the right one.
#[cycle(worth)]
fn decided_worth(
    alloc: Global,
    around: &Surroundings,
    decides: bool,
    left: Operand,
    right: Operand,
) -> Result<Option<Term>, NoMemory>
    ensures { IfOk result (λ o. option_map value_of o ≡ decided_in around.now decides
        (part_over (tables_in around.now) left) (part_over (tables_in around.now) right)) }
{
    match worth(alloc, around, left)? {
        Some(value) => match truth_of(&value) {
            Some(truth) if truth == decides => Ok(Some(value)),
            Some(_) => worth(alloc, around, right),
            None => Ok(None),
        },
        None => Ok(None),
    }
}

/// A built-in function of tests.
#[cycle(worth)]
fn builtin_worth(
    alloc: Global,
    around: &Surroundings,
    builtin: Builtin,
    parts: &[Operand],
) -> Result<Option<Term>, NoMemory>
    ensures { IfOk result (λ o. option_map value_of o ≡ worth_in around.now
        (tree.builtin builtin (parts_over (tables_in around.now) parts.now))) }
{
    match all_worth(alloc, around, parts)? {
        Some(items) => match compute(around.own, builtin, items.as_slice())? {
            Some(answer) => Ok(value_in(answer)),
            None => Ok(None),
        },
        None => Ok(None),
    }
}

/// Whether every test gives `true`.
fn all_true(alloc: Global, around: &Surroundings, tests: &[Operand]) -> Result<bool, NoMemory>
    ensures { IfOk result (λ b. b ≡ all_true_in around.now (parts_over (tables_in around.now) tests.now)) }
{
    for test in tests {
        if !is_true(&worth(alloc, around, *test)?) {
            return Ok(false);
        }
    }
    Ok(true)
}

/// Whether a guard holds: one of its alternatives does, or it makes no test.
pub fn holds(
    alloc: Global,
    code: &Module,
    guard: &Guard,
    env: &[Term],
    base: usize,
    own: u32,
) -> Result<bool, NoMemory>
    ensures { IfOk result (λ b. b ≡ spec.guard_holds (name_of code.now.atoms) own
        (sub_guard (activation env.now base) (guard_over code.now.tables guard.now))) }
{
    let around = Surroundings {
        code,
        env,
        base,
        own,
    };
    for alternative in &guard.alternatives {
        if all_true(alloc, &around, alternative.tests.as_slice())? {
            return Ok(true);
        }
    }
    Ok(guard.alternatives.is_empty())
}
