//! Fit of a pattern of a module: what it binds goes onto the stack of slots.

ghost use Rattle.std.specs.Prelude.{◌≤◌, length, IfOk};
ghost use Rattle.pf_terms.specs.Value.{list as values};
ghost use Rattle.pf_terms.specs.Term.{elements_of, value_of, values_of};
ghost use Rattle.pf_syntax.specs.Pattern.{cons_of, tuple_of};
ghost use Rattle.pf_syntax.specs.Module.{pattern_at};
ghost use Rattle.pf_syntax.specs.Over.{patterns_at};
ghost use Rattle.pf_patterns.specs.Fit as spec;
ghost use Rattle.pf_patterns.specs.Fitted.{Fitted};

use crate::slots::{copied, fits_literal, fits_slot};
use pf_errors::NoMemory;
use pf_syntax::{Module, PatternId, PatternNode};
use pf_terms::{List, Term};

/// Whether a value fits, in the activation that begins at `base`. What was bound stays where it does not.
#[cycle(bind)]
#[inline(always)]
pub fn bind(
    code: &Module,
    pattern: PatternId,
    value: &Term,
    env: &mut Vec<Term>,
    base: usize,
) -> Result<bool, NoMemory>
    requires { base ≤ length env.old.items }
    ensures { IfOk result (λ b. Fitted base env.old.items env.new.items b
        (spec.fit (pattern_at code.now.tables pattern.0) (value_of value.now))) }
{
    match code.pattern(pattern) {
        None => Ok(true),
        Some(node) => match node {
            PatternNode::Any => Ok(true),
            PatternNode::New => {
                env.push(copied(value)?)?;
                Ok(true)
            }
            PatternNode::Slot(index) => Ok(fits_slot(env.as_slice(), base, *index, value)),
            PatternNode::Int(n) => Ok(matches!(value, Term::Int(other) if n == other)),
            PatternNode::Atom(atom) => Ok(matches!(value, Term::Atom(other) if atom == other)),
            PatternNode::Nil => Ok(matches!(value, Term::List(list) if list.split().is_none())),
            PatternNode::Literal(id) => Ok(fits_literal(code, *id, value)),
            PatternNode::Tuple(parts) => bind_tuple(code, parts.as_slice(), value, env, base),
            PatternNode::Cons(head, tail) => match value {
                Term::List(list) => bind_cons(code, *head, *tail, list, env, base),
                _ => Ok(false),
            },
            PatternNode::Never => Ok(false),
        },
    }
}

/// Whether a value is a tuple whose elements fit the patterns.
#[cycle(bind)]
#[inline(always)]
fn bind_tuple(
    code: &Module,
    patterns: &[PatternId],
    value: &Term,
    env: &mut Vec<Term>,
    base: usize,
) -> Result<bool, NoMemory>
    requires { base ≤ length env.old.items }
    ensures { IfOk result (λ b. Fitted base env.old.items env.new.items b
        (spec.fit (tuple_of (patterns_at code.now.tables patterns.now)) (value_of value.now))) }
{
    match value {
        Term::Tuple(elements) => bind_all(code, patterns, elements.as_slice(), env, base),
        _ => Ok(false),
    }
}

/// Whether the first element of a list and what comes after it fit their patterns.
#[cycle(bind)]
fn bind_cons(
    code: &Module,
    head: PatternId,
    tail: PatternId,
    list: &List,
    env: &mut Vec<Term>,
    base: usize,
) -> Result<bool, NoMemory>
    requires { base ≤ length env.old.items }
    ensures { IfOk result (λ b. Fitted base env.old.items env.new.items b
        (let pattern = cons_of (pattern_at code.now.tables head.0) (pattern_at code.now.tables tail.0) in
        spec.fit pattern (values (elements_of list.now)))) }
{
    match list.split() {
        None => Ok(false),
        Some((first, others)) => {
            if bind(code, head, first, env, base)? {
                let others = Term::List(others.share()?);
                bind(code, tail, &others, env, base)
            } else {
                Ok(false)
            }
        }
    }
}

/// Whether each value fits its pattern, from left to right.
#[cycle(bind)]
pub fn bind_all(
    code: &Module,
    patterns: &[PatternId],
    values: &[Term],
    env: &mut Vec<Term>,
    base: usize,
) -> Result<bool, NoMemory>
    requires { base ≤ length env.old.items }
    ensures { IfOk result (λ b. Fitted base env.old.items env.new.items b
        (spec.fit_all (patterns_at code.now.tables patterns.now) (values_of values.now))) }
{
    match patterns {
        [] => match values {
            [] => Ok(true),
            [_, ..] => Ok(false),
        },
        [pattern, rest @ ..] => match values {
            [] => Ok(false),
            [first, others @ ..] => {
                if bind(code, *pattern, first, env, base)? {
                    bind_all(code, rest, others, env, base)
                } else {
                    Ok(false)
                }
            }
        },
    }
}
