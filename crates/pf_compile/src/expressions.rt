//! Expressions: code that evaluates one in any frames, and goes on with its value.

ghost use Rattle.std.specs.Prelude.{◌≡◌, ◌<◌, ◌≤◌, length, slice_get, IfOk, IfSome, Some};
ghost use Rattle.pf_terms.specs.Term.{value_of};
ghost use Rattle.pf_syntax.specs.Tree as tree;
ghost use Rattle.pf_syntax.specs.Over.{clauses_over, part_over, parts_over, patterns_at, tree_over};
ghost use Rattle.pf_code.specs.Registers.{reg};
ghost use Rattle.pf_code.specs.declared.instruction.Operation.TheVariants as ops;
ghost use Rattle.pf_compile_patterns.specs.Maker.{code_of, IsPlace};
ghost use Rattle.pf_compile_patterns.specs.Growth.{Made, Put};
ghost use Rattle.pf_compile_patterns.specs.Planned.{AreBelow};
ghost use Rattle.pf_compile_patterns.specs.Scopes.{slots_in, tables_in};
ghost use Rattle.pf_compile.specs.Scopes.{register_of, IsAfter, IsTarget};
ghost use Rattle.pf_compile.specs.declared.target.After.TheVariants as way;
ghost use Rattle.pf_compile.specs.Evaluated.{deciding, free_of, step_of, Begins, Binds, Calls, Evaluates};
ghost use Rattle.pf_compile.specs.Evaluated.{EvaluatesAll, GivesValue};
ghost use Rattle.pf_compile.specs.Evaluated.{Lands, Matches, MatchesFree, Operates, Picks, RaisesAtom};
ghost use Rattle.pf_compile.specs.Evaluated.{Passes, RaisesWith, StepsToRaise};

use crate::target::{After, NotCompiled, Subject, Target};
use pf_code::{Instruction, Operation, Source};
use pf_compile_patterns::{
    Exits, Maker, Scope, binary_of, builtin_of, cons_of, literal, negate_of, number,
    register_after, send_of, slot_at, tuple_of,
};
use pf_errors::{NoMemory, OrNoMemory};
use pf_syntax::{Clause, FunctionId, Node, Operand, PatternId};
use pf_terms::{AtomId, List, Term};

/// Adds an instruction of one contraction that goes on at `next`.
fn step(maker: &mut Maker, operation: Operation, next: u32) -> Result<u32, NoMemory>
    requires { IsPlace (code_of maker.old) next }
    ensures { IfOk result (λ pc. Put (code_of maker.old) (code_of maker.new) (step_of operation) next pc) }
{
    let step = Instruction {
        operation,
        contractions: 1,
        otherwise: 0,
    };
    maker.put(step, next)
}

/// The place that goes on with the value of a register.
fn land(maker: &mut Maker, into: u32, after: After) -> Result<u32, NoMemory>
    requires { IsAfter (code_of maker.old) after }
    ensures { IfOk result (λ pc. Made (code_of maker.old) (code_of maker.new) pc (Lands into after pc)) }
{
    match after {
        After::Place(place) => Ok(place),
        After::Return => maker.push(Instruction {
            operation: Operation::Return(Source::Register(into)),
            contractions: 0,
            otherwise: 0,
        }),
    }
}

/// Adds the value of a register.
fn give_register(maker: &mut Maker, register: u32, to: Target) -> Result<u32, NoMemory>
    requires { IsAfter (code_of maker.old) to.after }
    ensures { IfOk result (λ pc. Made (code_of maker.old) (code_of maker.new) pc
        (GivesValue to.into to.after (λ r. reg r register) pc)) }
{
    let next = land(maker, to.into, to.after)?;
    maker.load(register, to.into, next)
}

/// Adds a value.
fn give_value(maker: &mut Maker, value: Term, to: Target) -> Result<u32, NoMemory>
    requires { IsAfter (code_of maker.old) to.after }
    ensures { IfOk result (λ pc. Made (code_of maker.old) (code_of maker.new) pc
        (GivesValue to.into to.after (λ r. value_of value) pc)) }
{
    let next = land(maker, to.into, to.after)?;
    maker.load_value(value, to.into, next)
}

/// Adds a raise of an atom by one contraction.
fn step_to_raise(maker: &mut Maker, atom: AtomId) -> Result<u32, NoMemory>
    requires { 1 ≤ length (code_of maker.old).instructions }
    ensures { IfOk result (λ pc. Made (code_of maker.old) (code_of maker.new) pc (StepsToRaise atom.0 pc)) }
{
    maker.push(Instruction {
        operation: Operation::Raise(atom),
        contractions: 1,
        otherwise: 0,
    })
}

/// Adds a raise of an atom.
pub(crate) fn raise(maker: &mut Maker, atom: AtomId) -> Result<u32, NoMemory>
    requires { 1 ≤ length (code_of maker.old).instructions }
    ensures { IfOk result (λ pc. Made (code_of maker.old) (code_of maker.new) pc (RaisesAtom atom.0 pc)) }
{
    maker.push(Instruction {
        operation: Operation::Raise(atom),
        contractions: 0,
        otherwise: 0,
    })
}

/// Adds a raise of an atom with the value of a register.
fn raise_with(maker: &mut Maker, atom: AtomId, register: u32) -> Result<u32, NoMemory>
    requires { 1 ≤ length (code_of maker.old).instructions }
    ensures { IfOk result (λ pc. Made (code_of maker.old) (code_of maker.new) pc
        (RaisesWith atom.0 register pc)) }
{
    maker.push(Instruction {
        operation: Operation::RaiseWith(atom, Source::Register(register)),
        contractions: 0,
        otherwise: 0,
    })
}

/// Adds what a call of a function contracts to, whose arguments are in a row of the free registers.
fn call_row(
    maker: &mut Maker,
    function: FunctionId,
    count: u32,
    to: Target,
) -> Result<u32, NoMemory>
    requires into_below { to.into ≤ to.free }
    requires after_there { IsAfter (code_of maker.old) to.after }
    ensures { IfOk result (λ pc. Made (code_of maker.old) (code_of maker.new) pc
        (Calls function.0 count to pc)) }
{
    match to.after {
        After::Return => maker.push(Instruction {
            operation: Operation::Tail(function, to.free, count),
            contractions: 1,
            otherwise: 0,
        }),
        After::Place(_) => {
            let end = land(maker, to.into, to.after)?;
            let next = maker.load(to.free, to.into, end)?;
            step(maker, Operation::Call(function, to.free, count), next)
        }
    }
}

/// Adds the value of an operand.
#[cycle(expression)]
pub(crate) fn operand(
    maker: &mut Maker,
    scope: &Scope,
    part: Operand,
    to: Target,
) -> Result<u32, OrNoMemory<NotCompiled>>
    requires { IsTarget (code_of maker.old) (slots_in scope.now) to }
    ensures { IfOk result (λ pc. Made (code_of maker.old) (code_of maker.new) pc
        (Evaluates scope.now (part_over (tables_in scope.now) part) to pc)) }
{
    match part {
        Operand::Node(id) => match scope.code.node(id) {
            Some(found) => node(maker, scope, found, to),
            None => Ok(give_value(maker, Term::List(List::Nil), to)?),
        },
        Operand::Slot(index) => match slot_at(scope.slots, index) {
            Some(register) => Ok(give_register(maker, *register, to)?),
            None => Ok(step_to_raise(maker, AtomId::UNDEF)?),
        },
        Operand::Int(n) => Ok(give_value(maker, Term::Int(n), to)?),
        Operand::Atom(atom) => Ok(give_value(maker, Term::Atom(atom), to)?),
        Operand::Nil => Ok(give_value(maker, Term::List(List::Nil), to)?),
        Operand::Literal(id) => {
            let value = literal(scope.code, id)?;
            Ok(give_value(maker, value, to)?)
        }
    }
}

/// Adds the value of a node.
#[cycle(expression)]
fn node(
    maker: &mut Maker,
    scope: &Scope,
    node: &Node,
    to: Target,
) -> Result<u32, OrNoMemory<NotCompiled>>
    requires { IsTarget (code_of maker.old) (slots_in scope.now) to }
    ensures { IfOk result (λ pc. Made (code_of maker.old) (code_of maker.new) pc
        (Evaluates scope.now (tree_over (tables_in scope.now) node.now) to pc)) }
{
    match node {
        Node::Tuple(parts) => {
            let operation = tuple_of(to.into, to.free, parts.len())?;
            operate(maker, scope, operation, parts.as_slice(), to)
        }
        Node::Cons(first, rest) => {
            let operation = cons_of(to.into, to.free)?;
            operate(maker, scope, operation, &[*first, *rest], to)
        }
        Node::Binary(operator, left, right) => {
            let operation = binary_of(*operator, to.into, to.free)?;
            operate(maker, scope, operation, &[*left, *right], to)
        }
        Node::Negate(part) => {
            let operation = negate_of(to.into, to.free);
            operate(maker, scope, operation, &[*part], to)
        }
        Node::Builtin(builtin, parts) => {
            let operation = builtin_of(*builtin, to.into, to.free, parts.len())?;
            operate(maker, scope, operation, parts.as_slice(), to)
        }
        Node::Send(receiver, message) => {
            let operation = send_of(to.into, to.free)?;
            operate(maker, scope, operation, &[*receiver, *message], to)
        }
        Node::AndAlso(left, right) => decided(maker, scope, false, *left, *right, to),
        Node::OrElse(left, right) => decided(maker, scope, true, *left, *right, to),
        Node::Call(function, parts) => call(maker, scope, *function, parts.as_slice(), to),
        Node::Match(patterns, part) => matching(maker, scope, patterns.as_slice(), *part, to),
        Node::Bind(patterns, part, rest) => {
            binding(maker, scope, patterns.as_slice(), *part, *rest, to)
        }
        Node::Case(part, clauses) => case(maker, scope, *part, clauses.as_slice(), to),
        Node::If(clauses) => choice(maker, scope, clauses.as_slice(), to),
        Node::Receive(clauses) => receive(maker, scope, clauses.as_slice(), to),
    }
}

/// Adds the values of operands, in a row.
#[cycle(expression)]
fn row(
    maker: &mut Maker,
    scope: &Scope,
    parts: &[Operand],
    free: u32,
    next: u32,
) -> Result<u32, OrNoMemory<NotCompiled>>
    requires slots_below { AreBelow free (slots_in scope.now) }
    requires next_there { IsPlace (code_of maker.old) next }
    ensures { IfOk result (λ pc. Made (code_of maker.old) (code_of maker.new) pc
        (EvaluatesAll scope.now (parts_over (tables_in scope.now) parts.now) (length parts.now) free next pc)) }
{
    match parts {
        [] => Ok(next),
        [part, rest @ ..] => {
            let after = register_after(free, 1)?;
            let place = row(maker, scope, rest, after, next)?;
            let first = Target {
                into: free,
                free,
                after: After::Place(place),
            };
            operand(maker, scope, *part, first)
        }
    }
}

/// Adds an operation on the values of operands.
#[cycle(expression)]
fn operate(
    maker: &mut Maker,
    scope: &Scope,
    operation: Operation,
    parts: &[Operand],
    to: Target,
) -> Result<u32, OrNoMemory<NotCompiled>>
    requires { IsTarget (code_of maker.old) (slots_in scope.now) to }
    ensures { IfOk result (λ pc. Made (code_of maker.old) (code_of maker.new) pc
        (Operates scope.now (parts_over (tables_in scope.now) parts.now) (length parts.now) operation to pc)) }
{
    let end = land(maker, to.into, to.after)?;
    let next = step(maker, operation, end)?;
    row(maker, scope, parts, to.free, next)
}

/// Adds a call of a function.
#[cycle(expression)]
fn call(
    maker: &mut Maker,
    scope: &Scope,
    function: FunctionId,
    parts: &[Operand],
    to: Target,
) -> Result<u32, OrNoMemory<NotCompiled>>
    requires { IsTarget (code_of maker.old) (slots_in scope.now) to }
    ensures { IfOk result (λ pc. Made (code_of maker.old) (code_of maker.new) pc
        (Evaluates scope.now (tree.call function.0 (parts_over (tables_in scope.now) parts.now)) to pc)) }
{
    let count = number(parts.len())?;
    match scope.code.function(function) {
        None => {
            let next = step_to_raise(maker, AtomId::UNDEF)?;
            row(maker, scope, parts, to.free, next)
        }
        Some(called) => {
            if called.arity != count {
                return Err(OrNoMemory::Fault(NotCompiled::Arity));
            }
            let next = call_row(maker, function, count, to)?;
            row(maker, scope, parts, to.free, next)
        }
    }
}

/// Adds `andalso` or `orelse`: the left side where its truth is the one that decides, else the right side.
#[cycle(expression)]
fn decided(
    maker: &mut Maker,
    scope: &Scope,
    decides: bool,
    left: Operand,
    right: Operand,
    to: Target,
) -> Result<u32, OrNoMemory<NotCompiled>>
    requires { IsTarget (code_of maker.old) (slots_in scope.now) to }
    ensures { IfOk result (λ pc. Made (code_of maker.old) (code_of maker.new) pc
        (Evaluates scope.now (deciding decides (part_over (tables_in scope.now) left)
        (part_over (tables_in scope.now) right)) to pc)) }
{
    let other = operand(maker, scope, right, to)?;
    let landing = give_register(maker, to.free, to)?;
    let raise = raise_with(maker, AtomId::BADARG, to.free)?;
    let exits = Exits {
        free: to.free,
        next: landing,
        otherwise: raise,
    };
    let truth = maker.truth(decides, other, exits)?;
    let step = step(maker, Operation::Step, truth)?;
    operand(maker, scope, left, at_free(to, step))
}

/// Adds a match at the end of a body.
#[cycle(expression)]
fn matching(
    maker: &mut Maker,
    scope: &Scope,
    patterns: &[PatternId],
    part: Operand,
    to: Target,
) -> Result<u32, OrNoMemory<NotCompiled>>
    requires { IsTarget (code_of maker.old) (slots_in scope.now) to }
    ensures { IfOk result (λ pc. Made (code_of maker.old) (code_of maker.new) pc
        (Evaluates scope.now (tree.match (patterns_at (tables_in scope.now) patterns.now)
        (part_over (tables_in scope.now) part)) to pc)) }
{
    let next = match_register(maker, scope, patterns, to)?;
    operand(maker, scope, part, at_free(to, next))
}

/// Adds a match of what is in the free register.
fn match_register(
    maker: &mut Maker,
    scope: &Scope,
    patterns: &[PatternId],
    to: Target,
) -> Result<u32, OrNoMemory<NotCompiled>>
    requires { IsTarget (code_of maker.old) (slots_in scope.now) to }
    ensures { IfOk result (λ pc. Made (code_of maker.old) (code_of maker.new) pc
        (MatchesFree scope.now (patterns_at (tables_in scope.now) patterns.now) to pc)) }
{
    if patterns.is_empty() {
        let end = give_register(maker, to.free, to)?;
        return Ok(step(maker, Operation::Step, end)?);
    }
    let above = Target {
        into: to.into,
        free: register_after(to.free, 1)?,
        after: to.after,
    };
    matches(maker, scope, patterns, to.free, above)
}

/// Adds the matches of what is in a register that are left.
fn matches(
    maker: &mut Maker,
    scope: &Scope,
    patterns: &[PatternId],
    subject: u32,
    to: Target,
) -> Result<u32, OrNoMemory<NotCompiled>>
    requires target { IsTarget (code_of maker.old) (slots_in scope.now) to }
    requires subject_below { subject < to.free }
    ensures { IfOk result (λ pc. Made (code_of maker.old) (code_of maker.new) pc
        (Matches scope.now (patterns_at (tables_in scope.now) patterns.now) subject to pc)) }
{
    match patterns {
        [] => Ok(give_register(maker, subject, to)?),
        [pattern, rest @ ..] => {
            let mut plan = maker.begin(scope.slots, to.free)?;
            maker.plan(scope.code, *pattern, subject, &mut plan)?;
            let inner = Scope {
                code: scope.code,
                slots: plan.slots.as_slice(),
            };
            let next = matches(maker, &inner, rest, subject, at_plan(to, plan.free))?;
            let raise = raise_with(maker, AtomId::BADMATCH, subject)?;
            let first = maker.lay(plan.tests.as_slice(), next, raise)?;
            Ok(step(maker, Operation::Step, first)?)
        }
    }
}

/// Adds a match before a comma and the rest of a body.
#[cycle(expression)]
fn binding(
    maker: &mut Maker,
    scope: &Scope,
    patterns: &[PatternId],
    part: Operand,
    rest: Operand,
    to: Target,
) -> Result<u32, OrNoMemory<NotCompiled>>
    requires { IsTarget (code_of maker.old) (slots_in scope.now) to }
    ensures { IfOk result (λ pc. Made (code_of maker.old) (code_of maker.new) pc
        (Evaluates scope.now (tree.bind (patterns_at (tables_in scope.now) patterns.now)
        (part_over (tables_in scope.now) part) (part_over (tables_in scope.now) rest)) to pc)) }
{
    let above = at_plan(to, register_after(to.free, 1)?);
    let next = binds(maker, scope, patterns, to.free, rest, above)?;
    operand(maker, scope, part, at_free(to, next))
}

/// Adds the matches of what is in a register that are left, and then the rest of a body.
#[cycle(expression)]
fn binds(
    maker: &mut Maker,
    scope: &Scope,
    patterns: &[PatternId],
    subject: u32,
    rest: Operand,
    to: Target,
) -> Result<u32, OrNoMemory<NotCompiled>>
    requires target { IsTarget (code_of maker.old) (slots_in scope.now) to }
    requires subject_below { subject < to.free }
    ensures { IfOk result (λ pc. Made (code_of maker.old) (code_of maker.new) pc
        (Binds scope.now (patterns_at (tables_in scope.now) patterns.now)
        (part_over (tables_in scope.now) rest) subject to pc)) }
{
    match patterns {
        [] => {
            let next = operand(maker, scope, rest, to)?;
            Ok(step(maker, Operation::Step, next)?)
        }
        [pattern, others @ ..] => {
            let mut plan = maker.begin(scope.slots, to.free)?;
            maker.plan(scope.code, *pattern, subject, &mut plan)?;
            let inner = Scope {
                code: scope.code,
                slots: plan.slots.as_slice(),
            };
            let next = binds(maker, &inner, others, subject, rest, at_plan(to, plan.free))?;
            let raise = raise_with(maker, AtomId::BADMATCH, subject)?;
            let first = maker.lay(plan.tests.as_slice(), next, raise)?;
            Ok(step(maker, Operation::Step, first)?)
        }
    }
}

/// The variable that an operand is, and its register.
fn variable(scope: &Scope, part: Operand) -> Option<(u32, u32)>
    ensures { IfSome result (λ v. (part_over (tables_in scope.now) part ≡ tree.var v.0)
        × (slice_get (slots_in scope.now) v.0 ≡ Some v.1)) }
{
    match part {
        Operand::Slot(index) => match slot_at(scope.slots, index) {
            Some(register) => Some((index, *register)),
            None => None,
        },
        _ => None,
    }
}

/// Adds a `case` of a variable, whose value is read where it is.
#[cycle(expression)]
fn case_of_variable(
    maker: &mut Maker,
    scope: &Scope,
    variable: (u32, u32),
    clauses: &[Clause],
    to: Target,
) -> Result<u32, OrNoMemory<NotCompiled>>
    requires target { IsTarget (code_of maker.old) (slots_in scope.now) to }
    requires register { slice_get (slots_in scope.now) variable.0 ≡ Some variable.1 }
    ensures { IfOk result (λ pc. Made (code_of maker.old) (code_of maker.new) pc
        (Evaluates scope.now (tree.case (tree.var variable.0) (clauses_over (tables_in scope.now) clauses.now))
        to pc)) }
{
    let raise = raise_with(maker, AtomId::CASE_CLAUSE, variable.1)?;
    let first = pick(maker, scope, clauses, Subject::Value(variable.1), to, raise)?;
    Ok(step(maker, Operation::Step, first)?)
}

/// Adds a `case`.
#[cycle(expression)]
fn case(
    maker: &mut Maker,
    scope: &Scope,
    part: Operand,
    clauses: &[Clause],
    to: Target,
) -> Result<u32, OrNoMemory<NotCompiled>>
    requires { IsTarget (code_of maker.old) (slots_in scope.now) to }
    ensures { IfOk result (λ pc. Made (code_of maker.old) (code_of maker.new) pc
        (Evaluates scope.now (tree.case (part_over (tables_in scope.now) part)
        (clauses_over (tables_in scope.now) clauses.now)) to pc)) }
{
    if let Some(found) = variable(scope, part) {
        return case_of_variable(maker, scope, found, clauses, to);
    }
    let raise = raise_with(maker, AtomId::CASE_CLAUSE, to.free)?;
    let above = at_plan(to, register_after(to.free, 1)?);
    let subject = Subject::Value(to.free);
    let first = pick(maker, scope, clauses, subject, above, raise)?;
    let step = step(maker, Operation::Step, first)?;
    operand(maker, scope, part, at_free(to, step))
}

/// Adds an `if`.
#[cycle(expression)]
fn choice(
    maker: &mut Maker,
    scope: &Scope,
    clauses: &[Clause],
    to: Target,
) -> Result<u32, OrNoMemory<NotCompiled>>
    requires { IsTarget (code_of maker.old) (slots_in scope.now) to }
    ensures { IfOk result (λ pc. Made (code_of maker.old) (code_of maker.new) pc
        (Evaluates scope.now (tree.if_expression (clauses_over (tables_in scope.now) clauses.now)) to pc)) }
{
    let raise = raise(maker, AtomId::IF_CLAUSE)?;
    let above = at_plan(to, register_after(to.free, 1)?);
    let subject = Subject::Value(to.free);
    let first = pick(maker, scope, clauses, subject, above, raise)?;
    let load = maker.load_value(Term::List(List::Nil), to.free, first)?;
    Ok(step(maker, Operation::Step, load)?)
}

/// Adds a `receive`.
#[cycle(expression)]
fn receive(
    maker: &mut Maker,
    scope: &Scope,
    clauses: &[Clause],
    to: Target,
) -> Result<u32, OrNoMemory<NotCompiled>>
    requires { IsTarget (code_of maker.old) (slots_in scope.now) to }
    ensures { IfOk result (λ pc. Made (code_of maker.old) (code_of maker.new) pc
        (Evaluates scope.now (tree.receive (clauses_over (tables_in scope.now) clauses.now)) to pc)) }
{
    let pass = pass(maker, to.free)?;
    let above = at_plan(to, register_after(to.free, 1)?);
    let subject = Subject::Message(to.free);
    let first = pick(maker, scope, clauses, subject, above, pass)?;
    Ok(wait(maker, to.free, first)?)
}

/// Adds clauses on a register.
#[cycle(expression)]
fn pick(
    maker: &mut Maker,
    scope: &Scope,
    clauses: &[Clause],
    subject: Subject,
    to: Target,
    otherwise: u32,
) -> Result<u32, OrNoMemory<NotCompiled>>
    requires target { IsTarget (code_of maker.old) (slots_in scope.now) to }
    requires subject_below { register_of subject < to.free }
    requires otherwise_there { IsPlace (code_of maker.old) otherwise }
    ensures { IfOk result (λ pc. Made (code_of maker.old) (code_of maker.new) pc
        (Picks scope.now (clauses_over (tables_in scope.now) clauses.now) subject to otherwise pc)) }
{
    match clauses {
        [] => Ok(otherwise),
        [clause, rest @ ..] => {
            let next = pick(maker, scope, rest, subject, to, otherwise)?;
            let mut plan = maker.begin(scope.slots, to.free)?;
            maker.plan(scope.code, clause.pattern, register_in(subject), &mut plan)?;
            let inner = Scope {
                code: scope.code,
                slots: plan.slots.as_slice(),
            };
            let body = operand(maker, &inner, clause.body, at_plan(to, plan.free))?;
            let start = enter_body(maker, subject, body)?;
            let exits = Exits {
                free: plan.free,
                next: start,
                otherwise: next,
            };
            let guard = maker.guard(&inner, &clause.guard, exits)?;
            Ok(maker.lay(plan.tests.as_slice(), guard, next)?)
        }
    }
}

/// The register of what clauses are tried on.
fn register_in(subject: Subject) -> u32
    ensures { result ≡ register_of subject }
{
    match subject {
        Subject::Value(register) => register,
        Subject::Message(register) => register,
    }
}

/// Adds what comes before the body of a clause: where it picked a message, that is taken.
fn enter_body(maker: &mut Maker, subject: Subject, body: u32) -> Result<u32, NoMemory>
    requires { IsPlace (code_of maker.old) body }
    ensures { IfOk result (λ pc. Made (code_of maker.old) (code_of maker.new) pc (Begins subject body pc)) }
{
    match subject {
        Subject::Value(_) => Ok(body),
        Subject::Message(_) => maker.put(free(Operation::Take), body),
    }
}

/// Adds the end of the tests of a message in a register that no clause picks.
fn pass(maker: &mut Maker, register: u32) -> Result<u32, NoMemory>
    requires { 1 ≤ length (code_of maker.old).instructions }
    ensures { IfOk result (λ pc. Made (code_of maker.old) (code_of maker.new) pc (Passes register pc)) }
{
    maker.push(free(Operation::Pass(register)))
}

/// Adds a wait for a message, whose tests begin at a place, with the message in a register.
fn wait(maker: &mut Maker, register: u32, first: u32) -> Result<u32, NoMemory>
    requires { IsPlace (code_of maker.old) first }
    ensures { IfOk result (λ pc. Put (code_of maker.old) (code_of maker.new) (free_of (ops.Await register)) first pc) }
{
    maker.put(free(Operation::Await(register)), first)
}

/// An instruction without a contraction.
fn free(operation: Operation) -> Instruction
    ensures { result ≡ free_of operation }
{
    Instruction {
        operation,
        contractions: 0,
        otherwise: 0,
    }
}

/// The free register, with which code goes on at a place.
fn at_free(to: Target, place: u32) -> Target
    ensures { result ≡ record { into = to.free; free = to.free; after = way.Place place } }
{
    Target {
        into: to.free,
        free: to.free,
        after: After::Place(place),
    }
}

/// The same target, where other registers are free.
fn at_plan(to: Target, free: u32) -> Target
    ensures { result ≡ record { into = to.into; free = free; after = to.after } }
{
    Target {
        into: to.into,
        free,
        after: to.after,
    }
}
