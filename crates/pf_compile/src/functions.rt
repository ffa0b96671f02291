//! Functions, and the code of a whole module.

ghost use Rattle.std.specs.Prelude.{◌≡◌, ◌≤◌, [], length, map, IfOk};
ghost use Rattle.pf_syntax.specs.Over.{function_clause_over, function_over};
ghost use Rattle.pf_model.specs.Module.{module_of};
ghost use Rattle.pf_code.specs.Simulation.{IsSoundFor};
ghost use Rattle.pf_compile_patterns.specs.Maker.{code_of, IsPlace};
ghost use Rattle.pf_compile_patterns.specs.Growth.{Made};
ghost use Rattle.pf_compile_patterns.specs.Scopes.{model_in, slots_in, tables_in};
ghost use Rattle.pf_compile.specs.Compiled.{program_code, Enters, PicksAll};

use crate::expressions::{operand, raise};
use crate::target::{After, NotCompiled, Target};
use pf_code::{Instruction, Operation};
use pf_compile_patterns::{Exits, Maker, Scope, register_after};
use pf_errors::OrNoMemory;
use pf_fuse::fuse;
use pf_syntax::{Function, FunctionClause, FunctionId, Module};
use pf_terms::{AtomId, Term};
use std::alloc::Global;

/// The code of a module: its instructions, its constants, and the place where each function begins.
#[derive(Drop)]
pub struct Program {
    pub instructions: Vec<Instruction>,
    pub constants: Vec<Term>,
    pub entries: Vec<u32>,
}

/// Adds clauses of a function on its arguments, which are in the first registers.
fn function_clauses(
    maker: &mut Maker,
    scope: &Scope,
    clauses: &[FunctionClause],
    arity: u32,
    otherwise: u32,
) -> Result<u32, OrNoMemory<NotCompiled>>
    requires no_variable { slots_in scope.now ≡ [] }
    requires otherwise_there { IsPlace (code_of maker.old) otherwise }
    ensures { IfOk result (λ pc. Made (code_of maker.old) (code_of maker.new) pc
        (PicksAll (model_in scope.now) (map (function_clause_over (tables_in scope.now)) clauses.now) arity
        otherwise pc)) }
{
    match clauses {
        [] => Ok(otherwise),
        [clause, rest @ ..] => {
            let next = function_clauses(maker, scope, rest, arity, otherwise)?;
            if clause.parameters.len() != arity as usize {
                return Ok(next);
            }
            let mut plan = maker.begin(scope.slots, arity)?;
            maker.plan_row(scope.code, clause.parameters.as_slice(), 0, &mut plan)?;
            let inner = Scope {
                code: scope.code,
                slots: plan.slots.as_slice(),
            };
            let target = Target {
                into: plan.free,
                free: plan.free,
                after: After::Return,
            };
            let body = operand(maker, &inner, clause.body, target)?;
            let exits = Exits {
                free: plan.free,
                next: body,
                otherwise: next,
            };
            let guard = maker.guard(&inner, &clause.guard, exits)?;
            Ok(maker.lay(plan.tests.as_slice(), guard, next)?)
        }
    }
}

/// Adds a function.
fn enter(
    maker: &mut Maker,
    code: &Module,
    function: &Function,
) -> Result<u32, OrNoMemory<NotCompiled>>
    requires { 1 ≤ length (code_of maker.old).instructions }
    ensures { IfOk result (λ pc. Made (code_of maker.old) (code_of maker.new) pc
        (Enters (module_of code.now) (function_over code.now.tables function.now) pc)) }
{
    let raise = raise(maker, AtomId::FUNCTION_CLAUSE)?;
    let scope = Scope { code, slots: &[] };
    function_clauses(
        maker,
        &scope,
        function.clauses.as_slice(),
        function.arity,
        raise,
    )
}

/// The code of a module, function by function.
fn compiled(alloc: Global, code: &Module) -> Result<Program, OrNoMemory<NotCompiled>>
    ensures sound { IfOk result (λ p. IsSoundFor (module_of code.now) (program_code p) p.entries.items) }
    ensures entries { IfOk result (λ p. length p.entries.items ≡ length code.now.functions) }
{
    let mut maker = Maker::new(alloc);
    // 0 is no place where code goes on.
    maker.push(Instruction {
        operation: Operation::Raise(AtomId::UNDEF),
        contractions: 0,
        otherwise: 0,
    })?;
    let mut entries = Vec::new(alloc);
    let mut index = 0;
    while let Some(function) = code.function(FunctionId(index)) {
        let entry = enter(&mut maker, code, function)?;
        entries.push(entry)?;
        index = register_after(index, 1)?;
    }
    let Maker {
        alloc: _,
        instructions,
        constants,
    } = maker;
    Ok(Program {
        instructions,
        constants,
        entries,
    })
}

/// The code of a module.
pub fn program_of(alloc: Global, code: &Module) -> Result<Program, OrNoMemory<NotCompiled>>
    ensures sound { IfOk result (λ p. IsSoundFor (module_of code.now) (program_code p) p.entries.items) }
    ensures entries { IfOk result (λ p. length p.entries.items ≡ length code.now.functions) }
{
    let made = compiled(alloc, code)?;
    let fused = fuse(alloc, &made.instructions, &made.entries)?;
    Ok(Program {
        instructions: fused.instructions,
        constants: made.constants,
        entries: fused.entries,
    })
}
