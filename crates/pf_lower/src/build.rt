//! The checked module of a syntax tree.

ghost use Rattle.std.specs.Prelude.{◌≡◌, [], map, IfOk, List, OnOk};
ghost use Rattle.pf_syntax.specs.SyntaxTreeOver.{head_over, heads_over};
ghost use Rattle.pf_syntax.specs.ExprModule.{tree_of};
ghost use Rattle.pf_lower.specs.Built.{Lowers};
ghost use Rattle.pf_rules.specs.Checks.{IsModule};
ghost use Rattle.pf_rules.specs.Formed.{AreFormed};
ghost use Rattle.pf_lower.specs.Heads.{FunctionMeans, FunctionsAdded, HeadMeans, HeadsMean};
ghost use Rattle.pf_lower.specs.Knows.{Knows};
ghost use Rattle.pf_rules.specs.Listing.{Exports};
ghost use Rattle.pf_rules.specs.Static.{faults_of};

use crate::expressions::{body, guard};
use crate::function_table::{FunctionTable, exports_of};
use crate::patterns::patterns;
use crate::slots::Slots;
use pf_errors::NoMemory;
use pf_rules::Signatures;
use pf_syntax::{ExprFunction, Function, FunctionClause, Head, Module, SyntaxTree};
use pf_terms::{AtomId, AtomTable};
use std::alloc::Global;

/// A clause of a function, which begins with no variable.
fn clause(
    alloc: Global,
    syntax: &SyntaxTree,
    functions: &FunctionTable,
    slots: &mut Slots,
    module: &mut Module,
    head: &Head,
) -> Result<FunctionClause, NoMemory>
    requires knows { Knows functions.now syntax.now.functions }
    requires none_bound { slots.old ≡ [] }
    ensures { IfOk result (λ c. Lowers module.old module.new slots.new []
        (λ t. HeadMeans syntax.now.functions t (head_over syntax.now.node_table head.now) c)) }
{
    let parameters = patterns(alloc, syntax, slots, module, head.parameters.as_slice())?;
    let guard = guard(alloc, syntax, functions, slots, module, &head.condition)?;
    let body = body(
        alloc,
        syntax,
        functions,
        slots,
        module,
        head.body.as_slice(),
    )?;
    slots.truncate(0);
    Ok(FunctionClause {
        parameters,
        guard,
        body,
    })
}

/// The clauses of a function.
fn clauses(
    alloc: Global,
    syntax: &SyntaxTree,
    functions: &FunctionTable,
    slots: &mut Slots,
    module: &mut Module,
    heads: &[Head],
) -> Result<Vec<FunctionClause>, NoMemory>
    requires knows { Knows functions.now syntax.now.functions }
    requires none_bound { slots.old ≡ [] }
    ensures { IfOk result (λ cs. Lowers module.old module.new slots.new []
        (λ t. HeadsMean syntax.now.functions t (map (head_over syntax.now.node_table) heads.now) cs.items)) }
{
    let mut found = Vec::with_capacity(alloc, heads.len())?;
    for head in heads {
        let one = clause(alloc, syntax, functions, slots, module, head)?;
        found.push(one)?;
    }
    Ok(found)
}

/// A function, named by its first clause. One with no clause, which the grammar has not, has no arguments.
fn function(
    alloc: Global,
    syntax: &SyntaxTree,
    functions: &FunctionTable,
    exported: &Signatures,
    slots: &mut Slots,
    module: &mut Module,
    read: &ExprFunction,
) -> Result<Function, NoMemory>
    requires knows { Knows functions.now syntax.now.functions }
    requires exports { Exports exported.now syntax.now.exports }
    requires none_bound { slots.old ≡ [] }
    ensures { IfOk result (λ f. Lowers module.old module.new slots.new []
        (λ t. FunctionMeans syntax.now.functions syntax.now.exports t
        (heads_over syntax.now.node_table read.now) f)) }
{
    let clauses = clauses(
        alloc,
        syntax,
        functions,
        slots,
        module,
        read.heads.as_slice(),
    )?;
    match read.heads.first() {
        None => Ok(Function {
            name: AtomId::UNDEFINED,
            arity: 0,
            exported: false,
            clauses,
        }),
        Some(head) => {
            let count = head.parameters.len();
            let Ok(arity) = u32::try_from(count) else {
                return Err(NoMemory);
            };
            Ok(Function {
                name: head.ident.name,
                arity,
                exported: exported.has(head.ident.name, count as u64),
                clauses,
            })
        }
    }
}

/// Adds the functions of a syntax tree, which the tables know, to its module, which has none yet.
fn add_each(
    alloc: Global,
    syntax: &SyntaxTree,
    functions: &FunctionTable,
    exported: &Signatures,
    module: &mut Module,
) -> Result<(), NoMemory>
    requires knows { Knows functions.now syntax.now.functions }
    requires exports { Exports exported.now syntax.now.exports }
    requires empty { module.old.functions ≡ [] }
    ensures { OnOk result (FunctionsAdded syntax.now.functions syntax.now.exports module.old module.new) }
{
    let mut slots = Slots::new(alloc);
    for read in syntax.functions() {
        let one = function(alloc, syntax, functions, exported, &mut slots, module, read)?;
        module.add_function(one)?;
    }
    Ok(())
}

/// Adds the functions of a syntax tree to its module, which has none yet.
fn add_functions(alloc: Global, syntax: &SyntaxTree, module: &mut Module) -> Result<(), NoMemory>
    requires { module.old.functions ≡ [] }
    ensures { OnOk result (FunctionsAdded syntax.now.functions syntax.now.exports module.old module.new) }
{
    let functions = FunctionTable::new(alloc, syntax)?;
    let exported = exports_of(alloc, syntax)?;
    add_each(alloc, syntax, &functions, &exported, module)
}

/// The checked module of a syntax tree that has no static fault and is formed as the grammar says; of another it is
/// some module.
pub fn module_of(alloc: Global, syntax: &SyntaxTree, atoms: AtomTable) -> Result<Module, NoMemory>
    ensures { IfOk result (λ m. faults_of atoms (tree_of syntax.now) ≡ [] → AreFormed syntax.now.functions
        → IsModule atoms (tree_of syntax.now) m) }
{
    let mut module = Module::new(alloc, syntax.name(), atoms);
    add_functions(alloc, syntax, &mut module)?;
    module.shrink_to_fit();
    Ok(module)
}
