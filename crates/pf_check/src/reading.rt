//! A source, from its bytes to a checked module.

ghost use Rattle.std.specs.Prelude.{◌≡◌, [], IfErr, IfOk, OnOk};
ghost use Rattle.pf_syntax.specs.ExprModule.{tree_of};
ghost use Rattle.pf_rules.specs.Static.{faults_of};
ghost use Rattle.pf_rules.specs.Checks.{IsModule};
ghost use Rattle.pf_rules.specs.Formed.{AreFormed};
ghost use Rattle.pf_check.specs.Reads.{IsFirstOf, IsRefusalOf, Reads, accepted_as};

use pf_errors::{OrNoMemory, SourceRefusal};
use pf_lower::module_of;
use pf_reader::{ParsedModule, read_tree};
use pf_static_check::first_fault;
use pf_syntax::{Module, SyntaxTree};
use pf_terms::AtomTable;
use pf_tokens::tokens;
use std::alloc::Global;

/// Whether a module as it is read has no static fault; else its first one.
fn no_fault(
    alloc: Global,
    syntax: &SyntaxTree,
    atoms: &AtomTable,
) -> Result<(), OrNoMemory<SourceRefusal>>
    ensures none { OnOk result (faults_of atoms.now (tree_of syntax.now) ≡ []) }
    ensures first { IfErr result (IsFirstOf (faults_of atoms.now (tree_of syntax.now))) }
{
    match first_fault(alloc, syntax, atoms)? {
        Some(fault) => Err(OrNoMemory::Fault(fault)),
        None => Ok(()),
    }
}

/// The checked module of a module as it is read, or its first static fault.
fn check(
    alloc: Global,
    syntax: &SyntaxTree,
    atoms: AtomTable,
) -> Result<Module, OrNoMemory<SourceRefusal>>
    ensures checked { IfOk result (λ m. (faults_of atoms (tree_of syntax.now) ≡ []) × (AreFormed syntax.now.functions
        → IsModule atoms (tree_of syntax.now) m)) }
    ensures fault { IfErr result (IsFirstOf (faults_of atoms (tree_of syntax.now))) }
{
    no_fault(alloc, syntax, &atoms)?;
    Ok(module_of(alloc, syntax, atoms)?)
}

/// The module that the bytes of a source are, or its first refusal and its offset. Where the grammar refuses, the
/// offset is one of the tokens or the end: which one, tests show.
pub fn read(alloc: Global, source: &[u8]) -> Result<Module, OrNoMemory<SourceRefusal>>
    ensures read { IfOk result (λ m. Reads source.now (accepted_as m)) }
    ensures fault { IfErr result (IsRefusalOf source.now) }
{
    let found = tokens(alloc, source)?;
    let ParsedModule { syntax, atoms } = read_tree(alloc, &found, source.len())?;
    check(alloc, &syntax, atoms)
}
