//! The first static fault of a module, by its syntax tree.

ghost use Rattle.std.specs.Prelude.{◌≡◌, flat_map, List, [], ◌∷◌, IfNone, IfOk, IfSome, OnOk};
ghost use Rattle.pf_syntax.specs.SyntaxTree.{NodeTable, Head as HeadTree};
ghost use Rattle.pf_syntax.specs.SyntaxTreeOver.{head_over, heads_over};
ghost use Rattle.pf_syntax.specs.ExprModule.{tree_of};
ghost use Rattle.pf_rules.specs.Static.{defined_faults, export_fault, faults_of, IsFirst};
ghost use Rattle.pf_static_check.specs.Earliest.{earliest, earliest_kept};
ghost use Rattle.pf_static_check.specs.Defines.{Defines};
ghost use Rattle.pf_rules.specs.Listing.{ListsFunctions};

use crate::first::FirstFault;
use crate::names::is_builtin;
use crate::unlike::note_unlike;
use crate::variable_states::VariableStates;
use crate::walk::ClauseWalk;
use pf_errors::{Code, NoMemory, SourceRefusal};
use pf_rules::Signatures;
use pf_syntax::{ExprFunction, Head, SyntaxTree};
use pf_terms::AtomTable;
use std::alloc::Global;

/// The first fault of a module: of those at the least offset the one whose code is the first in the table.
pub fn first_fault(
    alloc: Global,
    syntax: &SyntaxTree,
    atoms: &AtomTable,
) -> Result<Option<SourceRefusal>, NoMemory>
    ensures none { IfOk result (λ found. IfNone found (faults_of atoms.now (tree_of syntax.now) ≡ [])) }
    ensures first { IfOk result (λ found. IfSome found (λ f. IsFirst (faults_of atoms.now (tree_of syntax.now)) f)) }
{
    let mut first = FirstFault::new();
    let own = own_functions(alloc, syntax, atoms, &mut first)?;
    note_exports(syntax, &own, &mut first);
    note_unlike(syntax, &mut first);
    let mut walk = ClauseWalk {
        variables: VariableStates::new(alloc),
        first,
    };
    walk.functions(syntax, atoms, &own)?;
    Ok(walk.first.found())
}

/// The functions of a module. It notes each whose name and number of arguments an earlier one or a built-in has.
fn own_functions(
    alloc: Global,
    syntax: &SyntaxTree,
    atoms: &AtomTable,
    first: &mut FirstFault,
) -> Result<Signatures, NoMemory>
    ensures lists { IfOk result (λ own. ListsFunctions own syntax.now.functions) }
    ensures found { OnOk result (earliest_kept first.new ≡ earliest (earliest_kept first.old)
        (defined_faults atoms.now [] syntax.now.functions)) }
{
    let mut own = Signatures::new(alloc);
    for function in syntax.functions() {
        define_function(&mut own, atoms, function, first)?;
    }
    Ok(own)
}

fn define_function(
    own: &mut Signatures,
    atoms: &AtomTable,
    function: &ExprFunction,
    first: &mut FirstFault,
) -> Result<(), NoMemory>
    ensures { OnOk result ((b : NodeTable) → Defines atoms.now (heads_over b function.now) own.old own.new
        first.old first.new) }
{
    match function.heads.as_slice() {
        [] => {}
        [head, ..] => define_head(own, atoms, head, first)?,
    }
    Ok(())
}

/// A function is named by its first head.
fn define_head(
    own: &mut Signatures,
    atoms: &AtomTable,
    head: &Head,
    first: &mut FirstFault,
) -> Result<(), NoMemory>
    ensures { OnOk result ((b : NodeTable) (hs : List HeadTree)
        → Defines atoms.now (head_over b head.now ∷ hs) own.old own.new first.old first.new) }
{
    let arity = head.parameters.len() as u64;
    let fresh = own.add(head.ident.name, arity)?;
    if !fresh || is_builtin(atoms, head.ident.name, arity) {
        first.note(Code::DefinedTwice, head.ident.offset);
    }
    Ok(())
}

/// Notes each export of no function.
fn note_exports(syntax: &SyntaxTree, own: &Signatures, first: &mut FirstFault)
    requires { ListsFunctions own.now syntax.now.functions }
    ensures { earliest_kept first.new ≡ earliest (earliest_kept first.old)
        (flat_map (export_fault syntax.now.functions) syntax.now.exports) }
{
    for export in syntax.exports() {
        if !own.has(export.ident.name, export.arity) {
            first.note(Code::ExportOfNothing, export.ident.offset);
        }
    }
}
