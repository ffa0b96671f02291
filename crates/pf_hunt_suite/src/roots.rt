//! The roots of a source: its exported functions without arguments.

ghost use Rattle.std.specs.Prelude.{◌≡◌, IfErr, IfOk, OnOk, map};
ghost use Rattle.std.specs.List.{filter};
ghost use Rattle.pf_terms.specs.Atoms.{name_of};
ghost use Rattle.pf_syntax.specs.SyntaxTreeOver.{export_of};
ghost use Rattle.pf_check.specs.Reads.{IsRefusalOf};
ghost use Rattle.pf_hunt_suite.specs.Roots.{HasConventional, HasRoots, is_conventional, is_new_root, roots_of};
ghost use Rattle.pf_hunt_suite.specs.Roots.{name_with_root};

use pf_errors::{NoMemory, OrNoMemory, SourceRefusal};
use pf_reader::{ParsedModule, read_tree};
use pf_syntax::Export;
use pf_terms::{AtomId, AtomTable};
use pf_tokens::tokens;
use std::alloc::Global;

/// Whether an entry of an export list is a function without arguments whose name isn't among these atoms.
fn is_new_root(atoms: &[u32], export: Export) -> bool
    ensures { result ≡ is_new_root atoms.now (export_of export) }
{
    export.arity == 0 && !atoms.contains(&export.ident.name.0)
}

/// Adds the name of a root, unless it is there.
fn add_root(atoms: &mut Vec<u32>, export: Export) -> Result<(), NoMemory>
    ensures { OnOk result (atoms.new.items ≡ name_with_root atoms.old.items (export_of export)) }
{
    if is_new_root(atoms, export) {
        atoms.push(export.ident.name.0)?;
    }
    Ok(())
}

/// The names of the roots of an export list, by their numbers.
fn roots_of(alloc: Global, exports: &[Export]) -> Result<Vec<u32>, NoMemory>
    ensures { IfOk result (λ v. v.items ≡ roots_of (map export_of exports.now)) }
{
    let mut atoms = Vec::new(alloc);
    for export in exports {
        add_root(&mut atoms, *export)?;
    }
    Ok(atoms)
}

/// The names of these atoms.
fn names_of(alloc: Global, atoms: &AtomTable, numbers: &[u32]) -> Result<Vec<Vec<u8>>, NoMemory>
    ensures { IfOk result (λ v. map (λ name. name.items) v.items ≡ map (name_of atoms.now) numbers.now) }
{
    let mut names = Vec::new(alloc);
    for number in numbers {
        let name = atoms.name(AtomId(*number));
        names.push(Vec::from_slice(alloc, name)?)?;
    }
    Ok(names)
}

/// The names of the roots of a source, in the order of its export list, each once.
pub(crate) fn roots(alloc: Global, source: &[u8]) -> Result<Vec<Vec<u8>>, OrNoMemory<SourceRefusal>>
    ensures roots { IfOk result (λ v. HasRoots source.now (map (λ name. name.items) v.items)) }
    ensures fault { IfErr result (IsRefusalOf source.now) }
{
    let found = tokens(alloc, source)?;
    let ParsedModule { syntax, atoms } = read_tree(alloc, &found, source.len())?;
    let numbers = roots_of(alloc, syntax.exports())?;
    Ok(names_of(alloc, &atoms, &numbers)?)
}

/// Whether a root of this name is one by convention.
fn is_conventional(name: &[u8]) -> bool
    ensures { result ≡ is_conventional name.now }
{
    name == b"main".as_slice()
        || name.ends_with(b"_test")
        || name.ends_with(b"_race")
        || name.ends_with(b"_scenario")
}

/// Those of these names that are roots' by convention.
fn conventional(alloc: Global, names: &[Vec<u8>]) -> Result<Vec<Vec<u8>>, NoMemory>
    ensures { IfOk result (λ v. map (λ name. name.items) v.items
        ≡ filter is_conventional (map (λ name. name.items) names.now)) }
{
    let mut kept = Vec::new(alloc);
    for name in names {
        if is_conventional(name) {
            kept.push(Vec::from_slice(alloc, name)?)?;
        }
    }
    Ok(kept)
}

/// The names of the roots of a source that are roots by convention, in the order of its export list, each once.
pub(crate) fn conventional_roots(
    alloc: Global,
    source: &[u8],
) -> Result<Vec<Vec<u8>>, OrNoMemory<SourceRefusal>>
    ensures roots { IfOk result (λ v. HasConventional source.now (map (λ name. name.items) v.items)) }
    ensures fault { IfErr result (IsRefusalOf source.now) }
{
    let all = roots(alloc, source)?;
    Ok(conventional(alloc, &all)?)
}
