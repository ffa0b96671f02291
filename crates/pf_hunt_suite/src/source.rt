//! A source whose roots are hunted.

ghost use Rattle.std.specs.Prelude.{◌≡◌, ◌∷◌, [], IfErr, IfOk, map};
ghost use Rattle.pf_check.specs.Reads.{IsRefusalOf};
ghost use Rattle.pf_check.specs.Reading.{IsModuleOf};
ghost use Rattle.pf_hunt_suite.specs.Roots.{AreHunted};

use crate::roots::{conventional_roots, roots};
use pf_check::{ReadModule, ReadSource};
use pf_cli::{HuntArgs, Roots};
use pf_errors::{NoMemory, OrNoMemory, SourceRefusal};
use std::alloc::Global;

/// A source whose roots are hunted: its module, and the names of the roots.
#[derive(Drop)]
pub struct Hunted {
    pub module: ReadModule,
    pub roots: Vec<Vec<u8>>,
}

/// A list of this name alone.
fn alone(alloc: Global, name: &[u8]) -> Result<Vec<Vec<u8>>, NoMemory>
    ensures { IfOk result (λ v. map (λ name. name.items) v.items ≡ name.now ∷ []) }
{
    let mut names = Vec::new(alloc);
    names.push(Vec::from_slice(alloc, name)?)?;
    Ok(names)
}

/// The names of the roots of a source that a hunt goes over: the one that is named, or those by convention, or all that
/// it has.
fn hunted_roots(
    alloc: Global,
    args: &HuntArgs,
    source: &[u8],
) -> Result<Vec<Vec<u8>>, OrNoMemory<SourceRefusal>>
    ensures roots { IfOk result (λ v.
        AreHunted args.now.roots args.now.request.root.items source.now (map (λ name. name.items) v.items)) }
    ensures fault { IfErr result (IsRefusalOf source.now) }
{
    match args.roots {
        Roots::Named => Ok(alone(alloc, args.request.root.as_slice())?),
        Roots::Main => conventional_roots(alloc, source),
        Roots::Every => roots(alloc, source),
    }
}

/// A source with the roots that a hunt goes over, or why it is refused.
pub fn read_hunted(
    alloc: Global,
    args: &HuntArgs,
    source: &ReadSource,
) -> Result<Hunted, OrNoMemory<SourceRefusal>>
    ensures source { IfOk result (λ h. IsModuleOf source.now h.«module») }
    ensures roots { IfOk result (λ h.
        AreHunted args.now.roots args.now.request.root.items source.now (map (λ name. name.items) h.roots.items)) }
    ensures fault { IfErr result (IsRefusalOf source.now) }
{
    let module = match source.module() {
        Ok(module) => module.share()?,
        Err(refusal) => return Err(OrNoMemory::Fault(refusal)),
    };
    let roots = hunted_roots(alloc, args, source.bytes())?;
    Ok(Hunted { module, roots })
}
