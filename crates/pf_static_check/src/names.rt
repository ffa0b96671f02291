//! Names of functions with numbers of arguments: which are built in, and which can be called.

ghost use Rattle.std.specs.Prelude.{◌≡◌, ◌||◌};
ghost use Rattle.pf_rules.specs.Static.{is_builtin as is_built_in};
ghost use Rattle.pf_rules.specs.Listing.{lists};

use pf_rules::Signatures;
use pf_syntax::builtin_named;
use pf_terms::{AtomId, AtomTable};

/// Whether a built-in function of this name takes this number of arguments.
pub(crate) fn is_builtin(atoms: &AtomTable, name: AtomId, arity: u64) -> bool
    ensures { result ≡ is_built_in atoms.now name.0 arity }
{
    builtin_named(atoms.name(name), arity).is_some()
}

/// Whether a function of this name with this number of arguments can be called: one that is listed, or a built-in one.
pub(crate) fn is_defined(atoms: &AtomTable, own: &Signatures, name: AtomId, arity: u64) -> bool
    ensures { result ≡ (lists own.now name.0 arity || is_built_in atoms.now name.0 arity) }
{
    own.has(name, arity) || is_builtin(atoms, name, arity)
}
