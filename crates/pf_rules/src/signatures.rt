//! Names of functions with numbers of arguments: those that a module defines, and those that it exports.

ghost use Rattle.std.specs.Prelude.{◌≡◌, ℕ, false, ◌||◌, ◌==◌, ◌&&◌, not, IfOk, OnOk};
ghost use Rattle.pf_rules.specs.Listing.{lists};

use pf_errors::NoMemory;
use pf_terms::AtomId;
use std::alloc::Global;
use std::collections::BTreeSet;

/// The name of a function, by its number, and how many arguments it takes.
#[derive(Clone, Copy, Debug, PartialEq, Eq, PartialOrd, Ord)]
struct Signature {
    name: u32,
    arity: u64,
}

/// A set of names with numbers of arguments, for the functions that a module defines and for those that it exports. It
/// is kept in an order, so that no choice of numbers makes a look-up slow.
#[derive(Drop)]
pub struct Signatures {
    signatures: BTreeSet<Signature>,
}

impl Signatures {
    /// None yet.
    pub fn new(alloc: Global) -> Signatures
        ensures { (f arity : ℕ) → lists result f arity ≡ false }
    {
        Signatures {
            signatures: BTreeSet::new(alloc),
        }
    }

    /// Whether a function of this name takes this number of arguments.
    pub fn has(&self, name: AtomId, arity: u64) -> bool
        ensures { result ≡ lists self.now name.0 arity }
    {
        self.signatures.contains(&Signature {
            name: name.0,
            arity,
        })
    }

    /// Adds a function. It says whether none of this name takes this number of arguments yet.
    pub fn add(&mut self, name: AtomId, arity: u64) -> Result<bool, NoMemory>
        ensures fresh { IfOk result (λ fresh. fresh ≡ not (lists self.old name.0 arity)) }
        ensures added { OnOk result ((f a : ℕ)
            → lists self.new f a ≡ (lists self.old f a || ((name.0 == f) && (arity == a)))) }
    {
        let fresh = self.signatures.insert(Signature {
            name: name.0,
            arity,
        })?;
        Ok(fresh)
    }
}
