//! The bytes of a source.

ghost use Rattle.std.specs.Prelude.{◌≡◌, IfOk};
ghost use Rattle.std.specs.Cmp.{on_equiv, on_per, partial_equiv_from_equiv};
ghost use Rattle.std.specs.Cmp.Lexicographic.{bytes_decides, nat_list_eq_equiv};
ghost use Rattle.std.specs.Hash as fed;
ghost use Rattle.std.specs.Str.{bytes_eq};
ghost use Rattle.std.proofs.Common.{ap};

use pf_errors::NoMemory;
use std::alloc::Global;
use std::hash::{Hash, Hasher};
use std::marker::Model;
use std::sync::Arc;

/// The bytes of a source, which many may hold. Contracts see the bytes.
#[derive(Drop)]
pub struct Source {
    bytes: Arc<Vec<u8>>,
}

impl Model for Source {
    ghost use Rattle.std.specs.Prelude.{List, ℕ};
    ghost use Rattle.std.specs.Arc.{arc_value};

    ghost Value = { List ℕ };

    ghost view = { λ s. (arc_value s.bytes).items };
}

impl Source {
    /// The source of these bytes.
    pub fn new(alloc: Global, bytes: Vec<u8>) -> Result<Source, NoMemory>
        ensures { IfOk result (λ s. s ≡ bytes.items) }
    {
        Ok(Source {
            bytes: Arc::new(alloc, bytes)?,
        })
    }

    pub fn bytes(&self) -> &[u8]
        ensures { result.now ≡ self.now }
    {
        self.bytes.as_slice()
    }

    /// The same source once more.
    pub fn share(&self) -> Result<Source, NoMemory>
        ensures { IfOk result (λ s. s ≡ self.now) }
    {
        Ok(Source {
            bytes: Arc::try_clone(&self.bytes)?,
        })
    }
}

impl PartialEq for Source {
    ghost eq = { bytes_eq };

    ghost laws = { partial_equiv_from_equiv nat_list_eq_equiv };

    fn eq(&self, other: &Source) -> bool {
        self.bytes() == other.bytes()
    }
}

impl Eq for Source {
    ghost laws = { nat_list_eq_equiv };
}

impl Hash for Source {
    ghost hash_input = { fed.slice fed.u8 };

    ghost respects_eq = { λ s t h. ap (fed.slice fed.u8) ((bytes_decides s t).0 h) };

    fn hash<H: Hasher>(&self, state: &mut H) {
        self.bytes().hash(state);
    }
}
