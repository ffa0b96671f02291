//! Names in one block of bytes, by where each ends.

ghost use Rattle.std.specs.Prelude.{◌≡◌, ◌+◌, ◌<◌, ◌++◌, ◌∷◌, [], length, slice_get, slice_index_or, Some, false, IfOk};
ghost use Rattle.std.specs.Prelude.{IfSome, IfNone, OnErr, OnOk};
ghost use Rattle.std.specs.List.{list_any};
ghost use Rattle.std.specs.Str.{bytes_eq};
ghost use Rattle.pf_terms.specs.Atoms.{name_of};

use pf_errors::NoMemory;
use std::alloc::Global;
use std::marker::Model;

/// Names by number. Each costs its bytes and four more.
#[derive(Drop)]
pub struct PackedNames {
    bytes: Vec<u8>,
    ends: Vec<u32>,
}

impl Model for PackedNames {
    ghost use Rattle.std.specs.Prelude.{List, ℕ, length};
    ghost use Rattle.pf_terms.specs.Packed.{cut, AscendsTo};

    ghost Value = { List (List ℕ) };

    ghost view = { λ a. cut a.bytes.items 0 a.ends.items };

    ghost invariant = { λ a. AscendsTo (length a.bytes.items) 0 a.ends.items };
}

/// Where `more` bytes after `before` others end. No table has 2^32 bytes.
fn end_of(before: usize, more: usize) -> Result<u32, NoMemory>
    ensures { IfOk result (λ end. end ≡ before + more) }
{
    let Some(end) = before.checked_add(more) else {
        return Err(NoMemory);
    };
    match u32::try_from(end) {
        Ok(end) => Ok(end),
        Err(_) => Err(NoMemory),
    }
}

/// Where the name of this number begins.
fn start_of(ends: &[u32], index: usize) -> usize
    requires { index < length ends.now }
    ensures { result ≡ slice_index_or (0 ∷ ends.now) index 0 }
{
    if index == 0 {
        return 0;
    }
    ends[index - 1] as usize
}

impl PackedNames {
    /// None yet.
    pub fn new(alloc: Global) -> PackedNames
        ensures { result ≡ [] }
    {
        PackedNames {
            bytes: Vec::new(alloc),
            ends: Vec::new(alloc),
        }
    }

    /// How many there are.
    pub fn len(&self) -> usize
        ensures { result ≡ length self.now }
    {
        self.ends.len()
    }

    /// The name of this number; empty where there is none.
    pub fn name(&self, index: usize) -> &[u8]
        ensures { result.now ≡ name_of self.now index }
    {
        if index >= self.ends.len() {
            return &[];
        }
        let start = start_of(&self.ends, index);
        let end = self.ends[index] as usize;
        &self.bytes[start..end]
    }

    /// The number of this name, where it has one.
    pub fn find(&self, name: &[u8]) -> Option<usize>
        ensures found { IfSome result (λ index. slice_get self.now index ≡ Some name.now) }
        ensures absent { IfNone result (list_any (bytes_eq name.now) self.now ≡ false) }
    {
        for index in 0..self.len() {
            if name == self.name(index) {
                return Some(index);
            }
        }
        None
    }

    /// Adds a name after the others.
    pub fn push(&mut self, name: &[u8]) -> Result<(), NoMemory>
        ensures pushed { OnOk result (self.new ≡ self.old ++ name.now ∷ []) }
        ensures err { OnErr result (self.new ≡ self.old) }
    {
        let end = end_of(self.bytes.len(), name.len())?;
        self.ends.reserve(1)?;
        self.bytes.extend_from_slice(name)?;
        self.ends.push(end)?;
        Ok(())
    }

    /// Gives back the room beyond what is in it. It changes nothing else, and can't fail.
    pub fn shrink_to_fit(&mut self)
        ensures { self.new ≡ self.old }
    {
        self.bytes.shrink_to_fit();
        self.ends.shrink_to_fit();
    }
}
