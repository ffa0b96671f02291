//! The names of the atoms of a module, each by its number.

ghost use Rattle.std.specs.Prelude.{◌≡◌, ◌<◌, ◌≤◌, ◌^◌, length, take, map, position, IfOk, IfSome, IfNone, OnErr, OnOk};
ghost use Rattle.std.specs.Prelude.{slice_get, Some, false, ◌++◌, ◌∷◌, []};
ghost use Rattle.std.specs.List.{list_any};
ghost use Rattle.std.specs.Str.{bytes_eq};
ghost use Rattle.pf_terms.specs.Atoms.{fixed_names, name_of, with_name};
ghost use Rattle.pf_terms.specs.Order.{Distinguishes};

use crate::packed::PackedNames;
use pf_errors::NoMemory;
use std::alloc::Global;
use std::marker::Model;

/// An atom, by its number in a table.
#[derive(Clone, Copy, PartialEq, Eq, Debug)]
pub struct AtomId(pub u32);

impl AtomId {
    pub const TRUE: AtomId = AtomId(0);

    pub const FALSE: AtomId = AtomId(1);

    pub const UNDEFINED: AtomId = AtomId(2);

    pub const NORMAL: AtomId = AtomId(3);

    pub const KILL: AtomId = AtomId(4);

    pub const KILLED: AtomId = AtomId(5);

    pub const NOPROC: AtomId = AtomId(6);

    pub const PROCESS: AtomId = AtomId(7);

    pub const EXIT: AtomId = AtomId(8);

    pub const DOWN: AtomId = AtomId(9);

    pub const BADARG: AtomId = AtomId(10);

    pub const BADARITH: AtomId = AtomId(11);

    pub const BADMATCH: AtomId = AtomId(12);

    pub const CASE_CLAUSE: AtomId = AtomId(13);

    pub const FUNCTION_CLAUSE: AtomId = AtomId(14);

    pub const IF_CLAUSE: AtomId = AtomId(15);

    pub const SYSTEM_LIMIT: AtomId = AtomId(16);

    pub const UNDEF: AtomId = AtomId(17);

    pub const TRAP_EXIT: AtomId = AtomId(18);

    pub const FLUSH: AtomId = AtomId(19);
}

/// The names of the fixed atoms, in the order of the numbers above.
const FIXED: [&str; 20] = [
    "true",
    "false",
    "undefined",
    "normal",
    "kill",
    "killed",
    "noproc",
    "process",
    "EXIT",
    "DOWN",
    "badarg",
    "badarith",
    "badmatch",
    "case_clause",
    "function_clause",
    "if_clause",
    "system_limit",
    "undef",
    "trap_exit",
    "flush",
];

/// The names of atoms by number, each once: the fixed ones, which the system itself makes or asks for, and then those
/// of a module in the order in which they were entered. Only the latter are stored.
#[derive(Drop)]
pub struct AtomTable {
    entered: PackedNames,
}

impl Model for AtomTable {
    ghost use Rattle.std.specs.Prelude.{List, ℕ, ◌++◌};
    ghost use Rattle.pf_terms.specs.Atoms.{fixed_names};
    ghost use Rattle.pf_terms.specs.Numbers.{HasNumbers};

    ghost Value = { List (List ℕ) };

    ghost view = { λ a. fixed_names ++ a.entered };

    ghost invariant = { λ a. HasNumbers (fixed_names ++ a.entered) };
}

/// The name at an index, as bytes.
fn name_at(names: &[&'static str], index: usize) -> &'static [u8]
    requires { index < length names.now }
    ensures { result.now ≡ name_of (map (λ s. s.now) names.now) index }
{
    names[index].as_bytes()
}

/// The index of a name, where it is among these.
fn index_of(names: &[&'static str], name: &[u8]) -> Option<usize>
    ensures { result ≡ position (bytes_eq name.now) (map (λ s. s.now) names.now) }
{
    names.iter().position(|s| name == s.as_bytes())
}

/// The fixed atom of this name, where there is one.
fn find_fixed(name: &[u8]) -> Option<AtomId>
    ensures found { IfSome result (λ a. slice_get fixed_names a.0 ≡ Some name.now) }
    ensures absent { IfNone result (list_any (bytes_eq name.now) fixed_names ≡ false) }
{
    let index = index_of(&FIXED, name)?;
    Some(AtomId(index as u32))
}

impl AtomTable {
    /// The table of the fixed atoms.
    pub fn new(alloc: Global) -> Result<AtomTable, NoMemory>
        ensures { IfOk result (λ t. t ≡ fixed_names) }
    {
        Ok(AtomTable {
            entered: PackedNames::new(alloc),
        })
    }

    /// The name of an atom, as bytes; empty where the table has none of this number.
    pub fn name(&self, atom: AtomId) -> &[u8]
        ensures { result.now ≡ name_of self.now atom.0 }
    {
        let entered = &self.entered;
        let number = atom.0 as usize;
        if number < FIXED.len() {
            return name_at(&FIXED, number);
        }
        entered.name(number - FIXED.len())
    }

    /// How many names there are. No two of them are the same.
    pub fn len(&self) -> usize
        ensures len { result ≡ length self.now }
        ensures distinct { Distinguishes (name_of self.now) (length self.now) }
    {
        FIXED.len() + self.entered.len()
    }

    /// How many of the names are the fixed ones, which come first.
    pub(crate) fn fixed_len(&self) -> usize
        ensures fixed { take result self.now ≡ fixed_names }
        ensures within { result ≤ length self.now }
        ensures few { length self.now ≤ 2 ^ 32 }
    {
        let _entered = &self.entered;
        FIXED.len()
    }

    /// The atom of this name, where the table has it.
    pub fn find(&self, name: &[u8]) -> Option<AtomId>
        ensures found { IfSome result (λ a. slice_get self.now a.0 ≡ Some name.now) }
        ensures absent { IfNone result (list_any (bytes_eq name.now) self.now ≡ false) }
    {
        let entered = &self.entered;
        if let Some(atom) = find_fixed(name) {
            return Some(atom);
        }
        let index = entered.find(name)?;
        Some(AtomId((FIXED.len() + index) as u32))
    }

    /// The fixed atom of this name, where there is one.
    pub(crate) fn find_fixed(&self, name: &[u8]) -> Option<AtomId>
        ensures found { IfSome result (λ a. slice_get self.now a.0 ≡ Some name.now) }
        ensures absent { IfNone result (list_any (bytes_eq name.now) fixed_names ≡ false) }
    {
        let _entered = &self.entered;
        find_fixed(name)
    }

    /// Adds, after the others, a name that the table lacks.
    pub(crate) fn add(&mut self, name: &[u8]) -> Result<AtomId, NoMemory>
        requires room { length self.old < 2 ^ 32 }
        requires new { list_any (bytes_eq name.now) self.old ≡ false }
        ensures number { IfOk result (λ a. a.0 ≡ length self.old) }
        ensures names { OnOk result (self.new ≡ self.old ++ name.now ∷ []) }
        ensures err { OnErr result (self.new ≡ self.old) }
    {
        let number = self.len() as u32;
        self.entered.push(name)?;
        Ok(AtomId(number))
    }

    /// The atom of this name, which is entered last where it is new. It looks at each name before.
    pub fn enter(&mut self, _alloc: Global, name: &[u8]) -> Result<AtomId, NoMemory>
        requires { length self.old < 2 ^ 32 }
        ensures entered { IfOk result (λ a. slice_get self.new a.0 ≡ Some name.now) }
        ensures names { OnOk result (self.new ≡ with_name self.old name.now) }
        ensures err { OnErr result (self.new ≡ self.old) }
    {
        if let Some(atom) = self.find(name) {
            return Ok(atom);
        }
        self.add(name)
    }

    /// Gives back the room that its names have beyond what is in it. It changes nothing else, and can't fail.
    pub fn shrink_to_fit(&mut self)
        ensures { self.new ≡ self.old }
    {
        self.entered.shrink_to_fit();
    }
}
