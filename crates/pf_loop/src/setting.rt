//! What a machine runs in.

use pf_code::Instruction;
use pf_heap::Word;
use pf_terms::AtomTable;
use std::alloc::Global;

/// What a machine runs in: the instructions of its code, the words of the constants, the entries of the functions, the
/// names of the atoms, and the pid of its process.
#[derive(Clone, Copy)]
pub struct Setting<'a> {
    pub alloc: Global,
    pub instructions: &'a [Instruction],
    pub constants: &'a [Word],
    pub entries: &'a [usize],
    pub atoms: &'a AtomTable,
    pub own: u32,
}
