//! Room that goes from a process that ended to one that begins.

ghost use Rattle.std.specs.Prelude.{◌≡◌, ◌++◌, IfOk, OnOk};
ghost use Rattle.pf_stepper.specs.Rooms.{BeginsWith};

use crate::frame::Frame;
use crate::stack::{Stack, cut};
use pf_errors::NoMemory;
use pf_terms::Term;
use smallvec::SmallVec;
use std::alloc::Global;
use std::marker::Model;
use std::mem::size_of;

/// How many slots and frames a machine has room for from the first.
const FIRST: usize = 16;

/// How many bytes of room are kept in each vector. A process that recursed deeply had far more: its memory is given
/// back, since most processes never need as much.
const MOST: usize = 64 * 1024;

const MOST_TERMS: usize = MOST / size_of::<Term>();

const MOST_FRAMES: usize = MOST / size_of::<Frame>();

/// No slot, no operand and no frame, only the room that their vectors have. A contract sees nothing of it: a machine is
/// the same in whatever room it begins.
#[derive(Drop)]
pub struct MachineRoom {
    slots: Vec<Term>,
    operands: Vec<Term>,
    frames: Vec<Frame>,
}

impl Model for MachineRoom {
    ghost use Rattle.std.specs.Prelude.{◌≡◌, []};

    ghost Value = { Unit {0} };

    ghost view = { λ _. tt };

    ghost invariant = { λ r. (r.slots.items ≡ []) × (r.operands.items ≡ []) × (r.frames.items ≡ []) };
}

/// Places arguments after the operands.
fn pass(operands: &mut Vec<Term>, args: SmallVec<Term, 4>) -> Result<(), NoMemory>
    ensures { OnOk result (operands.new.items ≡ operands.old.items ++ args.items) }
{
    operands.reserve(args.len())?;
    for value in args {
        operands.push(value)?;
    }
    Ok(())
}

impl MachineRoom {
    /// No room yet. It takes no memory.
    pub fn new(alloc: Global) -> MachineRoom {
        MachineRoom {
            slots: Vec::new(alloc),
            operands: Vec::new(alloc),
            frames: Vec::new(alloc),
        }
    }

    /// The stacks of a process that begins with these operands.
    pub(crate) fn stacks(self, args: SmallVec<Term, 4>) -> Result<Stack, NoMemory>
        ensures { IfOk result (λ s. BeginsWith args.items s) }
    {
        let MachineRoom {
            mut slots,
            mut operands,
            mut frames,
        } = self;
        slots.reserve(FIRST)?;
        frames.reserve(FIRST)?;
        pass(&mut operands, args)?;
        Ok(Stack {
            env: slots,
            operands,
            frames,
            base: 0,
        })
    }

    /// The room of these stacks, once they are emptied; none where one of them has more than `MOST`.
    pub(crate) fn of(stack: Stack) -> Option<MachineRoom> {
        let Stack {
            env: mut slots,
            mut operands,
            mut frames,
            base: _,
        } = stack;
        if slots.capacity() > MOST_TERMS
            || operands.capacity() > MOST_TERMS
            || frames.capacity() > MOST_FRAMES
        {
            return None;
        }
        cut(&mut slots, 0);
        cut(&mut operands, 0);
        frames.clear();
        Some(MachineRoom {
            slots,
            operands,
            frames,
        })
    }
}
